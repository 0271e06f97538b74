//! A text in memory, with writes that fail where a test asks for it.
ghost use Rattle.std.specs.Prelude.{◌≡◌, ◌↔◌, ◌<◌, ◌≤◌, ◌-◌, ◌++◌, [], Some, length, take, min, IsOk, IfOk, OnErr};
ghost use Rattle.smc_io.specs.Counts.{HasCause, IsToFail, risen};

use crate::failed::Failed;
use crate::failures::Failures;
use crate::sink::Sink;
use std::alloc::{AllocError, Global};
use std::marker::Model;

/// Takes up to `room` bytes in all and up to `most` in a call. The writes, counted from 1, fail where
/// their number was given to `new`, and so does each write where the room is used up. No other fails.
#[derive(Drop)]
pub struct MemSink {
    written: Vec<u8>,
    room: u64,
    most: u64,
    failures: Failures,
    faults: u64,
}

impl Model for MemSink {
    ghost use Rattle.std.specs.Prelude.{◌<◌, ◌≤◌, length, vec_capacity};
    ghost use Rattle.smc_io.specs.Memory.{FailingSink};

    ghost Value = { FailingSink };

    ghost view = { λ s. record {
      written = s.written.items;
      room = s.room;
      most = s.most;
      fail = s.failures.fail;
      calls = s.failures.calls;
      faults = s.faults;
    } };

    ghost invariant = { λ s. (length s.written.items ≤ s.room) × (s.room ≤ vec_capacity s.written)
        × (0 < s.most) };
}

impl MemSink {
    /// Takes all of the room's memory at once, and is the only call on a source or a sink in memory
    /// that takes any.
    pub fn new(alloc: Global, room: u64, most: u64, fail: Vec<u64>) -> Result<MemSink, AllocError>
        requires { 0 < most }
        ensures written { IfOk result (λ sink. ⟦<MemSink as Sink>⟧.written sink ≡ Some []) }
        ensures faults { IfOk result (λ sink. ⟦<MemSink as Sink>⟧.faults sink ≡ 0) }
        ensures room { IfOk result (λ sink. sink.room ≡ room) }
        ensures most { IfOk result (λ sink. sink.most ≡ most) }
        ensures fail { IfOk result (λ sink. sink.fail ≡ fail.items) }
        ensures calls { IfOk result (λ sink. sink.calls ≡ 0) }
    {
        let written = Vec::with_capacity(alloc, room as usize)?;
        Ok(MemSink {
            written,
            room,
            most,
            failures: Failures::new(fail),
            faults: 0,
        })
    }

    /// What was written.
    pub fn bytes(&self) -> &[u8]
        ensures { Some result.now ≡ ⟦<MemSink as Sink>⟧.written self.now }
    {
        self.written.as_slice()
    }
}

impl Sink for MemSink {
    ghost use Rattle.std.specs.Prelude.{Some};

    ghost written = { λ s. Some s.written };

    ghost faults = { λ s. s.faults };

    fn write(&mut self, piece: &[u8]) -> Result<usize, Failed>
        // It fails exactly where the call is to fail or the room is used up, and takes as much as it may.
        ensures answer { IsOk result ↔ ((IsToFail self.old.fail self.old.calls → ⊥)
            × (length self.old.written < self.old.room)) }
        ensures taken { IfOk result (λ count. count
            ≡ min (length piece.now) (min self.old.most (self.old.room - length self.old.written))) }
        ensures written_kept { OnErr result (self.new.written ≡ self.old.written) }
        ensures room { self.new.room ≡ self.old.room }
        ensures most { self.new.most ≡ self.old.most }
        ensures fail { self.new.fail ≡ self.old.fail }
        ensures calls { self.new.calls ≡ risen self.old.calls }
        ensures fault { OnErr result (self.new.faults ≡ risen self.old.faults) }

        ensures cause { HasCause self.old.faults self.new.faults result }
        ensures count { IfOk result (λ count. count ≤ length piece.now) }
        ensures some { IfOk result (λ count. 0 < length piece.now → 0 < count) }
        ensures written { IfOk result (λ count. self.new.written ≡ self.old.written ++ take count piece.now) }
    {
        let fails = self.failures.next_fails();
        let left = self.room - self.written.len() as u64;
        if fails || left == 0 {
            self.faults = self.faults.saturating_add(1);
            return Err(Failed);
        }
        let count = piece.len().min(self.most.min(left) as usize);
        self.written.extend_from_slice(&piece[..count]).unwrap();
        Ok(count)
    }
}
