//! Files in memory, with calls that fail where a test asks for it.
ghost use Rattle.std.specs.Prelude.{◌≡◌, ◌↔◌, ◌<◌, ◌≤◌, [], None, Some, length, take, min, IsOk, IfOk, OnOk, OnErr, string_bytes};
ghost use Rattle.std.specs.Io.KnownBytes.{Consumes};
ghost use Rattle.smc_io.specs.Files.{HasFile, bytes_at, names_and_bytes};
ghost use Rattle.smc_io.specs.Counts.{HasCause, IsToFail, risen};

use crate::failed::Failed;
use crate::failures::Failures;
use crate::shelf::Shelf;
use crate::source::Source;
use std::marker::Model;

/// Files in memory. The calls of `open` and `read`, counted together from 1, fail where their number
/// was given to `new`, and so does each open of an absent name. No other call fails.
#[derive(Drop)]
pub struct MemFiles {
    shelf: Shelf,
    failures: Failures,
    faults: u64,
}

impl Model for MemFiles {
    ghost use Rattle.smc_io.specs.Memory.{FailingFiles};

    ghost Value = { FailingFiles };

    ghost view = { λ m. record {
      files = m.shelf.files;
      rest = m.shelf.rest;
      opened = m.shelf.opened;
      opens = m.shelf.opens;
      fail = m.failures.fail;
      calls = m.failures.calls;
      faults = m.faults;
    } };
}

impl MemFiles {
    /// These files, of which the first of a name counts, and the numbers of the calls that are to
    /// fail, counted from 1. It takes no memory.
    pub fn new(files: Vec<(String, Vec<u8>)>, fail: Vec<u64>) -> MemFiles
        ensures files { ⟦<MemFiles as Source>⟧.files result ≡ Some (names_and_bytes files.items) }
        ensures rest { ⟦<MemFiles as Source>⟧.rest result ≡ Some [] }
        ensures faults { ⟦<MemFiles as Source>⟧.faults result ≡ 0 }
        ensures opened { ⟦<MemFiles as Source>⟧.opened result ≡ None }
        ensures opens { ⟦<MemFiles as Source>⟧.opens result ≡ 0 }
        ensures fail { result.fail ≡ fail.items }
        ensures calls { result.calls ≡ 0 }
    {
        MemFiles {
            shelf: Shelf::new(files),
            failures: Failures::new(fail),
            faults: 0,
        }
    }
}

impl Source for MemFiles {
    ghost use Rattle.std.specs.Prelude.{Some};

    ghost files = { λ m. Some m.files };

    ghost rest = { λ m. Some m.rest };

    ghost faults = { λ m. m.faults };

    ghost opened = { λ m. m.opened };

    ghost opens = { λ m. m.opens };

    fn open(&mut self, name: String) -> Result<(), Failed>
        // It fails exactly where the call is to fail or no file has the name.
        ensures answer { IsOk result ↔ ((IsToFail self.old.fail self.old.calls → ⊥)
            × HasFile self.old.files (string_bytes name)) }
        ensures rest { OnOk result (self.new.rest ≡ bytes_at self.old.files (string_bytes name)) }
        ensures rest_kept { OnErr result (self.new.rest ≡ self.old.rest) }
        ensures fail { self.new.fail ≡ self.old.fail }
        ensures calls { self.new.calls ≡ risen self.old.calls }
        ensures fault { OnErr result (self.new.faults ≡ risen self.old.faults) }

        ensures cause { HasCause self.old.faults self.new.faults result }
        ensures files { self.new.files ≡ self.old.files }
        ensures opened { self.new.opened ≡ Some (string_bytes name) }
        ensures opens { self.new.opens ≡ risen self.old.opens }
    {
        let fails = self.failures.next_fails();
        if fails || !self.shelf.has(name.as_str()) {
            self.shelf.keep_name(name);
            self.faults = self.faults.saturating_add(1);
            return Err(Failed);
        }
        self.shelf.open(name);
        Ok(())
    }

    fn read(&mut self, into: &mut [u8]) -> Result<usize, Failed>
        // It fails exactly where the call is to fail, and gives as many bytes as there are and fit.
        ensures answer { IsOk result ↔ (IsToFail self.old.fail self.old.calls → ⊥) }
        ensures whole { IfOk result (λ count. count ≡ min (length self.old.rest) (length into.old)) }
        ensures rest_kept { OnErr result (self.new.rest ≡ self.old.rest) }
        ensures fail { self.new.fail ≡ self.old.fail }
        ensures calls { self.new.calls ≡ risen self.old.calls }
        ensures fault { OnErr result (self.new.faults ≡ risen self.old.faults) }

        ensures cause { HasCause self.old.faults self.new.faults result }
        ensures files { self.new.files ≡ self.old.files }
        ensures count { IfOk result (λ count. count ≤ length into.new) }
        ensures rest { IfOk result
            (λ count. Consumes (Some self.old.rest) (Some self.new.rest) (take count into.new)) }
        ensures end { IfOk result (λ count. count ≡ 0 → 0 < length into.new → self.new.rest ≡ []) }
        ensures opened { self.new.opened ≡ self.old.opened }
        ensures opens { self.new.opens ≡ self.old.opens }
    {
        if self.failures.next_fails() {
            self.faults = self.faults.saturating_add(1);
            return Err(Failed);
        }
        Ok(self.shelf.read(into))
    }
}
