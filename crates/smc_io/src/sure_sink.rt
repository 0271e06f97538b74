//! A sink that counts bytes and never fails.
ghost use Rattle.std.specs.Prelude.{◌≡◌, ◌+◌, ◌-◌, ◌^◌, Ok, length, min};

use crate::failed::Failed;
use crate::sink::Sink;
use std::marker::Model;

/// Takes every byte, and keeps only how many it took, up to 2^64 - 1.
#[derive(Drop)]
pub struct SureSink {
    taken: u64,
}

impl Model for SureSink {
    ghost use Rattle.std.specs.Prelude.{ℕ};

    ghost Value = { ℕ };

    ghost view = { λ s. s.taken };
}

impl SureSink {
    /// It took nothing yet, and takes no memory.
    pub fn new() -> SureSink
        ensures taken { result ≡ 0 }
        ensures faults { ⟦<SureSink as Sink>⟧.faults result ≡ 0 }
    {
        SureSink { taken: 0 }
    }

    /// How many bytes it took.
    pub fn taken(&self) -> u64
        ensures { result ≡ self.now }
    {
        self.taken
    }
}

impl Sink for SureSink {
    ghost use Rattle.std.specs.Prelude.{None};

    ghost written = { λ _. None };

    ghost faults = { λ _. 0 };

    fn write(&mut self, piece: &[u8]) -> Result<usize, Failed>
        ensures answer { result ≡ Ok (length piece.now) }
        ensures taken { self.new ≡ min (self.old + length piece.now) (2 ^ 64 - 1) }
    {
        self.taken = self.taken.saturating_add(piece.len() as u64);
        Ok(piece.len())
    }
}
