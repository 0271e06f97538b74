//! Files in memory that never fail.
ghost use Rattle.std.specs.Prelude.{◌≡◌, ◌<◌, ◌≤◌, [], None, Some, length, take, min, IsOk, IfOk, string_bytes};
ghost use Rattle.std.specs.Io.KnownBytes.{Consumes};
ghost use Rattle.smc_io.specs.Files.{bytes_at, names_and_bytes};
ghost use Rattle.smc_io.specs.Counts.{risen};

use crate::failed::Failed;
use crate::shelf::Shelf;
use crate::source::Source;
use std::marker::Model;

/// Files in memory. No call fails, and an absent name is an empty file.
#[derive(Drop)]
pub struct SureFiles {
    shelf: Shelf,
}

impl Model for SureFiles {
    ghost use Rattle.smc_io.specs.Memory.{Shelved};

    ghost Value = { Shelved };

    ghost view = { λ s. s.shelf };
}

impl SureFiles {
    /// These files, of which the first of a name counts. It takes no memory.
    pub fn new(files: Vec<(String, Vec<u8>)>) -> SureFiles
        ensures files { ⟦<SureFiles as Source>⟧.files result ≡ Some (names_and_bytes files.items) }
        ensures rest { ⟦<SureFiles as Source>⟧.rest result ≡ Some [] }
        ensures faults { ⟦<SureFiles as Source>⟧.faults result ≡ 0 }
        ensures opened { ⟦<SureFiles as Source>⟧.opened result ≡ None }
        ensures opens { ⟦<SureFiles as Source>⟧.opens result ≡ 0 }
    {
        SureFiles {
            shelf: Shelf::new(files),
        }
    }
}

impl Source for SureFiles {
    ghost use Rattle.std.specs.Prelude.{Some};

    ghost files = { λ s. Some s.files };

    ghost rest = { λ s. Some s.rest };

    ghost faults = { λ _. 0 };

    ghost opened = { λ s. s.opened };

    ghost opens = { λ s. s.opens };

    fn open(&mut self, name: String) -> Result<(), Failed>
        ensures answer { IsOk result }
        ensures files { self.new.files ≡ self.old.files }
        ensures rest { self.new.rest ≡ bytes_at self.old.files (string_bytes name) }
        ensures opened { self.new.opened ≡ Some (string_bytes name) }
        ensures opens { self.new.opens ≡ risen self.old.opens }
    {
        self.shelf.open(name);
        Ok(())
    }

    fn read(&mut self, into: &mut [u8]) -> Result<usize, Failed>
        ensures answer { IsOk result }
        ensures whole { IfOk result (λ count. count ≡ min (length self.old.rest) (length into.old)) }
        ensures files { self.new.files ≡ self.old.files }
        ensures count { IfOk result (λ count. count ≤ length into.new) }
        ensures rest { IfOk result
            (λ count. Consumes (Some self.old.rest) (Some self.new.rest) (take count into.new)) }
        ensures end { IfOk result (λ count. count ≡ 0 → 0 < length into.new → self.new.rest ≡ []) }
        ensures opened { self.new.opened ≡ self.old.opened }
        ensures opens { self.new.opens ≡ self.old.opens }
    {
        Ok(self.shelf.read(into))
    }
}
