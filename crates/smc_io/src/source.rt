//! Where files are read from.
ghost use Rattle.std.specs.Prelude.{◌≡◌, ℕ, ◌<◌, ◌≤◌, List, length, take, Option, IfOk, OnOk, OnErr, string_bytes};
ghost use Rattle.std.specs.Io.KnownBytes.{Consumes, IsAtEnd, Keeps};
ghost use Rattle.smc_io.specs.Files.{Named};
ghost use Rattle.smc_io.specs.Counts.{HasCause, risen};
ghost use Rattle.smc_io.specs.Bytes.{Opens};

use crate::failed::Failed;

/// Files that are opened by name, one at a time, and read from the front.
///
/// Contracts see the files, what is left to read of the opened file, how many calls failed, the name
/// last handed to `open`, and how many opens there were. A source need not tell its files and bytes.
/// The files never change.
pub trait Source {
    // The files, where they are told. The first file of a name counts.
    ghost files: { Self → Option Named };

    // What is left to read of the opened file, where it is told.
    ghost rest: { Self → Option (List ℕ) };

    // How many calls failed, up to 2^64 - 1.
    ghost faults: { Self → ℕ };

    // The name last handed to `open`.
    ghost opened: { Self → Option (List ℕ) };

    // How many opens there were, failed or not, up to 2^64 - 1.
    ghost opens: { Self → ℕ };

    /// Opens the first file of this name, of which then nothing is read yet. An absent name is an
    /// empty file, unless the source fails it. A failed open leaves what was left to read.
    fn open(&mut self, name: String) -> Result<(), Failed>
        ensures cause { HasCause (faults self.old) (faults self.new) result }
        ensures files { files self.new ≡ files self.old }
        ensures rest { OnOk result (Opens (files self.old) (string_bytes name) (rest self.new)) }
        ensures rest_kept { OnErr result (Keeps (rest self.old) (rest self.new)) }
        ensures opened { opened self.new ≡ Some (string_bytes name) }
        ensures opens { opens self.new ≡ risen (opens self.old) };

    /// Reads the next bytes of the opened file into the front of `into`, and answers how many they
    /// are. It answers 0 for a slice that isn't empty only at the file's end.
    fn read(&mut self, into: &mut [u8]) -> Result<usize, Failed>
        ensures cause { HasCause (faults self.old) (faults self.new) result }
        ensures files { files self.new ≡ files self.old }
        ensures count { IfOk result (λ count. count ≤ length into.new) }
        ensures rest { IfOk result
            (λ count. Consumes (rest self.old) (rest self.new) (take count into.new)) }
        ensures end { IfOk result
            (λ count. count ≡ 0 → 0 < length into.new → IsAtEnd (rest self.new)) }
        ensures rest_kept { OnErr result (Keeps (rest self.old) (rest self.new)) }
        ensures opened { opened self.new ≡ opened self.old }
        ensures opens { opens self.new ≡ opens self.old };
}
