//! Where texts are written to.
ghost use Rattle.std.specs.Prelude.{ℕ, ◌<◌, ◌≤◌, List, length, take, Option, IfOk, OnErr};
ghost use Rattle.std.specs.Io.KnownBytes.{Appends, Keeps};
ghost use Rattle.smc_io.specs.Counts.{HasCause};

use crate::failed::Failed;

/// A place that takes bytes in pieces.
///
/// Contracts see the bytes that were written, where the sink tells them, and how many calls failed.
pub trait Sink {
    // The bytes that were written, where they are told.
    ghost written: { Self → Option (List ℕ) };

    // How many calls failed, up to 2^64 - 1.
    ghost faults: { Self → ℕ };

    /// Takes bytes from the front of the piece, and answers how many: at least 1 of a piece that
    /// isn't empty. A failed write takes none.
    fn write(&mut self, piece: &[u8]) -> Result<usize, Failed>
        ensures cause { HasCause (faults self.old) (faults self.new) result }
        ensures count { IfOk result (λ count. count ≤ length piece.now) }
        ensures some { IfOk result (λ count. 0 < length piece.now → 0 < count) }
        ensures written { IfOk result
            (λ count. Appends (written self.old) (written self.new) (take count piece.now)) }
        ensures written_kept { OnErr result (Keeps (written self.old) (written self.new)) };
}
