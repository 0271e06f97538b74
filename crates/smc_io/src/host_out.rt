//! The host's standard output, through std.
ghost use Rattle.std.specs.Prelude.{◌≡◌};

use crate::failed::Failed;
use crate::sink::Sink;

/// Standard output, unbuffered. What was written is not told; each Err of std is a fault.
///
/// This is a trusted edge: that the bytes reach the output is the host's word.
pub struct HostOut<'a, R: Print> {
    rt: &'a R,
    faults: u64,
}

impl<'a, R: Print> HostOut<'a, R> {
    /// It takes no memory.
    pub fn new(rt: &'a R) -> HostOut<'a, R>
        ensures faults { ⟦<HostOut<'a, R> as Sink>⟧.faults result ≡ 0 }
    {
        HostOut { rt, faults: 0 }
    }
}

impl<'a, R: Print> Drop for HostOut<'a, R> {
    fn drop(self) {
        let HostOut { rt: _, faults: _ } = self;
    }
}

impl<'a, R: Print> Sink for HostOut<'a, R> {
    ghost use Rattle.std.specs.Prelude.{None};

    ghost written = { λ _. None };

    ghost faults = { λ h. h.faults };

    /// That std takes none of a piece that isn't empty is a fault too.
    fn write(&mut self, piece: &[u8]) -> Result<usize, Failed> {
        match self.rt.write_some(piece) {
            Ok(count) if count > 0 || piece.is_empty() => Ok(count),
            _ => {
                self.faults = self.faults.saturating_add(1);
                Err(Failed)
            }
        }
    }
}
