use smc_report::{Reason, Refusal};
use std::alloc::AllocError;

/// Why a text gives nothing.
#[derive(Debug, Drop)]
pub enum Stop {
    /// The text is refused.
    Refused(Refusal),
    OutOfMemory(AllocError),
}

impl Stop {
    ghost use Rattle.front_end.specs.Stops.{StopsFor};

    /// The stop for this reason, which may be want of memory.
    pub(crate) fn new(reason: Reason) -> Stop
        ensures { StopsFor reason result }
    {
        match Refusal::new(reason) {
            Ok(refusal) => Stop::Refused(refusal),
            Err(error) => Stop::OutOfMemory(error),
        }
    }
}
