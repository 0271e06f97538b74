use chain_model::TraceFault;
use std::alloc::AllocError;

/// Why there is no step, or no list of choices.
#[derive(Clone, Copy, Debug)]
pub enum StepFault {
    Trace(TraceFault),
    OutOfMemory(AllocError),
}
