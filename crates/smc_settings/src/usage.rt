use std::alloc::AllocError;
use thiserror::Error;

/// Why words give no settings.
#[derive(Debug, Drop, Error)]
pub enum Usage {
    /// The words are not of the form that is read.
    #[error("the words are no known command with its options")]
    Words,
    /// There was no memory for the settings.
    #[error("out of memory")]
    OutOfMemory(AllocError),
}
