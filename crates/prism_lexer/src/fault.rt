use std::alloc::AllocError;
use thiserror::Error;

/// Why a text is not cut into tokens.
#[derive(Debug, Drop, Error)]
pub enum LexFault {
    /// The most tokens that a text may have were read, and another one follows.
    #[error("too many tokens")]
    TooMany,
    /// No token begins at this place.
    #[error("bad byte at {at}")]
    BadByte { at: u32 },
    /// The number at this place is outside the limits of numbers.
    #[error("number too wide at {at}")]
    NumberTooWide { at: u32 },
    #[error("out of memory")]
    OutOfMemory(AllocError),
}
