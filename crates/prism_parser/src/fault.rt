use smc_num::Text;
use std::alloc::AllocError;
use thiserror::Error;

/// Why tokens are refused. The places are those of bytes in the text.
#[derive(Debug, Drop, Error)]
pub enum ParseFault {
    /// A word that this profile of the language refuses by name, or the second arrow of a chain.
    #[error("a word that is not supported at {at}")]
    Unsupported { word: Text, at: u32 },
    /// Too many parentheses are open, or signs stand in a row, or conditionals in one statement.
    #[error("too deep at {at}")]
    TooDeep { at: u32 },
    /// The first token with which the tokens so far begin no text of the grammar, or the end of the text.
    #[error("not in the grammar at {at}")]
    NotInGrammar { at: u32 },
    #[error("out of memory")]
    OutOfMemory(AllocError),
}
