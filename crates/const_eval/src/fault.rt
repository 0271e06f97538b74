use smc_num::{NumFault, Text};
use std::alloc::AllocError;
use thiserror::Error;

/// Why the constants of a model are refused, in the order in which the causes are looked for.
#[derive(Debug, Drop, Error)]
pub enum ConstFault {
    /// A constant has no value in the text, and none is given.
    #[error("a constant without a value")]
    Undefined { name: Text },
    /// A given name is no constant, or else a definition reads a name that is none.
    #[error("a name that is no constant")]
    Unknown { name: Text },
    /// A name is given twice, or has a value in the text besides.
    #[error("a constant that is given twice")]
    GivenTwice { name: Text },
    /// The definition of this constant reaches itself.
    #[error("a constant that is defined by itself")]
    Cycle { name: Text },
    /// The sorts of a definition don't fit the table of forms, or the sort of a value doesn't fit the constant's.
    #[error("a constant with a value of a wrong sort")]
    WrongType { name: Text },
    /// Evaluating a constant faults.
    #[error("a constant without a result")]
    Num { name: Text, fault: NumFault },
    #[error("out of memory")]
    OutOfMemory(AllocError),
}
