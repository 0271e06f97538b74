use smc_num::{NumFault, Text};
use std::alloc::AllocError;
use std::fmt;
use thiserror::Error;

/// What a refusal speaks of, by its number in text order, up to 2^32 - 1.
#[derive(Clone, Copy, Debug, PartialEq, Eq)]
pub enum Item {
    Variable(u32),
    Command(u32),
    Label(u32),
    Property,
}

impl fmt::Display for Item {
    fn fmt<W: fmt::Write>(&self, f: &mut fmt::Formatter<W>) -> fmt::Result {
        match self {
            Item::Variable(number) => write!(f, "variable {number}"),
            Item::Command(number) => write!(f, "command {number}"),
            Item::Label(number) => write!(f, "label {number}"),
            Item::Property => write!(f, "property"),
        }
    }
}

/// Why a text has no type. Of several causes the first in this order is told, and of each kind the first in text order.
#[derive(Debug, Drop, Error)]
pub enum TypeFault {
    /// A name stands for nothing, or for nothing that may stand there.
    #[error("unknown name")]
    UnknownName { name: Text },
    /// A state formula of a property names a label that is not there.
    #[error("unknown label")]
    UnknownLabel { name: Text },
    /// Sorts do not fit the table of forms, or what stands there is not of the sort that it has to be of.
    #[error("wrong type in {item}")]
    WrongType { item: Item },
    /// An expression of constants faults when it is evaluated.
    #[error("no number in {item}")]
    BadNumber { item: Item, fault: NumFault },
    /// The least value of a variable is above its greatest.
    #[error("bad range")]
    BadRange { name: Text },
    /// A variable starts outside its range.
    #[error("initial value outside the range")]
    InitOutside { name: Text },
    /// A command writes a variable of another module.
    #[error("a variable of another module is written")]
    ForeignWrite { name: Text },
    /// A command with an action writes a global.
    #[error("a global is written in a labelled command")]
    GlobalInSync { name: Text },
    /// One update assigns a variable twice.
    #[error("a variable is written twice")]
    WrittenTwice { name: Text },
    /// More modules, variables, commands, or branches of a command than the limits allow.
    #[error("too large")]
    TooLarge,
    /// A property speaks of no state from 0 to the greatest horizon.
    #[error("bad horizon")]
    BadHorizon,
    #[error("out of memory")]
    OutOfMemory(AllocError),
}
