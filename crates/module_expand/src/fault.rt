use smc_num::Text;
use std::alloc::AllocError;
use thiserror::Error;

/// Why a model has no flat text, in the order in which causes are looked for.
#[derive(Debug, Drop, Error)]
pub enum ExpandFault {
    #[error("a name is declared twice")]
    Duplicate { name: Text },
    #[error("a formula reaches itself")]
    FormulaCycle { name: Text },
    #[error("the source of a renaming is no module that is written out")]
    NoSuchModule { name: Text },
    #[error("a renaming leaves out a variable of its source")]
    RenameLeavesVariable { name: Text },
    #[error("a renaming has a left name twice")]
    RenameTwice { name: Text },
    #[error("a renaming gives the name of a formula")]
    RenameToFormula { name: Text },
    #[error("the expressions are too many or nested too deep")]
    TooLarge,
    #[error("out of memory")]
    OutOfMemory(AllocError),
}
