use super::models::{Item, model};
use crate::{ExpandFault, expand};
use std::alloc::{AllocError, Global};

/// What is told of a model, beside a name where there is one.
#[derive(Clone, Copy, Debug, PartialEq, Eq)]
pub enum Cause {
    Nothing,
    Duplicate,
    FormulaCycle,
    NoSuchModule,
    RenameLeavesVariable,
    RenameTwice,
    RenameToFormula,
}

/// The declarations of a model, and what is told of it.
pub type Row = (&'static [Item], Cause, &'static str);

/// Whether this is told of the model.
fn is_told(alloc: Global, row: &Row) -> Result<bool, AllocError> {
    let (cause, name) = match expand(alloc, &model(alloc, row.0)?) {
        Ok(_) => return Ok(row.1 == Cause::Nothing),
        Err(ExpandFault::Duplicate { name }) => (Cause::Duplicate, name),
        Err(ExpandFault::FormulaCycle { name }) => (Cause::FormulaCycle, name),
        Err(ExpandFault::NoSuchModule { name }) => (Cause::NoSuchModule, name),
        Err(ExpandFault::RenameLeavesVariable { name }) => (Cause::RenameLeavesVariable, name),
        Err(ExpandFault::RenameTwice { name }) => (Cause::RenameTwice, name),
        Err(ExpandFault::RenameToFormula { name }) => (Cause::RenameToFormula, name),
        Err(_) => return Ok(false),
    };
    Ok(row.1 == cause && row.2.as_bytes() == name.bytes())
}

/// The number of the first row of which something else is told.
pub fn first_wrong(alloc: Global, rows: &[Row]) -> Result<Option<usize>, AllocError> {
    for (number, row) in rows.iter().enumerate() {
        if !is_told(alloc, row)? {
            return Ok(Some(number));
        }
    }
    Ok(None)
}
