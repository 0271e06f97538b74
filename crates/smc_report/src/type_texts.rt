ghost use Rattle.std.specs.Prelude.{◌≡◌, ◌++◌, Some, codes, IfOk};
ghost use Rattle.smc_report.specs.Refusals.{type_row, num_text, item_text, text_in};

use crate::numbers::numbered;
use crate::parts::{fault_in, named};
use smc_num::NumFault;
use std::alloc::{AllocError, Global};
use typecheck::{Item, TypeFault};

/// The text of a refusal of a text that has no type.
pub(crate) fn type_text(alloc: Global, fault: &TypeFault) -> Result<Vec<u8>, AllocError>
    ensures { IfOk result (λ text. text_in (type_row fault.now) ≡ Some text.items) }
{
    match fault {
        TypeFault::UnknownName { name } => named(alloc, "unknown name ", name),
        TypeFault::WrongType { item } => wrong_type(alloc, *item),
        TypeFault::BadRange { name } => named(alloc, "bad range ", name),
        TypeFault::InitOutside { name } => named(alloc, "initial value outside ", name),
        TypeFault::ForeignWrite { name } => named(alloc, "foreign write ", name),
        TypeFault::GlobalInSync { name } => named(alloc, "global in a labelled command ", name),
        TypeFault::WrittenTwice { name } => named(alloc, "written twice ", name),
        TypeFault::TooLarge => Vec::from_slice(alloc, b"too large"),
        TypeFault::BadNumber { item, fault } => num_in_item(alloc, *fault, *item),
        TypeFault::UnknownLabel { name } => named(alloc, "unknown label ", name),
        TypeFault::BadHorizon => Vec::from_slice(alloc, b"bad horizon"),
        TypeFault::OutOfMemory(error) => Err(*error),
    }
}

/// The text that something is of a wrong type.
fn wrong_type(alloc: Global, item: Item) -> Result<Vec<u8>, AllocError>
    ensures { IfOk result (λ text. text.items ≡ codes "wrong type in " ++ item_text item) }
{
    let place = item_text(alloc, item)?;
    let mut text = Vec::from_slice(alloc, b"wrong type in ")?;
    text.extend_from_slice(place.as_slice())?;
    Ok(text)
}

/// The text that something has no number.
fn num_in_item(alloc: Global, fault: NumFault, item: Item) -> Result<Vec<u8>, AllocError>
    ensures { IfOk result (λ text. text.items ≡ num_text fault ++ (codes " in " ++ item_text item)) }
{
    let place = item_text(alloc, item)?;
    let mut text = Vec::from_slice(alloc, b" in ")?;
    text.extend_from_slice(place.as_slice())?;
    fault_in(alloc, fault, text.as_slice())
}

/// What a refusal speaks of, in words.
fn item_text(alloc: Global, item: Item) -> Result<Vec<u8>, AllocError>
    ensures { IfOk result (λ text. text.items ≡ item_text item) }
{
    match item {
        Item::Variable(number) => numbered(alloc, "variable ", number),
        Item::Command(number) => numbered(alloc, "command ", number),
        Item::Label(number) => numbered(alloc, "label ", number),
        Item::Property => Vec::from_slice(alloc, b"property"),
    }
}
