ghost use Rattle.std.specs.Prelude.{◌≡◌, ◌++◌, Some, codes, decimal, IfOk};
ghost use Rattle.smc_report.specs.Refusals.{lex_row, parse_row, expand_row, const_row, num_text, text_in};

use crate::numbers::numbered;
use crate::parts::{fault_in, named};
use const_eval::ConstFault;
use module_expand::ExpandFault;
use prism_lexer::LexFault;
use prism_parser::ParseFault;
use smc_num::{NumFault, Text};
use std::alloc::{AllocError, Global};

/// The text of a refusal of a text that is not cut into tokens.
pub(crate) fn lex_text(alloc: Global, fault: &LexFault) -> Result<Vec<u8>, AllocError>
    ensures { IfOk result (λ text. text_in (lex_row fault.now) ≡ Some text.items) }
{
    match fault {
        LexFault::BadByte { at } => numbered(alloc, "bad byte at ", *at),
        LexFault::NumberTooWide { at } => numbered(alloc, "number too wide at ", *at),
        LexFault::TooMany => Vec::from_slice(alloc, b"too many tokens"),
        LexFault::OutOfMemory(error) => Err(*error),
    }
}

/// The text of a refusal of tokens.
pub(crate) fn parse_text(alloc: Global, fault: &ParseFault) -> Result<Vec<u8>, AllocError>
    ensures { IfOk result (λ text. text_in (parse_row fault.now) ≡ Some text.items) }
{
    match fault {
        ParseFault::Unsupported { word, at } => unsupported(alloc, word, *at),
        ParseFault::TooDeep { at } => numbered(alloc, "too deep at ", *at),
        ParseFault::NotInGrammar { at } => numbered(alloc, "not in the grammar at ", *at),
        ParseFault::OutOfMemory(error) => Err(*error),
    }
}

/// The text that a word is not supported at this place.
fn unsupported(alloc: Global, word: &Text, at: u32) -> Result<Vec<u8>, AllocError>
    ensures { IfOk result (λ text. text.items ≡
        codes "unsupported " ++ (word.now ++ (codes " at " ++ decimal at))) }
{
    let place = numbered(alloc, " at ", at)?;
    let mut text = named(alloc, "unsupported ", word)?;
    text.extend_from_slice(place.as_slice())?;
    Ok(text)
}

/// The text of a refusal of a model that has no flat text, or of a property that is too large.
pub(crate) fn expand_text(alloc: Global, fault: &ExpandFault) -> Result<Vec<u8>, AllocError>
    ensures { IfOk result (λ text. text_in (expand_row fault.now) ≡ Some text.items) }
{
    match fault {
        ExpandFault::Duplicate { name } => named(alloc, "duplicate ", name),
        ExpandFault::FormulaCycle { name } => named(alloc, "formula cycle ", name),
        ExpandFault::NoSuchModule { name } => named(alloc, "no such module ", name),
        ExpandFault::RenameLeavesVariable { name } => named(alloc, "variable not renamed ", name),
        ExpandFault::RenameTwice { name } => named(alloc, "renamed twice ", name),
        ExpandFault::TooLarge => Vec::from_slice(alloc, b"too large after expansion"),
        ExpandFault::RenameToFormula { name } => named(alloc, "renamed to formula ", name),
        ExpandFault::OutOfMemory(error) => Err(*error),
    }
}

/// The text of a refusal of constants.
pub(crate) fn const_text(alloc: Global, fault: &ConstFault) -> Result<Vec<u8>, AllocError>
    ensures { IfOk result (λ text. text_in (const_row fault.now) ≡ Some text.items) }
{
    match fault {
        ConstFault::Undefined { name } => named(alloc, "undefined constant ", name),
        ConstFault::Unknown { name } => named(alloc, "unknown constant ", name),
        ConstFault::GivenTwice { name } => named(alloc, "constant given twice ", name),
        ConstFault::Cycle { name } => named(alloc, "constant cycle ", name),
        ConstFault::WrongType { name } => named(alloc, "wrong type of constant ", name),
        ConstFault::Num { name, fault } => num_in_constant(alloc, *fault, name),
        ConstFault::OutOfMemory(error) => Err(*error),
    }
}

/// The text that a constant has no result.
fn num_in_constant(alloc: Global, fault: NumFault, name: &Text) -> Result<Vec<u8>, AllocError>
    ensures { IfOk result (λ text. text.items ≡ num_text fault ++ (codes " in constant " ++ name.now)) }
{
    let place = named(alloc, " in constant ", name)?;
    fault_in(alloc, fault, place.as_slice())
}
