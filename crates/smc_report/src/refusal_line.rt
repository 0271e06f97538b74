ghost use Rattle.std.specs.Prelude.{◌≡◌, Some, IfOk};
ghost use Rattle.smc_report.specs.Refusals.{long_row, row_of, text_in, row_line, refusal_line};

use crate::family_texts::{const_text, expand_text, lex_text, parse_text};
use crate::reason::{Reason, Subject};
use crate::refused::Refusal;
use crate::settings_texts::settings_text;
use crate::type_texts::type_text;
use std::alloc::{AllocError, Global};

/// The line of a refusal, with its number and its text.
#[tactic(auto, using(crate::proofs::RowLemmas::line_of_row))]
pub fn refusal(alloc: Global, fault: &Refusal) -> Result<Vec<u8>, AllocError>
    ensures { IfOk result (λ line. refusal_line fault.now ≡ Some line.items) }
{
    let text = text_of(alloc, fault.reason())?;
    refused_line(alloc, fault.number(), text.as_slice())
}

/// The line of this number and this text.
fn refused_line(alloc: Global, number: u32, text: &[u8]) -> Result<Vec<u8>, AllocError>
    ensures { IfOk result (λ line. line.items ≡ row_line (record { number = number; text = text.now })) }
{
    let head = format!(in alloc; "refused {number}: ")?;
    let mut line = head.into_bytes();
    line.extend_from_slice(text)?;
    line.extend_from_slice(b"\n")?;
    Ok(line)
}

/// The text of the refusal for this reason.
fn text_of(alloc: Global, reason: &Reason) -> Result<Vec<u8>, AllocError>
    ensures { IfOk result (λ text. text_in (row_of reason.now) ≡ Some text.items) }
{
    match reason {
        Reason::Usage => Vec::from_slice(alloc, b"usage"),
        Reason::ReadFault => Vec::from_slice(alloc, b"read fault"),
        Reason::TooLong(subject) => Vec::from_slice(alloc, long_text(*subject)),
        Reason::Lex(_, fault) => lex_text(alloc, fault),
        Reason::Parse(_, fault) => parse_text(alloc, fault),
        Reason::Expand(_, fault) => expand_text(alloc, fault),
        Reason::Const(fault) => const_text(alloc, fault),
        Reason::Type(_, fault) => type_text(alloc, fault),
        Reason::Settings(fault) => Ok(settings_text(alloc, fault)?.into_bytes()),
    }
}

/// The text that one of the texts is too long.
fn long_text(subject: Subject) -> &'static [u8]
    ensures { text_in (long_row subject) ≡ Some result.now }
{
    match subject {
        Subject::Model => b"model too long",
        Subject::Property => b"property too long",
    }
}
