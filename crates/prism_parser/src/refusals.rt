ghost use Rattle.std.specs.Prelude.{◌≡◌, ◌+◌, ◌≤◌, ◌<◌, length};
ghost use Rattle.prism_syntax.specs.Tokens.{kinds};
ghost use Rattle.prism_parser.specs.Refusals.{labels_of};
ghost use Rattle.prism_parser.specs.Steps.{RefusesToken, TellsAllowed, IsArrowRefusal, TellsChains};

use crate::fault::ParseFault;
use crate::places::place_of;
use prism_limits::{TextKind, later_arrow, refused_word, spelled, too_deep};
use prism_syntax::{Kind, Labels, Token};
use std::alloc::Global;

/// Refuses words by name, and nesting that is too deep, among the tokens from the index `start` on.
pub fn allow(
    alloc: Global,
    text: TextKind,
    tokens: &[Token],
    start: usize,
) -> Result<(), ParseFault>
    requires { start ≤ length tokens.now }
    ensures { TellsAllowed text tokens.now start result }
{
    let asked = tokens.split_at(start).1;
    match refused_word(text, asked) {
        Some(index) => refuse(alloc, tokens, start + index),
        None => match too_deep(text, asked) {
            Some(index) => Err(ParseFault::TooDeep {
                at: place_of(tokens, start + index),
            }),
            None => Ok(()),
        },
    }
}

/// Refuses the token with this index by its name.
fn refuse(alloc: Global, tokens: &[Token], index: usize) -> Result<(), ParseFault>
    requires { index < length tokens.now }
    ensures { RefusesToken tokens.now index result }
{
    match tokens.get(index) {
        Some(token) => match spelled(alloc, &token.kind) {
            Ok(word) => Err(ParseFault::Unsupported {
                word,
                at: token.from,
            }),
            Err(fault) => Err(ParseFault::OutOfMemory(fault)),
        },
        None => unreachable!(),
    }
}

/// Refuses the first arrow that has another one of its chain before it, in a prefix of the tokens from the index
/// `start` on.
pub fn refuse_chains(
    alloc: Global,
    text: TextKind,
    tokens: &[Token],
    start: usize,
    prefix: &[Token],
) -> Result<(), ParseFault>
    requires { start + length prefix.now ≤ length tokens.now }
    ensures { TellsChains text tokens.now start (kinds prefix.now) result }
{
    match later_arrow(alloc, labels_of(text), prefix) {
        Ok(found) => match found {
            Some(index) => refuse_arrow(alloc, tokens, start + index),
            None => Ok(()),
        },
        Err(fault) => Err(ParseFault::OutOfMemory(fault)),
    }
}

/// Whether texts of this kind may name labels.
fn labels_of(text: TextKind) -> Labels
    ensures { result ≡ labels_of text }
{
    match text {
        TextKind::Model => Labels::Refused,
        TextKind::Property | TextKind::Nested => Labels::Allowed,
    }
}

/// Refuses the arrow with this index.
fn refuse_arrow(alloc: Global, tokens: &[Token], index: usize) -> Result<(), ParseFault>
    ensures { IsArrowRefusal tokens.now index result }
{
    match spelled(alloc, &Kind::Implies) {
        Ok(word) => Err(ParseFault::Unsupported {
            word,
            at: place_of(tokens, index),
        }),
        Err(fault) => Err(ParseFault::OutOfMemory(fault)),
    }
}
