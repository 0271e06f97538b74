ghost use Rattle.std.specs.Prelude.{◌≡◌, ◌<◌, length, IfSome, IfOk};
ghost use Rattle.prism_syntax.specs.Tokens.{kinds};
ghost use Rattle.prism_limits.specs.Places.{Finds};
ghost use Rattle.prism_limits.specs.Arrows.{IsLaterArrow};
ghost use Rattle.prism_limits.specs.ChainWalk.{begins_arrow, place_of};
ghost use Rattle.prism_limits.specs.ArrowWalk.{TellsOperand, TellsLater};

use crate::chains::{Chains, step};
use prism_expression::parse_longest;
use prism_reading::Mismatch;
use prism_syntax::{Kind, Labels, Precedence, Token};
use std::alloc::{AllocError, Global};

/// The index of the first arrow that has another arrow of its chain before it, outside each rewards block.
pub fn later_arrow(
    alloc: Global,
    labels: Labels,
    tokens: &[Token],
) -> Result<Option<usize>, AllocError>
    ensures first { IfOk result (λ found. Finds (IsLaterArrow labels (kinds tokens.now)) found) }
    ensures within { IfOk result (λ found. IfSome found (λ index. index < length tokens.now)) }
{
    let mut chains = Chains {
        inside: false,
        last: None,
        around: Vec::new(alloc),
    };
    let mut index = 0;
    let mut rest = tokens;
    while let [token, after @ ..] = rest {
        if is_later(alloc, labels, tokens, &chains, rest)? {
            return Ok(Some(index));
        }
        step(&mut chains, index, &token.kind)?;
        index += 1;
        rest = after;
    }
    Ok(None)
}

/// Whether the token before the rest is an arrow with another arrow of its chain before it.
fn is_later(
    alloc: Global,
    labels: Labels,
    tokens: &[Token],
    chains: &Chains,
    rest: &[Token],
) -> Result<bool, AllocError>
    requires { IfSome chains.now.last (λ index. index < length tokens.now) }
    ensures { IfOk result (TellsLater labels (place_of chains.now) (kinds tokens.now) (kinds rest.now)) }
{
    if chains.inside || !begins_arrow(rest) {
        return Ok(false);
    }
    match chains.last {
        Some(index) => is_operand(alloc, labels, tokens.split_at(index + 1).1, rest),
        None => Ok(false),
    }
}

/// Whether the tokens before the rest, which begins with an arrow, are one operand of a chain of arrows.
fn is_operand(
    alloc: Global,
    labels: Labels,
    tokens: &[Token],
    rest: &[Token],
) -> Result<bool, AllocError>
    ensures { IfOk result (TellsOperand labels (kinds tokens.now) (kinds rest.now)) }
{
    match parse_longest(alloc, labels, Precedence::Equivalence, tokens) {
        Ok(longest) => Ok(longest.rest.len() == rest.len()),
        Err(Mismatch::NoText { .. }) => Ok(false),
        Err(Mismatch::OutOfMemory(fault)) => Err(fault),
    }
}

/// Whether tokens begin with an arrow.
fn begins_arrow(tokens: &[Token]) -> bool
    ensures { result ≡ begins_arrow (kinds tokens.now) }
{
    match tokens {
        [first, ..] => matches!(first.kind, Kind::Implies),
        [] => false,
    }
}
