ghost use Rattle.std.specs.Prelude.{◌+◌, ◌<◌, ◌^◌, ◌≡◌, true, length, MatchOption};
ghost use Rattle.prism_syntax.specs.Precedence.{takes};
ghost use Rattle.prism_reading.specs.Reading.{Answers, Anything, Parses, Fails};
ghost use Rattle.prism_expression.specs.Parts.{IsArguments, IsCalled, BeginsWith, BeginsWithout};

use crate::parsing::parse_longest;
use crate::trees::preceded;
use prism_reading::{Mismatch, accept};
use prism_syntax::{Expr, Func, Kind, Labels, Precedence, Token, takes};
use sqlite_items::Items;
use std::alloc::Global;

/// The arguments of a call, from its `(` on, and the tokens after its `)`.
#[cycle(grammar)]
pub fn call<'a>(
    alloc: Global,
    labels: Labels,
    function: Func,
    tokens: &'a [Token],
) -> Result<(Items<Expr>, &'a [Token]), Mismatch>
    ensures { Answers
        (λ r. Parses (IsCalled labels function) Anything tokens.now r.0 r.1.now (length r.1.now))
        (Fails (IsCalled labels function) Anything tokens.now)
        result }
{
    match accept(tokens, &Kind::Open) {
        Some(opened) => arguments(alloc, labels, function, opened),
        None => Err(Mismatch::NoText { left: tokens.len() }),
    }
}

/// The arguments of a call, from the token after its `(` on, and the tokens after its `)`.
#[cycle(grammar)]
fn arguments<'a>(
    alloc: Global,
    labels: Labels,
    function: Func,
    tokens: &'a [Token],
) -> Result<(Items<Expr>, &'a [Token]), Mismatch>
    ensures { Answers
        (λ r. Parses (IsArguments labels function) Anything tokens.now r.0 r.1.now (length r.1.now))
        (Fails (IsArguments labels function) Anything tokens.now)
        result }
{
    let first = parse_longest(alloc, labels, Precedence::Conditional, tokens)?;
    let mut rest = first.rest;
    let mut left = first.left;
    let mut more = Items::new(alloc);
    while let Some(after) = accept_comma(function, more.len(), rest) {
        match parse_longest(alloc, labels, Precedence::Conditional, after) {
            Ok(argument) => {
                more.push(argument.tree)?;
                rest = argument.rest;
                left = left.min(argument.left);
            }
            Err(Mismatch::NoText { left: wrong }) => {
                return Err(Mismatch::NoText {
                    left: left.min(wrong),
                });
            }
            Err(Mismatch::OutOfMemory(fault)) => return Err(Mismatch::OutOfMemory(fault)),
        }
    }
    match accept_close(function, more.len(), rest) {
        Some(after) => Ok((preceded(alloc, first.tree, more)?, after)),
        None => Err(Mismatch::NoText { left }),
    }
}

/// The tokens after a first comma, where the function may take more arguments than so many after its first.
fn accept_comma(function: Func, more: usize, tokens: &[Token]) -> Option<&[Token]>
    requires { more + length tokens.now < 2 ^ 64 }
    ensures { MatchOption result
        (BeginsWithout (λ t. (t ≡ Kind.Comma) × (takes function (more + 1) ≡ true)) tokens.now)
        (λ after. BeginsWith (λ t. (t ≡ Kind.Comma) × (takes function (more + 1) ≡ true)) tokens.now after.now) }
{
    let (first, after) = tokens.split_first()?;
    match first.kind {
        Kind::Comma if takes(function, more + 1) => Some(after),
        _ => None,
    }
}

/// The tokens after a first `)`, where the function takes so many arguments after its first.
fn accept_close(function: Func, more: usize, tokens: &[Token]) -> Option<&[Token]>
    ensures { MatchOption result
        (BeginsWithout (λ t. (t ≡ Kind.Close) × (takes function more ≡ true)) tokens.now)
        (λ after. BeginsWith (λ t. (t ≡ Kind.Close) × (takes function more ≡ true)) tokens.now after.now) }
{
    let (first, after) = tokens.split_first()?;
    match first.kind {
        Kind::Close if takes(function, more) => Some(after),
        _ => None,
    }
}
