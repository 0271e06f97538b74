ghost use Rattle.std.specs.Prelude.{◌≡◌, ◌∷◌, List, MatchOption, length, Some};
ghost use Rattle.prism_syntax.specs.declared.tokens.Kind.{Kind};
ghost use Rattle.prism_syntax.specs.Tokens.{kinds};
ghost use Rattle.prism_syntax.specs.Models.{IsConst};
ghost use Rattle.prism_reading.specs.Reading.{Answers, Anything, Parses, Fails};
ghost use Rattle.prism_model.specs.Parts.{IsSorted, IsSortWord};

use crate::optional::optional;
use prism_reading::{Mismatch, expect, name};
use prism_syntax::{ConstText, Kind, SortWord, Token};
use smc_num::Text;
use std::alloc::Global;

/// The constant that begins the tokens, and the tokens after it.
pub fn constant<'a>(
    alloc: Global,
    tokens: &'a [Token],
) -> Result<(ConstText, &'a [Token]), Mismatch>
    ensures { Answers
        (λ r. Parses IsConst Anything tokens.now r.0 r.1.now (length r.1.now))
        (Fails IsConst Anything tokens.now)
        result }
{
    let rest = expect(tokens, &Kind::Const)?;
    let ((sort, name), rest) = sorted_name(alloc, rest)?;
    let (value, rest) = optional(alloc, rest, &Kind::Equal)?;
    Ok((ConstText { name, sort, value }, rest))
}

/// The name that begins the tokens, with the sort before it, which is `int` where none is written.
fn sorted_name<'a>(
    alloc: Global,
    tokens: &'a [Token],
) -> Result<((SortWord, Text), &'a [Token]), Mismatch>
    ensures { Answers
        (λ r. Parses IsSorted Anything tokens.now r.0 r.1.now (length r.1.now))
        (Fails IsSorted Anything tokens.now)
        result }
{
    match sort(tokens) {
        Some((sort, rest)) => {
            let (name, rest) = name(alloc, rest)?;
            Ok(((sort, name), rest))
        }
        None => {
            let (name, rest) = name(alloc, tokens)?;
            Ok(((SortWord::Int, name), rest))
        }
    }
}

/// The sort that begins the tokens, if one does, and the tokens after it.
fn sort<'a>(tokens: &'a [Token]) -> Option<(SortWord, &'a [Token])>
    ensures { MatchOption result
        (Fails IsSortWord Anything tokens.now (length tokens.now))
        (λ r. Parses IsSortWord Anything tokens.now r.0 r.1.now (length r.1.now)) }
{
    match tokens {
        [] => None,
        [first, rest @ ..] => match first.kind {
            Kind::Int => Some((SortWord::Int, rest)),
            Kind::Double => Some((SortWord::Double, rest)),
            Kind::Bool => Some((SortWord::Bool, rest)),
            _ => None,
        },
    }
}
