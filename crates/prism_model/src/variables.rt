ghost use Rattle.std.specs.Prelude.{◌≡◌, MatchBool, length};
ghost use Rattle.prism_syntax.specs.Tokens.{kinds};
ghost use Rattle.prism_syntax.specs.Models.{Each, IsGlobal, IsVariable};
ghost use Rattle.prism_reading.specs.Reading.{Answers, Anything, Parses, Fails};
ghost use Rattle.prism_model.specs.Parts.{BeginsNoName, IsRange};

use crate::optional::optional;
use prism_expression::expression_until;
use prism_reading::{Mismatch, accept, expect, name};
use prism_syntax::{Expr, Kind, Labels, Precedence, Token, Variable};
use sqlite_items::Items;
use std::alloc::Global;

/// The global variable that begins the tokens, and the tokens after it.
pub fn global<'a>(alloc: Global, tokens: &'a [Token]) -> Result<(Variable, &'a [Token]), Mismatch>
    ensures { Answers
        (λ r. Parses IsGlobal Anything tokens.now r.0 r.1.now (length r.1.now))
        (Fails IsGlobal Anything tokens.now)
        result }
{
    let rest = expect(tokens, &Kind::Global)?;
    let (variable, rest) = variable(alloc, rest)?;
    Ok((variable, rest))
}

/// The variables that begin the tokens, up to where no name begins a further one, and the tokens after them.
pub fn variables<'a>(
    alloc: Global,
    tokens: &'a [Token],
) -> Result<(Items<Variable>, &'a [Token]), Mismatch>
    ensures { Answers
        (λ r. Parses (Each IsVariable) BeginsNoName tokens.now r.0 r.1.now (length r.1.now))
        (Fails (Each IsVariable) BeginsNoName tokens.now)
        result }
{
    let mut variables = Items::new(alloc);
    let mut rest = tokens;
    while begins_name(rest) {
        let (next, after) = variable(alloc, rest)?;
        variables.push(next)?;
        rest = after;
    }
    Ok((variables, rest))
}

/// Whether a name begins the tokens.
fn begins_name(tokens: &[Token]) -> bool
    ensures { MatchBool result (BeginsNoName (kinds tokens.now) → ⊥) (BeginsNoName (kinds tokens.now)) }
{
    match tokens {
        [] => false,
        [first, ..] => match first.kind {
            Kind::Name(_) => true,
            _ => false,
        },
    }
}

/// The variable that begins the tokens, and the tokens after it.
fn variable<'a>(alloc: Global, tokens: &'a [Token]) -> Result<(Variable, &'a [Token]), Mismatch>
    ensures { Answers
        (λ r. Parses IsVariable Anything tokens.now r.0 r.1.now (length r.1.now))
        (Fails IsVariable Anything tokens.now)
        result }
{
    let (name, rest) = name(alloc, tokens)?;
    let rest = expect(rest, &Kind::Colon)?;
    let (range, rest) = range(alloc, rest)?;
    let (init, rest) = optional(alloc, rest, &Kind::Init)?;
    Ok((Variable { name, range, init }, rest))
}

/// The range that begins the tokens, or none where they begin with `bool`, and the tokens after it.
fn range<'a>(
    alloc: Global,
    tokens: &'a [Token],
) -> Result<(Option<(Expr, Expr)>, &'a [Token]), Mismatch>
    ensures { Answers
        (λ r. Parses IsRange Anything tokens.now r.0 r.1.now (length r.1.now))
        (Fails IsRange Anything tokens.now)
        result }
{
    match accept(tokens, &Kind::OpenBracket) {
        Some(rest) => {
            let (low, rest) = expression_until(
                alloc,
                Labels::Refused,
                Precedence::Conditional,
                rest,
                &Kind::Dots,
            )?;
            let (high, rest) = expression_until(
                alloc,
                Labels::Refused,
                Precedence::Conditional,
                rest,
                &Kind::CloseBracket,
            )?;
            Ok((Some((low, high)), rest))
        }
        None => {
            let rest = expect(tokens, &Kind::Bool)?;
            Ok((None, rest))
        }
    }
}
