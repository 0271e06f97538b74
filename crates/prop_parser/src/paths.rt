ghost use Rattle.std.specs.Prelude.{◌≡◌, length};
ghost use Rattle.prism_syntax.specs.declared.tokens.Kind.TheVariants as k;
ghost use Rattle.prism_reading.specs.Reading.{Answers, Anything, Parses, Fails};
ghost use Rattle.prop_parser.specs.Parts.{IsStateUntil, IsTimed, IsPathUntil};

use crate::times::time;
use prism_expression::expression_until;
use prism_reading::{Mismatch, accept};
use prism_syntax::{Expr, Kind, Labels, PathText, Precedence, Time, Token};
use std::alloc::Global;

/// The path formula that the tokens begin with, up to the `]` that ends it, and the tokens after that.
pub fn path<'a>(alloc: Global, tokens: &'a [Token]) -> Result<(PathText, &'a [Token]), Mismatch>
    ensures { Answers
        (λ r. Parses IsPathUntil Anything tokens.now r.0 r.1.now (length r.1.now))
        (Fails IsPathUntil Anything tokens.now)
        result }
{
    if let Some(rest) = accept(tokens, &Kind::X) {
        let (state, rest) = last_state(alloc, rest)?;
        return Ok((PathText::Next(state), rest));
    }
    if let Some(rest) = accept(tokens, &Kind::F) {
        let ((time, state), rest) = timed(alloc, rest)?;
        return Ok((PathText::Finally(time, state), rest));
    }
    if let Some(rest) = accept(tokens, &Kind::G) {
        let ((time, state), rest) = timed(alloc, rest)?;
        return Ok((PathText::Globally(time, state), rest));
    }
    let (first, rest) = expression_until(
        alloc,
        Labels::Allowed,
        Precedence::Conditional,
        tokens,
        &Kind::U,
    )?;
    let ((time, second), rest) = timed(alloc, rest)?;
    Ok((PathText::Until(first, time, second), rest))
}

/// A time and the state formula after it, up to the `]` that ends it, and the tokens after that.
fn timed<'a>(alloc: Global, tokens: &'a [Token]) -> Result<((Time, Expr), &'a [Token]), Mismatch>
    ensures { Answers
        (λ r. Parses IsTimed Anything tokens.now r.0 r.1.now (length r.1.now))
        (Fails IsTimed Anything tokens.now)
        result }
{
    let (time, rest) = time(alloc, tokens)?;
    let (state, rest) = last_state(alloc, rest)?;
    Ok(((time, state), rest))
}

/// The state formula that the tokens begin with, up to the `]` that ends it, and the tokens after that.
fn last_state<'a>(alloc: Global, tokens: &'a [Token]) -> Result<(Expr, &'a [Token]), Mismatch>
    ensures { Answers
        (λ r. Parses (IsStateUntil k.CloseBracket) Anything tokens.now r.0 r.1.now (length r.1.now))
        (Fails (IsStateUntil k.CloseBracket) Anything tokens.now)
        result }
{
    expression_until(
        alloc,
        Labels::Allowed,
        Precedence::Conditional,
        tokens,
        &Kind::CloseBracket,
    )
}
