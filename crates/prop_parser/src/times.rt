ghost use Rattle.std.specs.Prelude.{◌≡◌, length};
ghost use Rattle.prism_syntax.specs.Properties.{IsTime};
ghost use Rattle.prism_reading.specs.Reading.{Answers, Anything, Parses, Fails};
ghost use Rattle.prop_parser.specs.Parts.{IsOne, strict_of, IsLast};

use prism_expression::expression_until;
use prism_reading::Mismatch;
use prism_syntax::{Expr, Kind, Labels, Precedence, Time, Token};
use sqlite_items::Boxed;
use std::alloc::Global;

/// The time that the tokens begin with, and the tokens after it.
pub fn time<'a>(alloc: Global, tokens: &'a [Token]) -> Result<(Time, &'a [Token]), Mismatch>
    ensures { Answers
        (λ r. Parses IsTime Anything tokens.now r.0 r.1.now (length r.1.now))
        (Fails IsTime Anything tokens.now)
        result }
{
    let (strict, rest) = time_sign(tokens)?;
    let (last, rest) = last_step(alloc, rest)?;
    Ok((Time::Upto { strict, last }, rest))
}

/// Whether the sign of a time is strict, and the tokens after it.
fn time_sign<'a>(tokens: &'a [Token]) -> Result<(bool, &'a [Token]), Mismatch>
    ensures { Answers
        (λ r. Parses (IsOne strict_of) Anything tokens.now r.0 r.1.now (length r.1.now))
        (Fails (IsOne strict_of) Anything tokens.now)
        result }
{
    let Some((first, rest)) = tokens.split_first() else {
        return Err(Mismatch::NoText { left: tokens.len() });
    };
    match strict(&first.kind) {
        Some(strict) => Ok((strict, rest)),
        None => Err(Mismatch::NoText { left: tokens.len() }),
    }
}

/// Whether a token is the sign of a time, and then whether it is strict.
fn strict(kind: &Kind) -> Option<bool>
    ensures { result ≡ strict_of kind.now }
{
    match kind {
        Kind::LessEqual => Some(false),
        Kind::Less => Some(true),
        _ => None,
    }
}

/// The last step of a time, and the tokens after it.
fn last_step<'a>(alloc: Global, tokens: &'a [Token]) -> Result<(Expr, &'a [Token]), Mismatch>
    ensures { Answers
        (λ r. Parses IsLast Anything tokens.now r.0 r.1.now (length r.1.now))
        (Fails IsLast Anything tokens.now)
        result }
{
    let Some((first, rest)) = tokens.split_first() else {
        return Err(Mismatch::NoText { left: tokens.len() });
    };
    match &first.kind {
        Kind::Whole(value) => Ok((Expr::Whole(*value), rest)),
        Kind::Name(text) => Ok((Expr::Name(text.copy(alloc)?), rest)),
        Kind::Open => {
            let (inside, rest) = expression_until(
                alloc,
                Labels::Allowed,
                Precedence::Conditional,
                rest,
                &Kind::Close,
            )?;
            Ok((Expr::Paren(Boxed::new(alloc, inside)?), rest))
        }
        _ => Err(Mismatch::NoText { left: tokens.len() }),
    }
}
