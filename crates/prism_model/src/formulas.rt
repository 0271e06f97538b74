ghost use Rattle.std.specs.Prelude.{◌≡◌, length};
ghost use Rattle.prism_syntax.specs.Models.{IsFormula, IsLabel};
ghost use Rattle.prism_reading.specs.Reading.{Answers, Anything, Parses, Fails};

use prism_expression::expression_until;
use prism_reading::{Mismatch, expect, name, quoted};
use prism_syntax::{Kind, Labels, Named, Precedence, Token};
use std::alloc::Global;

/// The formula that begins the tokens, and the tokens after it.
pub fn formula<'a>(alloc: Global, tokens: &'a [Token]) -> Result<(Named, &'a [Token]), Mismatch>
    ensures { Answers
        (λ r. Parses IsFormula Anything tokens.now r.0 r.1.now (length r.1.now))
        (Fails IsFormula Anything tokens.now)
        result }
{
    let rest = expect(tokens, &Kind::Formula)?;
    let (name, rest) = name(alloc, rest)?;
    let rest = expect(rest, &Kind::Equal)?;
    let (body, rest) = expression_until(
        alloc,
        Labels::Refused,
        Precedence::Conditional,
        rest,
        &Kind::Semicolon,
    )?;
    Ok((Named { name, body }, rest))
}

/// The label that begins the tokens, and the tokens after it.
pub fn label<'a>(alloc: Global, tokens: &'a [Token]) -> Result<(Named, &'a [Token]), Mismatch>
    ensures { Answers
        (λ r. Parses IsLabel Anything tokens.now r.0 r.1.now (length r.1.now))
        (Fails IsLabel Anything tokens.now)
        result }
{
    let rest = expect(tokens, &Kind::Label)?;
    let (name, rest) = quoted(alloc, rest)?;
    let rest = expect(rest, &Kind::Equal)?;
    let (body, rest) = expression_until(
        alloc,
        Labels::Refused,
        Precedence::Conditional,
        rest,
        &Kind::Semicolon,
    )?;
    Ok((Named { name, body }, rest))
}
