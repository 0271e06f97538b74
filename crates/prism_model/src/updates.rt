ghost use Rattle.std.specs.Prelude.{◌≡◌, length};
ghost use Rattle.prism_syntax.specs.declared.tokens.Kind.TheVariants as k;
ghost use Rattle.prism_syntax.specs.Models.{IsAssign, IsUpdate, Separated};
ghost use Rattle.prism_reading.specs.Reading.{Answers, Anything, Parses, Fails};
ghost use Rattle.prism_model.specs.Parts.{BeginsNot};

use prism_expression::expression_until;
use prism_reading::{Mismatch, accept, expect, name};
use prism_syntax::{Expr, Kind, Labels, Precedence, Token};
use smc_num::Text;
use sqlite_items::Items;
use std::alloc::Global;

/// The update that begins the tokens, and the tokens after it. No `&` goes on it: none joins `true` to an assignment.
pub fn update<'a>(
    alloc: Global,
    tokens: &'a [Token],
) -> Result<(Items<(Text, Expr)>, &'a [Token]), Mismatch>
    ensures { Answers
        (λ r. Parses IsUpdate (BeginsNot k.Ampersand) tokens.now r.0 r.1.now (length r.1.now))
        (Fails IsUpdate (BeginsNot k.Ampersand) tokens.now)
        result }
{
    match accept(tokens, &Kind::True) {
        Some(rest) => match accept(rest, &Kind::Ampersand) {
            Some(_) => Err(Mismatch::NoText { left: rest.len() }),
            None => Ok((Items::new(alloc), rest)),
        },
        None => {
            let (sets, rest) = assignments(alloc, tokens)?;
            Ok((sets, rest))
        }
    }
}

/// The assignments, joined by `&`, that begin the tokens, and the tokens after them.
fn assignments<'a>(
    alloc: Global,
    tokens: &'a [Token],
) -> Result<(Items<(Text, Expr)>, &'a [Token]), Mismatch>
    ensures { Answers
        (λ r. Parses (Separated k.Ampersand IsAssign) (BeginsNot k.Ampersand) tokens.now r.0 r.1.now (length r.1.now))
        (Fails (Separated k.Ampersand IsAssign) (BeginsNot k.Ampersand) tokens.now)
        result }
{
    let mut sets = Items::new(alloc);
    let mut rest = tokens;
    loop {
        let (set, end) = assignment(alloc, rest)?;
        sets.push(set)?;
        match accept(end, &Kind::Ampersand) {
            Some(next) => rest = next,
            None => return Ok((sets, end)),
        }
    }
}

/// The assignment that begins the tokens, and the tokens after it.
fn assignment<'a>(
    alloc: Global,
    tokens: &'a [Token],
) -> Result<((Text, Expr), &'a [Token]), Mismatch>
    ensures { Answers
        (λ r. Parses IsAssign Anything tokens.now r.0 r.1.now (length r.1.now))
        (Fails IsAssign Anything tokens.now)
        result }
{
    let rest = expect(tokens, &Kind::Open)?;
    let (name, rest) = name(alloc, rest)?;
    let rest = expect(rest, &Kind::Prime)?;
    let rest = expect(rest, &Kind::Equal)?;
    let (value, rest) = expression_until(
        alloc,
        Labels::Refused,
        Precedence::Conditional,
        rest,
        &Kind::Close,
    )?;
    Ok(((name, value), rest))
}
