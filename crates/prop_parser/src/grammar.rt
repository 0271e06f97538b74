ghost use Rattle.std.specs.Prelude.{◌≡◌, length};
ghost use Rattle.prism_syntax.specs.Properties.{IsProperty};
ghost use Rattle.prism_syntax.specs.Tokens.{kinds};
ghost use Rattle.prism_parser.specs.Outcome.{IsNoText};
ghost use Rattle.prism_reading.specs.Reading.{Answers, Anything, Parses, Fails};
ghost use Rattle.prop_parser.specs.Parts.{IsOne, cmp_of};

use crate::paths::path;
use prism_expression::expression_until;
use prism_reading::{Mismatch, expect};
use prism_syntax::{Cmp, Kind, Labels, Precedence, Property, Token};
use std::alloc::Global;

/// The property that all of the tokens are.
pub fn parse(alloc: Global, tokens: &[Token]) -> Result<Property, Mismatch>
    ensures { Answers (IsProperty (kinds tokens.now)) (IsNoText IsProperty (kinds tokens.now)) result }
{
    let (tree, rest) = parse_prefix(alloc, tokens)?;
    if rest.is_empty() {
        Ok(tree)
    } else {
        Err(Mismatch::NoText { left: rest.len() })
    }
}

/// The property that the tokens begin with, and the tokens after it.
fn parse_prefix<'a>(alloc: Global, tokens: &'a [Token]) -> Result<(Property, &'a [Token]), Mismatch>
    ensures { Answers
        (λ r. Parses IsProperty Anything tokens.now r.0 r.1.now (length r.1.now))
        (Fails IsProperty Anything tokens.now)
        result }
{
    let rest = expect(tokens, &Kind::P)?;
    let (cmp, rest) = comparison(rest)?;
    let (bound, rest) = expression_until(
        alloc,
        Labels::Allowed,
        Precedence::Sum,
        rest,
        &Kind::OpenBracket,
    )?;
    let (path, rest) = path(alloc, rest)?;
    Ok((Property { cmp, bound, path }, rest))
}

/// The comparison that the tokens begin with, and the tokens after it.
fn comparison<'a>(tokens: &'a [Token]) -> Result<(Cmp, &'a [Token]), Mismatch>
    ensures { Answers
        (λ r. Parses (IsOne cmp_of) Anything tokens.now r.0 r.1.now (length r.1.now))
        (Fails (IsOne cmp_of) Anything tokens.now)
        result }
{
    let Some((first, rest)) = tokens.split_first() else {
        return Err(Mismatch::NoText { left: tokens.len() });
    };
    match cmp(&first.kind) {
        Some(cmp) => Ok((cmp, rest)),
        None => Err(Mismatch::NoText { left: tokens.len() }),
    }
}

/// The comparison that a token is.
fn cmp(kind: &Kind) -> Option<Cmp>
    ensures { result ≡ cmp_of kind.now }
{
    match kind {
        Kind::GreaterEqual => Some(Cmp::AtLeast),
        Kind::Greater => Some(Cmp::Above),
        Kind::LessEqual => Some(Cmp::AtMost),
        Kind::Less => Some(Cmp::Below),
        _ => None,
    }
}
