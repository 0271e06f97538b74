ghost use Rattle.std.specs.Prelude.{◌≡◌, true, IfOk, MatchOption};
ghost use Rattle.prism_syntax.specs.Precedence.{is_prefix, is_sign, signed};
ghost use Rattle.prism_syntax.specs.Expressions.{Derives};
ghost use Rattle.prism_reading.specs.Reading.{Answers, Anything, Fails};
ghost use Rattle.prism_expression.specs.Longest.{ParsesLongest};
ghost use Rattle.prism_expression.specs.Parts.{wrapped, BeginsWith, BeginsWithout, BeginsWithSigns};

use crate::longest::Longest;
use crate::parsing::parse_longest;
use prism_reading::Mismatch;
use prism_syntax::{Expr, Labels, Precedence, Token};
use sqlite_items::Boxed;
use std::alloc::{AllocError, Global};

/// `parse_longest` at a level of one operand with signs before it. The signs are counted by a loop, since the stack would
/// not bear a call for each.
#[cycle(grammar)]
pub fn signed<'a>(
    alloc: Global,
    labels: Labels,
    level: Precedence,
    tokens: &'a [Token],
) -> Result<Longest<'a>, Mismatch>
    requires { is_prefix level ≡ true }
    ensures { Answers
        (λ r. ParsesLongest labels level tokens.now r.tree r.rest.now r.left)
        (Fails (Derives labels level) Anything tokens.now)
        result }
{
    let (signs, unsigned) = accept_signs(level, tokens);
    let operand = parse_longest(alloc, labels, level.inner(), unsigned)?;
    let tree = with_signs(alloc, level, signs, operand.tree)?;
    Ok(Longest {
        tree,
        rest: operand.rest,
        left: operand.left,
    })
}

/// How many signs of the level the tokens begin with, and the tokens after them.
fn accept_signs(level: Precedence, tokens: &[Token]) -> (usize, &[Token])
    ensures { BeginsWithSigns level tokens.now result.0 result.1.now }
{
    let mut rest = tokens;
    while let Some(after) = accept_sign(level, rest) {
        rest = after;
    }
    (tokens.len() - rest.len(), rest)
}

/// The tokens after a first one that is a sign of the level.
fn accept_sign(level: Precedence, tokens: &[Token]) -> Option<&[Token]>
    ensures { MatchOption result
        (BeginsWithout (λ t. is_sign level t ≡ true) tokens.now)
        (λ after. BeginsWith (λ t. is_sign level t ≡ true) tokens.now after.now) }
{
    let (first, after) = tokens.split_first()?;
    if level.is_sign(&first.kind) {
        Some(after)
    } else {
        None
    }
}

/// The tree with so many signs of the level before it.
fn with_signs(
    alloc: Global,
    level: Precedence,
    signs: usize,
    operand: Expr,
) -> Result<Expr, AllocError>
    ensures { IfOk result (λ tree. tree ≡ wrapped level signs operand) }
{
    let mut tree = operand;
    for _ in 0..signs {
        tree = with_sign(alloc, level, tree)?;
    }
    Ok(tree)
}

/// The tree with a sign of the level before it.
fn with_sign(alloc: Global, level: Precedence, operand: Expr) -> Result<Expr, AllocError>
    ensures { IfOk result (λ tree. tree ≡ signed level operand) }
{
    let operand = Boxed::new(alloc, operand)?;
    match level {
        Precedence::Negation => Ok(Expr::Not(operand)),
        _ => Ok(Expr::Minus(operand)),
    }
}
