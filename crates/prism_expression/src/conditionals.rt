ghost use Rattle.std.specs.Prelude.{◌≡◌, IfOk};
ghost use Rattle.prism_syntax.specs.Expressions.{Derives};
ghost use Rattle.prism_reading.specs.Reading.{Answers, Anything, Fails};
ghost use Rattle.prism_expression.specs.Longest.{IsLongest, ParsesLongest};
ghost use Rattle.prism_expression.specs.Parts.{IsBranches};

use crate::longest::Longest;
use crate::parsing::{expression_until, parse_longest};
use prism_reading::{Mismatch, accept};
use prism_syntax::{Expr, Kind, Labels, Precedence, Token};
use sqlite_items::Boxed;
use std::alloc::{AllocError, Global};

/// The branches of a conditional, the tokens after them, and how many tokens are left from the first wrong one on.
#[derive(Drop)]
struct Branching<'a> {
    then: Expr,
    other: Expr,
    rest: &'a [Token],
    left: usize,
}

/// `parse_longest` at the level of conditionals.
#[cycle(grammar)]
pub fn conditional<'a>(
    alloc: Global,
    labels: Labels,
    tokens: &'a [Token],
) -> Result<Longest<'a>, Mismatch>
    ensures { Answers
        (λ r. ParsesLongest labels Precedence.Conditional tokens.now r.tree r.rest.now r.left)
        (Fails (Derives labels Precedence.Conditional) Anything tokens.now)
        result }
{
    let condition = parse_longest(alloc, labels, Precedence::Implication, tokens)?;
    match branches(alloc, labels, condition.rest) {
        Ok(parts) => Ok(Longest {
            tree: chosen(alloc, condition.tree, parts.then, parts.other)?,
            rest: parts.rest,
            left: condition.left.min(parts.left),
        }),
        Err(Mismatch::NoText { left }) => Ok(Longest {
            tree: condition.tree,
            rest: condition.rest,
            left: condition.left.min(left),
        }),
        Err(Mismatch::OutOfMemory(fault)) => Err(Mismatch::OutOfMemory(fault)),
    }
}

/// The two branches of a conditional, from its `?` on, the second as long as it can be.
#[cycle(grammar)]
fn branches<'a>(
    alloc: Global,
    labels: Labels,
    tokens: &'a [Token],
) -> Result<Branching<'a>, Mismatch>
    ensures { Answers
        (λ r. IsLongest (IsBranches labels) tokens.now (r.then, r.other) r.rest.now r.left)
        (Fails (IsBranches labels) Anything tokens.now)
        result }
{
    let Some(inside) = accept(tokens, &Kind::Query) else {
        return Err(Mismatch::NoText { left: tokens.len() });
    };
    let (then, outside) = expression_until(
        alloc,
        labels,
        Precedence::Implication,
        inside,
        &Kind::Colon,
    )?;
    let other = parse_longest(alloc, labels, Precedence::Conditional, outside)?;
    Ok(Branching {
        then,
        other: other.tree,
        rest: other.rest,
        left: other.left,
    })
}

/// The tree of a conditional.
fn chosen(alloc: Global, condition: Expr, then: Expr, other: Expr) -> Result<Expr, AllocError>
    ensures { IfOk result (λ tree. tree ≡ Expr.If condition then other) }
{
    Ok(Expr::If(
        Boxed::new(alloc, condition)?,
        Boxed::new(alloc, then)?,
        Boxed::new(alloc, other)?,
    ))
}
