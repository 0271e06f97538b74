ghost use Rattle.std.specs.Prelude.{◌≡◌, true, Some, IfOk, IsSome, MatchOption};
ghost use Rattle.prism_syntax.specs.Precedence.{is_chain, operator};
ghost use Rattle.prism_syntax.specs.Expressions.{Derives, level};
ghost use Rattle.prism_reading.specs.Reading.{Answers, Anything, Fails};
ghost use Rattle.prism_expression.specs.Longest.{ParsesLongest};
ghost use Rattle.prism_expression.specs.Parts.{BeginsWith, BeginsWithout};

use crate::longest::Longest;
use crate::parsing::parse_longest;
use crate::trees::preceded;
use prism_reading::Mismatch;
use prism_syntax::{Expr, Labels, Op, Precedence, Token};
use sqlite_items::Items;
use std::alloc::{AllocError, Global};

/// `parse_longest` at a level of operands with operators between them.
#[cycle(grammar)]
pub fn chain<'a>(
    alloc: Global,
    labels: Labels,
    level: Precedence,
    tokens: &'a [Token],
) -> Result<Longest<'a>, Mismatch>
    requires { is_chain level ≡ true }
    ensures { Answers
        (λ r. ParsesLongest labels level tokens.now r.tree r.rest.now r.left)
        (Fails (Derives labels level) Anything tokens.now)
        result }
{
    let first = parse_longest(alloc, labels, level.inner(), tokens)?;
    let mut rest = first.rest;
    let mut left = first.left;
    let mut operands = Items::new(alloc);
    let mut operators = Items::new(alloc);
    while let Some((operator, after)) = accept_operator(level, rest) {
        match parse_longest(alloc, labels, level.inner(), after) {
            Ok(operand) => {
                operands.push(operand.tree)?;
                operators.push(operator)?;
                rest = operand.rest;
                left = left.min(operand.left);
            }
            Err(Mismatch::NoText { left: wrong }) => {
                let tree = chained(alloc, first.tree, operands, operators)?;
                let left = left.min(wrong);
                return Ok(Longest { tree, rest, left });
            }
            Err(Mismatch::OutOfMemory(fault)) => return Err(Mismatch::OutOfMemory(fault)),
        }
    }
    let tree = chained(alloc, first.tree, operands, operators)?;
    Ok(Longest { tree, rest, left })
}

/// The operator of the level that the first token stands for, and the tokens after it.
fn accept_operator(level: Precedence, tokens: &[Token]) -> Option<(Op, &[Token])>
    ensures { MatchOption result
        (BeginsWithout (λ t. IsSome (operator level t)) tokens.now)
        (λ r. BeginsWith (λ t. operator level t ≡ Some r.0) tokens.now r.1.now) }
{
    let (first, after) = tokens.split_first()?;
    let operator = level.operator(&first.kind)?;
    Some((operator, after))
}

/// The tree of a chain.
fn chained(
    alloc: Global,
    first: Expr,
    operands: Items<Expr>,
    operators: Items<Op>,
) -> Result<Expr, AllocError>
    ensures { IfOk result (λ tree. tree ≡ level first operands operators) }
{
    if operands.is_empty() {
        return Ok(first);
    }
    Ok(Expr::Level(preceded(alloc, first, operands)?, operators))
}
