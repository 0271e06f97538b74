//! How deep an expression may be: the deepest within the limits is made, evaluated and dropped on the stack of a test.

use super::*;
use crate::fixtures::{Tree, chain, pair, typed};
use chain_model::{Form, Func, Op, Sort, TraceFault, Typed, Value};
use smc_num::Frac;
use sqlite_items::{Boxed, Items};
use std::alloc::{AllocError, Global};
use std::test::Fail;
use std::thread::Builder;

/// So many signs `-` before an expression.
fn minus(alloc: Global, tree: Typed, signs: usize) -> Result<Typed, AllocError> {
    let mut tree = tree;
    for _ in 0..signs {
        tree = Typed {
            sort: Sort::Int,
            form: Form::Minus(Boxed::new(alloc, tree)?),
        };
    }
    Ok(tree)
}

/// So many signs `!` before an expression.
fn not(alloc: Global, tree: Typed, signs: usize) -> Result<Typed, AllocError> {
    let mut tree = tree;
    for _ in 0..signs {
        tree = Typed {
            sort: Sort::Bool,
            form: Form::Not(Boxed::new(alloc, tree)?),
        };
    }
    Ok(tree)
}

/// A conditional over whole numbers.
fn conditional(
    alloc: Global,
    condition: Typed,
    first: Typed,
    second: Typed,
) -> Result<Typed, AllocError> {
    Ok(Typed {
        sort: Sort::Int,
        form: Form::If(
            Boxed::new(alloc, condition)?,
            Boxed::new(alloc, first)?,
            Boxed::new(alloc, second)?,
        ),
    })
}

/// What one pair of parentheses may hold: `!!..!(--..-tree = 0) ? 1 : 0` with so many signs of each kind.
fn signed(alloc: Global, tree: Typed, signs: usize) -> Result<Typed, AllocError> {
    let number = minus(alloc, tree, signs)?;
    let is_zero = pair(
        alloc,
        Sort::Bool,
        number,
        Op::Eq,
        typed(alloc, Tree::Number(0, 1))?,
    )?;
    let condition = not(alloc, is_zero, signs)?;
    conditional(
        alloc,
        condition,
        typed(alloc, Tree::Number(1, 1))?,
        typed(alloc, Tree::Number(0, 1))?,
    )
}

/// So many of these within one another, about the first variable.
fn parenthesised(alloc: Global, pairs: usize, signs: usize) -> Result<Typed, AllocError> {
    let mut tree = typed(alloc, Tree::Var(0))?;
    for _ in 0..pairs {
        tree = signed(alloc, tree, signs)?;
    }
    Ok(tree)
}

/// So many conditionals, the last part of each the next one.
fn conditionals(alloc: Global, tree: Typed, count: usize) -> Result<Typed, AllocError> {
    let mut tree = tree;
    for _ in 0..count {
        tree = conditional(
            alloc,
            typed(alloc, Tree::Truth(false))?,
            typed(alloc, Tree::Number(0, 1))?,
            tree,
        )?;
    }
    Ok(tree)
}

/// How many pairs of parentheses, signs of each kind in each and conditionals there are, and the value where the
/// variable is 0. The last has 65,535 nodes.
static DEPTHS: [(usize, usize, usize, i64); 3] = [
    (0, 0, 21_500, 0),
    (65, 64, 1_024, 1),
    (65, 64, 18_963, 1),
];

/// A whole number as a value.
fn whole(number: i64) -> Result<Value, TraceFault> {
    match Frac::new(number, 1) {
        Ok(number) => Ok(Value::Num(number)),
        Err(_) => Err(TraceFault::Choices),
    }
}

/// Whether an expression as deep as a row says has the row's value.
fn is_evaluated(alloc: Global, row: &(usize, usize, usize, i64)) -> Result<bool, AllocError> {
    let (pairs, signs, count, number) = *row;
    let signed = parenthesised(alloc, pairs, signs)?;
    let tree = conditionals(alloc, signed, count)?;
    match chain(alloc, 1, &[], &[])? {
        Some(chain) => Ok(eval(&tree, &chain, &[0]) == whole(number)),
        None => Ok(false),
    }
}

#[test]
fn the_deepest_expression_is_evaluated_and_dropped(rt: HostRuntime) -> Result<(), Fail> {
    for row in &DEPTHS {
        assert!(rt; is_evaluated(rt.alloc(), row)?);
    }
    Ok(())
}

/// So many calls of `floor` within one another, each of as many signs `-` as may stand in a row, about the first variable.
fn floors(alloc: Global, calls: usize) -> Result<Typed, AllocError> {
    let mut tree = typed(alloc, Tree::Var(0))?;
    for _ in 0..calls {
        let mut parts = Items::new(alloc);
        parts.push(minus(alloc, tree, 64)?)?;
        tree = Typed {
            sort: Sort::Int,
            form: Form::Call(Func::Floor, parts),
        };
    }
    Ok(tree)
}

/// Whether an expression of signs that is as deep as it has nodes, 65,521, has the value of its variable. Typed trees of
/// texts within the limits are less than half so deep.
fn are_floors_evaluated(alloc: Global) -> Result<bool, AllocError> {
    let tree = floors(alloc, 1_008)?;
    match chain(alloc, 1, &[], &[])? {
        Some(chain) => Ok(eval(&tree, &chain, &[0]) == whole(0)),
        None => Ok(false),
    }
}

/// How large the stack is on which the deepest expressions are evaluated, in bytes.
const STACK: usize = 64 << 20;

#[test]
fn the_deepest_signs_are_evaluated_and_dropped_on_a_large_stack(
    rt: HostRuntime,
) -> Result<(), Fail> {
    let alloc = rt.alloc();
    let thread = Builder::new()
        .stack_size(STACK)
        .spawn(&rt, move || { are_floors_evaluated(alloc) == Ok(true) })?;
    assert!(rt; thread.join(&rt));
    Ok(())
}
