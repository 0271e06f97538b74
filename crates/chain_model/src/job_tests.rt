//! Which paths make a job, where a chain starts, and how deep an expression may be.

use super::*;
use crate::limits::MOST_HORIZON;
use crate::parts::{Leaf, PARTS, chain, node};
use sqlite_items::{Boxed, Items};
use std::alloc::{AllocError, Global};
use std::test::Fail;

/// Whether a path formula and the chain of the parts make a job.
fn is_job(alloc: Global, kind: PathKind, second: Typed) -> Result<bool, AllocError> {
    let path = Path {
        kind,
        first: node(Leaf::Truth),
        second,
    };
    match chain(alloc, &PARTS)? {
        Some(chain) => Ok(Job::new(chain, path, 1).is_some()),
        None => Ok(false),
    }
}

/// The kind of a path, its second state formula, and whether there is a job.
type Made = (PathKind, Leaf, bool);

static JOBS: [Made; 5] = [
    (PathKind::Next, Leaf::Init, true),
    (
        PathKind::Until(MOST_HORIZON),
        Leaf::Var(1, Sort::Bool),
        true,
    ),
    (PathKind::Finally(MOST_HORIZON + 1), Leaf::Truth, false),
    (PathKind::Finally(1), Leaf::Whole(1), false),
    (PathKind::Finally(1), Leaf::Var(2, Sort::Bool), false),
];

fn is_made(alloc: Global, row: &Made) -> Result<bool, AllocError> {
    let (kind, second, made) = *row;
    Ok(is_job(alloc, kind, node(second))? == made)
}

#[test]
fn a_job_has_a_path_over_its_chain(rt: HostRuntime) -> Result<(), Fail> {
    for row in &JOBS {
        assert!(rt; is_made(rt.alloc(), row)?);
    }
    Ok(())
}

/// The initial state of the chain of the parts.
fn initial_state(alloc: Global) -> Result<Vec<i64>, AllocError> {
    match chain(alloc, &PARTS)? {
        Some(chain) => initial(alloc, &chain),
        None => Ok(Vec::new(alloc)),
    }
}

#[test]
fn a_chain_starts_where_its_variables_do(rt: HostRuntime) -> Result<(), Fail> {
    let state = initial_state(rt.alloc())?;
    assert!(rt; state.as_slice() == [1, 1].as_slice());
    Ok(())
}

/// So many signs `-` before an expression.
fn minus(alloc: Global, tree: Typed, signs: usize) -> Result<Typed, AllocError> {
    let mut tree = tree;
    for _ in 0..signs {
        tree = Typed {
            sort: Sort::Int,
            form: Form::Minus(Boxed::new(alloc, tree)?),
        };
    }
    Ok(tree)
}

/// So many signs `!` before an expression.
fn not(alloc: Global, tree: Typed, signs: usize) -> Result<Typed, AllocError> {
    let mut tree = tree;
    for _ in 0..signs {
        tree = Typed {
            sort: Sort::Bool,
            form: Form::Not(Boxed::new(alloc, tree)?),
        };
    }
    Ok(tree)
}

/// So many conditionals, the last part of each the next one.
fn conditionals(alloc: Global, tree: Typed, count: usize) -> Result<Typed, AllocError> {
    let mut tree = tree;
    for _ in 0..count {
        tree = Typed {
            sort: Sort::Bool,
            form: Form::If(
                Boxed::new(alloc, node(Leaf::Truth))?,
                Boxed::new(alloc, node(Leaf::Truth))?,
                Boxed::new(alloc, tree)?,
            ),
        };
    }
    Ok(tree)
}

/// Whether a number is 0.
fn is_zero(alloc: Global, tree: Typed) -> Result<Typed, AllocError> {
    let mut operands = Items::new(alloc);
    operands.push(tree)?;
    operands.push(node(Leaf::Whole(0)))?;
    let operators = Items::from_slice(alloc, &[Op::Eq])?;
    Ok(Typed {
        sort: Sort::Bool,
        form: Form::Level(operands, operators),
    })
}

/// The deepest expression that a text within the limits has: 64 signs `-`, 64 times 64 signs `!` and 1,024
/// conditionals. The parentheses between them have no node.
fn deepest(alloc: Global) -> Result<Typed, AllocError> {
    let number = minus(alloc, node(Leaf::Var(0, Sort::Int)), 64)?;
    let signed = not(alloc, is_zero(alloc, number)?, 64 * 64)?;
    conditionals(alloc, signed, 1_024)
}

/// Whether a path formula over the deepest expression makes a job.
fn is_deepest_job(alloc: Global) -> Result<bool, AllocError> {
    is_job(alloc, PathKind::Next, deepest(alloc)?)
}

#[test]
fn the_deepest_expression_is_typed_and_dropped(rt: HostRuntime) -> Result<(), Fail> {
    assert!(rt; is_deepest_job(rt.alloc())?);
    Ok(())
}
