//! What conditionals and labels read, worked out by hand.

use super::*;
use crate::expected::{Gives, ZERO_DIVISOR, given, value_in};
use crate::fixtures::{Command, STAYS, Tree, chain, typed};
use chain_model::{Form, Sort, Typed};
use sqlite_items::Boxed;
use std::alloc::{AllocError, Global};
use std::test::Fail;

/// A conditional of these parts.
fn conditional(
    alloc: Global,
    condition: Tree,
    first: Tree,
    second: Tree,
) -> Result<Typed, AllocError> {
    let condition = Boxed::new(alloc, typed(alloc, condition)?)?;
    let first = Boxed::new(alloc, typed(alloc, first)?)?;
    let second = Boxed::new(alloc, typed(alloc, second)?)?;
    Ok(Typed {
        sort: Sort::Double,
        form: Form::If(condition, first, second),
    })
}

/// A condition, two parts, and what the conditional gives where the variables are 3 and 2.
static CONDITIONALS: [(Tree, Tree, Tree, Gives); 6] = [
    (
        Tree::Truth(true),
        Tree::Number(1, 1),
        Tree::Fault,
        Gives::Number(1, 1),
    ),
    (
        Tree::Truth(false),
        Tree::Fault,
        Tree::Number(1, 1),
        Gives::Number(1, 1),
    ),
    (
        Tree::Truth(true),
        Tree::Fault,
        Tree::Number(1, 1),
        ZERO_DIVISOR,
    ),
    (
        Tree::FaultTruth,
        Tree::Number(1, 1),
        Tree::Number(1, 1),
        ZERO_DIVISOR,
    ),
    (
        Tree::Is(1, 2),
        Tree::Var(0),
        Tree::Plus(0, 1),
        Gives::Number(3, 1),
    ),
    (
        Tree::Is(1, 1),
        Tree::Var(0),
        Tree::Plus(0, 1),
        Gives::Number(4, 1),
    ),
];

/// Whether a conditional gives what its row says.
fn is_picked(alloc: Global, row: &(Tree, Tree, Tree, Gives)) -> Result<bool, AllocError> {
    let (condition, first, second, gives) = row;
    let tree = conditional(alloc, *condition, *first, *second)?;
    Ok(value_in(alloc, &tree, [3, 2])? == Some(given(gives)))
}

#[test]
fn conditionals_read_the_part_that_they_pick(rt: HostRuntime) -> Result<(), Fail> {
    for row in &CONDITIONALS {
        assert!(rt; is_picked(rt.alloc(), row)?);
    }
    Ok(())
}

/// Two modules with an action that each offers where its variable is 1, and a command of the second without an action
/// where its variable is 3. A guard faults in no state.
static SYNCHRONISED: [Command; 3] = [
    Command {
        action: Some(0),
        guard: Tree::Is(0, 1),
        ..STAYS
    },
    Command {
        module: 1,
        action: Some(0),
        guard: Tree::Is(1, 1),
        ..STAYS
    },
    Command {
        module: 1,
        guard: Tree::Is(1, 3),
        ..STAYS
    },
];

/// A label, the values of the variables, and whether the label holds.
static LABELS: [(Tree, [i64; 2], Gives); 7] = [
    (Tree::Init, [0, 0], Gives::Truth(true)),
    (Tree::Init, [0, 1], Gives::Truth(false)),
    (Tree::Deadlock, [0, 0], Gives::Truth(true)),
    (Tree::Deadlock, [1, 0], Gives::Truth(true)),
    (Tree::Deadlock, [0, 1], Gives::Truth(true)),
    (Tree::Deadlock, [1, 1], Gives::Truth(false)),
    (Tree::Deadlock, [0, 3], Gives::Truth(false)),
];

/// Whether a label holds in a state as its row says.
fn is_label(alloc: Global, row: &(Tree, [i64; 2], Gives)) -> Result<bool, AllocError> {
    let (label, state, gives) = row;
    let tree = typed(alloc, *label)?;
    match chain(alloc, 2, &[&[0, 1]], &SYNCHRONISED)? {
        Some(chain) => Ok(eval(&tree, &chain, state.as_slice()) == given(gives)),
        None => Ok(false),
    }
}

#[test]
fn labels_speak_of_the_state(rt: HostRuntime) -> Result<(), Fail> {
    for row in &LABELS {
        assert!(rt; is_label(rt.alloc(), row)?);
    }
    Ok(())
}

/// A command whose guard faults.
static FAULTS: [Command; 1] = [Command {
    guard: Tree::FaultTruth,
    ..STAYS
}];

/// What is told of that guard.
static TOLD: [(Tree, Gives); 3] = [
    (Tree::Deadlock, ZERO_DIVISOR),
    (Tree::Init, Gives::Truth(true)),
    (Tree::Var(0), Gives::Number(0, 1)),
];

/// Whether an expression gives what its row says where that guard stands in the chain.
fn is_told(alloc: Global, row: &(Tree, Gives)) -> Result<bool, AllocError> {
    let (tree, gives) = row;
    let tree = typed(alloc, *tree)?;
    match chain(alloc, 1, &[], &FAULTS)? {
        Some(chain) => Ok(eval(&tree, &chain, &[0]) == given(gives)),
        None => Ok(false),
    }
}

#[test]
fn a_guard_that_faults_is_told_only_where_deadlock_is_read(rt: HostRuntime) -> Result<(), Fail> {
    for row in &TOLD {
        assert!(rt; is_told(rt.alloc(), row)?);
    }
    Ok(())
}
