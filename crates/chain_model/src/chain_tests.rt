//! Which parts are a chain.

use super::*;
use crate::limits::{MOST_BRANCHES, MOST_COMMANDS, MOST_MODULES, MOST_VARIABLES};
use crate::parts::{Leaf, PARTS, Parts, chain};
use std::alloc::{AllocError, Global};
use std::test::Fail;

/// Whether the parts are a chain.
fn is_taken(alloc: Global, parts: &Parts) -> Result<bool, AllocError> {
    Ok(chain(alloc, parts)?.is_some())
}

const GREATEST: i64 = 4_611_686_018_427_387_903;

/// The first variable, and whether the parts are a chain with it.
type Variable = (Option<u32>, Sort, i64, i64, i64, bool);

static VARIABLES: [Variable; 9] = [
    (Some(0), Sort::Int, -2, 3, 1, true),
    (Some(0), Sort::Int, -GREATEST, GREATEST, -GREATEST, true),
    (Some(0), Sort::Double, -2, 3, 1, false),
    (Some(2), Sort::Int, -2, 3, 1, false),
    (Some(0), Sort::Int, -2, 3, 4, false),
    (Some(0), Sort::Int, -2, 3, -3, false),
    (Some(0), Sort::Int, -2, GREATEST + 1, 1, false),
    (Some(0), Sort::Int, -GREATEST - 1, 3, 1, false),
    (Some(0), Sort::Bool, 0, 1, 1, false),
];

fn is_variable_row(alloc: Global, row: &Variable) -> Result<bool, AllocError> {
    let (owner, sort, lo, hi, init, taken) = *row;
    let parts = Parts {
        variable: (owner, sort, lo, hi, init),
        ..PARTS
    };
    Ok(is_taken(alloc, &parts)? == taken)
}

#[test]
fn a_variable_starts_in_its_range_and_has_a_module(rt: HostRuntime) -> Result<(), Fail> {
    for row in &VARIABLES {
        assert!(rt; is_variable_row(rt.alloc(), row)?);
    }
    Ok(())
}

const YES: Leaf = Leaf::Truth;

const ONE: Leaf = Leaf::Whole(1);

/// The first command's module, action, guard and weight, and whether the parts are a chain with it.
type Command = (u32, Option<u32>, Leaf, Leaf, bool);

static COMMANDS: [Command; 10] = [
    (0, None, YES, ONE, true),
    (
        0,
        None,
        Leaf::Var(1, Sort::Bool),
        Leaf::Var(0, Sort::Int),
        true,
    ),
    (2, None, YES, ONE, false),
    (1, None, YES, ONE, false),
    (0, Some(1), YES, ONE, false),
    (0, None, ONE, ONE, false),
    (0, None, Leaf::Init, ONE, false),
    (0, None, Leaf::Var(2, Sort::Bool), ONE, false),
    (0, None, Leaf::Var(0, Sort::Bool), ONE, false),
    (0, None, YES, YES, false),
];

fn is_command_row(alloc: Global, row: &Command) -> Result<bool, AllocError> {
    let (module, action, guard, weight, taken) = *row;
    let parts = Parts {
        command: (module, action, guard, weight),
        ..PARTS
    };
    Ok(is_taken(alloc, &parts)? == taken)
}

#[test]
fn a_command_has_a_module_an_action_a_guard_and_weights(rt: HostRuntime) -> Result<(), Fail> {
    for row in &COMMANDS {
        assert!(rt; is_command_row(rt.alloc(), row)?);
    }
    Ok(())
}

/// The first command's assignments, that of the command with the action, and whether the parts are a chain with them.
type Assigned = (u32, Leaf, u32, u32, Leaf, bool);

static ASSIGNMENTS: [Assigned; 5] = [
    (0, ONE, 1, 0, ONE, true),
    (0, YES, 1, 0, ONE, false),
    (2, YES, 1, 0, ONE, false),
    (1, YES, 1, 0, ONE, false),
    (0, ONE, 1, 1, YES, false),
];

fn is_assigned_row(alloc: Global, row: &Assigned) -> Result<bool, AllocError> {
    let (first, value, second, labelled, right, taken) = *row;
    let parts = Parts {
        sets: (first, value, second),
        labelled: (labelled, right),
        ..PARTS
    };
    Ok(is_taken(alloc, &parts)? == taken)
}

#[test]
fn a_command_assigns_what_it_may_and_once(rt: HostRuntime) -> Result<(), Fail> {
    for row in &ASSIGNMENTS {
        assert!(rt; is_assigned_row(rt.alloc(), row)?);
    }
    Ok(())
}

/// The modules that an action takes of three, of which two have commands with it.
fn is_taking(alloc: Global, takes: &'static [u32], taken: bool) -> Result<bool, AllocError> {
    let parts = Parts {
        takes,
        counts: (1, 1, 3, 1, 1),
        ..PARTS
    };
    Ok(is_taken(alloc, &parts)? == taken)
}

#[test]
fn an_action_takes_exactly_the_modules_that_have_it(rt: HostRuntime) -> Result<(), Fail> {
    let alloc = rt.alloc();
    assert!(rt; is_taking(alloc, &[0, 1], true)?);
    assert!(rt; is_taking(alloc, &[], false)?);
    assert!(rt; is_taking(alloc, &[0], false)?);
    assert!(rt; is_taking(alloc, &[1, 0], false)?);
    assert!(rt; is_taking(alloc, &[0, 1, 1], false)?);
    assert!(rt; is_taking(alloc, &[0, 1, 2], false)?);
    Ok(())
}

/// How many branches of the first command, actions, modules, globals, and commands of the second module there are, and
/// whether the parts are a chain then.
type Counts = (usize, usize, usize, usize, usize, bool);

static COUNTS: [Counts; 7] = [
    (
        MOST_BRANCHES,
        1,
        MOST_MODULES,
        MOST_VARIABLES - 1,
        MOST_COMMANDS - 2,
        true,
    ),
    (0, 1, 2, 1, 1, false),
    (MOST_BRANCHES + 1, 1, 2, 1, 1, false),
    (1, 2, 2, 1, 1, false),
    (1, 1, MOST_MODULES + 1, 1, 1, false),
    (1, 1, 2, MOST_VARIABLES, 1, false),
    (1, 1, 2, 1, MOST_COMMANDS - 1, false),
];

fn is_counted(alloc: Global, row: &Counts) -> Result<bool, AllocError> {
    let (branches, actions, modules, globals, commands, taken) = *row;
    let parts = Parts {
        counts: (branches, actions, modules, globals, commands),
        ..PARTS
    };
    Ok(is_taken(alloc, &parts)? == taken)
}

#[test]
fn a_chain_is_within_the_limits(rt: HostRuntime) -> Result<(), Fail> {
    for row in &COUNTS {
        assert!(rt; is_counted(rt.alloc(), row)?);
    }
    Ok(())
}

/// Whether the parts are a chain with this label.
fn has_label(alloc: Global, label: Leaf) -> Result<bool, AllocError> {
    is_taken(alloc, &Parts { label, ..PARTS })
}

#[test]
fn a_label_is_a_truth_value_of_the_variables(rt: HostRuntime) -> Result<(), Fail> {
    assert!(rt; has_label(rt.alloc(), YES)?);
    assert!(rt; !has_label(rt.alloc(), ONE)?);
    assert!(rt; !has_label(rt.alloc(), Leaf::Init)?);
    Ok(())
}
