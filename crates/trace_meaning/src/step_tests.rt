//! Choices and steps of small chains, worked out by hand. The draws of trace 0 under seed 1 begin with
//! 7037237572835827407, 5440448899038119230, 14725191807199933458 and 16900043976841441594: of two parts they pick
//! 0, 0, 1, 1, of three 1, 0, 2, 2 and of five 1, 1, 3, 4.

use super::*;
use crate::fixtures::{Branch, Command, STAYS, Tree, chain};
use chain_model::{Chain, TraceFault};
use std::alloc::{AllocError, Global};
use std::test::Fail;
use trace_streams::Draws;

/// The draws of trace 0 under seed 1, from a place on.
pub fn draws_from(place: u64) -> Draws {
    let mut draws = Draws::new(1, 0);
    for _ in 0..place {
        if draws.place() < 1000 {
            draws.next();
        }
    }
    draws
}

/// The first two values of the next state, or a fault; and the place of the draws afterwards. There is none where
/// memory ran out.
fn step_from(
    alloc: Global,
    chain: &Chain,
    state: &[i64],
    place: u64,
) -> Option<(Result<(i64, i64), TraceFault>, u64)> {
    let mut draws = draws_from(place);
    if draws.place() > 1000 {
        return None;
    }
    match plain_step(alloc, chain, state, &mut draws) {
        Ok((next, _)) => match next.as_slice() {
            [first, second, ..] => Some((Ok((*first, *second)), draws.place())),
            _ => None,
        },
        Err(StepFault::Trace(fault)) => Some((Err(fault), draws.place())),
        Err(StepFault::OutOfMemory(_)) => None,
    }
}

const HALF: Tree = Tree::Number(1, 2);

/// A weight, and what a variable is assigned.
pub type Way = (Tree, Tree);

/// One branch or two of a command that assign the first variable, the place of the draws, what a step gives where the variables are 1 and 2, and the
/// place afterwards.
static STEPS: [(Way, Option<Way>, u64, Result<(i64, i64), TraceFault>, u64); 13] = [
    (
        (Tree::Number(1, 1), Tree::Plus(0, 1)),
        None,
        0,
        Ok((2, 2)),
        0,
    ),
    (
        (HALF, Tree::Plus(0, -1)),
        Some((HALF, Tree::Plus(0, 2))),
        0,
        Ok((0, 2)),
        1,
    ),
    (
        (HALF, Tree::Plus(0, -1)),
        Some((HALF, Tree::Plus(0, 2))),
        2,
        Ok((3, 2)),
        3,
    ),
    (
        (Tree::Number(1, 3), Tree::Number(0, 1)),
        Some((Tree::Number(2, 3), Tree::Var(1))),
        0,
        Ok((2, 2)),
        1,
    ),
    (
        (Tree::Number(1, 3), Tree::Number(0, 1)),
        Some((Tree::Number(2, 3), Tree::Var(1))),
        1,
        Ok((0, 2)),
        2,
    ),
    (
        (HALF, Tree::Var(0)),
        Some((Tree::Number(1, 3), Tree::Var(0))),
        0,
        Err(TraceFault::Weights { command: 0 }),
        0,
    ),
    (
        (Tree::Number(3, 2), Tree::Var(0)),
        Some((Tree::Fault, Tree::Var(0))),
        0,
        Err(TraceFault::Weights { command: 0 }),
        0,
    ),
    (
        (Tree::Fault, Tree::Var(0)),
        Some((Tree::Number(3, 2), Tree::Var(0))),
        0,
        Err(TraceFault::ZeroDivisor),
        0,
    ),
    (
        (Tree::Number(1, LIMIT), Tree::Var(1)),
        Some((Tree::Number(LIMIT - 1, LIMIT), Tree::Var(0))),
        0,
        Ok((1, 2)),
        1,
    ),
    (
        (Tree::Number(1, LIMIT + 1), Tree::Var(1)),
        Some((Tree::Number(LIMIT, LIMIT + 1), Tree::Var(0))),
        0,
        Err(TraceFault::Denominator { command: 0 }),
        0,
    ),
    (
        (Tree::Number(1, 1), Tree::Plus(0, 3)),
        None,
        1,
        Err(TraceFault::Range { var: 0 }),
        1,
    ),
    (
        (HALF, Tree::Plus(0, -2)),
        Some((Tree::Number(1, 1), Tree::Var(0))),
        1,
        Err(TraceFault::Weights { command: 0 }),
        1,
    ),
    (
        (HALF, Tree::Plus(0, -2)),
        Some((HALF, Tree::Var(0))),
        1,
        Err(TraceFault::Range { var: 0 }),
        1,
    ),
];

/// The greatest common denominator of weights that is allowed.
const LIMIT: i64 = 281_474_976_710_656;

/// A branch that assigns the first variable.
fn branch(way: Way) -> Branch {
    Branch {
        weight: way.0,
        set: Some((0, way.1)),
    }
}

/// What a step of a chain of two variables and one command gives, and the place of the draws afterwards.
fn step_of(
    alloc: Global,
    command: Command,
    place: u64,
) -> Result<Option<(Result<(i64, i64), TraceFault>, u64)>, AllocError> {
    match chain(alloc, 2, &[], &[command])? {
        Some(chain) => Ok(step_from(alloc, &chain, &[1, 2], place)),
        None => Ok(None),
    }
}

/// Whether a step gives what a row says.
fn is_taken(
    alloc: Global,
    row: &(Way, Option<Way>, u64, Result<(i64, i64), TraceFault>, u64),
) -> Result<bool, AllocError> {
    let (first, second, place, gives, after) = *row;
    let command = Command {
        first: branch(first),
        second: match second {
            Some(way) => Some(branch(way)),
            None => None,
        },
        ..STAYS
    };
    Ok(step_of(alloc, command, place)? == Some((gives, after)))
}

#[test]
fn a_command_takes_the_branch_that_a_draw_picks(rt: HostRuntime) -> Result<(), Fail> {
    for row in &STEPS {
        assert!(rt; is_taken(rt.alloc(), row)?);
    }
    Ok(())
}

#[test]
fn a_state_without_a_choice_stays(rt: HostRuntime) -> Result<(), Fail> {
    let command = Command {
        guard: Tree::Truth(false),
        ..STAYS
    };
    assert!(rt; step_of(rt.alloc(), command, 1)? == Some((Ok((1, 2)), 1)));
    Ok(())
}

/// Two modules with two commands each of one action, and a command of a third.
static FIVE: [Command; 5] = [
    Command {
        action: Some(0),
        first: Branch {
            weight: Tree::Number(1, 1),
            set: Some((0, Tree::Number(0, 1))),
        },
        ..STAYS
    },
    Command {
        action: Some(0),
        first: Branch {
            weight: Tree::Number(1, 1),
            set: Some((0, Tree::Var(1))),
        },
        ..STAYS
    },
    Command {
        module: 1,
        action: Some(0),
        first: Branch {
            weight: Tree::Number(1, 1),
            set: Some((1, Tree::Number(0, 1))),
        },
        ..STAYS
    },
    Command {
        module: 1,
        action: Some(0),
        first: Branch {
            weight: Tree::Number(1, 1),
            set: Some((1, Tree::Var(0))),
        },
        ..STAYS
    },
    Command { module: 2, ..STAYS },
];

/// A choice: its action, and its commands.
pub type Row = (Option<u32>, &'static [u32]);

/// What these may do.
static CHOICES: [Row; 5] = [
    (None, &[4]),
    (Some(0), &[0, 2]),
    (Some(0), &[0, 3]),
    (Some(0), &[1, 2]),
    (Some(0), &[1, 3]),
];

/// Whether a choice is the one of its row.
fn is_choice(choice: &Choice, row: &Row) -> bool {
    choice.action == row.0 && choice.commands.as_slice() == row.1
}

/// Whether choices are those of a table, in its order.
pub fn are_choices(list: &[Choice], rows: &[Row]) -> bool {
    list.len() == rows.len()
        && list
            .iter()
            .zip(rows)
            .all(|(choice, row)| is_choice(choice, row))
}

/// Whether the five commands have the choices of the table.
fn has_choices(alloc: Global) -> Result<bool, AllocError> {
    let Some(chain) = chain(alloc, 3, &[&[0, 1]], &FIVE)? else {
        return Ok(false);
    };
    match choices(alloc, &chain, &[1, 2, 0], 7) {
        Ok((count, list)) => Ok(count == 5 && are_choices(list.as_slice(), &CHOICES)),
        Err(_) => Ok(false),
    }
}

#[test]
fn choices_stand_in_order(rt: HostRuntime) -> Result<(), Fail> {
    assert!(rt; has_choices(rt.alloc())?);
    Ok(())
}

/// The place of the draws, what a step of these gives where the variables are 1 and 2, and the place afterwards: the
/// right sides are read in the old state.
static JOINT: [(u64, (i64, i64), u64); 3] = [(0, (0, 0), 1), (2, (2, 0), 3), (3, (2, 1), 4)];

/// Whether a step of the five commands gives what a row says.
fn is_joint(alloc: Global, row: &(u64, (i64, i64), u64)) -> Result<bool, AllocError> {
    let (place, gives, after) = *row;
    match chain(alloc, 3, &[&[0, 1]], &FIVE)? {
        Some(chain) => Ok(step_from(alloc, &chain, &[1, 2, 0], place) == Some((Ok(gives), after))),
        None => Ok(false),
    }
}

#[test]
fn a_choice_is_drawn_and_read_in_the_old_state(rt: HostRuntime) -> Result<(), Fail> {
    for row in &JOINT {
        assert!(rt; is_joint(rt.alloc(), row)?);
    }
    Ok(())
}

/// So many modules, each with two commands of the one action.
fn many(alloc: Global, modules: u32) -> Result<Option<Chain>, Fail> {
    let mut commands = Vec::new(alloc);
    let mut takes = Vec::new(alloc);
    for module in 0..modules {
        let command = Command {
            module,
            action: Some(0),
            ..STAYS
        };
        commands.push(command)?;
        commands.push(command)?;
        takes.push(module)?;
    }
    Ok(chain(alloc, modules, &[takes.as_slice()], commands.as_slice())?)
}

/// How many modules there are, what a step gives, and the place of the draws afterwards.
static MANY: [(u32, Result<(i64, i64), TraceFault>, u64); 2] = [
    (48, Ok((0, 0)), 1),
    (49, Err(TraceFault::Choices), 0),
];

/// Whether a step of so many modules gives what a row says.
fn is_many(alloc: Global, row: &(u32, Result<(i64, i64), TraceFault>, u64)) -> Result<bool, Fail> {
    let (modules, gives, after) = *row;
    match many(alloc, modules)? {
        Some(chain) => Ok(step_from(alloc, &chain, &[0; 49], 0) == Some((gives, after))),
        None => Ok(false),
    }
}

#[test]
fn too_many_choices_are_a_fault(rt: HostRuntime) -> Result<(), Fail> {
    for row in &MANY {
        assert!(rt; is_many(rt.alloc(), row)?);
    }
    Ok(())
}
