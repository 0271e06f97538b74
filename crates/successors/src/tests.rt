//! Steps of small chains, worked out by hand. The draws of trace 0 under seed 1 begin with 7037237572835827407,
//! 5440448899038119230, 14725191807199933458 and 16900043976841441594: of two parts they pick 0, 0, 1, 1, of three
//! 1, 0, 2, 2 and of five 1, 1, 3, 4.

ghost use Rattle.std.specs.Prelude.{◌<◌};

use crate::fixtures::{Branch, Command, STAYS, Tree, job};
use crate::{Moved, Stepper};
use chain_model::{Job, TraceFault, initial};
use std::alloc::{AllocError, Global};
use std::test::Fail;
use trace_streams::Draws;

/// What a step gave, the first two values afterwards, and the place of the draws.
pub type Came = (Result<Moved, TraceFault>, (i64, i64), u64);

/// The draws of trace 0 from a place on, up to 9.
pub fn draws_from(place: u64) -> Draws
    ensures { result.place < 10 }
{
    let mut draws = Draws::new(1, 0);
    for step in 0..9 {
        if step < place {
            draws.next();
        }
    }
    draws
}

/// The first two values of a state.
pub fn first_two(state: &[i64]) -> (i64, i64) {
    match state {
        [first, second, ..] => (*first, *second),
        [first] => (*first, 0),
        [] => (0, 0),
    }
}

/// What a step from the initial state of a job gives.
pub fn step_from(alloc: Global, job: &Job, place: u64) -> Result<Came, AllocError> {
    let mut stepper = Stepper::new(alloc, job)?;
    let mut state = initial(alloc, &job.chain)?;
    let mut draws = draws_from(place);
    let moved = stepper.advance(job, &mut state, &mut draws);
    Ok((moved, first_two(&state), draws.place()))
}

pub const HALF: Tree = Tree::Number(1, 2);

/// A weight, and what the first variable is assigned.
pub type Way = (Tree, Tree);

/// One branch or two of a command, the place of the draws, and what a step gives where the variables are 1 and 2.
type Row = (Way, Option<Way>, u64, Came);

static STEPS: [Row; 15] = [
    (
        (Tree::Number(1, 1), Tree::Plus(0, 1)),
        None,
        0,
        (Ok(Moved::Taken), (2, 2), 0),
    ),
    (
        (Tree::Number(1, 1), Tree::Number(3, 1)),
        None,
        0,
        (Ok(Moved::Taken), (3, 2), 0),
    ),
    (
        (HALF, Tree::Plus(0, -1)),
        Some((HALF, Tree::Plus(0, 2))),
        0,
        (Ok(Moved::Taken), (0, 2), 1),
    ),
    (
        (HALF, Tree::Plus(0, -1)),
        Some((HALF, Tree::Plus(0, 2))),
        2,
        (Ok(Moved::Taken), (3, 2), 3),
    ),
    (
        (Tree::Number(1, 3), Tree::Number(0, 1)),
        Some((Tree::Number(2, 3), Tree::Var(1))),
        0,
        (Ok(Moved::Taken), (2, 2), 1),
    ),
    (
        (Tree::Third(0), Tree::Number(0, 1)),
        Some((Tree::Third(1), Tree::Var(1))),
        1,
        (Ok(Moved::Taken), (0, 2), 2),
    ),
    (
        (Tree::Number(1, 1), Tree::Number(0, 1)),
        Some((Tree::Number(0, 1), Tree::Var(1))),
        3,
        (Ok(Moved::Taken), (0, 2), 4),
    ),
    (
        (HALF, Tree::Var(0)),
        Some((Tree::Number(1, 3), Tree::Var(0))),
        0,
        (Err(TraceFault::Weights { command: 0 }), (1, 2), 0),
    ),
    (
        (Tree::Number(3, 2), Tree::Var(0)),
        Some((Tree::Fault, Tree::Var(0))),
        0,
        (Err(TraceFault::Weights { command: 0 }), (1, 2), 0),
    ),
    (
        (Tree::Fault, Tree::Var(0)),
        Some((Tree::Number(3, 2), Tree::Var(0))),
        0,
        (Err(TraceFault::ZeroDivisor), (1, 2), 0),
    ),
    (
        (Tree::Number(1, LIMIT), Tree::Var(1)),
        Some((Tree::Number(LIMIT - 1, LIMIT), Tree::Var(0))),
        0,
        (Ok(Moved::Taken), (1, 2), 1),
    ),
    (
        (Tree::Number(1, LIMIT + 1), Tree::Var(1)),
        Some((Tree::Number(LIMIT, LIMIT + 1), Tree::Var(0))),
        0,
        (Err(TraceFault::Denominator { command: 0 }), (1, 2), 0),
    ),
    (
        (Tree::Number(1, 1), Tree::Plus(0, 3)),
        None,
        1,
        (Err(TraceFault::Range { var: 0 }), (1, 2), 1),
    ),
    (
        (HALF, Tree::Plus(0, -2)),
        Some((Tree::Number(1, 1), Tree::Var(0))),
        1,
        (Err(TraceFault::Weights { command: 0 }), (1, 2), 1),
    ),
    (
        (HALF, Tree::Plus(0, -2)),
        Some((HALF, Tree::Var(0))),
        1,
        (Err(TraceFault::Range { var: 0 }), (1, 2), 1),
    ),
];

/// The greatest common denominator of weights that is allowed.
const LIMIT: i64 = 281_474_976_710_656;

/// A branch that assigns the first variable.
pub fn branch(way: Way) -> Branch {
    Branch {
        weight: way.0,
        set: Some((0, way.1)),
    }
}

/// What a step of a chain of one command gives where the variables are 1 and 2.
fn step_of(alloc: Global, command: Command, place: u64) -> Result<Option<Came>, AllocError> {
    match job(alloc, &[1, 2], &[], &[command])? {
        Some(job) => Ok(Some(step_from(alloc, &job, place)?)),
        None => Ok(None),
    }
}

/// Whether a step gives what a row says.
fn is_taken(alloc: Global, row: &Row) -> Result<bool, AllocError> {
    let (first, second, place, came) = *row;
    let command = Command {
        first: branch(first),
        second: match second {
            Some(way) => Some(branch(way)),
            None => None,
        },
        ..STAYS
    };
    Ok(step_of(alloc, command, place)? == Some(came))
}

#[test]
fn a_command_takes_the_branch_that_a_draw_picks(rt: HostRuntime) -> Result<(), Fail> {
    for row in &STEPS {
        assert!(rt; is_taken(rt.alloc(), row)?);
    }
    Ok(())
}

/// A guard, and what a step of a command with it gives.
static GUARDS: [(Tree, Came); 3] = [
    (Tree::Truth(false), (Ok(Moved::Stayed), (1, 2), 1)),
    (Tree::Is(0, 1), (Ok(Moved::Taken), (1, 2), 1)),
    (Tree::FaultTruth, (Err(TraceFault::ZeroDivisor), (1, 2), 1)),
];

/// Whether a step gives what a row says.
fn is_guarded(alloc: Global, row: &(Tree, Came)) -> Result<bool, AllocError> {
    let command = Command {
        guard: row.0,
        ..STAYS
    };
    Ok(step_of(alloc, command, 1)? == Some(row.1))
}

#[test]
fn a_state_without_a_choice_stays(rt: HostRuntime) -> Result<(), Fail> {
    for row in &GUARDS {
        assert!(rt; is_guarded(rt.alloc(), row)?);
    }
    Ok(())
}
