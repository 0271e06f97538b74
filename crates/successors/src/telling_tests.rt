//! What is told of next states and of choices before a step, worked out by hand, by the draws that stand in `tests`.

use crate::choice_tests::{FIVE, ONE};
use crate::fixtures::{Branch, Command, STAYS, Tree, job};
use crate::tests::{Came, HALF, Way, branch, draws_from, first_two, step_from};
use crate::{Moved, Next, Stepper};
use chain_model::{Job, TraceFault, initial};
use std::alloc::{AllocError, Global};
use std::test::Fail;

/// What is told of a state's next states, and the first two values of both.
type Told = (Next, (i64, i64), (i64, i64));

/// What is told of the next states of a job's initial state.
fn told_from(alloc: Global, job: &Job) -> Result<Told, AllocError> {
    let mut stepper = Stepper::new(alloc, job)?;
    let state = initial(alloc, &job.chain)?;
    let mut first = initial(alloc, &job.chain)?;
    let mut second = initial(alloc, &job.chain)?;
    let next = stepper.next_states(job, &state, &mut first, &mut second);
    Ok((next, first_two(&first), first_two(&second)))
}

/// Whether two are told the same, and the states that are told are.
fn is_same_told(told: Told, other: Told) -> bool {
    let states = told.1 == other.1 && told.2 == other.2;
    match told.0 {
        Next::One | Next::Drawn(_) => told.0 == other.0 && states,
        Next::Stays | Next::Untold => told.0 == other.0,
    }
}

/// The guard of a command, one branch or two, and what is told where the variables are 1 and 2. Half of the draws are
/// those below 2^63, and a third those below 6148914691236517206.
static NEXTS: [(Tree, Way, Option<Way>, Told); 9] = [
    (
        Tree::Is(0, 0),
        (Tree::Number(1, 1), Tree::Var(0)),
        None,
        (Next::Stays, (0, 0), (0, 0)),
    ),
    (
        Tree::Is(0, 1),
        (Tree::Number(1, 1), Tree::Plus(0, 1)),
        None,
        (Next::One, (2, 2), (2, 2)),
    ),
    (
        Tree::Is(0, 1),
        (HALF, Tree::Plus(0, -1)),
        Some((HALF, Tree::Plus(0, 2))),
        (Next::Drawn(9_223_372_036_854_775_808), (0, 2), (3, 2)),
    ),
    (
        Tree::Is(0, 1),
        (Tree::Third(0), Tree::Number(0, 1)),
        Some((Tree::Third(1), Tree::Var(1))),
        (Next::Drawn(6_148_914_691_236_517_206), (0, 2), (2, 2)),
    ),
    (
        Tree::Is(0, 1),
        (Tree::Number(0, 1), Tree::Plus(0, -2)),
        Some((Tree::Number(1, 1), Tree::Var(1))),
        (Next::Drawn(0), (2, 2), (2, 2)),
    ),
    (
        Tree::Is(0, 1),
        (Tree::Number(1, 1), Tree::Var(1)),
        Some((Tree::Number(0, 1), Tree::Plus(0, -2))),
        (Next::Drawn(0), (2, 2), (2, 2)),
    ),
    (
        Tree::Is(0, 1),
        (HALF, Tree::Plus(0, -2)),
        Some((HALF, Tree::Var(0))),
        (Next::Untold, (0, 0), (0, 0)),
    ),
    (
        Tree::Is(0, 1),
        (HALF, Tree::Var(0)),
        Some((Tree::Third(0), Tree::Var(0))),
        (Next::Untold, (0, 0), (0, 0)),
    ),
    (
        Tree::FaultTruth,
        (Tree::Number(1, 1), Tree::Var(0)),
        None,
        (Next::Untold, (0, 0), (0, 0)),
    ),
];

/// What is told of the initial state of a chain of commands.
fn told_of(
    alloc: Global,
    starts: &[i64],
    takes: &[u32],
    commands: &[Command],
) -> Result<Option<Told>, AllocError> {
    match job(alloc, starts, takes, commands)? {
        Some(job) => Ok(Some(told_from(alloc, &job)?)),
        None => Ok(None),
    }
}

/// Whether this is told of the initial state of a chain of commands.
fn is_told(
    alloc: Global,
    starts: &[i64],
    takes: &[u32],
    commands: &[Command],
    told: Told,
) -> Result<bool, AllocError> {
    match told_of(alloc, starts, takes, commands)? {
        Some(other) => Ok(is_same_told(told, other)),
        None => Ok(false),
    }
}

/// Whether what a row says is told.
fn is_next(alloc: Global, row: &(Tree, Way, Option<Way>, Told)) -> Result<bool, AllocError> {
    let (guard, first, second, told) = *row;
    let command = Command {
        guard,
        first: branch(first),
        second: match second {
            Some(way) => Some(branch(way)),
            None => None,
        },
        ..STAYS
    };
    is_told(alloc, &[1, 2], &[], &[command], told)
}

#[test]
fn one_draw_at_most_tells_the_next_states(rt: HostRuntime) -> Result<(), Fail> {
    for row in &NEXTS {
        assert!(rt; is_next(rt.alloc(), row)?);
    }
    Ok(())
}

/// Two modules with one command each of one action: one is certain, and of the other a draw decides the branch.
static TOSS: [Command; 2] = [
    Command {
        action: Some(0),
        first: Branch {
            weight: Tree::Number(1, 1),
            set: Some((0, Tree::Var(1))),
        },
        ..STAYS
    },
    Command {
        module: 1,
        action: Some(0),
        first: Branch {
            weight: HALF,
            set: Some((1, Tree::Var(0))),
        },
        second: Some(Branch {
            weight: HALF,
            set: Some((1, Tree::Number(3, 1))),
        }),
        ..STAYS
    },
];

#[test]
fn the_commands_of_one_choice_tell_the_next_states(rt: HostRuntime) -> Result<(), Fail> {
    let sure = (Next::One, (2, 1), (2, 1));
    let by_draw = (Next::Drawn(9_223_372_036_854_775_808), (2, 1), (2, 3));
    let untold = (Next::Untold, (0, 0), (0, 0));
    assert!(rt; is_told(rt.alloc(), &[1, 2, 0], &[0, 1], &ONE, sure)?);
    assert!(rt; is_told(rt.alloc(), &[1, 2], &[0, 1], &TOSS, by_draw)?);
    assert!(rt; is_told(rt.alloc(), &[1, 2, 0], &[0, 1], &FIVE, untold)?);
    Ok(())
}

/// The commands of known choices, and what a step by them gives.
type KnownStep<'a> = (&'a [u32], Came);

/// Whether the known choices of a job's initial state, with this room for them, and a step by them are those that are
/// given. The step is also that of `advance`.
fn is_known_from(
    alloc: Global,
    job: &Job,
    room: &mut [u32],
    place: u64,
    gives: Option<KnownStep<'_>>,
) -> Result<bool, AllocError> {
    let mut stepper = Stepper::new(alloc, job)?;
    let mut state = initial(alloc, &job.chain)?;
    let mut draws = draws_from(place);
    let Some(listed) = stepper.known_choices(job, &state, room) else {
        return Ok(gives.is_none());
    };
    let Some((commands, came)) = gives else {
        return Ok(false);
    };
    let written = &room[..listed.count * listed.size];
    let result = match stepper.take_known(job, listed, written, &mut state, &mut draws) {
        Ok(()) => Ok(Moved::Taken),
        Err(fault) => Err(fault),
    };
    Ok(
        written == commands
            && (result, first_two(&state), draws.place()) == came
            && step_from(alloc, job, place)? == came,
    )
}

/// The same of commands, with room for so many, where the draws begin at a place.
fn is_known(
    alloc: Global,
    takes: &[u32],
    commands: &[Command],
    size: usize,
    place: u64,
    gives: Option<KnownStep<'_>>,
) -> Result<bool, AllocError> {
    let mut room = vec![in alloc; 0; size]?;
    match job(alloc, &[1, 2, 0], takes, commands)? {
        Some(job) => is_known_from(alloc, &job, &mut room, place, gives),
        None => Ok(false),
    }
}

#[test]
fn known_choices_are_written_and_taken(rt: HostRuntime) -> Result<(), Fail> {
    let past = Command {
        first: branch((Tree::Number(1, 1), Tree::Plus(0, 3))),
        ..STAYS
    };
    let alone: &[u32] = &[0];
    let fault = Some((alone, (Err(TraceFault::Range { var: 0 }), (1, 2), 2)));
    let joint: &[u32] = &[0, 2, 0, 3, 1, 2, 1, 3];
    let second = Some((joint, (Ok(Moved::Taken), (0, 1), 1)));
    let last = Some((joint, (Ok(Moved::Taken), (2, 1), 3)));
    let pair: &[u32] = &[0, 1];
    let toss = Some((pair, (Ok(Moved::Taken), (2, 3), 3)));
    assert!(rt; is_known(rt.alloc(), &[0, 1], &TOSS, 2, 2, toss)?);
    assert!(rt; is_known(rt.alloc(), &[], &[past], 3, 2, fault)?);
    assert!(rt; is_known(rt.alloc(), &[0, 1], &TOSS, 1, 2, None)?);
    assert!(rt; is_known(rt.alloc(), &[0, 1], &FIVE[..4], 8, 0, second)?);
    assert!(rt; is_known(rt.alloc(), &[0, 1], &FIVE[..4], 9, 2, last)?);
    assert!(rt; is_known(rt.alloc(), &[0, 1], &FIVE[..4], 7, 0, None)?);
    assert!(rt; is_known(rt.alloc(), &[0, 1], &FIVE, 9, 0, None)?);
    Ok(())
}
