//! Steps of chains with several commands, worked out by hand, by the draws that stand in `tests`.

use crate::fixtures::{Branch, Command, STAYS, Tree, job};
use crate::guards::fill;
use crate::tests::{Came, branch, draws_from, first_two, step_from};
use crate::{Moved, Stepper};
use chain_model::{Job, TraceFault, initial};
use std::alloc::{AllocError, Global};
use std::test::Fail;
use trace_streams::Draws;

/// Two modules with two commands each of one action, and a command of a third.
pub static FIVE: [Command; 5] = [
    Command {
        action: Some(0),
        first: Branch {
            weight: Tree::Number(1, 1),
            set: Some((0, Tree::Number(0, 1))),
        },
        ..STAYS
    },
    Command {
        action: Some(0),
        first: Branch {
            weight: Tree::Number(1, 1),
            set: Some((0, Tree::Var(1))),
        },
        ..STAYS
    },
    Command {
        module: 1,
        action: Some(0),
        first: Branch {
            weight: Tree::Number(1, 1),
            set: Some((1, Tree::Number(0, 1))),
        },
        ..STAYS
    },
    Command {
        module: 1,
        action: Some(0),
        first: Branch {
            weight: Tree::Number(1, 1),
            set: Some((1, Tree::Var(0))),
        },
        ..STAYS
    },
    Command { module: 2, ..STAYS },
];

/// The place of the draws, what a step of these gives where the variables are 1 and 2, and the place afterwards: of the
/// five choices the one of the command without an action is the first, and the right sides are read in the old state.
static JOINT: [(u64, (i64, i64), u64); 3] = [(0, (0, 0), 1), (2, (2, 0), 3), (3, (2, 1), 4)];

/// The first two values after a step by the bits of a lane, and the place of the draws.
fn step_by_bits(
    alloc: Global,
    job: &Job,
    place: u64,
) -> Result<Option<((i64, i64), u64)>, AllocError> {
    let guards = crate::commands::guards(alloc, job.chain.commands.as_slice())?;
    let mut bytes = vec![in alloc; 0; job.chain.commands.len()]?;
    let mut state = initial(alloc, &job.chain)?;
    match fill(&job.chain, guards.as_slice(), &state, &mut bytes) {
        Ok(_) => {}
        Err(_) => return Ok(None),
    }
    let mut stepper = Stepper::new(alloc, job)?;
    let mut draws = draws_from(place);
    match stepper.step_enabled(job, &bytes, 0, &mut state, &mut draws) {
        Ok(()) => Ok(Some((first_two(&state), draws.place()))),
        Err(_) => Ok(None),
    }
}

/// Whether a step of these commands gives what a row says, both ways.
fn is_joint(
    alloc: Global,
    commands: &[Command],
    row: &(u64, (i64, i64), u64),
) -> Result<bool, AllocError> {
    let (place, gives, after) = *row;
    match job(alloc, &[1, 2, 0], &[0, 1], commands)? {
        Some(job) => Ok(
            step_from(alloc, &job, place)? == (Ok(Moved::Taken), gives, after)
                && step_by_bits(alloc, &job, place)? == Some((gives, after)),
        ),
        None => Ok(false),
    }
}

#[test]
fn a_choice_is_drawn_and_read_in_the_old_state(rt: HostRuntime) -> Result<(), Fail> {
    for row in &JOINT {
        assert!(rt; is_joint(rt.alloc(), &FIVE, row)?);
    }
    Ok(())
}

/// Two modules with two commands each of one action, one of which is enabled where the variables are 1 and 2.
pub static ONE: [Command; 4] = [
    Command {
        action: Some(0),
        guard: Tree::Is(0, 0),
        first: Branch {
            weight: Tree::Number(1, 1),
            set: Some((0, Tree::Number(3, 1))),
        },
        ..STAYS
    },
    Command {
        action: Some(0),
        guard: Tree::Is(0, 1),
        first: Branch {
            weight: Tree::Number(1, 1),
            set: Some((0, Tree::Var(1))),
        },
        ..STAYS
    },
    Command {
        module: 1,
        action: Some(0),
        guard: Tree::Is(1, 2),
        first: Branch {
            weight: Tree::Number(1, 1),
            set: Some((1, Tree::Var(0))),
        },
        ..STAYS
    },
    Command {
        module: 1,
        action: Some(0),
        guard: Tree::Is(1, 3),
        first: Branch {
            weight: Tree::Number(1, 1),
            set: Some((1, Tree::Number(3, 1))),
        },
        ..STAYS
    },
];

#[test]
fn one_choice_is_taken_without_a_draw(rt: HostRuntime) -> Result<(), Fail> {
    assert!(rt; is_joint(rt.alloc(), &ONE, &(1, (2, 1), 1))?);
    assert!(rt; is_joint(rt.alloc(), &TWO, &(1, (2, 1), 1))?);
    Ok(())
}

/// Two modules with one command each of two actions, of which the second alone is possible where the variables are 1
/// and 2.
static TWO: [Command; 4] = [
    Command {
        action: Some(0),
        guard: Tree::Is(0, 0),
        first: Branch {
            weight: Tree::Number(1, 1),
            set: Some((0, Tree::Number(3, 1))),
        },
        ..STAYS
    },
    Command {
        action: Some(1),
        first: Branch {
            weight: Tree::Number(1, 1),
            set: Some((0, Tree::Var(1))),
        },
        ..STAYS
    },
    Command {
        module: 1,
        action: Some(0),
        first: Branch {
            weight: Tree::Number(1, 1),
            set: Some((1, Tree::Number(3, 1))),
        },
        ..STAYS
    },
    Command {
        module: 1,
        action: Some(1),
        first: Branch {
            weight: Tree::Number(1, 1),
            set: Some((1, Tree::Var(0))),
        },
        ..STAYS
    },
];

#[test]
fn a_draw_picks_one_of_two_possible_actions(rt: HostRuntime) -> Result<(), Fail> {
    let mut both = TWO;
    both[0].guard = Tree::Is(0, 1);
    assert!(rt; is_joint(rt.alloc(), &both, &(0, (3, 3), 1))?);
    assert!(rt; is_joint(rt.alloc(), &both, &(2, (2, 1), 3))?);
    Ok(())
}

/// So many modules, each with two commands of the one action.
fn many(alloc: Global, modules: u32) -> Result<Option<Job>, Fail> {
    let mut commands = Vec::new(alloc);
    let mut takes = Vec::new(alloc);
    let mut starts = Vec::new(alloc);
    for module in 0..modules {
        let command = Command {
            module,
            action: Some(0),
            ..STAYS
        };
        commands.push(command)?;
        commands.push(command)?;
        takes.push(module)?;
        starts.push(0)?;
    }
    Ok(job(
        alloc,
        starts.as_slice(),
        takes.as_slice(),
        commands.as_slice(),
    )?)
}

/// How many modules there are, and what a step gives.
static MANY: [(u32, Came); 2] = [
    (48, (Ok(Moved::Taken), (0, 0), 1)),
    (49, (Err(TraceFault::Choices), (0, 0), 0)),
];

/// Whether a step of so many modules gives what a row says.
fn is_many(alloc: Global, row: &(u32, Came)) -> Result<bool, Fail> {
    match many(alloc, row.0)? {
        Some(job) => Ok(step_from(alloc, &job, 0)? == row.1),
        None => Ok(false),
    }
}

#[test]
fn too_many_choices_are_a_fault(rt: HostRuntime) -> Result<(), Fail> {
    for row in &MANY {
        assert!(rt; is_many(rt.alloc(), row)?);
    }
    Ok(())
}

/// What a step of a command that adds one to the first variable gives where that is 3, and its value afterwards.
fn step_past(alloc: Global) -> Result<Option<(Result<(), TraceFault>, i64)>, AllocError> {
    let command = Command {
        first: branch((Tree::Number(1, 1), Tree::Plus(0, 1))),
        ..STAYS
    };
    let Some(job) = job(alloc, &[3], &[], &[command])? else {
        return Ok(None);
    };
    let mut stepper = Stepper::new(alloc, &job)?;
    let mut state = initial(alloc, &job.chain)?;
    let mut draws = Draws::new(1, 0);
    let stepped = stepper.step(&job, &mut state, &mut draws);
    Ok(Some((stepped, first_two(&state).0)))
}

#[test]
fn a_fault_leaves_the_state_as_it_was(rt: HostRuntime) -> Result<(), Fail> {
    assert!(rt; step_past(rt.alloc())? == Some((Err(TraceFault::Range { var: 0 }), 3)));
    Ok(())
}
