//! Outcomes of small chains, worked out by hand; those of a die by its rules and the published draws of seed 1.

use crate::fixtures::{Command, Question, Tree, job};
use crate::*;
use chain_model::{Job, PathKind, TraceFault};
use std::alloc::{AllocError, Global};
use std::test::Fail;

/// The outcome of a trace, by a work of its own.
fn outcome_of(alloc: Global, job: &Job, trace: u64) -> Result<Outcome, AllocError> {
    let mut work = TraceWork::new(alloc, job)?;
    Ok(outcome(job, trace, &mut work))
}

/// Counts up to 3, where no command is enabled.
static UP_TO_THREE: [Command; 1] = [Command {
    at: Tree::Below(3),
    assigned: Tree::Next,
    other: None,
}];

/// Counts on past 3, the greatest value of the variable.
static PAST_THREE: [Command; 1] = [Command {
    at: Tree::Truth(true),
    assigned: Tree::Next,
    other: None,
}];

const TRUE: Tree = Tree::Truth(true);

/// The value that the variable starts with, a path formula, and its outcome where the count ends at 3.
static COUNTED: [(i64, Question, Outcome); 17] = [
    (0, (PathKind::Next, TRUE, Tree::Is(1)), Outcome::True),
    (0, (PathKind::Next, TRUE, Tree::Is(0)), Outcome::False),
    (3, (PathKind::Next, TRUE, Tree::Is(3)), Outcome::True),
    (0, (PathKind::Finally(3), TRUE, Tree::Is(3)), Outcome::True),
    (0, (PathKind::Finally(2), TRUE, Tree::Is(3)), Outcome::False),
    (
        0,
        (PathKind::Globally(2), TRUE, Tree::Below(3)),
        Outcome::True,
    ),
    (
        0,
        (PathKind::Globally(3), TRUE, Tree::Below(3)),
        Outcome::False,
    ),
    (
        0,
        (PathKind::Until(5), Tree::Below(2), Tree::Is(2)),
        Outcome::True,
    ),
    (
        0,
        (PathKind::Until(5), Tree::Below(2), Tree::Is(3)),
        Outcome::False,
    ),
    (0, (PathKind::Finally(0), TRUE, Tree::Is(0)), Outcome::True),
    (
        0,
        (PathKind::Until(5), Tree::Is(1), Tree::Is(1)),
        Outcome::False,
    ),
    (
        0,
        (PathKind::Finally(LAST), TRUE, Tree::Is(4)),
        Outcome::False,
    ),
    (
        0,
        (PathKind::Globally(LAST), TRUE, Tree::Below(4)),
        Outcome::True,
    ),
    (
        0,
        (PathKind::Until(LAST), TRUE, Tree::Is(4)),
        Outcome::False,
    ),
    (
        1,
        (PathKind::Globally(9), TRUE, Tree::Inverse),
        Outcome::False,
    ),
    (0, (PathKind::Next, TRUE, Tree::Inverse), DIVIDED),
    (0, (PathKind::Until(0), Tree::Inverse, TRUE), DIVIDED),
];

/// The greatest horizon.
const LAST: u32 = 1_000_000;

const DIVIDED: Outcome = Outcome::Fault {
    step: 0,
    fault: TraceFault::ZeroDivisor,
};

/// Whether trace 0 has the outcome of a row.
fn is_counted(
    alloc: Global,
    commands: &[Command],
    row: &(i64, Question, Outcome),
) -> Result<bool, AllocError> {
    match job(alloc, row.0, 3, commands, row.1)? {
        Some(job) => Ok(outcome_of(alloc, &job, 0)? == row.2),
        None => Ok(false),
    }
}

#[test]
fn a_trace_tells_as_soon_as_its_formula_is_settled(rt: HostRuntime) -> Result<(), Fail> {
    for row in &COUNTED {
        assert!(rt; is_counted(rt.alloc(), &UP_TO_THREE, row)?);
    }
    Ok(())
}

/// The same where the count goes on past 3: a fault counts where it comes before the formula is settled.
static PAST: [(i64, Question, Outcome); 4] = [
    (0, (PathKind::Finally(9), TRUE, Tree::Is(4)), FOURTH),
    (3, (PathKind::Finally(9), TRUE, Tree::Is(4)), FIRST),
    (3, (PathKind::Finally(9), TRUE, Tree::Is(3)), Outcome::True),
    (
        0,
        (PathKind::Globally(3), TRUE, Tree::Below(4)),
        Outcome::True,
    ),
];

/// The variable leaves its range in the fourth step.
const FOURTH: Outcome = Outcome::Fault {
    step: 4,
    fault: TraceFault::Range { var: 0 },
};

/// The same in the first step.
const FIRST: Outcome = Outcome::Fault {
    step: 1,
    fault: TraceFault::Range { var: 0 },
};

#[test]
fn a_fault_has_the_number_of_its_step(rt: HostRuntime) -> Result<(), Fail> {
    for row in &PAST {
        assert!(rt; is_counted(rt.alloc(), &PAST_THREE, row)?);
    }
    Ok(())
}

/// The die of Knuth and Yao, thrown by a coin: at 7 to 12 it shows 1 to 6.
static DIE: [Command; 7] = [
    Command {
        at: Tree::Is(0),
        assigned: Tree::Number(1),
        other: Some(Tree::Number(2)),
    },
    Command {
        at: Tree::Is(1),
        assigned: Tree::Number(3),
        other: Some(Tree::Number(4)),
    },
    Command {
        at: Tree::Is(2),
        assigned: Tree::Number(5),
        other: Some(Tree::Number(6)),
    },
    Command {
        at: Tree::Is(3),
        assigned: Tree::Number(1),
        other: Some(Tree::Number(7)),
    },
    Command {
        at: Tree::Is(4),
        assigned: Tree::Number(8),
        other: Some(Tree::Number(9)),
    },
    Command {
        at: Tree::Is(5),
        assigned: Tree::Number(10),
        other: Some(Tree::Number(11)),
    },
    Command {
        at: Tree::Is(6),
        assigned: Tree::Number(2),
        other: Some(Tree::Number(12)),
    },
];

/// What each trace throws, and after how many steps.
static THROWS: [(u8, u32); 32] = [
    (1, 3),
    (3, 3),
    (1, 5),
    (6, 3),
    (2, 3),
    (3, 5),
    (2, 5),
    (1, 3),
    (4, 9),
    (3, 7),
    (3, 3),
    (2, 3),
    (2, 3),
    (1, 3),
    (3, 5),
    (4, 3),
    (5, 3),
    (2, 3),
    (5, 5),
    (1, 3),
    (1, 5),
    (3, 3),
    (3, 7),
    (5, 5),
    (3, 3),
    (1, 3),
    (1, 3),
    (6, 7),
    (4, 3),
    (1, 3),
    (5, 3),
    (5, 5),
];

fn truth(holds: bool) -> Outcome {
    if holds { Outcome::True } else { Outcome::False }
}

/// Whether each trace is true exactly where it throws this number within these steps, by one work for all.
fn are_thrown(alloc: Global, face: u8, horizon: u32) -> Result<bool, AllocError> {
    let question = (
        PathKind::Finally(horizon),
        TRUE,
        Tree::Is(i64::from(face) + 6),
    );
    let Some(job) = job(alloc, 0, 12, &DIE, question)? else {
        return Ok(false);
    };
    let mut work = TraceWork::new(alloc, &job)?;
    for (trace, (number, steps)) in THROWS.iter().enumerate() {
        let told = outcome(&job, trace as u64, &mut work);
        if told != truth(*number == face && *steps <= horizon) {
            return Ok(false);
        }
    }
    Ok(true)
}

#[test]
fn a_die_is_thrown_by_the_draws_of_its_trace(rt: HostRuntime) -> Result<(), Fail> {
    for (face, horizon) in [(1, 3), (1, LAST), (3, 6), (6, 20)] {
        assert!(rt; are_thrown(rt.alloc(), face, horizon)?);
    }
    Ok(())
}

/// Whether one work gives traces the outcomes that a work of its own gives each, time after time.
fn are_drawn_again(alloc: Global, job: &Job) -> Result<bool, AllocError> {
    let mut work = TraceWork::new(alloc, job)?;
    for _turn in 0..3 {
        for trace in 0..32 {
            if outcome(job, trace, &mut work) != outcome_of(alloc, job, trace)? {
                return Ok(false);
            }
        }
    }
    Ok(true)
}

/// Whether that is so of a path formula over a chain that starts with 0.
fn is_drawn_again(
    alloc: Global,
    commands: &[Command],
    greatest: i64,
    question: Question,
) -> Result<bool, AllocError> {
    match job(alloc, 0, greatest, commands, question)? {
        Some(job) => are_drawn_again(alloc, &job),
        None => Ok(false),
    }
}

/// Path formulas over the die, in which traces come back and draw.
static THROWN_AGAIN: [Question; 3] = [
    (PathKind::Finally(20), TRUE, Tree::Is(9)),
    (PathKind::Globally(7), TRUE, Tree::Below(7)),
    (PathKind::Until(LAST), Tree::Below(8), Tree::Is(7)),
];

/// Path formulas over counts, whose traces stay at the end, or fault.
static COUNTED_AGAIN: [Question; 3] = [
    (PathKind::Globally(9), TRUE, Tree::Below(4)),
    (PathKind::Finally(9), TRUE, Tree::Is(4)),
    (PathKind::Until(9), Tree::Inverse, TRUE),
];

#[test]
fn a_trace_is_the_same_whatever_was_drawn_before_it(rt: HostRuntime) -> Result<(), Fail> {
    for question in &THROWN_AGAIN {
        assert!(rt; is_drawn_again(rt.alloc(), &DIE, 12, *question)?);
    }
    for question in &COUNTED_AGAIN {
        assert!(rt; is_drawn_again(rt.alloc(), &UP_TO_THREE, 3, *question)?);
        assert!(rt; is_drawn_again(rt.alloc(), &PAST_THREE, 3, *question)?);
    }
    Ok(())
}
