//! Choices and steps of three modules with up to two actions, worked out by hand. Each module has a variable from 0
//! to 3. The draws of trace 0 under seed 1 are those of the other steps: of four they pick 1, 1, 3, 3, and of six
//! 2, 1, 4, 5.

use super::*;
use crate::fixtures::{Branch, Command, Tree, chain};
use crate::step_tests::{Row, Way, are_choices, draws_from};
use chain_model::{Chain, TraceFault};
use std::alloc::{AllocError, Global};
use std::test::Fail;

/// A command: its module, its action, its guard, and one branch or two that assign its module's variable.
type Line = (u32, Option<u32>, Tree, Way, Option<Way>);

/// The modules that take part in each action, and the commands.
type Modules = (&'static [&'static [u32]], &'static [Line]);

const A: Option<u32> = Some(0);

const B: Option<u32> = Some(1);

const YES: Tree = Tree::Truth(true);

const NO: Tree = Tree::Truth(false);

const ZERO: Tree = Tree::Number(0, 1);

const ONE: Tree = Tree::Number(1, 1);

const TWO: Tree = Tree::Number(2, 1);

const THREE: Tree = Tree::Number(3, 1);

const HALF: Tree = Tree::Number(1, 2);

const THIRD: Tree = Tree::Number(1, 3);

/// The second module takes part in both actions, and the first has a command of its own.
const SHARED: Modules = (
    &[&[0, 1], &[1, 2]],
    &[
        (0, None, Tree::Is(0, 1), (ONE, ZERO), None),
        (0, A, YES, (ONE, Tree::Var(1)), None),
        (1, A, YES, (ONE, Tree::Var(0)), None),
        (1, B, Tree::Is(1, 2), (ONE, THREE), None),
        (1, B, YES, (ONE, ZERO), None),
        (2, B, YES, (ONE, Tree::Var(1)), None),
    ],
);

/// All three take part in the first action, for which the third waits until its variable is 3.
const WAITING: Modules = (
    &[&[0, 1, 2], &[0, 2]],
    &[
        (0, A, YES, (ONE, ONE), None),
        (0, B, Tree::Is(0, 0), (ONE, TWO), None),
        (1, A, YES, (ONE, ONE), None),
        (2, A, Tree::Is(2, 3), (ONE, ONE), None),
        (2, B, YES, (ONE, THREE), None),
    ],
);

/// Both commands of the first action have two branches.
const BRANCHED: Modules = (
    &[&[0, 1], &[2]],
    &[
        (
            0,
            A,
            YES,
            (HALF, Tree::Plus(0, -1)),
            Some((HALF, Tree::Plus(0, 1))),
        ),
        (1, A, YES, (THIRD, ZERO), Some((Tree::Number(2, 3), THREE))),
        (2, B, Tree::Is(2, 0), (ONE, ONE), None),
    ],
);

/// The first action has two commands in the first module and in the third, and the second has two in the third.
const COMBINED: Modules = (
    &[&[0, 1, 2], &[0, 2]],
    &[
        (0, A, YES, (ONE, ONE), None),
        (0, A, YES, (ONE, TWO), None),
        (0, B, YES, (ONE, THREE), None),
        (1, A, YES, (ONE, ONE), None),
        (2, A, YES, (ONE, ONE), None),
        (2, A, YES, (ONE, TWO), None),
        (2, B, YES, (ONE, THREE), None),
        (2, B, YES, (ONE, Tree::Var(0)), None),
    ],
);

/// Each module moves alone, the third where the first's variable is 0.
const INTERLEAVED: Modules = (
    &[],
    &[
        (0, None, YES, (ONE, Tree::Plus(0, 1)), None),
        (1, None, YES, (ONE, Tree::Plus(1, 1)), None),
        (2, None, Tree::Is(0, 0), (ONE, Tree::Plus(2, 1)), None),
    ],
);

/// The first action is that of the second module alone.
const ALONE: Modules = (
    &[&[1], &[0, 2]],
    &[
        (0, B, YES, (ONE, ONE), None),
        (1, A, YES, (ONE, ONE), None),
        (2, B, YES, (ONE, ONE), None),
    ],
);

/// Weights that are the variables of other modules.
const WEIGHED: Modules = (
    &[&[0, 1]],
    &[
        (0, A, YES, (Tree::Var(2), ZERO), Some((Tree::Var(1), THREE))),
        (1, A, YES, (ONE, Tree::Var(0)), None),
    ],
);

/// A guard that faults behind one that is false.
const FAULT_BEHIND_FALSE: Modules = (
    &[],
    &[
        (0, None, NO, (ONE, ONE), None),
        (1, None, Tree::FaultTruth, (ONE, ONE), None),
        (2, None, YES, (ONE, ONE), None),
    ],
);

/// The same under an action that can't be taken whatever the second guard gives.
const FAULT_OF_A_PART: Modules = (
    &[&[0, 1]],
    &[
        (0, A, NO, (ONE, ONE), None),
        (1, A, Tree::OutsideTruth, (ONE, ONE), None),
        (2, None, YES, (ONE, ONE), None),
    ],
);

/// Two guards that fault.
const TWO_FAULTS: Modules = (
    &[&[0, 2]],
    &[
        (0, A, YES, (ONE, ONE), None),
        (1, None, Tree::OutsideTruth, (ONE, ONE), None),
        (2, A, Tree::FaultTruth, (ONE, ONE), None),
    ],
);

/// A right side that faults before a write outside its range.
const FAULT_BEFORE_RANGE: Modules = (
    &[&[0, 1], &[2]],
    &[
        (0, A, YES, (ONE, Tree::Outside), None),
        (1, A, YES, (ONE, Tree::Plus(1, 3)), None),
        (2, B, YES, (ONE, ONE), None),
    ],
);

/// A write outside its range before a right side that faults.
const RANGE_BEFORE_FAULT: Modules = (
    &[&[0, 1]],
    &[
        (0, A, YES, (ONE, Tree::Plus(0, 3)), None),
        (1, A, YES, (ONE, Tree::Outside), None),
    ],
);

/// A write outside its range by the first command, and weights of the second that don't sum to 1.
const RANGE_BEFORE_WEIGHTS: Modules = (
    &[&[0, 1]],
    &[
        (0, A, YES, (ONE, Tree::Plus(0, 3)), None),
        (1, A, YES, (HALF, ZERO), Some((THIRD, ZERO))),
    ],
);

/// Weights that don't sum to 1 before one that faults.
const WEIGHTS_BEFORE_FAULT: Modules = (
    &[&[0, 1]],
    &[
        (0, A, YES, (HALF, ZERO), Some((THIRD, ZERO))),
        (1, A, YES, (Tree::Fault, ZERO), None),
    ],
);

/// The chain of these modules.
fn chain_of(alloc: Global, modules: &Modules) -> Result<Option<Chain>, AllocError> {
    let mut commands = Vec::new(alloc);
    for &(module, action, guard, (weight, value), second) in modules.1 {
        commands.push(Command {
            module,
            action,
            guard,
            first: Branch {
                weight,
                set: Some((module, value)),
            },
            second: match second {
                Some((weight, value)) => Some(Branch {
                    weight,
                    set: Some((module, value)),
                }),
                None => None,
            },
        })?;
    }
    chain(alloc, 3, modules.0, commands.as_slice())
}

/// How many choices there are, and the first of them; or a fault.
type Listed = Result<(u64, &'static [Row]), TraceFault>;

/// A chain, the values of its variables, how many of its choices are asked for, and what is told.
static CHOICES: [(Modules, [i64; 3], u32, Listed); 18] = [
    (
        SHARED,
        [1, 2, 0],
        9,
        Ok((4, &[(None, &[0]), (A, &[1, 2]), (B, &[3, 5]), (B, &[4, 5])])),
    ),
    (SHARED, [0, 1, 3], 9, Ok((2, &[(A, &[1, 2]), (B, &[4, 5])]))),
    (WAITING, [0, 0, 0], 9, Ok((1, &[(B, &[1, 4])]))),
    (
        WAITING,
        [0, 0, 3],
        9,
        Ok((2, &[(A, &[0, 2, 3]), (B, &[1, 4])])),
    ),
    (WAITING, [1, 0, 0], 9, Ok((0, &[]))),
    (BRANCHED, [1, 2, 0], 9, Ok((2, &[(A, &[0, 1]), (B, &[2])]))),
    (BRANCHED, [1, 2, 3], 9, Ok((1, &[(A, &[0, 1])]))),
    (
        COMBINED,
        [2, 3, 0],
        6,
        Ok((
            6,
            &[
                (A, &[0, 3, 4]),
                (A, &[0, 3, 5]),
                (A, &[1, 3, 4]),
                (A, &[1, 3, 5]),
                (B, &[2, 6]),
                (B, &[2, 7]),
            ],
        )),
    ),
    (
        COMBINED,
        [2, 3, 0],
        3,
        Ok((6, &[(A, &[0, 3, 4]), (A, &[0, 3, 5]), (A, &[1, 3, 4])])),
    ),
    (COMBINED, [2, 3, 0], 0, Ok((6, &[]))),
    (
        INTERLEAVED,
        [0, 0, 0],
        9,
        Ok((3, &[(None, &[0]), (None, &[1]), (None, &[2])])),
    ),
    (
        INTERLEAVED,
        [1, 3, 0],
        9,
        Ok((2, &[(None, &[0]), (None, &[1])])),
    ),
    (ALONE, [0, 0, 0], 9, Ok((2, &[(A, &[1]), (B, &[0, 2])]))),
    (WEIGHED, [2, 2, 1], 9, Ok((1, &[(A, &[0, 1])]))),
    (
        FAULT_BEHIND_FALSE,
        [0, 0, 0],
        9,
        Err(TraceFault::ZeroDivisor),
    ),
    (
        FAULT_OF_A_PART,
        [0, 0, 0],
        9,
        Err(TraceFault::OutsideDomain),
    ),
    (TWO_FAULTS, [0, 0, 0], 0, Err(TraceFault::OutsideDomain)),
    (
        FAULT_BEFORE_RANGE,
        [1, 2, 0],
        9,
        Ok((2, &[(A, &[0, 1]), (B, &[2])])),
    ),
];

/// Whether the choices are those of a row.
fn is_listed(alloc: Global, row: &(Modules, [i64; 3], u32, Listed)) -> Result<bool, AllocError> {
    let (modules, state, most, listed) = row;
    let Some(chain) = chain_of(alloc, modules)? else {
        return Ok(false);
    };
    Ok(match choices(alloc, &chain, state.as_slice(), *most) {
        Ok((count, list)) => match listed {
            Ok((all, rows)) => count == *all && are_choices(list.as_slice(), rows),
            Err(_) => false,
        },
        Err(StepFault::Trace(fault)) => *listed == Err(fault),
        Err(StepFault::OutOfMemory(_)) => false,
    })
}

#[test]
fn modules_offer_the_choices_of_their_enabled_commands(rt: HostRuntime) -> Result<(), Fail> {
    for row in &CHOICES {
        assert!(rt; is_listed(rt.alloc(), row)?);
    }
    Ok(())
}

/// A chain, the values of its variables, the place of the draws, what a step gives, and the place afterwards.
type Step = (Modules, [i64; 3], u64, Result<[i64; 3], TraceFault>, u64);

static STEPS: [Step; 33] = [
    (SHARED, [1, 2, 0], 0, Ok([2, 1, 0]), 1),
    (SHARED, [1, 2, 0], 2, Ok([1, 0, 2]), 3),
    (SHARED, [0, 1, 3], 1, Ok([1, 0, 3]), 2),
    (SHARED, [0, 1, 3], 3, Ok([0, 0, 1]), 4),
    (WAITING, [0, 0, 0], 2, Ok([2, 0, 3]), 2),
    (WAITING, [0, 0, 3], 0, Ok([1, 1, 1]), 1),
    (WAITING, [0, 0, 3], 2, Ok([2, 0, 3]), 3),
    (WAITING, [1, 0, 0], 1, Ok([1, 0, 0]), 1),
    (BRANCHED, [1, 2, 0], 0, Ok([0, 3, 0]), 3),
    (BRANCHED, [1, 2, 0], 1, Ok([2, 3, 0]), 4),
    (BRANCHED, [1, 2, 0], 2, Ok([1, 2, 1]), 3),
    (BRANCHED, [1, 2, 3], 0, Ok([0, 0, 3]), 2),
    (BRANCHED, [1, 2, 3], 1, Ok([0, 3, 3]), 3),
    (COMBINED, [2, 3, 0], 0, Ok([2, 1, 1]), 1),
    (COMBINED, [2, 3, 0], 1, Ok([1, 1, 2]), 2),
    (COMBINED, [2, 3, 0], 2, Ok([3, 3, 3]), 3),
    (COMBINED, [2, 3, 0], 3, Ok([3, 3, 2]), 4),
    (INTERLEAVED, [0, 0, 0], 0, Ok([0, 1, 0]), 1),
    (INTERLEAVED, [0, 0, 0], 1, Ok([1, 0, 0]), 2),
    (INTERLEAVED, [0, 0, 0], 2, Ok([0, 0, 1]), 3),
    (INTERLEAVED, [1, 3, 0], 0, Ok([2, 3, 0]), 1),
    (
        INTERLEAVED,
        [1, 3, 0],
        2,
        Err(TraceFault::Range { var: 1 }),
        2,
    ),
    (ALONE, [0, 0, 0], 0, Ok([0, 1, 0]), 1),
    (ALONE, [0, 0, 0], 2, Ok([1, 0, 1]), 3),
    (WEIGHED, [2, 0, 1], 3, Ok([0, 2, 1]), 4),
    (WEIGHED, [2, 1, 0], 0, Ok([3, 2, 0]), 1),
    (
        WEIGHED,
        [2, 1, 1],
        3,
        Err(TraceFault::Weights { command: 0 }),
        3,
    ),
    (
        FAULT_BEHIND_FALSE,
        [0, 0, 0],
        1,
        Err(TraceFault::ZeroDivisor),
        1,
    ),
    (
        FAULT_BEFORE_RANGE,
        [1, 2, 0],
        0,
        Err(TraceFault::OutsideDomain),
        0,
    ),
    (FAULT_BEFORE_RANGE, [1, 2, 0], 2, Ok([1, 2, 1]), 3),
    (
        RANGE_BEFORE_FAULT,
        [1, 2, 0],
        0,
        Err(TraceFault::Range { var: 0 }),
        0,
    ),
    (
        RANGE_BEFORE_WEIGHTS,
        [1, 2, 0],
        1,
        Err(TraceFault::Weights { command: 1 }),
        1,
    ),
    (
        WEIGHTS_BEFORE_FAULT,
        [1, 2, 0],
        0,
        Err(TraceFault::Weights { command: 0 }),
        0,
    ),
];

/// Whether a step from a place of the draws gives the values or the fault, and leaves the draws at a place.
fn is_step(
    alloc: Global,
    chain: &Chain,
    state: &[i64],
    place: u64,
    gives: &Result<[i64; 3], TraceFault>,
    after: u64,
) -> bool {
    let mut draws = draws_from(place);
    if draws.place() > 1000 {
        return false;
    }
    match plain_step(alloc, chain, state, &mut draws) {
        Ok((next, _)) => match gives {
            Ok(values) => next.as_slice() == values.as_slice() && draws.place() == after,
            Err(_) => false,
        },
        Err(StepFault::Trace(fault)) => *gives == Err(fault) && draws.place() == after,
        Err(StepFault::OutOfMemory(_)) => false,
    }
}

/// Whether a step gives what its row says.
fn is_stepped(alloc: Global, row: &Step) -> Result<bool, AllocError> {
    let (modules, state, place, gives, after) = row;
    match chain_of(alloc, modules)? {
        Some(chain) => Ok(is_step(alloc, &chain, state.as_slice(), *place, gives, *after)),
        None => Ok(false),
    }
}

#[test]
fn modules_move_together_or_not_at_all(rt: HostRuntime) -> Result<(), Fail> {
    for row in &STEPS {
        assert!(rt; is_stepped(rt.alloc(), row)?);
    }
    Ok(())
}
