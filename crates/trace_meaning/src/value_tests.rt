//! Values of chains of operators and of functions, worked out by hand.

use crate::expected::{Gives, ZERO_DIVISOR, given, value_in};
use crate::fixtures::{Tree, typed};
use chain_model::{Form, Func, Op, Sort, TraceFault, Typed};
use sqlite_items::Items;
use std::alloc::{AllocError, Global};
use std::test::Fail;

const YES: Option<Tree> = Some(Tree::Truth(true));

const NO: Option<Tree> = Some(Tree::Truth(false));

const ONE: Option<Tree> = Some(Tree::Number(1, 1));

const TWO: Option<Tree> = Some(Tree::Number(2, 1));

const THREE: Option<Tree> = Some(Tree::Number(3, 1));

const HALF: Option<Tree> = Some(Tree::Number(1, 2));

const THIRD: Option<Tree> = Some(Tree::Number(1, 3));

const MOST: Option<Tree> = Some(Tree::Number(GREATEST, 1));

const FAULT: Option<Tree> = Some(Tree::Fault);

const BROKEN: Option<Tree> = Some(Tree::FaultTruth);

const GREATEST: i64 = 4_611_686_018_427_387_903;

const OUT_OF_LIMIT: Gives = Gives::Fault(TraceFault::OutOfLimit);

const OUTSIDE: Gives = Gives::Fault(TraceFault::OutsideDomain);

/// Operands, operators between them, and what the level gives.
type Chained = (
    Option<Tree>,
    Option<Tree>,
    Option<Tree>,
    Option<Op>,
    Option<Op>,
    Gives,
);

static LEVELS: [Chained; 33] = [
    (HALF, THIRD, None, Some(Op::Add), None, Gives::Number(5, 6)),
    (
        ONE,
        TWO,
        THREE,
        Some(Op::Sub),
        Some(Op::Sub),
        Gives::Number(-4, 1),
    ),
    (
        ONE,
        TWO,
        THREE,
        Some(Op::Sub),
        Some(Op::Add),
        Gives::Number(2, 1),
    ),
    (
        ONE,
        TWO,
        THREE,
        Some(Op::Div),
        Some(Op::Div),
        Gives::Number(1, 6),
    ),
    (
        ONE,
        TWO,
        THREE,
        Some(Op::Div),
        Some(Op::Mul),
        Gives::Number(3, 2),
    ),
    (HALF, TWO, None, Some(Op::Mul), None, Gives::Number(1, 1)),
    (MOST, ONE, ONE, Some(Op::Add), Some(Op::Sub), OUT_OF_LIMIT),
    (
        MOST,
        ONE,
        ONE,
        Some(Op::Sub),
        Some(Op::Add),
        Gives::Number(GREATEST, 1),
    ),
    (MOST, ONE, FAULT, Some(Op::Add), Some(Op::Add), OUT_OF_LIMIT),
    (ONE, FAULT, MOST, Some(Op::Add), Some(Op::Mul), ZERO_DIVISOR),
    (ONE, TWO, None, Some(Op::Lt), None, Gives::Truth(true)),
    (HALF, THIRD, None, Some(Op::Lt), None, Gives::Truth(false)),
    (TWO, TWO, None, Some(Op::Le), None, Gives::Truth(true)),
    (TWO, TWO, None, Some(Op::Gt), None, Gives::Truth(false)),
    (THREE, TWO, None, Some(Op::Gt), None, Gives::Truth(true)),
    (ONE, TWO, None, Some(Op::Ge), None, Gives::Truth(false)),
    (TWO, TWO, None, Some(Op::Eq), None, Gives::Truth(true)),
    (NO, YES, None, Some(Op::Eq), None, Gives::Truth(false)),
    (
        ONE,
        TWO,
        YES,
        Some(Op::Eq),
        Some(Op::Eq),
        Gives::Truth(false),
    ),
    (
        ONE,
        TWO,
        YES,
        Some(Op::Ne),
        Some(Op::Eq),
        Gives::Truth(true),
    ),
    (NO, BROKEN, None, Some(Op::And), None, Gives::Truth(false)),
    (
        YES,
        NO,
        BROKEN,
        Some(Op::And),
        Some(Op::And),
        Gives::Truth(false),
    ),
    (YES, BROKEN, NO, Some(Op::And), Some(Op::And), ZERO_DIVISOR),
    (YES, BROKEN, None, Some(Op::Or), None, Gives::Truth(true)),
    (NO, NO, YES, Some(Op::Or), Some(Op::Or), Gives::Truth(true)),
    (NO, BROKEN, YES, Some(Op::Or), Some(Op::Or), ZERO_DIVISOR),
    (NO, BROKEN, None, Some(Op::Imp), None, Gives::Truth(true)),
    (YES, BROKEN, None, Some(Op::Imp), None, ZERO_DIVISOR),
    (YES, NO, None, Some(Op::Imp), None, Gives::Truth(false)),
    (BROKEN, NO, None, Some(Op::Imp), None, ZERO_DIVISOR),
    (
        NO,
        NO,
        NO,
        Some(Op::Iff),
        Some(Op::Iff),
        Gives::Truth(false),
    ),
    (
        NO,
        YES,
        NO,
        Some(Op::Iff),
        Some(Op::Iff),
        Gives::Truth(true),
    ),
    (NO, NO, BROKEN, Some(Op::Iff), Some(Op::Iff), ZERO_DIVISOR),
];

fn level(alloc: Global, parts: &[Option<Tree>], ops: &[Option<Op>]) -> Result<Typed, AllocError> {
    let mut operators = Items::new(alloc);
    for op in ops {
        if let Some(op) = op {
            operators.push(*op)?;
        }
    }
    Ok(Typed {
        sort: Sort::Double,
        form: Form::Level(trees(alloc, parts)?, operators),
    })
}

fn trees(alloc: Global, parts: &[Option<Tree>]) -> Result<Items<Typed>, AllocError> {
    let mut trees = Items::new(alloc);
    for part in parts {
        if let Some(tree) = part {
            trees.push(typed(alloc, *tree)?)?;
        }
    }
    Ok(trees)
}

/// Whether a level gives what its row says.
fn is_folded(alloc: Global, row: &Chained) -> Result<bool, AllocError> {
    let (first, second, third, op, next, gives) = row;
    let tree = level(alloc, &[*first, *second, *third], &[*op, *next])?;
    Ok(value_in(alloc, &tree, [0, 0])? == Some(given(gives)))
}

#[test]
fn levels_are_folded_from_the_left(rt: HostRuntime) -> Result<(), Fail> {
    for row in &LEVELS {
        assert!(rt; is_folded(rt.alloc(), row)?);
    }
    Ok(())
}

/// A function, its parts, and what the call gives.
type Called = (Func, Option<Tree>, Option<Tree>, Option<Tree>, Gives);

static CALLS: [Called; 17] = [
    (Func::Min, THREE, TWO, ONE, Gives::Number(1, 1)),
    (
        Func::Min,
        Some(Tree::Number(1, 2)),
        Some(Tree::Number(-1, 3)),
        None,
        Gives::Number(-1, 3),
    ),
    (Func::Max, ONE, THREE, TWO, Gives::Number(3, 1)),
    (Func::Max, ONE, TWO, Some(Tree::Fault), ZERO_DIVISOR),
    (
        Func::Floor,
        Some(Tree::Number(-1, 2)),
        None,
        None,
        Gives::Number(-1, 1),
    ),
    (
        Func::Floor,
        Some(Tree::Number(7, 2)),
        None,
        None,
        Gives::Number(3, 1),
    ),
    (
        Func::Ceil,
        Some(Tree::Number(-1, 2)),
        None,
        None,
        Gives::Number(0, 1),
    ),
    (
        Func::Ceil,
        Some(Tree::Number(7, 2)),
        None,
        None,
        Gives::Number(4, 1),
    ),
    (
        Func::Pow,
        Some(Tree::Number(-1, 2)),
        THREE,
        None,
        Gives::Number(-1, 8),
    ),
    (
        Func::Pow,
        Some(Tree::Number(0, 1)),
        Some(Tree::Number(0, 1)),
        None,
        Gives::Number(1, 1),
    ),
    (
        Func::Pow,
        Some(Tree::Number(0, 1)),
        Some(Tree::Number(-1, 1)),
        None,
        OUTSIDE,
    ),
    (
        Func::Pow,
        TWO,
        Some(Tree::Number(61, 1)),
        None,
        Gives::Number(2_305_843_009_213_693_952, 1),
    ),
    (
        Func::Pow,
        TWO,
        Some(Tree::Number(62, 1)),
        None,
        Gives::Fault(TraceFault::OutOfLimit),
    ),
    (
        Func::Mod,
        Some(Tree::Number(-1, 1)),
        THREE,
        None,
        Gives::Number(2, 1),
    ),
    (
        Func::Mod,
        Some(Tree::Number(7, 1)),
        THREE,
        None,
        Gives::Number(1, 1),
    ),
    (Func::Mod, ONE, Some(Tree::Number(0, 1)), None, ZERO_DIVISOR),
    (Func::Mod, ONE, Some(Tree::Number(-3, 1)), None, OUTSIDE),
];

fn call(alloc: Global, func: Func, parts: &[Option<Tree>]) -> Result<Typed, AllocError> {
    Ok(Typed {
        sort: Sort::Double,
        form: Form::Call(func, trees(alloc, parts)?),
    })
}

/// Whether a call gives what its row says.
fn is_called(alloc: Global, row: &Called) -> Result<bool, AllocError> {
    let (func, first, second, third, gives) = row;
    let tree = call(alloc, *func, &[*first, *second, *third])?;
    Ok(value_in(alloc, &tree, [0, 0])? == Some(given(gives)))
}

#[test]
fn functions_give_what_the_table_says(rt: HostRuntime) -> Result<(), Fail> {
    for row in &CALLS {
        assert!(rt; is_called(rt.alloc(), row)?);
    }
    Ok(())
}
