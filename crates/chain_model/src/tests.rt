use super::*;
use smc_num::Frac;
use sqlite_items::{Boxed, Items};
use std::alloc::{AllocError, Global};
use std::test::Fail;

/// An expression of one node.
#[derive(Clone, Copy)]
enum Leaf {
    Truth,
    /// A whole number, as an `int` or as a `double`.
    Number(i64),
    Real(i64),
    Init,
    Deadlock,
}

fn node(leaf: Leaf) -> Typed {
    let (sort, form) = match leaf {
        Leaf::Truth => (Sort::Bool, Form::Lit(Value::Bool(true))),
        Leaf::Number(n) => (Sort::Int, number(n, 1)),
        Leaf::Real(n) => (Sort::Double, number(n, 2)),
        Leaf::Init => (Sort::Bool, Form::IsInit),
        Leaf::Deadlock => (Sort::Bool, Form::IsDeadlock),
    };
    Typed { sort, form }
}

/// A number over another as a literal, or `false` where that is no number.
fn number(num: i64, den: i64) -> Form {
    match Frac::new(num, den) {
        Ok(value) => Form::Lit(Value::Num(value)),
        Err(_) => Form::Lit(Value::Bool(false)),
    }
}

/// A level of two operands, or of three.
fn level(
    alloc: Global,
    sort: Sort,
    first: Leaf,
    op: Op,
    second: Leaf,
    more: Option<(Op, Leaf)>,
) -> Result<Typed, AllocError> {
    let mut operands = Items::new(alloc);
    let mut operators = Items::new(alloc);
    operands.push(node(first))?;
    operands.push(node(second))?;
    operators.push(op)?;
    if let Some((op, third)) = more {
        operators.push(op)?;
        operands.push(node(third))?;
    }
    Ok(Typed {
        sort,
        form: Form::Level(operands, operators),
    })
}

/// A call of one part, of two or of three.
fn call(
    alloc: Global,
    sort: Sort,
    func: Func,
    parts: [Option<Leaf>; 3],
) -> Result<Typed, AllocError> {
    let mut trees = Items::new(alloc);
    for part in parts {
        if let Some(part) = part {
            trees.push(node(part))?;
        }
    }
    Ok(Typed {
        sort,
        form: Form::Call(func, trees),
    })
}

const SORTS: [Sort; 3] = [Sort::Int, Sort::Double, Sort::Bool];

const ONE: Leaf = Leaf::Number(1);

const HALF: Leaf = Leaf::Real(1);

const YES: Leaf = Leaf::Truth;

/// Whether an expression that is declared so has this sort, or none where it may not be declared so.
fn is_expected(declared: Sort, tree: &Typed, sort: Option<Sort>) -> bool {
    let found = sort_of(&[], Labels::Refused, tree);
    if sort == Some(declared) {
        found == sort
    } else {
        found.is_none()
    }
}

/// Whether a level has this sort, whatever it is declared as.
fn level_has(
    alloc: Global,
    first: Leaf,
    op: Op,
    second: Leaf,
    more: Option<(Op, Leaf)>,
    sort: Option<Sort>,
) -> Result<bool, AllocError> {
    for declared in SORTS {
        let tree = level(alloc, declared, first, op, second, more)?;
        if !is_expected(declared, &tree, sort) {
            return Ok(false);
        }
    }
    Ok(true)
}

/// Two operands, the operator between them, and the sort.
type Two = (Leaf, Op, Leaf, Option<Sort>);

static LEVELS_OF_TWO: [Two; 11] = [
    (ONE, Op::Add, ONE, Some(Sort::Int)),
    (ONE, Op::Sub, HALF, Some(Sort::Double)),
    (ONE, Op::Mul, YES, None),
    (ONE, Op::Div, ONE, Some(Sort::Double)),
    (ONE, Op::Lt, HALF, Some(Sort::Bool)),
    (YES, Op::Le, YES, None),
    (ONE, Op::Eq, HALF, Some(Sort::Bool)),
    (YES, Op::Ne, YES, Some(Sort::Bool)),
    (ONE, Op::Eq, YES, None),
    (YES, Op::Imp, YES, Some(Sort::Bool)),
    (YES, Op::Or, ONE, None),
];

fn is_level_of_two(alloc: Global, row: &Two) -> Result<bool, AllocError> {
    let (first, op, second, sort) = *row;
    level_has(alloc, first, op, second, None, sort)
}

#[test]
fn levels_of_two_have_the_sort_of_the_table(rt: HostRuntime) -> Result<(), Fail> {
    for row in &LEVELS_OF_TWO {
        assert!(rt; is_level_of_two(rt.alloc(), row)?);
    }
    Ok(())
}

/// The operand that stands twice, the two operators, the last operand, and the sort.
type Three = (Leaf, Op, Op, Leaf, Option<Sort>);

static LEVELS_OF_THREE: [Three; 11] = [
    (ONE, Op::Div, Op::Mul, ONE, Some(Sort::Double)),
    (ONE, Op::Mul, Op::Mul, HALF, Some(Sort::Double)),
    (ONE, Op::Sub, Op::Add, ONE, Some(Sort::Int)),
    (ONE, Op::Add, Op::Mul, ONE, None),
    (ONE, Op::Lt, Op::Gt, ONE, None),
    (YES, Op::Eq, Op::Ne, YES, Some(Sort::Bool)),
    (ONE, Op::Eq, Op::Eq, ONE, None),
    (ONE, Op::Eq, Op::Eq, YES, Some(Sort::Bool)),
    (YES, Op::Imp, Op::Imp, YES, None),
    (YES, Op::Iff, Op::Iff, YES, Some(Sort::Bool)),
    (YES, Op::And, Op::Or, YES, None),
];

fn is_level_of_three(alloc: Global, row: &Three) -> Result<bool, AllocError> {
    let (first, op, then, third, sort) = *row;
    level_has(alloc, first, op, first, Some((then, third)), sort)
}

#[test]
fn levels_of_three_have_the_sort_of_the_table(rt: HostRuntime) -> Result<(), Fail> {
    for row in &LEVELS_OF_THREE {
        assert!(rt; is_level_of_three(rt.alloc(), row)?);
    }
    Ok(())
}

/// Whether a call has this sort, whatever it is declared as.
fn call_has(
    alloc: Global,
    func: Func,
    parts: [Option<Leaf>; 3],
    sort: Option<Sort>,
) -> Result<bool, AllocError> {
    for declared in SORTS {
        let tree = call(alloc, declared, func, parts)?;
        if !is_expected(declared, &tree, sort) {
            return Ok(false);
        }
    }
    Ok(true)
}

/// A function, its parts, and the sort.
type Called = (Func, Option<Leaf>, Option<Leaf>, Option<Leaf>, Option<Sort>);

static CALLS: [Called; 10] = [
    (Func::Min, Some(ONE), Some(ONE), Some(ONE), Some(Sort::Int)),
    (
        Func::Max,
        Some(ONE),
        Some(ONE),
        Some(HALF),
        Some(Sort::Double),
    ),
    (Func::Min, Some(ONE), None, None, None),
    (Func::Max, Some(ONE), Some(YES), None, None),
    (Func::Floor, Some(HALF), None, None, Some(Sort::Int)),
    (Func::Ceil, Some(ONE), Some(ONE), None, None),
    (Func::Pow, Some(HALF), Some(ONE), None, Some(Sort::Double)),
    (Func::Pow, Some(ONE), Some(HALF), None, None),
    (Func::Mod, Some(ONE), Some(ONE), None, Some(Sort::Int)),
    (Func::Mod, Some(HALF), Some(ONE), None, None),
];

fn is_call(alloc: Global, row: &Called) -> Result<bool, AllocError> {
    let (func, first, second, third, sort) = *row;
    call_has(alloc, func, [first, second, third], sort)
}

#[test]
fn calls_have_the_sort_of_the_table(rt: HostRuntime) -> Result<(), Fail> {
    for row in &CALLS {
        assert!(rt; is_call(rt.alloc(), row)?);
    }
    Ok(())
}

/// Whether a conditional has this sort, whatever it is declared as.
fn conditional_has(
    alloc: Global,
    condition: Leaf,
    first: Leaf,
    second: Leaf,
    sort: Option<Sort>,
) -> Result<bool, AllocError> {
    for declared in SORTS {
        let tree = conditional(alloc, declared, node(condition), node(first), node(second))?;
        if !is_expected(declared, &tree, sort) {
            return Ok(false);
        }
    }
    Ok(true)
}

/// A condition, the two parts, and the sort.
type Conditional = (Leaf, Leaf, Leaf, Option<Sort>);

static CONDITIONALS: [Conditional; 5] = [
    (YES, ONE, ONE, Some(Sort::Int)),
    (YES, ONE, HALF, Some(Sort::Double)),
    (YES, YES, YES, Some(Sort::Bool)),
    (YES, ONE, YES, None),
    (ONE, ONE, ONE, None),
];

fn is_conditional(alloc: Global, row: &Conditional) -> Result<bool, AllocError> {
    let (condition, first, second, sort) = *row;
    conditional_has(alloc, condition, first, second, sort)
}

#[test]
fn conditionals_have_the_sort_of_the_table(rt: HostRuntime) -> Result<(), Fail> {
    for row in &CONDITIONALS {
        assert!(rt; is_conditional(rt.alloc(), row)?);
    }
    Ok(())
}

/// Whether a label is a truth value where labels may stand, and nothing elsewhere.
fn is_label(leaf: Leaf) -> bool {
    let tree = node(leaf);
    sort_of(&[], Labels::Refused, &tree).is_none()
        && sort_of(&[], Labels::Allowed, &tree) == Some(Sort::Bool)
}

#[test]
fn labels_are_truth_values_where_they_may_stand(rt: HostRuntime) {
    assert!(rt; is_label(Leaf::Init));
    assert!(rt; is_label(Leaf::Deadlock));
}

fn conditional(
    alloc: Global,
    sort: Sort,
    condition: Typed,
    first: Typed,
    second: Typed,
) -> Result<Typed, AllocError> {
    Ok(Typed {
        sort,
        form: Form::If(
            Boxed::new(alloc, condition)?,
            Boxed::new(alloc, first)?,
            Boxed::new(alloc, second)?,
        ),
    })
}
