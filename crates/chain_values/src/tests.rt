//! Values worked out by hand. A number of a table stands over its denominator.

use super::*;
use chain_model::{Op, Sort, TraceFault, Value};
use smc_num::{Frac, NumFault};

type Parts = (i64, i64);

type Given = Result<Parts, TraceFault>;

/// A number over another, or `false` where that is no number.
fn number(parts: Parts) -> Value {
    match Frac::new(parts.0, parts.1) {
        Ok(number) => Value::Num(number),
        Err(_) => Value::Bool(false),
    }
}

/// What the tables have for a number or a fault.
fn given(gives: Given) -> Result<Value, TraceFault> {
    match gives {
        Ok(parts) => Ok(number(parts)),
        Err(fault) => Err(fault),
    }
}

/// An operator of arithmetic, its two sides, and what it gives.
static SUMS: [(Op, Parts, Parts, Given); 6] = [
    (Op::Add, (1, 2), (1, 3), Ok((5, 6))),
    (Op::Sub, (1, 2), (1, 3), Ok((1, 6))),
    (Op::Mul, (2, 3), (-3, 4), Ok((-1, 2))),
    (Op::Div, (2, 3), (4, 1), Ok((1, 6))),
    (Op::Div, (2, 3), (0, 1), Err(TraceFault::ZeroDivisor)),
    (
        Op::Add,
        (4_611_686_018_427_387_903, 1),
        (1, 1),
        Err(TraceFault::OutOfLimit),
    ),
];

fn is_sum(row: &(Op, Parts, Parts, Given)) -> bool {
    let (op, left, right, gives) = *row;
    let result = arithmetic(op, number(left), number(right));
    result == given(gives) && both_result(op, number(left), number(right)) == result
}

#[test]
fn arithmetic_is_exact(rt: HostRuntime) {
    for row in &SUMS {
        assert!(rt; is_sum(row));
    }
}

/// An operator that compares, two numbers, and whether it holds.
static COMPARED: [(Op, Parts, Parts, bool); 12] = [
    (Op::Lt, (1, 3), (1, 2), true),
    (Op::Lt, (1, 2), (2, 4), false),
    (Op::Le, (1, 2), (2, 4), true),
    (Op::Le, (1, 2), (1, 3), false),
    (Op::Gt, (1, 2), (1, 3), true),
    (Op::Gt, (1, 2), (2, 4), false),
    (Op::Ge, (1, 2), (2, 4), true),
    (Op::Ge, (1, 3), (1, 2), false),
    (Op::Eq, (1, 2), (2, 4), true),
    (Op::Eq, (1, 2), (1, 3), false),
    (Op::Ne, (1, 2), (1, 3), true),
    (Op::Ne, (1, 2), (2, 4), false),
];

fn is_compared(row: &(Op, Parts, Parts, bool)) -> bool {
    let (op, left, right, holds) = *row;
    both_result(op, number(left), number(right)) == Ok(Value::Bool(holds))
}

#[test]
fn comparisons_are_exact(rt: HostRuntime) {
    for row in &COMPARED {
        assert!(rt; is_compared(row));
    }
}

/// An operator on truth values, its left side, what that gives alone, and what it gives where the right side is false.
static JOINED: [(Op, bool, Option<bool>, bool); 8] = [
    (Op::And, false, Some(false), false),
    (Op::And, true, None, false),
    (Op::Or, false, None, false),
    (Op::Or, true, Some(true), true),
    (Op::Imp, false, Some(true), true),
    (Op::Imp, true, None, false),
    (Op::Iff, false, None, true),
    (Op::Eq, true, None, false),
];

fn is_joined(row: &(Op, bool, Option<bool>, bool)) -> bool {
    let (op, left, alone, both) = *row;
    match left_result(op, &Value::Bool(left)) {
        Some(value) => alone == Some(truth(&value)) && both == truth(&value),
        None => {
            let joined = both_result(op, Value::Bool(left), Value::Bool(false));
            alone == None && joined == Ok(Value::Bool(both))
        }
    }
}

#[test]
fn truth_values_are_joined_as_usual(rt: HostRuntime) {
    for row in &JOINED {
        assert!(rt; is_joined(row));
    }
}

/// Two numbers, the lesser and the greater.
static ORDERED: [(Parts, Parts, Parts, Parts); 3] = [
    ((1, 2), (1, 3), (1, 3), (1, 2)),
    ((-1, 2), (1, 3), (-1, 2), (1, 3)),
    ((2, 1), (2, 1), (2, 1), (2, 1)),
];

fn is_ordered(row: &(Parts, Parts, Parts, Parts)) -> bool {
    let (left, right, low, high) = *row;
    lesser(number(left), number(right)) == number(low)
        && greater(number(left), number(right)) == number(high)
        && is_below(&number(low), &number(high)) == (low != high)
        && is_above(&number(high), &number(low)) == (low != high)
        && are_same(&number(low), &number(high)) == (low == high)
}

#[test]
fn numbers_are_ordered(rt: HostRuntime) {
    for row in &ORDERED {
        assert!(rt; is_ordered(row));
    }
}

/// A number, its opposite, and the whole numbers below and above.
static ROUNDED: [(Parts, Parts, i64, i64); 3] = [
    ((-1, 2), (1, 2), -1, 0),
    ((7, 2), (-7, 2), 3, 4),
    ((3, 1), (-3, 1), 3, 3),
];

fn is_rounded(row: &(Parts, Parts, i64, i64)) -> bool {
    let (parts, other, low, high) = *row;
    opposite(number(parts)) == Ok(number(other))
        && floor_value(number(parts)) == whole_value(low)
        && ceil_value(number(parts)) == whole_value(high)
        && whole_value(low) == Ok(number((low, 1)))
}

#[test]
fn numbers_are_rounded(rt: HostRuntime) {
    for row in &ROUNDED {
        assert!(rt; is_rounded(row));
    }
}

/// A number and a whole one, their power and their remainder.
static POWERS: [(i64, i64, Given, Given); 5] = [
    (2, 3, Ok((8, 1)), Ok((2, 1))),
    (-7, 3, Ok((-343, 1)), Ok((2, 1))),
    (0, 0, Ok((1, 1)), Err(TraceFault::ZeroDivisor)),
    (
        2,
        -1,
        Err(TraceFault::OutsideDomain),
        Err(TraceFault::OutsideDomain),
    ),
    (2, 62, Err(TraceFault::OutOfLimit), Ok((2, 1))),
];

fn is_power(row: &(i64, i64, Given, Given)) -> bool {
    let (base, times, raised, rest) = *row;
    power(number((base, 1)), number((times, 1))) == given(raised)
        && remainder(number((base, 1)), number((times, 1))) == given(rest)
}

#[test]
fn powers_and_remainders_are_exact(rt: HostRuntime) {
    for row in &POWERS {
        assert!(rt; is_power(row));
    }
}

/// A fault of arithmetic as one of a trace.
static FAULTS: [(NumFault, TraceFault); 3] = [
    (NumFault::ZeroDivisor, TraceFault::ZeroDivisor),
    (NumFault::OutsideDomain, TraceFault::OutsideDomain),
    (NumFault::OutOfLimit, TraceFault::OutOfLimit),
];

#[test]
fn faults_are_those_of_a_trace(rt: HostRuntime) {
    for (fault, told) in &FAULTS {
        assert!(rt; as_fault(*fault) == *told);
        assert!(rt; as_value(Err(*fault)) == Err(*told));
    }
}

#[test]
fn a_variable_has_the_value_of_its_sort(rt: HostRuntime) {
    assert!(rt; variable_value(Sort::Bool, 0) == Ok(Value::Bool(false)));
    assert!(rt; variable_value(Sort::Bool, 1) == Ok(Value::Bool(true)));
    assert!(rt; variable_value(Sort::Int, 5) == Ok(number((5, 1))));
}
