//! The table of forms: which sorts each form takes, and of which sort it is then.

ghost use Rattle.std.specs.Prelude.{◌≡◌};
ghost use Rattle.chain_model.specs.Sorts.{is_number, is_of_sort, number_sort, truth_sort, common_sort, result_sort, precedence_of, may_follow, rounded_sort, power_sort, remainder_sort, negation_sort, opposite_sort, conditional_sort};

use crate::expressions::Op;
use crate::values::{Sort, Value};

/// Whether a sort is one of numbers.
pub fn is_number(sort: Sort) -> bool
    ensures { result ≡ is_number sort }
{
    match sort {
        Sort::Int | Sort::Double => true,
        Sort::Bool => false,
    }
}

/// Whether a value is of a sort; whole numbers alone are of sort `int`.
pub fn is_of_sort(sort: Sort, value: &Value) -> bool
    ensures { result ≡ is_of_sort sort value.now }
{
    match (sort, value) {
        (Sort::Int, Value::Num(number)) => number.den() == 1,
        (Sort::Double, Value::Num(_)) | (Sort::Bool, Value::Bool(_)) => true,
        _ => false,
    }
}

/// The sort of two numbers joined: `int` where both are.
pub fn number_sort(a: Sort, b: Sort) -> Option<Sort>
    ensures { result ≡ number_sort a b }
{
    match (a, b) {
        (Sort::Int, Sort::Int) => Some(Sort::Int),
        (Sort::Bool, _) | (_, Sort::Bool) => None,
        _ => Some(Sort::Double),
    }
}

/// The sort of two booleans joined.
fn truth_sort(a: Sort, b: Sort) -> Option<Sort>
    ensures { result ≡ truth_sort a b }
{
    match (a, b) {
        (Sort::Bool, Sort::Bool) => Some(Sort::Bool),
        _ => None,
    }
}

/// The sort that two numbers or two booleans have in common.
pub fn common_sort(a: Sort, b: Sort) -> Option<Sort>
    ensures { result ≡ common_sort a b }
{
    match (a, b) {
        (Sort::Bool, Sort::Bool) => Some(Sort::Bool),
        _ => number_sort(a, b),
    }
}

/// The sort of an operator's result, by those of its operands.
pub fn result_sort(op: Op, a: Sort, b: Sort) -> Option<Sort>
    ensures { result ≡ result_sort op a b }
{
    match op {
        Op::Imp | Op::Iff | Op::Or | Op::And => truth_sort(a, b),
        Op::Eq | Op::Ne => common_sort(a, b).map(|_| Sort::Bool),
        Op::Lt | Op::Le | Op::Gt | Op::Ge => number_sort(a, b).map(|_| Sort::Bool),
        Op::Add | Op::Sub | Op::Mul => number_sort(a, b),
        Op::Div => number_sort(a, b).map(|_| Sort::Double),
    }
}

/// How tightly an operator binds, from 0 for `=>` upwards.
fn precedence(op: Op) -> u8
    ensures { result ≡ precedence_of op }
{
    match op {
        Op::Imp => 0,
        Op::Iff => 1,
        Op::Or => 2,
        Op::And => 3,
        Op::Eq | Op::Ne => 4,
        Op::Lt | Op::Le | Op::Gt | Op::Ge => 5,
        Op::Add | Op::Sub => 6,
        Op::Mul | Op::Div => 7,
    }
}

/// Whether an operator may stand in the level that another begins.
pub fn may_follow(first: Op, op: Op) -> bool
    ensures { result ≡ may_follow first op }
{
    0 < precedence(first) && precedence(first) == precedence(op)
}

/// The sort of a number rounded to a whole one.
pub fn rounded_sort(a: Sort) -> Option<Sort>
    ensures { result ≡ rounded_sort a }
{
    if is_number(a) { Some(Sort::Int) } else { None }
}

/// The sort of a power, by those of its base and its exponent.
pub fn power_sort(a: Sort, k: Sort) -> Option<Sort>
    ensures { result ≡ power_sort a k }
{
    match (a, k) {
        (Sort::Int, Sort::Int) => Some(Sort::Int),
        (Sort::Double, Sort::Int) => Some(Sort::Double),
        _ => None,
    }
}

/// The sort of a remainder, by those of the number and the modulus.
pub fn remainder_sort(i: Sort, n: Sort) -> Option<Sort>
    ensures { result ≡ remainder_sort i n }
{
    match (i, n) {
        (Sort::Int, Sort::Int) => Some(Sort::Int),
        _ => None,
    }
}

/// The sort of `!`.
pub fn negation_sort(a: Sort) -> Option<Sort>
    ensures { result ≡ negation_sort a }
{
    match a {
        Sort::Bool => Some(Sort::Bool),
        Sort::Int | Sort::Double => None,
    }
}

/// The sort of unary `-`.
pub fn opposite_sort(a: Sort) -> Option<Sort>
    ensures { result ≡ opposite_sort a }
{
    if is_number(a) { Some(a) } else { None }
}

/// The sort of a conditional, by those of its condition and its two parts.
pub fn conditional_sort(condition: Sort, a: Sort, b: Sort) -> Option<Sort>
    ensures { result ≡ conditional_sort condition a b }
{
    match condition {
        Sort::Bool => common_sort(a, b),
        Sort::Int | Sort::Double => None,
    }
}
