ghost use Rattle.std.specs.Prelude.{◌≡◌};
ghost use Rattle.chain_model.specs.Values.{truth, are_same, is_below, is_above, lesser, greater};

use chain_model::Value;
use smc_num::Frac;
use std::cmp::Ordering;

/// The truth value of a value. A number has none, and counts as false.
pub fn truth(value: &Value) -> bool
    ensures { result ≡ truth value.now }
{
    match value {
        Value::Bool(holds) => *holds,
        Value::Num(_) => false,
    }
}

/// Whether two truth values are the same, or two numbers are.
pub fn are_same(left: &Value, right: &Value) -> bool
    ensures { result ≡ are_same left.now right.now }
{
    match left {
        Value::Bool(a) => match right {
            Value::Bool(b) => *a == *b,
            Value::Num(_) => false,
        },
        Value::Num(a) => match right {
            Value::Bool(_) => false,
            Value::Num(b) => Frac::cmp(*a, *b) == Ordering::Equal,
        },
    }
}

/// Whether one number is below another.
pub fn is_below(left: &Value, right: &Value) -> bool
    ensures { result ≡ is_below left.now right.now }
{
    let Value::Num(a) = left else {
        return false;
    };
    let Value::Num(b) = right else {
        return false;
    };
    Frac::cmp(*a, *b) == Ordering::Less
}

/// Whether one number is above another.
pub fn is_above(left: &Value, right: &Value) -> bool
    ensures { result ≡ is_above left.now right.now }
{
    is_below(right, left)
}

/// The lesser of two numbers.
pub fn lesser(left: Value, right: Value) -> Value
    ensures { result ≡ lesser left right }
{
    if is_below(&right, &left) { right } else { left }
}

/// The greater of two numbers.
pub fn greater(left: Value, right: Value) -> Value
    ensures { result ≡ greater left right }
{
    if is_above(&right, &left) { right } else { left }
}
