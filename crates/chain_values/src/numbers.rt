//! Operations on numbers, as values: what is asked of a truth value, which no well-typed tree does, is `false`.

ghost use Rattle.std.specs.Prelude.{◌≡◌, pos, neg_ℤ};
ghost use Rattle.smc_num.specs.Fraction.{fraction_of};
ghost use Rattle.smc_num.specs.Arithmetic.{floor_of, ceil_of, power_of, modulo_of};
ghost use Rattle.chain_model.specs.Values.{as_fault, as_value, whole_value, remainder, apply_to_number, apply_to_numbers, arithmetic_of, variable_value};

use chain_model::{Op, Sort, TraceFault, Value};
use smc_num::{Frac, NumFault, ceil, floor, modulo};

/// What a fault of arithmetic is in a trace.
pub fn as_fault(fault: NumFault) -> TraceFault
    ensures { result ≡ as_fault fault }
{
    match fault {
        NumFault::ZeroDivisor => TraceFault::ZeroDivisor,
        NumFault::OutsideDomain => TraceFault::OutsideDomain,
        NumFault::OutOfLimit => TraceFault::OutOfLimit,
    }
}

/// What arithmetic gives, as a value.
pub fn as_value(number: Result<Frac, NumFault>) -> Result<Value, TraceFault>
    ensures { result ≡ as_value number }
{
    match number {
        Ok(number) => Ok(Value::Num(number)),
        Err(fault) => Err(as_fault(fault)),
    }
}

/// A whole number as a value.
pub fn whole_value(number: i64) -> Result<Value, TraceFault>
    ensures { result ≡ whole_value number }
{
    as_value(Frac::new(number, 1))
}

/// The value of a variable of a sort.
pub fn variable_value(sort: Sort, number: i64) -> Result<Value, TraceFault>
    ensures { result ≡ variable_value sort number }
{
    match sort {
        Sort::Bool => Ok(Value::Bool(number != 0)),
        Sort::Int | Sort::Double => whole_value(number),
    }
}

/// What an operator of arithmetic gives.
fn arithmetic_of(op: Op, a: Frac, b: Frac) -> Result<Frac, NumFault>
    ensures { result ≡ arithmetic_of op a b }
{
    match op {
        Op::Sub => Frac::sub(a, b),
        Op::Mul => Frac::mul(a, b),
        Op::Div => Frac::div(a, b),
        _ => Frac::add(a, b),
    }
}

/// The sum, difference, product or quotient of two numbers.
pub fn arithmetic(op: Op, left: Value, right: Value) -> Result<Value, TraceFault>
    ensures { result ≡ apply_to_numbers (λ a b. as_value (arithmetic_of op a b)) left right }
{
    let Value::Num(a) = left else {
        return Ok(Value::Bool(false));
    };
    let Value::Num(b) = right else {
        return Ok(Value::Bool(false));
    };
    as_value(arithmetic_of(op, a, b))
}

/// A number with the other sign.
pub fn opposite(value: Value) -> Result<Value, TraceFault>
    ensures { result ≡ apply_to_number (λ n. as_value (fraction_of (neg_ℤ n.num) (pos n.den))) value }
{
    let Value::Num(number) = value else {
        return Ok(Value::Bool(false));
    };
    as_value(Frac::new(-number.num(), number.den()))
}

/// The greatest whole number at most a number.
pub fn floor_value(value: Value) -> Result<Value, TraceFault>
    ensures { result ≡ apply_to_number (λ n. whole_value (floor_of n)) value }
{
    let Value::Num(number) = value else {
        return Ok(Value::Bool(false));
    };
    whole_value(floor(number))
}

/// The least whole number at least a number.
pub fn ceil_value(value: Value) -> Result<Value, TraceFault>
    ensures { result ≡ apply_to_number (λ n. whole_value (ceil_of n)) value }
{
    let Value::Num(number) = value else {
        return Ok(Value::Bool(false));
    };
    whole_value(ceil(number))
}

/// A power.
pub fn power(base: Value, exponent: Value) -> Result<Value, TraceFault>
    ensures { result ≡ apply_to_numbers (λ m k. as_value (power_of m k.num)) base exponent }
{
    let Value::Num(number) = base else {
        return Ok(Value::Bool(false));
    };
    let Value::Num(times) = exponent else {
        return Ok(Value::Bool(false));
    };
    as_value(Frac::pow(number, times.num()))
}

/// A remainder, as a value.
fn remainder_value(rest: Result<i64, NumFault>) -> Result<Value, TraceFault>
    ensures { result ≡ remainder rest }
{
    match rest {
        Ok(number) => whole_value(number),
        Err(fault) => Err(as_fault(fault)),
    }
}

/// The remainder of two whole numbers.
pub fn remainder(left: Value, right: Value) -> Result<Value, TraceFault>
    ensures { result ≡ apply_to_numbers (λ i n. remainder (modulo_of i.num n.num)) left right }
{
    let Value::Num(number) = left else {
        return Ok(Value::Bool(false));
    };
    let Value::Num(divisor) = right else {
        return Ok(Value::Bool(false));
    };
    remainder_value(modulo(number.num(), divisor.num()))
}
