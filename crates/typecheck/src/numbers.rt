//! The numbers of expressions of constants.

ghost use Rattle.std.specs.Prelude.{◌≡◌, pos, Ok};
ghost use Rattle.chain_model.specs.Chain.{IsWithinLimits};
ghost use Rattle.chain_model.specs.Step.{stored};
ghost use Rattle.typecheck.specs.Numbers.{number_fault, fraction_in};

use chain_model::{TraceFault, Value};
use smc_num::{Frac, NumFault};

/// The whole number that a value is in a state.
pub fn stored(value: &Value) -> i64
    ensures value { result ≡ stored value.now }
    ensures within { IsWithinLimits result }
{
    match value {
        Value::Bool(false) => 0,
        Value::Bool(true) => 1,
        Value::Num(number) => number.num(),
    }
}

/// The number that a value is; a truth value is none.
pub fn fraction(value: &Value) -> Frac
    ensures { result ≡ fraction_in (Ok value.now) }
{
    match value {
        Value::Num(number) => *number,
        Value::Bool(_) => nothing(),
    }
}

/// The number 0.
fn nothing() -> Frac
    ensures { result ≡ record { num = pos 0; den = 1 } }
{
    Frac::new(0, 1).unwrap()
}

/// The fault of arithmetic that a fault of evaluating is; an expression of constants has no other.
pub fn number_fault(fault: TraceFault) -> NumFault
    ensures { result ≡ number_fault fault }
{
    match fault {
        TraceFault::ZeroDivisor => NumFault::ZeroDivisor,
        TraceFault::OutsideDomain => NumFault::OutsideDomain,
        TraceFault::OutOfLimit => NumFault::OutOfLimit,
        TraceFault::Range { .. } => NumFault::OutOfLimit,
        TraceFault::Weights { .. } => NumFault::OutOfLimit,
        TraceFault::Denominator { .. } => NumFault::OutOfLimit,
        TraceFault::Choices => NumFault::OutOfLimit,
    }
}
