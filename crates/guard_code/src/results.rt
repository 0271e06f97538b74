//! Results as truth values, as whole numbers and as values.

ghost use Rattle.std.specs.Prelude.{◌≡◌, ◌+ℤ◌, Ok};
ghost use Rattle.chain_model.specs.Step.{stored};
ghost use Rattle.guard_code.specs.Wholes.{truth_of, stored_of, as_truth, as_whole};

use crate::wholes::{limited, sum};
use chain_model::{TraceFault, Value};
use chain_values::{truth, whole_value};

/// A truth value as a value.
#[inline(always)]
pub fn as_truth(found: Result<bool, TraceFault>) -> Result<Value, TraceFault>
    ensures { result ≡ as_truth found }
{
    match found {
        Ok(holds) => Ok(Value::Bool(holds)),
        Err(fault) => Err(fault),
    }
}

/// A whole number as a value.
#[tactic(auto, unfolding(crate::specs::Wholes::as_whole))]
pub fn as_whole(found: Result<i64, TraceFault>) -> Result<Value, TraceFault>
    ensures { result ≡ as_whole found }
{
    match found {
        Ok(number) => whole_value(number),
        Err(fault) => Err(fault),
    }
}

/// What a value counts for as a truth value.
pub fn truth_of(found: Result<Value, TraceFault>) -> Result<bool, TraceFault>
    ensures { result ≡ truth_of found }
{
    match found {
        Ok(value) => Ok(truth(&value)),
        Err(fault) => Err(fault),
    }
}

/// How a value stands in a state.
#[inline(always)]
pub fn stored(value: &Value) -> i64
    ensures { result ≡ stored value.now }
{
    match value {
        Value::Bool(holds) => i64::from(*holds),
        Value::Num(number) => number.num(),
    }
}

/// How what was found stands in a state.
pub fn stored_of(found: Result<Value, TraceFault>) -> Result<i64, TraceFault>
    ensures { result ≡ stored_of found }
{
    match found {
        Ok(value) => Ok(stored(&value)),
        Err(fault) => Err(fault),
    }
}

/// How a truth value stands in a state.
#[inline(always)]
pub fn stored_truth(found: Result<bool, TraceFault>) -> Result<i64, TraceFault>
    ensures { result ≡ stored_of (as_truth found) }
{
    match found {
        Ok(holds) => Ok(i64::from(holds)),
        Err(fault) => Err(fault),
    }
}

/// How a whole number stands in a state.
#[inline(always)]
#[tactic(auto, using(crate::proofs::WholeLemmas::stored_as_whole))]
pub fn stored_whole(found: Result<i64, TraceFault>) -> Result<i64, TraceFault>
    ensures { result ≡ stored_of (as_whole found) }
{
    match found {
        Ok(number) => limited(number),
        Err(fault) => Err(fault),
    }
}

/// The sum of two whole numbers, as a value.
#[tactic(auto, using(crate::proofs::WholeLemmas::as_whole_limited))]
pub fn shifted_value(number: i64, by: i64) -> Result<Value, TraceFault>
    ensures { result ≡ as_whole (Ok (number +ℤ by)) }
{
    as_whole(sum(number, by))
}

/// How the sum of two whole numbers stands in a state.
#[inline(always)]
#[tactic(auto, using(crate::proofs::WholeLemmas::stored_as_whole))]
pub fn shifted_stored(number: i64, by: i64) -> Result<i64, TraceFault>
    ensures { result ≡ stored_of (as_whole (Ok (number +ℤ by))) }
{
    sum(number, by)
}
