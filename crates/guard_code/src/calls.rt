//! Evaluation of calls.

ghost use Rattle.std.specs.Prelude.{◌≡◌, map, drop};
ghost use Rattle.chain_model.specs.Values.{call_value, function_value, extreme_value, lesser, greater};
ghost use Rattle.guard_code.specs.Wholes.{stored_of, extreme_after, extreme_result, remainder_result};
ghost use Rattle.guard_code.specs.Nodes.{node_value};

use crate::evaluation::value;
use crate::fronts::stored_in;
use crate::labels::BuiltInLabels;
use crate::nodes::Node;
use crate::wholes::{chosen_whole, whole_remainder};
use chain_model::{Func, TraceFault, Value};
use chain_values::{ceil_value, floor_value, greater, lesser, power, remainder as rest_of};

/// The value of a call.
#[cycle(evaluation)]
pub fn call<L: BuiltInLabels>(
    labels: &L,
    state: &[i64],
    func: Func,
    parts: &[Node],
) -> Result<Value, TraceFault>
    ensures { result ≡ call_value func (map (node_value (L.values labels.now) state.now) parts.now) }
{
    let [first, ..] = parts else {
        return Ok(Value::Bool(false));
    };
    match value(labels, state, first) {
        Ok(value) => function(labels, state, func, value, parts),
        Err(fault) => Err(fault),
    }
}

/// The value of a function of its first part's value and the further parts.
#[cycle(evaluation)]
fn function<L: BuiltInLabels>(
    labels: &L,
    state: &[i64],
    func: Func,
    first: Value,
    parts: &[Node],
) -> Result<Value, TraceFault>
    ensures { result ≡ function_value func first (map (node_value (L.values labels.now) state.now) (drop 1 parts.now)) }
{
    match func {
        Func::Min => least(labels, state, first, parts),
        Func::Max => greatest(labels, state, first, parts),
        Func::Floor => floor_value(first),
        Func::Ceil => ceil_value(first),
        Func::Pow | Func::Mod => {
            let [_, part, ..] = parts else {
                return Ok(Value::Bool(false));
            };
            let second = value(labels, state, part)?;
            if func == Func::Pow {
                power(first, second)
            } else {
                rest_of(first, second)
            }
        }
    }
}

/// The least of a value and the parts after the first.
#[cycle(evaluation)]
fn least<L: BuiltInLabels>(
    labels: &L,
    state: &[i64],
    first: Value,
    parts: &[Node],
) -> Result<Value, TraceFault>
    ensures { result ≡ extreme_value lesser first (map (node_value (L.values labels.now) state.now) (drop 1 parts.now)) }
{
    let mut chosen = first;
    for index in 1..parts.len() {
        chosen = match value(labels, state, &parts[index]) {
            Ok(next) => lesser(chosen, next),
            Err(fault) => return Err(fault),
        };
    }
    Ok(chosen)
}

/// The greatest of a value and the parts after the first.
#[cycle(evaluation)]
fn greatest<L: BuiltInLabels>(
    labels: &L,
    state: &[i64],
    first: Value,
    parts: &[Node],
) -> Result<Value, TraceFault>
    ensures { result ≡ extreme_value greater first (map (node_value (L.values labels.now) state.now) (drop 1 parts.now)) }
{
    let mut chosen = first;
    for index in 1..parts.len() {
        chosen = match value(labels, state, &parts[index]) {
            Ok(next) => greater(chosen, next),
            Err(fault) => return Err(fault),
        };
    }
    Ok(chosen)
}

/// The least or the greatest of whole numbers, by the function.
#[cycle(evaluation)]
pub fn extreme<L: BuiltInLabels>(
    labels: &L,
    state: &[i64],
    func: Func,
    parts: &[Node],
) -> Result<i64, TraceFault>
    ensures { result ≡ extreme_result func (map stored_of (map (node_value (L.values labels.now) state.now) parts.now)) }
{
    let [first, ..] = parts else {
        return Ok(0);
    };
    match stored_in(labels, state, first) {
        Ok(number) => extreme_after(labels, state, func, number, parts),
        Err(fault) => Err(fault),
    }
}

/// What a function chooses of a whole number and the parts after the first.
#[cycle(evaluation)]
fn extreme_after<L: BuiltInLabels>(
    labels: &L,
    state: &[i64],
    func: Func,
    first: i64,
    parts: &[Node],
) -> Result<i64, TraceFault>
    ensures { result ≡ extreme_after func first (map stored_of (map (node_value (L.values labels.now) state.now) (drop 1 parts.now))) }
{
    let mut chosen = first;
    for index in 1..parts.len() {
        chosen = match stored_in(labels, state, &parts[index]) {
            Ok(next) => chosen_whole(func, chosen, next),
            Err(fault) => return Err(fault),
        };
    }
    Ok(chosen)
}

/// The remainder of two whole numbers.
#[cycle(evaluation)]
pub fn remainder<L: BuiltInLabels>(
    labels: &L,
    state: &[i64],
    parts: &[Node],
) -> Result<i64, TraceFault>
    ensures { result ≡ remainder_result (map stored_of (map (node_value (L.values labels.now) state.now) parts.now)) }
{
    let [first, second] = parts else {
        return Ok(0);
    };
    let number = stored_in(labels, state, first)?;
    let divisor = stored_in(labels, state, second)?;
    whole_remainder(number, divisor)
}
