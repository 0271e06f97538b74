//! Evaluation of chains, comparisons, quotients, and `&` and `|`.

ghost use Rattle.std.specs.Prelude.{◌≡◌, map};
ghost use Rattle.chain_model.specs.Values.{level_value, join};
ghost use Rattle.guard_code.specs.Wholes.{truth_of, stored_of, linked_whole, wholes_result, compare_result, quotient_value, junction_result};
ghost use Rattle.guard_code.specs.Nodes.{node_value};

use crate::evaluation::value;
use crate::fronts::{stored_in, truth_in};
use crate::labels::BuiltInLabels;
use crate::nodes::Node;
use crate::wholes::{compares, whole_result};
use chain_model::{Op, TraceFault, Value};
use chain_values::{as_value, both_result, left_result};
use smc_num::Frac;

/// How the two parts of a comparison compare.
#[inline(never)]
#[cycle(evaluation)]
pub fn compare<L: BuiltInLabels>(
    labels: &L,
    state: &[i64],
    op: Op,
    parts: &[Node],
) -> Result<bool, TraceFault>
    ensures { result ≡ compare_result op (map stored_of (map (node_value (L.values labels.now) state.now) parts.now)) }
{
    let [first, second] = parts else {
        return Ok(false);
    };
    let a = stored_in(labels, state, first)?;
    let b = stored_in(labels, state, second)?;
    Ok(compares(op, a, b))
}

/// A whole number over another.
#[cycle(evaluation)]
pub fn quotient<L: BuiltInLabels>(
    labels: &L,
    state: &[i64],
    parts: &[Node],
) -> Result<Value, TraceFault>
    ensures { result ≡ quotient_value (map stored_of (map (node_value (L.values labels.now) state.now) parts.now)) }
{
    let [first, second] = parts else {
        return Ok(Value::Bool(false));
    };
    let number = stored_in(labels, state, first)?;
    let divisor = stored_in(labels, state, second)?;
    as_value(Frac::new(number, divisor))
}

/// A chain of whole numbers, folded from the left.
#[inline(never)]
#[cycle(evaluation)]
pub fn arithmetic<L: BuiltInLabels>(
    labels: &L,
    state: &[i64],
    parts: &[Node],
    ops: &[Op],
) -> Result<i64, TraceFault>
    ensures { result ≡ wholes_result (map stored_of (map (node_value (L.values labels.now) state.now) parts.now)) ops.now }
{
    let [first, ..] = parts else {
        return Ok(0);
    };
    let mut number = match stored_in(labels, state, first) {
        Ok(number) => number,
        Err(fault) => return Err(fault),
    };
    for (index, op) in ops.iter().enumerate() {
        if index + 1 >= parts.len() {
            return Ok(number);
        }
        number = match link(labels, state, *op, number, &parts[index + 1]) {
            Ok(next) => next,
            Err(fault) => return Err(fault),
        };
    }
    Ok(number)
}

/// A whole number joined to the next part of its chain.
#[inline(always)]
#[cycle(evaluation)]
fn link<L: BuiltInLabels>(
    labels: &L,
    state: &[i64],
    op: Op,
    left: i64,
    part: &Node,
) -> Result<i64, TraceFault>
    ensures { result ≡ linked_whole op left (stored_of (node_value (L.values labels.now) state.now part.now)) }
{
    match stored_in(labels, state, part) {
        Ok(right) => whole_result(op, left, right),
        Err(fault) => Err(fault),
    }
}

/// The truth value of parts that are read up to the first with the deciding one.
#[cycle(evaluation)]
pub fn junction<L: BuiltInLabels>(
    labels: &L,
    state: &[i64],
    deciding: bool,
    parts: &[Node],
) -> Result<bool, TraceFault>
    ensures { result ≡ junction_result deciding (map truth_of (map (node_value (L.values labels.now) state.now) parts.now)) }
{
    for part in parts {
        match truth_in(labels, state, part) {
            Ok(holds) => {
                if holds == deciding {
                    return Ok(deciding);
                }
            }
            Err(fault) => return Err(fault),
        }
    }
    Ok(!deciding)
}

/// The value of a chain, folded from the left.
#[cycle(evaluation)]
pub fn level<L: BuiltInLabels>(
    labels: &L,
    state: &[i64],
    parts: &[Node],
    ops: &[Op],
) -> Result<Value, TraceFault>
    ensures { result ≡ level_value (map (node_value (L.values labels.now) state.now) parts.now) ops.now }
{
    let [first, ..] = parts else {
        return Ok(Value::Bool(false));
    };
    let mut joined = match value(labels, state, first) {
        Ok(value) => value,
        Err(fault) => return Err(fault),
    };
    for (index, op) in ops.iter().enumerate() {
        if index + 1 < parts.len() {
            joined = match join(labels, state, *op, joined, &parts[index + 1]) {
                Ok(next) => next,
                Err(fault) => return Err(fault),
            };
        }
    }
    Ok(joined)
}

/// A value joined to the next part of its chain, which is read only where the value alone does not say.
#[cycle(evaluation)]
fn join<L: BuiltInLabels>(
    labels: &L,
    state: &[i64],
    op: Op,
    left: Value,
    part: &Node,
) -> Result<Value, TraceFault>
    ensures { result ≡ join op left (node_value (L.values labels.now) state.now part.now) }
{
    match left_result(op, &left) {
        Some(decided) => Ok(decided),
        None => {
            let right = value(labels, state, part)?;
            both_result(op, left, right)
        }
    }
}
