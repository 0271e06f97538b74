//! Evaluation of nodes: as a value, and, of those with parts, as a truth value and as a whole number.

ghost use Rattle.std.specs.Prelude.{◌≡◌};
ghost use Rattle.chain_model.specs.Values.{deadlock_value};
ghost use Rattle.guard_code.specs.Wholes.{truth_of, stored_of};
ghost use Rattle.guard_code.specs.Nodes.{node_value};

use crate::calls::{call, extreme, remainder};
use crate::chains::{arithmetic, compare, junction, level, quotient};
use crate::fronts::{stored_in, truth_in};
use crate::labels::BuiltInLabels;
use crate::nodes::Node;
use crate::plain_tests::{all_hold, count_holding, number_by, number_in, some_holds, test_holds};
use crate::results::{
    as_truth, as_whole, shifted_value, stored_of, stored_truth, stored_whole, truth_of,
};
use chain_model::{TraceFault, Value};
use chain_values::opposite;

/// The value of a node in a state, where the built-in labels say this.
#[cycle(evaluation)]
pub fn value<L: BuiltInLabels>(labels: &L, state: &[i64], node: &Node) -> Result<Value, TraceFault>
    ensures { result ≡ node_value (L.values labels.now) state.now node.now }
{
    match node {
        Node::Lit(value) => Ok(*value),
        Node::Number(x) => as_whole(Ok(number_in(state, *x))),
        Node::Shifted(x, c) => shifted_value(number_in(state, *x), *c),
        Node::Plain(test) => Ok(Value::Bool(test_holds(state, test))),
        Node::PlainIf(test, first, second) => {
            as_whole(Ok(number_by(state, test, *first, *second)))
        }
        Node::Every(tests) => Ok(Value::Bool(all_hold(state, tests.as_slice()))),
        Node::Any(tests) => Ok(Value::Bool(some_holds(state, tests.as_slice()))),
        Node::Count(tests) => as_whole(Ok(count_holding(state, tests.as_slice()))),
        Node::Compare(op, parts) => as_truth(compare(labels, state, *op, parts.as_slice())),
        Node::Arithmetic(parts, ops) => as_whole(arithmetic(
            labels,
            state,
            parts.as_slice(),
            ops.as_slice(),
        )),
        Node::Extreme(func, parts) => as_whole(extreme(labels, state, *func, parts.as_slice())),
        Node::Remainder(parts) => as_whole(remainder(labels, state, parts.as_slice())),
        Node::Quotient(parts) => quotient(labels, state, parts.as_slice()),
        Node::Junction(deciding, parts) => {
            as_truth(junction(labels, state, *deciding, parts.as_slice()))
        }
        Node::Not(part) => {
            let holds = truth_in(labels, state, part.get())?;
            Ok(Value::Bool(!holds))
        }
        Node::If(condition, first, second) => {
            if truth_in(labels, state, condition.get())? {
                value(labels, state, first.get())
            } else {
                value(labels, state, second.get())
            }
        }
        Node::Minus(part) => {
            let number = value(labels, state, part.get())?;
            opposite(number)
        }
        Node::Call(func, parts) => call(labels, state, *func, parts.as_slice()),
        Node::Level(parts, ops) => level(labels, state, parts.as_slice(), ops.as_slice()),
        Node::IsInit => Ok(Value::Bool(labels.init())),
        Node::IsDeadlock => deadlock(labels),
    }
}

/// What the value of a node with parts counts for as a truth value.
#[cycle(evaluation)]
pub fn compound_truth<L: BuiltInLabels>(
    labels: &L,
    state: &[i64],
    node: &Node,
) -> Result<bool, TraceFault>
    ensures { result ≡ truth_of (node_value (L.values labels.now) state.now node.now) }
{
    match node {
        Node::Junction(deciding, parts) => junction(labels, state, *deciding, parts.as_slice()),
        Node::Not(part) => {
            let holds = truth_in(labels, state, part.get())?;
            Ok(!holds)
        }
        Node::If(condition, first, second) => {
            if truth_in(labels, state, condition.get())? {
                truth_in(labels, state, first.get())
            } else {
                truth_in(labels, state, second.get())
            }
        }
        _ => truth_of(value(labels, state, node)),
    }
}

/// How the value of a node with parts stands in a state.
#[cycle(evaluation)]
pub fn compound_number<L: BuiltInLabels>(
    labels: &L,
    state: &[i64],
    node: &Node,
) -> Result<i64, TraceFault>
    ensures { result ≡ stored_of (node_value (L.values labels.now) state.now node.now) }
{
    match node {
        Node::Every(tests) => stored_truth(Ok(all_hold(state, tests.as_slice()))),
        Node::Any(tests) => stored_truth(Ok(some_holds(state, tests.as_slice()))),
        Node::Compare(op, parts) => stored_truth(compare(labels, state, *op, parts.as_slice())),
        Node::Junction(deciding, parts) => {
            stored_truth(junction(labels, state, *deciding, parts.as_slice()))
        }
        Node::Extreme(func, parts) => stored_whole(extreme(labels, state, *func, parts.as_slice())),
        Node::Remainder(parts) => stored_whole(remainder(labels, state, parts.as_slice())),
        Node::If(condition, first, second) => {
            if truth_in(labels, state, condition.get())? {
                stored_in(labels, state, first.get())
            } else {
                stored_in(labels, state, second.get())
            }
        }
        _ => stored_of(value(labels, state, node)),
    }
}

/// The value of the label `"deadlock"`.
fn deadlock<L: BuiltInLabels>(labels: &L) -> Result<Value, TraceFault>
    ensures { result ≡ deadlock_value (L.values labels.now) }
{
    match labels.deadlock() {
        Ok(holds) => Ok(Value::Bool(holds)),
        Err(fault) => Err(fault),
    }
}
