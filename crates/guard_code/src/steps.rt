//! What a step asks of the nodes of a command: no built-in label stands in them.

ghost use Rattle.std.specs.Prelude.{◌≡◌};
ghost use Rattle.chain_model.specs.Choices.{no_labels};
ghost use Rattle.guard_code.specs.Wholes.{truth_of, stored_of};
ghost use Rattle.guard_code.specs.Nodes.{node_value};

use crate::evaluation::value;
use crate::fronts::{stored_in, truth_in};
use crate::labels::NoLabels;
use crate::nodes::Node;
use crate::plain_tests::{all_hold, some_holds};
use crate::results::stored_truth;
use chain_model::{TraceFault, Value};

/// Whether a guard holds in a state.
#[inline(always)]
pub fn guard_holds(guard: &Node, state: &[i64]) -> Result<bool, TraceFault>
    ensures { result ≡ truth_of (node_value no_labels state.now guard.now) }
{
    truth_in(&NoLabels, state, guard)
}

/// The value of a weight in a state.
#[inline(always)]
pub fn weight_value(weight: &Node, state: &[i64]) -> Result<Value, TraceFault>
    ensures { result ≡ node_value no_labels state.now weight.now }
{
    value(&NoLabels, state, weight)
}

/// How the value of a right side stands in a state.
#[inline(always)]
pub fn assigned_number(side: &Node, state: &[i64]) -> Result<i64, TraceFault>
    ensures { result ≡ stored_of (node_value no_labels state.now side.now) }
{
    match side {
        Node::Every(tests) => stored_truth(Ok(all_hold(state, tests.as_slice()))),
        Node::Any(tests) => stored_truth(Ok(some_holds(state, tests.as_slice()))),
        _ => stored_in(&NoLabels, state, side),
    }
}
