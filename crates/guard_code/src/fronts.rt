//! Evaluation of nodes as truth values and as whole numbers. What takes a few instructions is done where it is asked.

ghost use Rattle.std.specs.Prelude.{◌≡◌};
ghost use Rattle.guard_code.specs.Wholes.{truth_of, stored_of};
ghost use Rattle.guard_code.specs.Nodes.{node_value};

use crate::chains::{arithmetic, compare};
use crate::evaluation::{compound_number, compound_truth};
use crate::labels::BuiltInLabels;
use crate::nodes::Node;
use crate::plain_tests::{all_hold, count_holding, number_by, number_in, some_holds, test_holds};
use crate::results::{shifted_stored, stored, stored_truth, stored_whole};
use chain_model::TraceFault;
use chain_values::truth;

/// What a node's value counts for as a truth value.
#[inline(always)]
#[cycle(evaluation)]
pub fn truth_in<L: BuiltInLabels>(
    labels: &L,
    state: &[i64],
    node: &Node,
) -> Result<bool, TraceFault>
    ensures { result ≡ truth_of (node_value (L.values labels.now) state.now node.now) }
{
    match node {
        Node::Lit(value) => Ok(truth(value)),
        Node::Plain(test) => Ok(test_holds(state, test)),
        Node::Every(tests) => Ok(all_hold(state, tests.as_slice())),
        Node::Any(tests) => Ok(some_holds(state, tests.as_slice())),
        Node::Compare(op, parts) => compare(labels, state, *op, parts.as_slice()),
        _ => compound_truth(labels, state, node),
    }
}

/// How a node's value stands in a state.
#[inline(always)]
#[cycle(evaluation)]
pub fn stored_in<L: BuiltInLabels>(
    labels: &L,
    state: &[i64],
    node: &Node,
) -> Result<i64, TraceFault>
    ensures { result ≡ stored_of (node_value (L.values labels.now) state.now node.now) }
{
    match node {
        Node::Lit(value) => Ok(stored(value)),
        Node::Number(x) => stored_whole(Ok(number_in(state, *x))),
        Node::Shifted(x, c) => shifted_stored(number_in(state, *x), *c),
        Node::Plain(test) => stored_truth(Ok(test_holds(state, test))),
        Node::PlainIf(test, first, second) => {
            stored_whole(Ok(number_by(state, test, *first, *second)))
        }
        Node::Count(tests) => stored_whole(Ok(count_holding(state, tests.as_slice()))),
        Node::Arithmetic(parts, ops) => stored_whole(arithmetic(
            labels,
            state,
            parts.as_slice(),
            ops.as_slice(),
        )),
        _ => compound_number(labels, state, node),
    }
}
