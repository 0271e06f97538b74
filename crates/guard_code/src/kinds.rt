//! What nodes give: whole numbers alone, or truth values alone.

ghost use Rattle.std.specs.Prelude.{◌≡◌, IsTrue, All, Ok};
ghost use Rattle.guard_code.specs.Wholes.{as_whole, stored_of};
ghost use Rattle.std.specs.List.{list_all};
ghost use Rattle.guard_code.specs.Means.{IsWhole, IsTruth, IsFixed};
ghost use Rattle.guard_code.specs.Shapes.{is_arithmetic, is_sum, is_junction};

use crate::nodes::Node;
use crate::shapes::{is_arithmetic, is_junction, is_sum};
use chain_model::{Op, Value};

/// Whether a value is a whole number.
pub fn is_whole_literal(value: &Value) -> bool
    ensures { IsTrue result → Ok value.now ≡ as_whole (stored_of (Ok value.now)) }
{
    match value {
        Value::Num(number) => number.den() == 1,
        Value::Bool(_) => false,
    }
}

/// Whether a node is known to give whole numbers alone.
fn is_whole(node: &Node) -> bool
    ensures { IsTrue result → IsWhole node.now }
{
    match node {
        Node::Number(_variable) => true,
        Node::Shifted(_variable, _by) => true,
        Node::Arithmetic(_parts, _ops) => true,
        Node::Extreme(_func, _parts) => true,
        Node::Remainder(_parts) => true,
        Node::PlainIf(_test, _first, _second) => true,
        Node::Count(_tests) => true,
        Node::Lit(value) => is_whole_literal(value),
        Node::If(_condition, first, second) => {
            if is_whole(first.get()) {
                is_whole(second.get())
            } else {
                false
            }
        }
        _ => false,
    }
}

/// Whether a node is known to give truth values alone.
#[tactic(auto, using(crate::proofs::WholeLemmas::truth_again))]
fn is_truth(node: &Node) -> bool
    ensures { IsTrue result → IsTruth node.now }
{
    match node {
        Node::Plain(_)
        | Node::Every(_)
        | Node::Any(_)
        | Node::Compare(..)
        | Node::Junction(..)
        | Node::Not(_)
        | Node::IsInit
        | Node::IsDeadlock
        | Node::Lit(Value::Bool(_)) => true,
        _ => false,
    }
}

/// Whether a node is a literal.
fn is_fixed(node: &Node) -> bool
    ensures { IsTrue result → IsFixed node.now }
{
    match node {
        Node::Lit(_) => true,
        _ => false,
    }
}

/// Whether all nodes are known to give whole numbers alone.
pub fn all_whole(nodes: &[Node]) -> bool
    ensures { IsTrue result → All IsWhole nodes.now }
{
    for node in nodes {
        if !is_whole(node) {
            return false;
        }
    }
    true
}

/// Whether all nodes are known to give truth values alone.
pub fn all_truth(nodes: &[Node]) -> bool
    ensures { IsTrue result → All IsTruth nodes.now }
{
    for node in nodes {
        if !is_truth(node) {
            return false;
        }
    }
    true
}

/// Whether all nodes are literals.
pub fn all_fixed(nodes: &[Node]) -> bool
    ensures { IsTrue result → All IsFixed nodes.now }
{
    for node in nodes {
        if !is_fixed(node) {
            return false;
        }
    }
    true
}

/// Whether all operators are `+`, `-` or `*`.
pub fn all_arithmetic(ops: &[Op]) -> bool
    ensures { result ≡ list_all is_arithmetic ops.now }
{
    ops.iter().all(|op| is_arithmetic(*op))
}

/// Whether all operators are `+`.
pub fn all_sums(ops: &[Op]) -> bool
    ensures { result ≡ list_all is_sum ops.now }
{
    ops.iter().all(|op| is_sum(*op))
}

/// Whether all operators are the one that parts of this truth value decide.
pub fn all_junction(deciding: bool, ops: &[Op]) -> bool
    ensures { result ≡ list_all (is_junction deciding) ops.now }
{
    ops.iter().all(|op| is_junction(deciding, *op))
}
