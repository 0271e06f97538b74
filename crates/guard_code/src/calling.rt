//! The node of a call by the nodes of its parts.

ghost use Rattle.std.specs.Prelude.{◌≡◌, map, true, IfSome};
ghost use Rattle.chain_model.specs.Values.{call_value};
ghost use Rattle.guard_code.specs.Nodes.{node_value};
ghost use Rattle.guard_code.specs.Shapes.{is_extreme};
ghost use Rattle.guard_code.specs.Means.{Always};
ghost use Rattle.guard_code.specs.Joins.{CallsTo, IsExtreme, IsRemainder};

use crate::calls::call;
use crate::kinds::{all_fixed, all_whole};
use crate::labels::NoLabels;
use crate::nodes::Node;
use chain_model::{Func, Value};
use sqlite_items::Items;

/// The value of a call of literals, where it has one.
fn folded_call(func: Func, parts: &[Node]) -> Option<Value>
    ensures { IfSome result (λ value. CallsTo value func parts.now) }
{
    if !all_fixed(parts) {
        return None;
    }
    match call(&NoLabels, &[], func, parts) {
        Ok(value) => Some(value),
        Err(_) => None,
    }
}

/// Whether a function is `min` or `max`.
fn is_extreme(func: Func) -> bool
    ensures { result ≡ is_extreme func }
{
    match func {
        Func::Min | Func::Max => true,
        _ => false,
    }
}

/// Whether a call is the least or the greatest of whole numbers.
fn is_extreme_call(func: Func, parts: &[Node]) -> bool
    ensures { result ≡ true → IsExtreme func parts.now }
{
    if parts.len() == 0 {
        return false;
    }
    if !is_extreme(func) {
        return false;
    }
    all_whole(parts)
}

/// Whether a call is the remainder of two whole numbers.
fn is_remainder_call(func: Func, parts: &[Node]) -> bool
    ensures { result ≡ true → IsRemainder func parts.now }
{
    if parts.len() != 2 {
        return false;
    }
    match func {
        Func::Mod => all_whole(parts),
        _ => false,
    }
}

/// The node of a call that is not all literals.
fn call_by_shape(func: Func, parts: Items<Node>) -> Node
    ensures { Always (λ labels state. node_value labels state result ≡ call_value func (map (node_value labels state) parts)) }
{
    if is_extreme_call(func, parts.as_slice()) {
        Node::Extreme(func, parts)
    } else if is_remainder_call(func, parts.as_slice()) {
        Node::Remainder(parts)
    } else {
        Node::Call(func, parts)
    }
}

/// The node of a call.
pub fn call_node(func: Func, parts: Items<Node>) -> Node
    ensures { Always (λ labels state. node_value labels state result ≡ call_value func (map (node_value labels state) parts)) }
{
    match folded_call(func, parts.as_slice()) {
        Some(value) => Node::Lit(value),
        None => call_by_shape(func, parts),
    }
}
