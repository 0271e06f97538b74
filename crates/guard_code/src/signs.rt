//! The nodes of `!` and unary `-`.

ghost use Rattle.std.specs.Prelude.{◌≡◌, not, IfSome};
ghost use Rattle.chain_model.specs.States.{State};
ghost use Rattle.guard_code.specs.Tests.{test_holds};
ghost use Rattle.guard_code.specs.Nodes.{node_value};
ghost use Rattle.guard_code.specs.Means.{Always, negation, opposite_value};

use crate::nodes::Node;
use crate::plain_tests::Test;
use chain_model::Value;
use chain_values::{opposite, truth};
use sqlite_items::Boxed;

/// The test that holds where another does not.
fn contrary(test: Test) -> Option<Test>
    ensures { IfSome result (λ other. (state : State) → test_holds state other ≡ not (test_holds state test)) }
{
    match test {
        Test::Within(x, lo, hi) => {
            if lo == hi {
                Some(Test::Other(x, lo))
            } else {
                None
            }
        }
        Test::Other(x, c) => Some(Test::Within(x, c, c)),
        Test::Same(x, y) => Some(Test::Different(x, y)),
        Test::Different(x, y) => Some(Test::Same(x, y)),
        Test::Below(x, y) => Some(Test::AtMost(y, x)),
        Test::AtMost(x, y) => Some(Test::Below(y, x)),
    }
}

/// The node of `!` that needs no part.
fn plain_negation(node: &Node) -> Option<Node>
    ensures { IfSome result (λ made. Always (λ labels state. node_value labels state made ≡ negation (node_value labels state node.now))) }
{
    match node {
        Node::Plain(test) => match contrary(*test) {
            Some(other) => Some(Node::Plain(other)),
            None => None,
        },
        Node::Lit(value) => Some(Node::Lit(Value::Bool(!truth(value)))),
        _ => None,
    }
}

/// The node of `!`.
pub fn negation_node(part: Boxed<Node>) -> Node
    ensures { Always (λ labels state. node_value labels state result ≡ negation (node_value labels state part)) }
{
    match plain_negation(part.get()) {
        Some(made) => made,
        None => Node::Not(part),
    }
}

/// The literal that unary `-` makes of one.
fn opposite_literal(node: &Node) -> Option<Node>
    ensures { IfSome result (λ made. Always (λ labels state. node_value labels state made ≡ opposite_value (node_value labels state node.now))) }
{
    match node {
        Node::Lit(value) => match opposite(*value) {
            Ok(value) => Some(Node::Lit(value)),
            Err(_) => None,
        },
        _ => None,
    }
}

/// The node of unary `-`.
pub fn minus_node(part: Boxed<Node>) -> Node
    ensures { Always (λ labels state. node_value labels state result ≡ opposite_value (node_value labels state part)) }
{
    match opposite_literal(part.get()) {
        Some(made) => made,
        None => Node::Minus(part),
    }
}
