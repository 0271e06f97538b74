//! Compiles expressions.

ghost use Rattle.std.specs.Prelude.{◌≡◌, IfOk, IfSome};
ghost use Rattle.chain_model.specs.declared.values.LabelValues.{LabelValues};
ghost use Rattle.chain_model.specs.States.{State};
ghost use Rattle.chain_model.specs.Values.{variable_value};
ghost use Rattle.guard_code.specs.Tests.{number_in};
ghost use Rattle.guard_code.specs.Wholes.{truth_of, choice_value};
ghost use Rattle.guard_code.specs.Nodes.{node_value};
ghost use Rattle.guard_code.specs.Means.{Always, Means, AllMean};

use crate::calling::call_node;
use crate::joining::chain_node;
use crate::kinds::is_whole_literal;
use crate::nodes::Node;
use crate::plain_tests::Test;
use crate::results::stored;
use crate::signs::{minus_node, negation_node};
use chain_model::{Form, Sort, Typed};
use sqlite_items::{Boxed, Items};
use std::alloc::{AllocError, Global};

/// A variable of a sort.
#[tactic(auto, unfolding(crate::specs::Wholes::as_whole))]
fn variable(sort: Sort, number: u32) -> Node
    ensures { (labels : LabelValues) (state : State) → node_value labels state result ≡ variable_value sort (number_in state number) }
{
    match sort {
        Sort::Bool => Node::Plain(Test::Other(number, 0)),
        Sort::Int | Sort::Double => Node::Number(number),
    }
}

/// The node of a conditional that picks one of two whole numbers by a plain test.
fn plain_conditional(condition: &Node, first: &Node, second: &Node) -> Option<Node>
    ensures { IfSome result (λ made. Always (λ labels state. node_value labels state made
        ≡ choice_value (truth_of (node_value labels state condition.now)) (node_value labels state first.now) (node_value labels state second.now))) }
{
    let Node::Plain(test) = condition else {
        return None;
    };
    let Node::Lit(a) = first else {
        return None;
    };
    let Node::Lit(b) = second else {
        return None;
    };
    if is_whole_literal(a) && is_whole_literal(b) {
        Some(Node::PlainIf(*test, stored(a), stored(b)))
    } else {
        None
    }
}

/// A conditional.
fn conditional(condition: Boxed<Node>, first: Boxed<Node>, second: Boxed<Node>) -> Node
    ensures { Always (λ labels state. node_value labels state result
        ≡ choice_value (truth_of (node_value labels state condition)) (node_value labels state first) (node_value labels state second)) }
{
    match plain_conditional(condition.get(), first.get(), second.get()) {
        Some(made) => made,
        None => Node::If(condition, first, second),
    }
}

/// The node of an expression.
#[cycle(compiling)]
pub fn node_of(alloc: Global, expr: &Typed) -> Result<Node, AllocError>
    ensures { IfOk result (λ node. Means node expr.now) }
{
    match &expr.form {
        Form::Lit(value) => Ok(Node::Lit(*value)),
        Form::Var(number) => Ok(variable(expr.sort, *number)),
        Form::Call(func, parts) => {
            let arguments = nodes_of(alloc, parts.as_slice())?;
            Ok(call_node(*func, arguments))
        }
        Form::Not(part) => {
            let denied = boxed_node(alloc, part.get())?;
            Ok(negation_node(denied))
        }
        Form::Minus(part) => {
            let number = boxed_node(alloc, part.get())?;
            Ok(minus_node(number))
        }
        Form::Level(parts, ops) => {
            let operands = nodes_of(alloc, parts.as_slice())?;
            chain_node(alloc, operands, ops.as_slice())
        }
        Form::If(condition, first, second) => {
            let condition = boxed_node(alloc, condition.get())?;
            let first = boxed_node(alloc, first.get())?;
            let second = boxed_node(alloc, second.get())?;
            Ok(conditional(condition, first, second))
        }
        Form::IsInit => Ok(Node::IsInit),
        Form::IsDeadlock => Ok(Node::IsDeadlock),
    }
}

/// The node of an expression, as a part of another node.
#[cycle(compiling)]
fn boxed_node(alloc: Global, expr: &Typed) -> Result<Boxed<Node>, AllocError>
    ensures { IfOk result (λ node. Means node expr.now) }
{
    let node = node_of(alloc, expr)?;
    Boxed::new(alloc, node)
}

/// The nodes of expressions, one for one.
#[cycle(compiling)]
fn nodes_of(alloc: Global, exprs: &[Typed]) -> Result<Items<Node>, AllocError>
    ensures { IfOk result (λ nodes. AllMean nodes exprs.now) }
{
    let mut nodes = Items::new(alloc);
    for expr in exprs {
        let node = node_of(alloc, expr)?;
        nodes.push(node)?;
    }
    Ok(nodes)
}
