//! The node of a chain by the nodes of its parts.

ghost use Rattle.std.specs.Prelude.{◌≡◌, true, IfOk, IfSome};
ghost use Rattle.guard_code.specs.Means.{Joins};
ghost use Rattle.guard_code.specs.Joins.{FoldsTo, IsCompared, IsComparisonOf, IsTestOf, IsCalculated, IsQuotient, IsDecided, IsJunctionOf, AreTests};

use crate::calculations::calculation;
use crate::chains::level;
use crate::kinds::{all_arithmetic, all_fixed, all_junction, all_truth, all_whole};
use crate::labels::NoLabels;
use crate::nodes::Node;
use crate::plain_tests::Test;
use crate::shapes::{is_comparison, side_of, test_of};
use chain_model::{Op, Value};
use sqlite_items::Items;
use std::alloc::{AllocError, Global};

/// The value of a chain of literals, where it has one.
fn folded_chain(parts: &[Node], ops: &[Op]) -> Option<Value>
    ensures { IfSome result (λ value. FoldsTo value parts.now ops.now) }
{
    if !all_fixed(parts) {
        return None;
    }
    match level(&NoLabels, &[], parts, ops) {
        Ok(value) => Some(value),
        Err(_) => None,
    }
}

/// The operator of a chain that compares two whole numbers.
fn comparison_of(parts: &[Node], ops: &[Op]) -> Option<Op>
    ensures { IfSome result (λ op. IsCompared op parts.now ops.now) }
{
    let [op] = ops else {
        return None;
    };
    if parts.len() == 2 && is_comparison(*op) && all_whole(parts) {
        Some(*op)
    } else {
        None
    }
}

/// The plain test that a comparison is.
fn plain_comparison(op: Op, parts: &[Node]) -> Option<Test>
    ensures { IfSome result (λ test. IsTestOf test op parts.now) }
{
    let [first, second] = parts else {
        return None;
    };
    match side_of(first) {
        Some(left) => match side_of(second) {
            Some(right) => test_of(op, left, right),
            None => None,
        },
        None => None,
    }
}

/// A comparison of two whole numbers.
fn comparison(op: Op, parts: Items<Node>) -> Node
    ensures { IsComparisonOf result op parts }
{
    match plain_comparison(op, parts.as_slice()) {
        Some(test) => Node::Plain(test),
        None => Node::Compare(op, parts),
    }
}

/// Whether a chain is one of whole numbers.
fn is_arithmetic_chain(parts: &[Node], ops: &[Op]) -> bool
    ensures { result ≡ true → IsCalculated parts.now ops.now }
{
    1 <= parts.len() && all_arithmetic(ops) && all_whole(parts)
}

/// Whether a chain is a whole number over another.
fn is_quotient(parts: &[Node], ops: &[Op]) -> bool
    ensures { result ≡ true → IsQuotient parts.now ops.now }
{
    let [op] = ops else {
        return false;
    };
    if parts.len() != 2 {
        return false;
    }
    match *op {
        Op::Div => all_whole(parts),
        _ => false,
    }
}

/// Whether a chain is one of truth values that parts of one truth value decide.
fn is_junction_chain(deciding: bool, parts: &[Node], ops: &[Op]) -> bool
    ensures { result ≡ true → IsDecided deciding parts.now ops.now }
{
    parts.len() == ops.len() + 1 && all_junction(deciding, ops) && all_truth(parts)
}

/// The plain tests that nodes are, where all are.
fn plain_tests(alloc: Global, parts: &[Node]) -> Result<Option<Items<Test>>, AllocError>
    ensures { IfOk result (λ found. IfSome found (λ tests. AreTests tests parts.now)) }
{
    let mut tests = Items::new(alloc);
    for part in parts {
        match part {
            Node::Plain(test) => tests.push(*test)?,
            _ => return Ok(None),
        }
    }
    Ok(Some(tests))
}

/// A chain of truth values that parts of one truth value decide.
#[tactic(auto, using(crate::proofs::JoinLemmas::is_junction_every, crate::proofs::JoinLemmas::is_junction_any))]
fn junction(alloc: Global, deciding: bool, parts: Items<Node>) -> Result<Node, AllocError>
    ensures { IfOk result (λ node. IsJunctionOf node deciding parts) }
{
    match plain_tests(alloc, parts.as_slice())? {
        Some(tests) => Ok(if deciding {
            Node::Any(tests)
        } else {
            Node::Every(tests)
        }),
        None => Ok(Node::Junction(deciding, parts)),
    }
}

/// The node of a chain that is not all literals.
fn chain_by_shape(alloc: Global, parts: Items<Node>, ops: &[Op]) -> Result<Node, AllocError>
    ensures { IfOk result (λ node. Joins node parts ops.now) }
{
    let view = parts.as_slice();
    let calculated = is_arithmetic_chain(view, ops);
    let divided = is_quotient(view, ops);
    let all = is_junction_chain(false, view, ops);
    let some = is_junction_chain(true, view, ops);
    match comparison_of(view, ops) {
        Some(op) => return Ok(comparison(op, parts)),
        None => {}
    }
    if all {
        junction(alloc, false, parts)
    } else if some {
        junction(alloc, true, parts)
    } else if calculated {
        calculation(alloc, parts, ops)
    } else if divided {
        Ok(Node::Quotient(parts))
    } else {
        Ok(Node::Level(parts, Items::from_slice(alloc, ops)?))
    }
}

/// The node of a chain.
#[tactic(auto, using(crate::proofs::JoinLemmas::joins_literal))]
pub fn chain_node(alloc: Global, parts: Items<Node>, ops: &[Op]) -> Result<Node, AllocError>
    ensures { IfOk result (λ node. Joins node parts ops.now) }
{
    match folded_chain(parts.as_slice(), ops) {
        Some(value) => Ok(Node::Lit(value)),
        None => chain_by_shape(alloc, parts, ops),
    }
}
