//! Chains of whole numbers.

ghost use Rattle.std.specs.Prelude.{◌≡◌, ◌+ℤ◌, ◌-ℤ◌, IfOk, IfSome};
ghost use Rattle.chain_model.specs.declared.values.LabelValues.{LabelValues};
ghost use Rattle.chain_model.specs.States.{State};
ghost use Rattle.guard_code.specs.Tests.{number_in};
ghost use Rattle.guard_code.specs.Wholes.{as_whole, limited, whole_result};
ghost use Rattle.guard_code.specs.Nodes.{node_value};
ghost use Rattle.guard_code.specs.Shapes.{side_value};
ghost use Rattle.guard_code.specs.Joins.{IsCalculationOf};

use crate::counts::tests_of_count;
use crate::nodes::Node;
use crate::shapes::{Side, side_of};
use chain_model::Op;
use sqlite_items::Items;
use std::alloc::{AllocError, Global};

/// A variable and a whole number, added.
#[derive(Clone, Copy)]
pub struct Shift {
    variable: u32,
    by: i64,
}

/// The sum of a variable and a whole number that a sum of two sides is.
fn shift_by_sum(left: Side, right: Side) -> Option<Shift>
    ensures { IfSome result (λ shift. (state : State)
        → limited (side_value state left +ℤ side_value state right) ≡ limited (number_in state shift.variable +ℤ shift.by)) }
{
    match left {
        Side::Variable(variable) => match right {
            Side::Constant(by) => Some(Shift { variable, by }),
            Side::Variable(_) => None,
        },
        Side::Constant(by) => match right {
            Side::Variable(variable) => Some(Shift { variable, by }),
            Side::Constant(_) => None,
        },
    }
}

/// The sum of a variable and a whole number that a difference of two sides is.
fn shift_by_difference(left: Side, right: Side) -> Option<Shift>
    ensures { IfSome result (λ shift. (state : State)
        → limited (side_value state left -ℤ side_value state right) ≡ limited (number_in state shift.variable +ℤ shift.by)) }
{
    match left {
        Side::Variable(variable) => match right {
            Side::Constant(less) => match less.checked_neg() {
                Some(by) => Some(Shift { variable, by }),
                None => None,
            },
            Side::Variable(_) => None,
        },
        Side::Constant(_) => None,
    }
}

/// The sum of a variable and a whole number that two sides with an operator between them are.
fn shift_of_sides(op: Op, left: Side, right: Side) -> Option<Shift>
    ensures { IfSome result (λ shift. (state : State)
        → whole_result op (side_value state left) (side_value state right) ≡ limited (number_in state shift.variable +ℤ shift.by)) }
{
    match op {
        Op::Add => shift_by_sum(left, right),
        Op::Sub => shift_by_difference(left, right),
        _ => None,
    }
}

/// The node of the sum of a variable and a whole number.
fn shift_node(shift: Shift) -> Node
    ensures { (labels : LabelValues) (state : State) → node_value labels state result ≡ as_whole (limited (number_in state shift.variable +ℤ shift.by)) }
{
    Node::Shifted(shift.variable, shift.by)
}

/// The node of a chain that is a variable and a whole number, added.
fn shift_of(parts: &[Node], ops: &[Op]) -> Option<Node>
    ensures { IfSome result (λ node. IsCalculationOf node parts.now ops.now) }
{
    let [op] = ops else {
        return None;
    };
    let [first, second] = parts else {
        return None;
    };
    match side_of(first) {
        Some(left) => match side_of(second) {
            Some(right) => match shift_of_sides(*op, left, right) {
                Some(shift) => Some(shift_node(shift)),
                None => None,
            },
            None => None,
        },
        None => None,
    }
}

/// The node of a chain of whole numbers, by its parts or by the tests that it counts.
#[tactic(auto, using(crate::proofs::SumLemmas::is_calculation, crate::proofs::CountLemmas::is_count))]
fn sum_of_parts(alloc: Global, parts: Items<Node>, ops: &[Op]) -> Result<Node, AllocError>
    ensures { IfOk result (λ node. IsCalculationOf node parts ops.now) }
{
    match tests_of_count(alloc, parts.as_slice(), ops)? {
        Some(tests) => Ok(Node::Count(tests)),
        None => {
            let operators = Items::from_slice(alloc, ops)?;
            Ok(Node::Arithmetic(parts, operators))
        }
    }
}

/// The node of a chain of whole numbers.
pub fn calculation(alloc: Global, parts: Items<Node>, ops: &[Op]) -> Result<Node, AllocError>
    ensures { IfOk result (λ node. IsCalculationOf node parts ops.now) }
{
    match shift_of(parts.as_slice(), ops) {
        Some(node) => Ok(node),
        None => sum_of_parts(alloc, parts, ops),
    }
}
