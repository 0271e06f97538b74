//! Plain tests among comparisons.

ghost use Rattle.std.specs.Prelude.{◌≡◌, IfSome, Ok};
ghost use Rattle.chain_model.specs.States.{State};
ghost use Rattle.guard_code.specs.Tests.{IsSmall, test_holds};
ghost use Rattle.guard_code.specs.Wholes.{compares, stored_of};
ghost use Rattle.guard_code.specs.Nodes.{node_value};
ghost use Rattle.guard_code.specs.Means.{Always};
ghost use Rattle.guard_code.specs.Shapes.{is_arithmetic, is_sum, is_comparison, is_junction, side_value};

use crate::nodes::Node;
use crate::plain_tests::Test;
use chain_model::{Op, Value};

/// One more than the greatest whole number.
const LIMIT: i64 = 1 << 62;

/// A side of a comparison that is a variable or a whole number.
#[derive(Clone, Copy)]
pub enum Side {
    Variable(u32),
    Constant(i64),
}

/// Whether an operator is `+`, `-` or `*`.
pub fn is_arithmetic(op: Op) -> bool
    ensures { result ≡ is_arithmetic op }
{
    match op {
        Op::Add | Op::Sub | Op::Mul => true,
        _ => false,
    }
}

/// Whether an operator is `+`.
pub fn is_sum(op: Op) -> bool
    ensures { result ≡ is_sum op }
{
    match op {
        Op::Add => true,
        _ => false,
    }
}

/// Whether an operator compares numbers.
pub fn is_comparison(op: Op) -> bool
    ensures { result ≡ is_comparison op }
{
    match op {
        Op::Eq | Op::Ne | Op::Lt | Op::Le | Op::Gt | Op::Ge => true,
        _ => false,
    }
}

/// Whether an operator is the one that parts of this truth value decide: `&` or `|`.
pub fn is_junction(deciding: bool, op: Op) -> bool
    ensures { result ≡ is_junction deciding op }
{
    match op {
        Op::And => !deciding,
        Op::Or => deciding,
        _ => false,
    }
}

/// A node as a side of a plain comparison.
pub fn side_of(node: &Node) -> Option<Side>
    ensures { IfSome result (λ side. Always (λ labels state. stored_of (node_value labels state node.now) ≡ Ok (side_value state side))) }
{
    match node {
        Node::Number(x) => Some(Side::Variable(*x)),
        Node::Lit(Value::Num(number)) => Some(Side::Constant(number.num())),
        _ => None,
    }
}

/// The test of two variables that a comparison is.
fn test_of_variables(op: Op, x: u32, y: u32) -> Option<Test>
    ensures { IfSome result (λ test. (state : State) → test_holds state test ≡ compares op (side_value state (Side.Variable x)) (side_value state (Side.Variable y))) }
{
    match op {
        Op::Eq => Some(Test::Same(x, y)),
        Op::Ne => Some(Test::Different(x, y)),
        Op::Lt => Some(Test::Below(x, y)),
        Op::Le => Some(Test::AtMost(x, y)),
        Op::Gt => Some(Test::Below(y, x)),
        Op::Ge => Some(Test::AtMost(y, x)),
        _ => None,
    }
}

/// The test of a variable that its comparison with a whole number is.
fn test_of_number(op: Op, x: u32, c: i64) -> Option<Test>
    ensures { IfSome result (λ test. (state : State) → IsSmall state
        → test_holds state test ≡ compares op (side_value state (Side.Variable x)) (side_value state (Side.Constant c))) }
{
    match op {
        Op::Eq => Some(Test::Within(x, c, c)),
        Op::Ne => Some(Test::Other(x, c)),
        Op::Lt => Some(Test::Within(x, -LIMIT, c.checked_sub(1)?)),
        Op::Le => Some(Test::Within(x, -LIMIT, c)),
        Op::Gt => Some(Test::Within(x, c.checked_add(1)?, LIMIT)),
        Op::Ge => Some(Test::Within(x, c, LIMIT)),
        _ => None,
    }
}

/// The operator of the comparison with its sides exchanged.
fn mirrored(op: Op) -> Op
    ensures { (state : State) (left right : Side) → compares result (side_value state right) (side_value state left) ≡ compares op (side_value state left) (side_value state right) }
{
    match op {
        Op::Lt => Op::Gt,
        Op::Le => Op::Ge,
        Op::Gt => Op::Lt,
        Op::Ge => Op::Le,
        _ => op,
    }
}

/// The test that a comparison is.
pub fn test_of(op: Op, left: Side, right: Side) -> Option<Test>
    ensures { IfSome result (λ test. (state : State) → IsSmall state → test_holds state test ≡ compares op (side_value state left) (side_value state right)) }
{
    match left {
        Side::Variable(x) => match right {
            Side::Variable(y) => test_of_variables(op, x, y),
            Side::Constant(c) => test_of_number(op, x, c),
        },
        Side::Constant(c) => match right {
            Side::Variable(y) => test_of_number(mirrored(op), y, c),
            Side::Constant(_) => None,
        },
    }
}
