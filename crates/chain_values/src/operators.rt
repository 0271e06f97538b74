ghost use Rattle.std.specs.Prelude.{◌≡◌};
ghost use Rattle.chain_model.specs.Values.{left_result, both_result};

use crate::comparisons::{are_same, is_below, truth};
use crate::numbers::arithmetic;
use chain_model::{Op, TraceFault, Value};

/// What `&`, `|` and `=>` give by their left side alone.
pub fn left_result(op: Op, left: &Value) -> Option<Value>
    ensures { result ≡ left_result op left.now }
{
    match op {
        Op::And if !truth(left) => Some(Value::Bool(false)),
        Op::Or if truth(left) => Some(Value::Bool(true)),
        Op::Imp if !truth(left) => Some(Value::Bool(true)),
        _ => None,
    }
}

/// What an operator gives by both sides, where its left side alone does not say.
pub fn both_result(op: Op, left: Value, right: Value) -> Result<Value, TraceFault>
    ensures { result ≡ both_result op left right }
{
    let holds = match op {
        Op::And | Op::Or | Op::Imp => return Ok(right),
        Op::Add | Op::Sub | Op::Mul | Op::Div => return arithmetic(op, left, right),
        Op::Iff => truth(&left) == truth(&right),
        Op::Eq => are_same(&left, &right),
        Op::Ne => !are_same(&left, &right),
        Op::Lt => is_below(&left, &right),
        Op::Le => !is_below(&right, &left),
        Op::Gt => is_below(&right, &left),
        Op::Ge => !is_below(&left, &right),
    };
    Ok(Value::Bool(holds))
}
