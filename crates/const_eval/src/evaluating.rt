ghost use Rattle.std.specs.Prelude.{◌≡◌, map, drop, bytes_eq};
ghost use Rattle.indexmap.specs.IndexMap.{get};
ghost use Rattle.chain_model.specs.Values.{call_value, function_value, level_value, extreme_value, join, lesser, greater};
ghost use Rattle.const_eval.specs.Tables.{op_of, func_of};
ghost use Rattle.const_eval.specs.Evaluating.{value_in, by_table};

use crate::tables::operator;
use chain_model::{TraceFault, Value};
use chain_values::{
    both_result, ceil_value, floor_value, greater, left_result, lesser, opposite, power, remainder,
    truth,
};
use indexmap::IndexMap;
use prism_syntax::{Expr, Func, Op};
use smc_num::Text;

/// The value of an expression, where its names have these values; each other name has some value.
#[cycle(evaluating)]
pub fn value(
    values: &IndexMap<Text, Result<Value, TraceFault>>,
    expr: &Expr,
) -> Result<Value, TraceFault>
    ensures { result ≡ value_in (by_table (get bytes_eq values.now)) expr.now }
{
    match expr {
        Expr::Whole(number) => Ok(Value::Num(*number)),
        Expr::Real(number) => Ok(Value::Num(*number)),
        Expr::Truth(holds) => Ok(Value::Bool(*holds)),
        Expr::Name(name) => name_value(values, name),
        Expr::Quoted(_) => Ok(Value::Bool(false)),
        Expr::Paren(part) => value(values, part.get()),
        Expr::Call(func, parts) => call(values, *func, parts.as_slice()),
        Expr::Not(operand) => {
            let found = value(values, operand.get())?;
            Ok(Value::Bool(!truth(&found)))
        }
        Expr::Minus(operand) => {
            let found = value(values, operand.get())?;
            opposite(found)
        }
        Expr::Level(operands, operators) => level(
            values,
            operands.as_slice(),
            operators.as_slice(),
        ),
        Expr::If(condition, first, second) => {
            let found = value(values, condition.get())?;
            if truth(&found) {
                value(values, first.get())
            } else {
                value(values, second.get())
            }
        }
    }
}

/// What a name stands for; a name that the table lacks has some value.
pub fn name_value(
    values: &IndexMap<Text, Result<Value, TraceFault>>,
    name: &Text,
) -> Result<Value, TraceFault>
    ensures { result ≡ by_table (get bytes_eq values.now) name.now }
{
    match values.get(name) {
        Some(found) => *found,
        None => Ok(Value::Bool(false)),
    }
}

/// The value of a chain, folded from the left.
#[cycle(evaluating)]
fn level(
    values: &IndexMap<Text, Result<Value, TraceFault>>,
    operands: &[Expr],
    operators: &[Op],
) -> Result<Value, TraceFault>
    ensures { result ≡ level_value (map (value_in (by_table (get bytes_eq values.now))) operands.now) (map op_of operators.now) }
{
    let [first, ..] = operands else {
        return Ok(Value::Bool(false));
    };
    let mut begun = match value(values, first) {
        Ok(found) => found,
        Err(fault) => return Err(fault),
    };
    for (index, op) in operators.iter().enumerate() {
        if index + 1 < operands.len() {
            begun = match join(values, *op, begun, &operands[index + 1]) {
                Ok(next) => next,
                Err(fault) => return Err(fault),
            };
        }
    }
    Ok(begun)
}

/// A value joined to the next part of its chain, which is read only where the value alone does not say.
#[cycle(evaluating)]
fn join(
    values: &IndexMap<Text, Result<Value, TraceFault>>,
    op: Op,
    left: Value,
    operand: &Expr,
) -> Result<Value, TraceFault>
    ensures { result ≡ join (op_of op) left (value_in (by_table (get bytes_eq values.now)) operand.now) }
{
    match left_result(operator(op), &left) {
        Some(decided) => Ok(decided),
        None => {
            let right = value(values, operand)?;
            both_result(operator(op), left, right)
        }
    }
}

/// The value of a call.
#[cycle(evaluating)]
fn call(
    values: &IndexMap<Text, Result<Value, TraceFault>>,
    func: Func,
    parts: &[Expr],
) -> Result<Value, TraceFault>
    ensures { result ≡ call_value (func_of func) (map (value_in (by_table (get bytes_eq values.now))) parts.now) }
{
    let [first, ..] = parts else {
        return Ok(Value::Bool(false));
    };
    match value(values, first) {
        Ok(found) => function(values, func, found, parts),
        Err(fault) => Err(fault),
    }
}

/// The value of a function of its first part's value and the further parts.
#[cycle(evaluating)]
fn function(
    values: &IndexMap<Text, Result<Value, TraceFault>>,
    func: Func,
    first: Value,
    parts: &[Expr],
) -> Result<Value, TraceFault>
    ensures { result ≡ function_value (func_of func) first (map (value_in (by_table (get bytes_eq values.now))) (drop 1 parts.now)) }
{
    match func {
        Func::Min => least(values, first, parts),
        Func::Max => greatest(values, first, parts),
        Func::Floor => floor_value(first),
        Func::Ceil => ceil_value(first),
        Func::Pow | Func::Mod => {
            let [_, part, ..] = parts else {
                return Ok(Value::Bool(false));
            };
            let second = value(values, part)?;
            if func == Func::Pow {
                power(first, second)
            } else {
                remainder(first, second)
            }
        }
    }
}

/// The least of a value and the parts after the first.
#[cycle(evaluating)]
fn least(
    values: &IndexMap<Text, Result<Value, TraceFault>>,
    first: Value,
    parts: &[Expr],
) -> Result<Value, TraceFault>
    ensures { result ≡ extreme_value lesser first (map (value_in (by_table (get bytes_eq values.now))) (drop 1 parts.now)) }
{
    let mut begun = first;
    for index in 1..parts.len() {
        begun = match value(values, &parts[index]) {
            Ok(next) => lesser(begun, next),
            Err(fault) => return Err(fault),
        };
    }
    Ok(begun)
}

/// The greatest of a value and the parts after the first.
#[cycle(evaluating)]
fn greatest(
    values: &IndexMap<Text, Result<Value, TraceFault>>,
    first: Value,
    parts: &[Expr],
) -> Result<Value, TraceFault>
    ensures { result ≡ extreme_value greater first (map (value_in (by_table (get bytes_eq values.now))) (drop 1 parts.now)) }
{
    let mut begun = first;
    for index in 1..parts.len() {
        begun = match value(values, &parts[index]) {
            Ok(next) => greater(begun, next),
            Err(fault) => return Err(fault),
        };
    }
    Ok(begun)
}
