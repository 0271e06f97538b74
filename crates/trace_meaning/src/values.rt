ghost use Rattle.std.specs.Prelude.{◌≡◌, map, drop, pos, slice_get, unwrap_or};
ghost use Rattle.chain_model.specs.Values.{value_with, call_value, function_value, level_value, extreme_value, join, lesser, greater, variable_value, deadlock_value};

use crate::labels::BuiltInLabels;
use chain_model::{Form, Func, Op, Sort, TraceFault, Typed, Value};
use chain_values::{
    both_result, ceil_value, floor_value, greater, left_result, lesser, opposite, power, remainder,
    truth, variable_value,
};

/// The value of an expression in a state, where the built-in labels say this.
#[cycle(values)]
pub fn value_with<L: BuiltInLabels>(
    labels: &L,
    state: &[i64],
    expr: &Typed,
) -> Result<Value, TraceFault>
    ensures { result ≡ value_with (L.values labels.now) state.now expr.now }
{
    match &expr.form {
        Form::Lit(value) => Ok(*value),
        Form::Var(number) => variable(expr.sort, *number, state),
        Form::Call(func, parts) => call(labels, state, *func, parts.as_slice()),
        Form::Not(operand) => {
            let value = value_with(labels, state, operand.get())?;
            Ok(Value::Bool(!truth(&value)))
        }
        Form::Minus(operand) => {
            let value = value_with(labels, state, operand.get())?;
            opposite(value)
        }
        Form::Level(operands, operators) => level(
            labels,
            state,
            operands.as_slice(),
            operators.as_slice(),
        ),
        Form::If(condition, first, second) => {
            let value = value_with(labels, state, condition.get())?;
            if truth(&value) {
                value_with(labels, state, first.get())
            } else {
                value_with(labels, state, second.get())
            }
        }
        Form::IsInit => Ok(Value::Bool(labels.init())),
        Form::IsDeadlock => deadlock(labels),
    }
}

/// The value of a chain, folded from the left.
#[cycle(values)]
#[inline(never)]
fn level<L: BuiltInLabels>(
    labels: &L,
    state: &[i64],
    operands: &[Typed],
    operators: &[Op],
) -> Result<Value, TraceFault>
    ensures { result ≡ level_value (map (value_with (L.values labels.now) state.now) operands.now) operators.now }
{
    let [first, ..] = operands else {
        return Ok(Value::Bool(false));
    };
    let mut value = match value_with(labels, state, first) {
        Ok(value) => value,
        Err(fault) => return Err(fault),
    };
    for (index, operator) in operators.iter().enumerate() {
        if index + 1 < operands.len() {
            value = match join(labels, state, *operator, value, &operands[index + 1]) {
                Ok(next) => next,
                Err(fault) => return Err(fault),
            };
        }
    }
    Ok(value)
}

/// A value joined to the next part of its chain, which is read only where the value alone does not say.
#[cycle(values)]
fn join<L: BuiltInLabels>(
    labels: &L,
    state: &[i64],
    operator: Op,
    value: Value,
    operand: &Typed,
) -> Result<Value, TraceFault>
    ensures { result ≡ join operator value (value_with (L.values labels.now) state.now operand.now) }
{
    match left_result(operator, &value) {
        Some(decided) => Ok(decided),
        None => {
            let next = value_with(labels, state, operand)?;
            both_result(operator, value, next)
        }
    }
}

/// The value of a call.
#[cycle(values)]
#[inline(never)]
fn call<L: BuiltInLabels>(
    labels: &L,
    state: &[i64],
    func: Func,
    parts: &[Typed],
) -> Result<Value, TraceFault>
    ensures { result ≡ call_value func (map (value_with (L.values labels.now) state.now) parts.now) }
{
    let [first, ..] = parts else {
        return Ok(Value::Bool(false));
    };
    match value_with(labels, state, first) {
        Ok(value) => function(labels, state, func, value, parts),
        Err(fault) => Err(fault),
    }
}

/// The value of a function of its first part's value and the further parts.
#[cycle(values)]
fn function<L: BuiltInLabels>(
    labels: &L,
    state: &[i64],
    func: Func,
    value: Value,
    parts: &[Typed],
) -> Result<Value, TraceFault>
    ensures { result ≡ function_value func value (map (value_with (L.values labels.now) state.now) (drop 1 parts.now)) }
{
    match func {
        Func::Min => least(labels, state, value, parts),
        Func::Max => greatest(labels, state, value, parts),
        Func::Floor => floor_value(value),
        Func::Ceil => ceil_value(value),
        Func::Pow | Func::Mod => {
            let [_, part, ..] = parts else {
                return Ok(Value::Bool(false));
            };
            let second = value_with(labels, state, part)?;
            if func == Func::Pow {
                power(value, second)
            } else {
                remainder(value, second)
            }
        }
    }
}

/// The least of a value and the parts after the first.
#[cycle(values)]
fn least<L: BuiltInLabels>(
    labels: &L,
    state: &[i64],
    first: Value,
    parts: &[Typed],
) -> Result<Value, TraceFault>
    ensures { result ≡ extreme_value lesser first (map (value_with (L.values labels.now) state.now) (drop 1 parts.now)) }
{
    let mut value = first;
    for index in 1..parts.len() {
        value = match value_with(labels, state, &parts[index]) {
            Ok(next) => lesser(value, next),
            Err(fault) => return Err(fault),
        };
    }
    Ok(value)
}

/// The greatest of a value and the parts after the first.
#[cycle(values)]
fn greatest<L: BuiltInLabels>(
    labels: &L,
    state: &[i64],
    first: Value,
    parts: &[Typed],
) -> Result<Value, TraceFault>
    ensures { result ≡ extreme_value greater first (map (value_with (L.values labels.now) state.now) (drop 1 parts.now)) }
{
    let mut value = first;
    for index in 1..parts.len() {
        value = match value_with(labels, state, &parts[index]) {
            Ok(next) => greater(value, next),
            Err(fault) => return Err(fault),
        };
    }
    Ok(value)
}

/// The value of a variable of a sort.
#[inline(never)]
fn variable(sort: Sort, number: u32, state: &[i64]) -> Result<Value, TraceFault>
    ensures { result ≡ variable_value sort (unwrap_or (slice_get state.now number) (pos 0)) }
{
    match state.get(number as usize) {
        Some(value) => variable_value(sort, *value),
        None => variable_value(sort, 0),
    }
}

/// The value of the label `"deadlock"`.
#[inline(never)]
fn deadlock<L: BuiltInLabels>(labels: &L) -> Result<Value, TraceFault>
    ensures { result ≡ deadlock_value (L.values labels.now) }
{
    match labels.deadlock() {
        Ok(holds) => Ok(Value::Bool(holds)),
        Err(fault) => Err(fault),
    }
}
