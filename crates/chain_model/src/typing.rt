ghost use Rattle.std.specs.Prelude.{◌≡◌, map, drop};
ghost use Rattle.std.specs.List.{list_all};
ghost use Rattle.chain_model.specs.Sorts.{is_level, may_follow, level_sort, link_sort, links_sort, extreme_sort, extremes_sort, only_sort, both_sorts, call_sort};
ghost use Rattle.chain_model.specs.Typing.{sort_of, as_declared, label_sort, variable_sort, if_sort};

use crate::chain::Var;
use crate::expressions::{Form, Func, Labels, Op, Typed};
use crate::sorts::{
    conditional_sort, is_of_sort, may_follow, negation_sort, number_sort, opposite_sort,
    power_sort, remainder_sort, result_sort, rounded_sort,
};
use crate::values::Sort;

/// The sort of an expression in which each node is of the sort that the table of forms gives it; others have none.
#[cycle(typing)]
pub fn sort_of(vars: &[Var], labels: Labels, tree: &Typed) -> Option<Sort>
    ensures { result ≡ sort_of vars.now labels tree.now }
{
    let found = match &tree.form {
        Form::Lit(value) => {
            if is_of_sort(tree.sort, value) {
                Some(tree.sort)
            } else {
                None
            }
        }
        Form::Var(number) => variable_sort(vars, *number),
        Form::Call(func, parts) => call_sort(vars, labels, *func, parts.as_slice()),
        Form::Not(operand) => sort_of(vars, labels, operand.get()).and_then(negation_sort),
        Form::Minus(operand) => sort_of(vars, labels, operand.get()).and_then(opposite_sort),
        Form::Level(operands, operators) => level_sort(
            vars,
            labels,
            operands.as_slice(),
            operators.as_slice(),
        ),
        Form::If(condition, first, second) => if_sort(
            sort_of(vars, labels, condition.get()),
            sort_of(vars, labels, first.get()),
            sort_of(vars, labels, second.get()),
        ),
        Form::IsInit | Form::IsDeadlock => label_sort(labels),
    };
    as_declared(tree.sort, found)
}

/// A sort that was found, where it is the one that is declared.
fn as_declared(declared: Sort, found: Option<Sort>) -> Option<Sort>
    ensures { result ≡ as_declared declared found }
{
    match (declared, found) {
        (Sort::Int, Some(Sort::Int)) => Some(Sort::Int),
        (Sort::Double, Some(Sort::Double)) => Some(Sort::Double),
        (Sort::Bool, Some(Sort::Bool)) => Some(Sort::Bool),
        _ => None,
    }
}

/// The sort of a variable, by its number.
fn variable_sort(vars: &[Var], number: u32) -> Option<Sort>
    ensures { result ≡ variable_sort vars.now number }
{
    match vars.get(number as usize) {
        Some(var) => Some(var.sort),
        None => None,
    }
}

/// The sort of a built-in label, where it may stand.
fn label_sort(labels: Labels) -> Option<Sort>
    ensures { result ≡ label_sort labels }
{
    match labels {
        Labels::Allowed => Some(Sort::Bool),
        Labels::Refused => None,
    }
}

/// The sort of a conditional, where each of its parts has one.
fn if_sort(condition: Option<Sort>, first: Option<Sort>, second: Option<Sort>) -> Option<Sort>
    ensures { result ≡ if_sort condition first second }
{
    conditional_sort(condition?, first?, second?)
}

/// Whether operators are those of a level: one fewer than its operands, and all of one line of the grammar.
fn is_level(others: usize, first: Op, rest: &[Op]) -> bool
    ensures { result ≡ is_level others first rest.now }
{
    others == rest.len() + 1 && all_follow(first, rest)
}

/// Whether operators may all stand in the level that another begins.
fn all_follow(first: Op, rest: &[Op]) -> bool
    ensures { result ≡ list_all (may_follow first) rest.now }
{
    for op in rest {
        if !may_follow(first, *op) {
            return false;
        }
    }
    true
}

/// The sort of a level: its operands joined from the left.
#[cycle(typing)]
fn level_sort(vars: &[Var], labels: Labels, operands: &[Typed], operators: &[Op]) -> Option<Sort>
    ensures { result ≡ level_sort (map (sort_of vars.now labels) operands.now) operators.now }
{
    let [first, others @ ..] = operands else {
        return None;
    };
    let [leading, rest @ ..] = operators else {
        return None;
    };
    if !is_level(others.len(), *leading, rest) {
        return None;
    }
    match sort_of(vars, labels, first) {
        Some(sort) => links_sort(vars, labels, sort, operands, operators),
        None => None,
    }
}

/// The sort of the operands after the first joined to what stands before them.
#[cycle(typing)]
fn links_sort(
    vars: &[Var],
    labels: Labels,
    first: Sort,
    operands: &[Typed],
    operators: &[Op],
) -> Option<Sort>
    ensures { result ≡ links_sort first (map (sort_of vars.now labels) (drop 1 operands.now)) operators.now }
{
    let mut sort = first;
    for (index, operator) in operators.iter().enumerate() {
        if index + 1 < operands.len() {
            sort = match link_sort(vars, labels, *operator, sort, &operands[index + 1]) {
                Some(joined) => joined,
                None => return None,
            };
        }
    }
    Some(sort)
}

/// The sort of an operator's result, by the sort of what stands before it and the operand after it.
#[cycle(typing)]
fn link_sort(
    vars: &[Var],
    labels: Labels,
    operator: Op,
    left: Sort,
    operand: &Typed,
) -> Option<Sort>
    ensures { result ≡ link_sort operator left (sort_of vars.now labels operand.now) }
{
    match sort_of(vars, labels, operand) {
        Some(right) => result_sort(operator, left, right),
        None => None,
    }
}

/// The sort of a call.
#[cycle(typing)]
fn call_sort(vars: &[Var], labels: Labels, func: Func, parts: &[Typed]) -> Option<Sort>
    ensures { result ≡ call_sort func (map (sort_of vars.now labels) parts.now) }
{
    match func {
        Func::Min => extremes_sort(vars, labels, parts),
        Func::Max => extremes_sort(vars, labels, parts),
        Func::Floor => rounded_sort(only_sort(vars, labels, parts)?),
        Func::Ceil => rounded_sort(only_sort(vars, labels, parts)?),
        Func::Pow => {
            let (base, exponent) = both_sorts(vars, labels, parts)?;
            power_sort(base, exponent)
        }
        Func::Mod => {
            let (number, modulus) = both_sorts(vars, labels, parts)?;
            remainder_sort(number, modulus)
        }
    }
}

/// The sort of the only part.
#[cycle(typing)]
fn only_sort(vars: &[Var], labels: Labels, parts: &[Typed]) -> Option<Sort>
    ensures { result ≡ only_sort (map (sort_of vars.now labels) parts.now) }
{
    let [part] = parts else {
        return None;
    };
    sort_of(vars, labels, part)
}

/// The sorts of both parts.
#[cycle(typing)]
fn both_sorts(vars: &[Var], labels: Labels, parts: &[Typed]) -> Option<(Sort, Sort)>
    ensures { result ≡ both_sorts (map (sort_of vars.now labels) parts.now) }
{
    let [first, second] = parts else {
        return None;
    };
    Some((
        sort_of(vars, labels, first)?,
        sort_of(vars, labels, second)?,
    ))
}

/// The sort of the least or the greatest of two numbers or more.
#[cycle(typing)]
fn extremes_sort(vars: &[Var], labels: Labels, parts: &[Typed]) -> Option<Sort>
    ensures { result ≡ extremes_sort (map (sort_of vars.now labels) parts.now) }
{
    let [first, _, ..] = parts else {
        return None;
    };
    match sort_of(vars, labels, first) {
        Some(sort) => extreme_sort(vars, labels, sort, parts),
        None => None,
    }
}

/// The sort of the least or the greatest of numbers, by the sort of the first and the parts after it.
#[cycle(typing)]
fn extreme_sort(vars: &[Var], labels: Labels, first: Sort, parts: &[Typed]) -> Option<Sort>
    ensures { result ≡ extreme_sort first (map (sort_of vars.now labels) (drop 1 parts.now)) }
{
    let mut sort = first;
    for index in 1..parts.len() {
        sort = match sort_of(vars, labels, &parts[index]) {
            Some(next) => match number_sort(sort, next) {
                Some(joined) => joined,
                None => return None,
            },
            None => return None,
        };
    }
    Some(sort)
}
