ghost use Rattle.std.specs.Prelude.{◌≡◌, map, drop, bytes_eq, Some, None};
ghost use Rattle.std.specs.List.{list_all};
ghost use Rattle.indexmap.specs.IndexMap.{get};
ghost use Rattle.chain_model.specs.Sorts.{is_level, may_follow, level_sort, link_sort, links_sort, extreme_sort, extremes_sort, only_sort, both_sorts, call_sort};
ghost use Rattle.chain_model.specs.Typing.{if_sort};
ghost use Rattle.const_eval.specs.Tables.{op_of, func_of};
ghost use Rattle.const_eval.specs.Sorting.{sort_in};

use crate::tables::{function, operator};
use chain_model::{
    Sort, Value, conditional_sort, is_of_sort, may_follow, negation_sort, number_sort,
    opposite_sort, power_sort, remainder_sort, result_sort, rounded_sort,
};
use indexmap::IndexMap;
use prism_syntax::{Expr, Func, Op};
use smc_num::Text;

/// The sort of an expression, where its names are of these sorts. It has none where the sorts don't fit the table of
/// forms, or where it has the name of a label or a name that stands for nothing.
#[cycle(sorting)]
pub fn sort(sorts: &IndexMap<Text, Sort>, expr: &Expr) -> Option<Sort>
    ensures { result ≡ sort_in (get bytes_eq sorts.now) expr.now }
{
    match expr {
        Expr::Whole(value) => {
            if is_of_sort(Sort::Int, &Value::Num(*value)) {
                Some(Sort::Int)
            } else {
                None
            }
        }
        Expr::Real(_) => Some(Sort::Double),
        Expr::Truth(_) => Some(Sort::Bool),
        Expr::Name(name) => sorts.get(name).copied(),
        Expr::Quoted(_) => None,
        Expr::Paren(part) => sort(sorts, part.get()),
        Expr::Call(func, parts) => call_sort(sorts, *func, parts.as_slice()),
        Expr::Not(operand) => negation_sort(sort(sorts, operand.get())?),
        Expr::Minus(operand) => opposite_sort(sort(sorts, operand.get())?),
        Expr::Level(operands, operators) => level_sort(
            sorts,
            operands.as_slice(),
            operators.as_slice(),
        ),
        Expr::If(condition, first, second) => if_sort(
            sort(sorts, condition.get()),
            sort(sorts, first.get()),
            sort(sorts, second.get()),
        ),
    }
}

/// The sort of a conditional, where each of its parts has one.
fn if_sort(condition: Option<Sort>, first: Option<Sort>, second: Option<Sort>) -> Option<Sort>
    ensures { result ≡ if_sort condition first second }
{
    conditional_sort(condition?, first?, second?)
}

/// Whether operators are those of a level: one fewer than its operands, and all of one line of the grammar.
fn is_level(others: usize, first: Op, rest: &[Op]) -> bool
    ensures { result ≡ is_level others (op_of first) (map op_of rest.now) }
{
    others == rest.len() + 1 && all_follow(first, rest)
}

/// Whether operators may all stand in the level that another begins.
fn all_follow(first: Op, rest: &[Op]) -> bool
    ensures { result ≡ list_all (λ op. may_follow (op_of first) (op_of op)) rest.now }
{
    for op in rest {
        if !may_follow(operator(first), operator(*op)) {
            return false;
        }
    }
    true
}

/// The sort of a level: its operands joined from the left.
#[cycle(sorting)]
fn level_sort(sorts: &IndexMap<Text, Sort>, operands: &[Expr], operators: &[Op]) -> Option<Sort>
    ensures { result ≡ level_sort (map (sort_in (get bytes_eq sorts.now)) operands.now) (map op_of operators.now) }
{
    let [first, others @ ..] = operands else {
        return None;
    };
    let [leading, rest @ ..] = operators else {
        return None;
    };
    if !is_level(others.len(), *leading, rest) {
        return None;
    }
    match sort(sorts, first) {
        Some(begun) => links_sort(sorts, begun, operands, operators),
        None => None,
    }
}

/// The sort of the operands after the first joined to what stands before them.
#[cycle(sorting)]
fn links_sort(
    sorts: &IndexMap<Text, Sort>,
    first: Sort,
    operands: &[Expr],
    operators: &[Op],
) -> Option<Sort>
    ensures { result ≡ links_sort first (map (sort_in (get bytes_eq sorts.now)) (drop 1 operands.now)) (map op_of operators.now) }
{
    let mut begun = first;
    for (index, op) in operators.iter().enumerate() {
        if index + 1 < operands.len() {
            begun = match link_sort(sorts, *op, begun, &operands[index + 1]) {
                Some(joined) => joined,
                None => return None,
            };
        }
    }
    Some(begun)
}

/// The sort of an operator's result, by the sort of what stands before it and the operand after it.
#[cycle(sorting)]
fn link_sort(sorts: &IndexMap<Text, Sort>, op: Op, left: Sort, operand: &Expr) -> Option<Sort>
    ensures { result ≡ link_sort (op_of op) left (sort_in (get bytes_eq sorts.now) operand.now) }
{
    match sort(sorts, operand) {
        Some(right) => result_sort(operator(op), left, right),
        None => None,
    }
}

/// The sort of a call.
#[cycle(sorting)]
fn call_sort(sorts: &IndexMap<Text, Sort>, func: Func, parts: &[Expr]) -> Option<Sort>
    ensures { result ≡ call_sort (func_of func) (map (sort_in (get bytes_eq sorts.now)) parts.now) }
{
    match func {
        Func::Min => extremes_sort(sorts, parts),
        Func::Max => extremes_sort(sorts, parts),
        Func::Floor => rounded_sort(only_sort(sorts, parts)?),
        Func::Ceil => rounded_sort(only_sort(sorts, parts)?),
        Func::Pow => {
            let (base, exponent) = both_sorts(sorts, parts)?;
            power_sort(base, exponent)
        }
        Func::Mod => {
            let (number, modulus) = both_sorts(sorts, parts)?;
            remainder_sort(number, modulus)
        }
    }
}

/// The sort of the only part.
#[cycle(sorting)]
fn only_sort(sorts: &IndexMap<Text, Sort>, parts: &[Expr]) -> Option<Sort>
    ensures { result ≡ only_sort (map (sort_in (get bytes_eq sorts.now)) parts.now) }
{
    let [part] = parts else {
        return None;
    };
    sort(sorts, part)
}

/// The sorts of both parts.
#[cycle(sorting)]
fn both_sorts(sorts: &IndexMap<Text, Sort>, parts: &[Expr]) -> Option<(Sort, Sort)>
    ensures { result ≡ both_sorts (map (sort_in (get bytes_eq sorts.now)) parts.now) }
{
    let [first, second] = parts else {
        return None;
    };
    Some((sort(sorts, first)?, sort(sorts, second)?))
}

/// The sort of the least or the greatest of two numbers or more.
#[cycle(sorting)]
fn extremes_sort(sorts: &IndexMap<Text, Sort>, parts: &[Expr]) -> Option<Sort>
    ensures { result ≡ extremes_sort (map (sort_in (get bytes_eq sorts.now)) parts.now) }
{
    let [first, _, ..] = parts else {
        return None;
    };
    match sort(sorts, first) {
        Some(begun) => extreme_sort(sorts, begun, parts),
        None => None,
    }
}

/// The sort of the least or the greatest of numbers, by the sort of the first and the parts after it.
#[cycle(sorting)]
fn extreme_sort(sorts: &IndexMap<Text, Sort>, first: Sort, parts: &[Expr]) -> Option<Sort>
    ensures { result ≡ extreme_sort first (map (sort_in (get bytes_eq sorts.now)) (drop 1 parts.now)) }
{
    let mut begun = first;
    for index in 1..parts.len() {
        begun = match sort(sorts, &parts[index]) {
            Some(next) => match number_sort(begun, next) {
                Some(joined) => joined,
                None => return None,
            },
            None => return None,
        };
    }
    Some(begun)
}
