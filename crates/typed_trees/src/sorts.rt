//! The sorts of levels and calls, by those of their parts' trees.

ghost use Rattle.std.specs.Prelude.{◌≡◌, drop, Some};
ghost use Rattle.std.specs.List.{list_all};
ghost use Rattle.chain_model.specs.Sorts.{is_level, may_follow, level_sort, links_sort, extreme_sort, extremes_sort, only_sort, both_sorts, call_sort};
ghost use Rattle.typed_trees.specs.Trees.{sorts_of};

use chain_model::{
    Func, Op, Sort, Typed, may_follow, number_sort, power_sort, remainder_sort, result_sort,
    rounded_sort,
};

/// Whether operators are those of a level: one fewer than its operands, and all of one line of the grammar.
fn is_level(others: usize, first: Op, rest: &[Op]) -> bool
    ensures { result ≡ is_level others first rest.now }
{
    others == rest.len() + 1 && all_follow(first, rest)
}

/// Whether operators may all stand in the level that another begins.
fn all_follow(first: Op, rest: &[Op]) -> bool
    ensures { result ≡ list_all (may_follow first) rest.now }
{
    for op in rest {
        if !may_follow(first, *op) {
            return false;
        }
    }
    true
}

/// The sort of a level: its operands joined from the left.
pub fn level_sort(operands: &[Typed], operators: &[Op]) -> Option<Sort>
    ensures { result ≡ level_sort (sorts_of operands.now) operators.now }
{
    let [first, others @ ..] = operands else {
        return None;
    };
    let [leading, rest @ ..] = operators else {
        return None;
    };
    if !is_level(others.len(), *leading, rest) {
        return None;
    }
    links_sort(first.sort, operands, operators)
}

/// The sort of the operands after the first joined to what stands before them.
fn links_sort(first: Sort, operands: &[Typed], operators: &[Op]) -> Option<Sort>
    ensures { result ≡ links_sort first (sorts_of (drop 1 operands.now)) operators.now }
{
    let mut sort = first;
    for (index, operator) in operators.iter().enumerate() {
        if index + 1 < operands.len() {
            sort = match result_sort(*operator, sort, operands[index + 1].sort) {
                Some(joined) => joined,
                None => return None,
            };
        }
    }
    Some(sort)
}

/// The sort of a call.
pub fn call_sort(func: Func, parts: &[Typed]) -> Option<Sort>
    ensures { result ≡ call_sort func (sorts_of parts.now) }
{
    match func {
        Func::Min => extremes_sort(parts),
        Func::Max => extremes_sort(parts),
        Func::Floor => rounded_sort(only_sort(parts)?),
        Func::Ceil => rounded_sort(only_sort(parts)?),
        Func::Pow => {
            let (base, exponent) = both_sorts(parts)?;
            power_sort(base, exponent)
        }
        Func::Mod => {
            let (number, modulus) = both_sorts(parts)?;
            remainder_sort(number, modulus)
        }
    }
}

/// The sort of the only part.
fn only_sort(parts: &[Typed]) -> Option<Sort>
    ensures { result ≡ only_sort (sorts_of parts.now) }
{
    let [part] = parts else {
        return None;
    };
    Some(part.sort)
}

/// The sorts of both parts.
fn both_sorts(parts: &[Typed]) -> Option<(Sort, Sort)>
    ensures { result ≡ both_sorts (sorts_of parts.now) }
{
    let [first, second] = parts else {
        return None;
    };
    Some((first.sort, second.sort))
}

/// The sort of the least or the greatest of two numbers or more.
fn extremes_sort(parts: &[Typed]) -> Option<Sort>
    ensures { result ≡ extremes_sort (sorts_of parts.now) }
{
    let [first, _, ..] = parts else {
        return None;
    };
    extreme_sort(first.sort, parts)
}

/// The sort of the least or the greatest of numbers, by the sort of the first and the parts after it.
fn extreme_sort(first: Sort, parts: &[Typed]) -> Option<Sort>
    ensures { result ≡ extreme_sort first (sorts_of (drop 1 parts.now)) }
{
    let mut sort = first;
    for index in 1..parts.len() {
        sort = match number_sort(sort, parts[index].sort) {
            Some(joined) => joined,
            None => return None,
        };
    }
    Some(sort)
}
