//! Constants with a value of a wrong sort.

ghost use Rattle.std.specs.Prelude.{◌≡◌, bytes_eq, not, None, option_map, OnOk, IfErr};
ghost use Rattle.indexmap.specs.IndexMap.{get};
ghost use Rattle.const_eval.specs.Tables.{sort_of_word};
ghost use Rattle.const_eval.specs.Constants.{sort_found};
ghost use Rattle.const_eval.specs.Refusals.{fits, is_found_fitting, first_wrong_type, IsTold};

use crate::consts::Constant;
use crate::fault::ConstFault;
use crate::sorting::sort;
use crate::tables::declared_sort;
use chain_model::Sort;
use indexmap::IndexMap;
use prism_syntax::ConstText;
use smc_num::Text;
use std::alloc::Global;

/// Refuses the first constant whose definition has no sort, or whose value is of a sort that doesn't fit.
pub fn refuse_wrong_type(
    alloc: Global,
    consts: &[ConstText],
    sorts: &IndexMap<Text, Sort>,
    given: &IndexMap<Text, Constant>,
) -> Result<(), ConstFault>
    ensures none { OnOk result (first_wrong_type (get bytes_eq sorts.now) (get bytes_eq given.now) consts.now ≡ None) }
    ensures told { IfErr result (λ told. IsTold (first_wrong_type (get bytes_eq sorts.now) (get bytes_eq given.now) consts.now) ConstFault.WrongType told) }
{
    match first_wrong_type(consts, sorts, given) {
        Some(name) => Err(ConstFault::WrongType {
            name: name.copy(alloc).map_err(ConstFault::OutOfMemory)?,
        }),
        None => Ok(()),
    }
}

/// The first constant whose definition has no sort, or whose value is of a sort that doesn't fit.
fn first_wrong_type<'a>(
    consts: &'a [ConstText],
    sorts: &IndexMap<Text, Sort>,
    given: &IndexMap<Text, Constant>,
) -> Option<&'a Text>
    ensures { option_map (λ name. name.now) result ≡ first_wrong_type (get bytes_eq sorts.now) (get bytes_eq given.now) consts.now }
{
    for constant in consts {
        if is_wrong(constant, sorts, given) {
            return Some(&constant.name);
        }
    }
    None
}

/// Whether the definition of a constant has no sort, or its value is of a sort that doesn't fit.
fn is_wrong(
    constant: &ConstText,
    sorts: &IndexMap<Text, Sort>,
    given: &IndexMap<Text, Constant>,
) -> bool
    ensures { result ≡ not (is_found_fitting (sort_of_word constant.now.sort) (sort_found (get bytes_eq sorts.now) (get bytes_eq given.now) constant.now)) }
{
    let found = sort_found(constant, sorts, given);
    !is_found_fitting(declared_sort(constant.sort), found)
}

/// The sort of what a constant is given, or else that of its definition.
fn sort_found(
    constant: &ConstText,
    sorts: &IndexMap<Text, Sort>,
    given: &IndexMap<Text, Constant>,
) -> Option<Sort>
    ensures { result ≡ sort_found (get bytes_eq sorts.now) (get bytes_eq given.now) constant.now }
{
    match given.get(&constant.name) {
        Some(found) => Some(found.sort),
        None => match &constant.value {
            Some(expr) => sort(sorts, expr),
            None => None,
        },
    }
}

/// Whether a sort that was found fits a declared one.
fn is_found_fitting(declared: Sort, found: Option<Sort>) -> bool
    ensures { result ≡ is_found_fitting declared found }
{
    match found {
        Some(sort) => fits(declared, sort),
        None => false,
    }
}

/// Whether a sort is the declared one, or `int` where `double` is declared.
fn fits(declared: Sort, sort: Sort) -> bool
    ensures { result ≡ fits declared sort }
{
    match (declared, sort) {
        (Sort::Int, Sort::Int) => true,
        (Sort::Double, Sort::Int | Sort::Double) => true,
        (Sort::Bool, Sort::Bool) => true,
        _ => false,
    }
}
