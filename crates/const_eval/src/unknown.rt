//! Names that are no constant.

ghost use Rattle.std.specs.Prelude.{◌≡◌, bytes_eq, not, is_some, map, None, option_map, IfOk, OnOk, IfErr};
ghost use Rattle.std.specs.Option.{option_or};
ghost use Rattle.indexmap.specs.IndexMap.{get};
ghost use Rattle.const_eval.specs.Constants.{given_names, definition_names};
ghost use Rattle.const_eval.specs.Refusals.{first_missing, first_unread, IsTold};

use crate::fault::ConstFault;
use crate::givens::given_names;
use chain_model::{Given, Sort};
use indexmap::IndexMap;
use prism_names::names;
use prism_syntax::ConstText;
use smc_num::Text;
use std::alloc::{AllocError, Global};

/// Refuses the first given name that is no constant, or else the first name in a definition that is none.
pub fn refuse_unknown(
    alloc: Global,
    consts: &[ConstText],
    sorts: &IndexMap<Text, Sort>,
    given: &[Given],
) -> Result<(), ConstFault>
    ensures none { OnOk result (option_or (first_missing (λ name. is_some (get bytes_eq sorts.now name)) (given_names given.now)) (first_unread (λ name. is_some (get bytes_eq sorts.now name)) consts.now) ≡ None) }
    ensures told { IfErr result (λ told. IsTold (option_or (first_missing (λ name. is_some (get bytes_eq sorts.now name)) (given_names given.now)) (first_unread (λ name. is_some (get bytes_eq sorts.now name)) consts.now)) ConstFault.Unknown told) }
{
    match first_unknown(alloc, consts, sorts, given).map_err(ConstFault::OutOfMemory)? {
        Some(name) => Err(ConstFault::Unknown {
            name: name.copy(alloc).map_err(ConstFault::OutOfMemory)?,
        }),
        None => Ok(()),
    }
}

/// The first given name that is no constant, or else the first name in a definition that is none.
fn first_unknown<'a>(
    alloc: Global,
    consts: &'a [ConstText],
    sorts: &IndexMap<Text, Sort>,
    given: &'a [Given],
) -> Result<Option<&'a Text>, AllocError>
    ensures { IfOk result (λ found. option_map (λ name. name.now) found ≡ option_or (first_missing (λ name. is_some (get bytes_eq sorts.now name)) (given_names given.now)) (first_unread (λ name. is_some (get bytes_eq sorts.now name)) consts.now)) }
{
    let names = given_names(alloc, given)?;
    match first_missing(names.as_slice(), sorts) {
        Some(name) => Ok(Some(name)),
        None => first_unread(alloc, consts, sorts),
    }
}

/// The first of these names that is no constant.
fn first_missing<'a>(names: &[&'a Text], sorts: &IndexMap<Text, Sort>) -> Option<&'a Text>
    ensures { option_map (λ name. name.now) result ≡ first_missing (λ name. is_some (get bytes_eq sorts.now name)) (map (λ name. name.now) names.now) }
{
    for name in names {
        if is_missing(*name, sorts) {
            return Some(*name);
        }
    }
    None
}

/// Whether a name is no constant.
fn is_missing(name: &Text, sorts: &IndexMap<Text, Sort>) -> bool
    ensures { result ≡ not (is_some (get bytes_eq sorts.now name.now)) }
{
    !sorts.contains_key(name)
}

/// The first name in a definition that is no constant.
fn first_unread<'a>(
    alloc: Global,
    consts: &'a [ConstText],
    sorts: &IndexMap<Text, Sort>,
) -> Result<Option<&'a Text>, AllocError>
    ensures { IfOk result (λ found. option_map (λ name. name.now) found ≡ first_unread (λ name. is_some (get bytes_eq sorts.now name)) consts.now) }
{
    for constant in consts {
        let read = definition_names(alloc, constant)?;
        match first_missing(read.as_slice(), sorts) {
            Some(name) => return Ok(Some(name)),
            None => {}
        }
    }
    Ok(None)
}

/// The names that stand in the definition of a constant.
pub fn definition_names<'a>(
    alloc: Global,
    constant: &'a ConstText,
) -> Result<Vec<&'a Text>, AllocError>
    ensures { IfOk result (λ read. map (λ name. name.now) read.items ≡ definition_names constant.now) }
{
    match &constant.value {
        Some(expr) => names(alloc, expr),
        None => Ok(Vec::new(alloc)),
    }
}
