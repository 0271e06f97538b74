//! What is given from outside.

ghost use Rattle.std.specs.Prelude.{◌≡◌, ◌++◌, map, bytes_eq, None, option_map, IfOk, OnOk, IfErr, List, ℕ};
ghost use Rattle.indexmap.specs.IndexMap.{get};
ghost use Rattle.const_eval.specs.Constants.{given_names, given_to};
ghost use Rattle.const_eval.specs.Refusals.{defined_names, given_twice_of, IsTold};

use crate::consts::Constant;
use crate::fault::ConstFault;
use chain_model::Given;
use indexmap::IndexMap;
use prism_names::first_repeated;
use prism_syntax::ConstText;
use smc_num::Text;
use std::alloc::{AllocError, Global};

/// What each name is given; of several the last.
pub fn given_table(alloc: Global, given: &[Given]) -> Result<IndexMap<Text, Constant>, AllocError>
    ensures { IfOk result (λ table. (name : List ℕ) → get bytes_eq table name ≡ given_to given.now name) }
{
    let mut table: IndexMap<Text, Constant> = IndexMap::new(alloc);
    for item in given {
        let constant = Constant {
            sort: item.sort,
            value: item.value,
        };
        table.insert(item.name.copy(alloc)?, constant)?;
    }
    Ok(table)
}

/// Refuses the first given name that is given twice or has a value in the text.
pub fn refuse_given_twice(
    alloc: Global,
    consts: &[ConstText],
    given: &[Given],
) -> Result<(), ConstFault>
    ensures none { OnOk result (given_twice_of consts.now given.now ≡ None) }
    ensures told { IfErr result (λ told. IsTold (given_twice_of consts.now given.now) ConstFault.GivenTwice told) }
{
    match first_given_twice(alloc, consts, given).map_err(ConstFault::OutOfMemory)? {
        Some(name) => Err(ConstFault::GivenTwice {
            name: name.copy(alloc).map_err(ConstFault::OutOfMemory)?,
        }),
        None => Ok(()),
    }
}

/// The first given name that is given twice or has a value in the text.
fn first_given_twice<'a>(
    alloc: Global,
    consts: &'a [ConstText],
    given: &'a [Given],
) -> Result<Option<&'a Text>, AllocError>
    ensures { IfOk result (λ found. option_map (λ name. name.now) found ≡ given_twice_of consts.now given.now) }
{
    let names = given_names(alloc, given)?;
    let mut all = given_names(alloc, given)?;
    note_defined(consts, &mut all)?;
    first_repeated(alloc, all.as_slice(), names.as_slice())
}

/// The given names, in their order.
pub fn given_names<'a>(alloc: Global, given: &'a [Given]) -> Result<Vec<&'a Text>, AllocError>
    ensures { IfOk result (λ names. map (λ name. name.now) names.items ≡ given_names given.now) }
{
    let mut names: Vec<&'a Text> = Vec::new(alloc);
    for item in given {
        names.push(&item.name)?;
    }
    Ok(names)
}

/// Appends the names of the constants that have a value in the text.
fn note_defined<'a>(consts: &'a [ConstText], names: &mut Vec<&'a Text>) -> Result<(), AllocError>
    ensures { OnOk result (map (λ name. name.now) names.new.items ≡ map (λ name. name.now) names.old.items ++ defined_names consts.now) }
{
    for constant in consts {
        if constant.value.is_some() {
            names.push(&constant.name)?;
        }
    }
    Ok(())
}
