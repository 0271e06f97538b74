//! Constants in text order.

ghost use Rattle.std.specs.Prelude.{◌≡◌, ◌⊎◌, bytes_eq, None, IfOk, OnOk, IfErr, List, ℕ};
ghost use Rattle.indexmap.specs.IndexMap.{get};
ghost use Rattle.chain_model.specs.Values.{as_fault};
ghost use Rattle.prism_names.specs.First.{AreDistinct};
ghost use Rattle.const_eval.specs.Evaluating.{by_table};
ghost use Rattle.const_eval.specs.Constants.{const_names};
ghost use Rattle.const_eval.specs.Refusals.{IsOutOfMemory, first_fault, fault_of, TellsFault, TellsFirstFault};
ghost use Rattle.const_eval.specs.Listing.{declared_sorts, known_of, listed_consts, listed_results, IsArithmetic, FaultsInArithmetic};

use crate::consts::{Constant, Consts};
use crate::evaluating::name_value;
use crate::fault::ConstFault;
use crate::tables::declared_sort;
use chain_model::{Sort, TraceFault, Value};
use indexmap::IndexMap;
use prism_syntax::ConstText;
use smc_num::{NumFault, Text};
use std::alloc::{AllocError, Global};

/// The names of constants with their declared sorts, in text order.
pub fn declared_sorts(
    alloc: Global,
    consts: &[ConstText],
) -> Result<IndexMap<Text, Sort>, AllocError>
    requires { AreDistinct (const_names consts.now) }
    ensures { IfOk result (λ sorts. sorts.entries ≡ declared_sorts consts.now) }
{
    let mut sorts: IndexMap<Text, Sort> = IndexMap::new(alloc);
    for constant in consts {
        sorts.insert(constant.name.copy(alloc)?, declared_sort(constant.sort))?;
    }
    Ok(sorts)
}

/// The constants with their declared sorts and these results, unless one is a fault: the first that is one is told.
pub fn list_constants(
    alloc: Global,
    consts: &[ConstText],
    values: &IndexMap<Text, Result<Value, TraceFault>>,
) -> Result<Consts, ConstFault>
    requires distinct { AreDistinct (const_names consts.now) }
    requires arithmetic { (name : List ℕ) → FaultsInArithmetic (by_table (get bytes_eq values.now) name) }
    ensures listed { IfOk result (λ known. known ≡ listed_consts (by_table (get bytes_eq values.now)) consts.now) }
    ensures none { OnOk result (first_fault (listed_results (by_table (get bytes_eq values.now)) consts.now) ≡ None) }
    ensures told { IfErr result (λ told. IsOutOfMemory told ⊎ TellsFirstFault (listed_results (by_table (get bytes_eq values.now)) consts.now) told) }
{
    let mut known: IndexMap<Text, Constant> = IndexMap::new(alloc);
    for constant in consts {
        let one = known_constant(alloc, constant, values)?;
        let name = constant.name.copy(alloc).map_err(ConstFault::OutOfMemory)?;
        known
            .insert(name, one)
            .map_err(|_| ConstFault::OutOfMemory(AllocError))?;
    }
    Ok(Consts::from_map(known))
}

/// A constant with its declared sort and its result.
fn known_constant(
    alloc: Global,
    constant: &ConstText,
    values: &IndexMap<Text, Result<Value, TraceFault>>,
) -> Result<Constant, ConstFault>
    requires { FaultsInArithmetic (by_table (get bytes_eq values.now) constant.now.name) }
    ensures known { IfOk result (λ known. known ≡ known_of (by_table (get bytes_eq values.now)) constant.now) }
    ensures value { OnOk result (fault_of (constant.now.name, by_table (get bytes_eq values.now) constant.now.name) ≡ None) }
    ensures told { IfErr result (λ told. IsOutOfMemory told ⊎ TellsFault (fault_of (constant.now.name, by_table (get bytes_eq values.now) constant.now.name)) told) }
{
    match name_value(values, &constant.name) {
        Ok(value) => Ok(Constant {
            sort: declared_sort(constant.sort),
            value,
        }),
        Err(fault) => Err(ConstFault::Num {
            name: constant.name.copy(alloc).map_err(ConstFault::OutOfMemory)?,
            fault: number_fault(fault),
        }),
    }
}

/// The fault of arithmetic that a fault is.
fn number_fault(fault: TraceFault) -> NumFault
    requires { IsArithmetic fault }
    ensures { as_fault result ≡ fault }
{
    match fault {
        TraceFault::ZeroDivisor => NumFault::ZeroDivisor,
        TraceFault::OutsideDomain => NumFault::OutsideDomain,
        TraceFault::OutOfLimit => NumFault::OutOfLimit,
        TraceFault::Range { .. }
        | TraceFault::Weights { .. }
        | TraceFault::Denominator { .. }
        | TraceFault::Choices => unreachable!(),
    }
}
