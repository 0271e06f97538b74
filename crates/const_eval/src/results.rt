//! The results of constants, each evaluated after those that its definition reads.

ghost use Rattle.std.specs.Prelude.{◌≡◌, bytes_eq, IfOk, List, ℕ};
ghost use Rattle.indexmap.specs.IndexMap.{get};
ghost use Rattle.prism_names.specs.First.{AreDistinct};
ghost use Rattle.name_graph.specs.Graph.{IsOrder};
ghost use Rattle.const_eval.specs.Evaluating.{by_table};
ghost use Rattle.const_eval.specs.Constants.{const_names, uses_of, result_of};
ghost use Rattle.const_eval.specs.Listing.{IsValuation, FaultsInArithmetic};

use crate::consts::Constant;
use crate::evaluating::value;
use chain_model::{TraceFault, Value};
use indexmap::IndexMap;
use prism_syntax::ConstText;
use smc_num::Text;
use std::alloc::{AllocError, Global};

/// What each constant's name stands for, evaluated in this order.
pub fn evaluate(
    alloc: Global,
    consts: &[ConstText],
    given: &IndexMap<Text, Constant>,
    order: &[u32],
) -> Result<IndexMap<Text, Result<Value, TraceFault>>, AllocError>
    requires order { IsOrder (uses_of consts.now) order.now }
    requires distinct { AreDistinct (const_names consts.now) }
    ensures valuation { IfOk result (λ values. IsValuation consts.now (get bytes_eq given.now) (by_table (get bytes_eq values))) }
    ensures arithmetic { IfOk result (λ values. (name : List ℕ) → FaultsInArithmetic (by_table (get bytes_eq values) name)) }
{
    let mut values: IndexMap<Text, Result<Value, TraceFault>> = IndexMap::new(alloc);
    for place in order {
        let constant = &consts[*place as usize];
        let found = result_of(constant, given, &values);
        values.insert(constant.name.copy(alloc)?, found)?;
    }
    Ok(values)
}

/// The result of a constant: the value that it is given, or else that of its definition.
fn result_of(
    constant: &ConstText,
    given: &IndexMap<Text, Constant>,
    values: &IndexMap<Text, Result<Value, TraceFault>>,
) -> Result<Value, TraceFault>
    ensures { result ≡ result_of (get bytes_eq given.now) (by_table (get bytes_eq values.now)) constant.now }
{
    match given.get(&constant.name) {
        Some(found) => Ok(found.value),
        None => match &constant.value {
            Some(expr) => value(values, expr),
            None => Ok(Value::Bool(false)),
        },
    }
}
