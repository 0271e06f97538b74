ghost use Rattle.std.specs.Prelude.{◌≡◌, IfOk, List, ℕ, Contains, map, bytes_eq};
ghost use Rattle.indexmap.specs.IndexMap.{get};
ghost use Rattle.const_eval.specs.Evaluating.{by_table};
ghost use Rattle.typed_trees.specs.Numbers.{value_of_name, constant_value};

use chain_model::{TraceFault, Value};
use const_eval::{Consts, value};
use indexmap::IndexMap;
use prism_names::names;
use prism_syntax::Expr;
use smc_num::Text;
use std::alloc::{AllocError, Global};

/// The value of an expression of constants, or its fault.
pub fn constant_value(
    alloc: Global,
    consts: &Consts,
    expr: &Expr,
) -> Result<Result<Value, TraceFault>, AllocError>
    ensures { IfOk result (λ found. found ≡ constant_value consts.now expr.now) }
{
    let names = names(alloc, expr)?;
    let table = values_of(alloc, consts, names.as_slice())?;
    Ok(value(&table, expr))
}

/// The values of the constants of these names.
fn values_of(
    alloc: Global,
    consts: &Consts,
    names: &[&Text],
) -> Result<IndexMap<Text, Result<Value, TraceFault>>, AllocError>
    ensures { IfOk result (λ table. (n : List ℕ) → Contains (map (λ name. name.now) names.now) n → by_table (get bytes_eq table) n ≡ value_of_name consts.now n) }
{
    let mut table: IndexMap<Text, Result<Value, TraceFault>> = IndexMap::new(alloc);
    for name in names {
        let found = value_of_name(consts, name);
        table.insert(name.copy(alloc)?, found)?;
    }
    Ok(table)
}

/// The value of the constant of a name; a name that is no constant has some value.
fn value_of_name(consts: &Consts, name: &Text) -> Result<Value, TraceFault>
    ensures { result ≡ value_of_name consts.now name.now }
{
    match consts.get(name) {
        Some(constant) => Ok(constant.value),
        None => Ok(Value::Bool(false)),
    }
}
