//! The numbers of ranges and of initial values.

ghost use Rattle.std.specs.Prelude.{◌≡◌, IfOk, map};
ghost use Rattle.chain_model.specs.Chain.{IsWithinLimits};
ghost use Rattle.typed_trees.specs.Numbers.{constant_value};
ghost use Rattle.typecheck.specs.Numbers.{fault_of, whole_of};
ghost use Rattle.typecheck.specs.Ranges.{variable_fault, first_variable_fault, least, greatest, start, if_empty, if_outside, first_empty, first_outside_range};

use crate::numbers::stored;
use chain_model::TraceFault;
use const_eval::Consts;
use prism_syntax::{Expr, Variable};
use smc_num::Text;
use std::alloc::{AllocError, Global};
use typed_trees::constant_value;

/// The first variable, by its number, with an expression that faults.
pub fn first_variable_fault(
    alloc: Global,
    consts: &Consts,
    variables: &[(Option<usize>, &Variable)],
) -> Result<Option<(usize, TraceFault)>, AllocError>
    ensures { IfOk result (λ found. found ≡ first_variable_fault (constant_value consts.now) (map (λ v. v.1.now) variables.now)) }
{
    for (number, variable) in variables.iter().enumerate() {
        match variable_fault(alloc, consts, variable.1)? {
            Some(fault) => return Ok(Some((number, fault))),
            None => {}
        }
    }
    Ok(None)
}

/// The first variable whose least value is above its greatest.
pub fn first_empty(
    alloc: Global,
    consts: &Consts,
    variables: &[(Option<usize>, &Variable)],
) -> Result<Option<Text>, AllocError>
    ensures { IfOk result (λ found. found ≡ first_empty (constant_value consts.now) (map (λ v. v.1.now) variables.now)) }
{
    for variable in variables {
        match if_empty(alloc, consts, variable.1)? {
            Some(name) => return Ok(Some(name)),
            None => {}
        }
    }
    Ok(None)
}

/// The first variable that starts outside its range.
pub fn first_outside_range(
    alloc: Global,
    consts: &Consts,
    variables: &[(Option<usize>, &Variable)],
) -> Result<Option<Text>, AllocError>
    ensures { IfOk result (λ found. found ≡ first_outside_range (constant_value consts.now) (map (λ v. v.1.now) variables.now)) }
{
    for variable in variables {
        match if_outside(alloc, consts, variable.1)? {
            Some(name) => return Ok(Some(name)),
            None => {}
        }
    }
    Ok(None)
}

/// The fault of the first of a variable's expressions that has one.
fn variable_fault(
    alloc: Global,
    consts: &Consts,
    variable: &Variable,
) -> Result<Option<TraceFault>, AllocError>
    ensures { IfOk result (λ found. found ≡ variable_fault (constant_value consts.now) variable.now) }
{
    if let Some((least, greatest)) = &variable.range {
        if let Some(fault) = fault_in(alloc, consts, least)? {
            return Ok(Some(fault));
        }
        if let Some(fault) = fault_in(alloc, consts, greatest)? {
            return Ok(Some(fault));
        }
    }
    match &variable.init {
        Some(expr) => fault_in(alloc, consts, expr),
        None => Ok(None),
    }
}

/// The fault of an expression of constants.
fn fault_in(alloc: Global, consts: &Consts, expr: &Expr) -> Result<Option<TraceFault>, AllocError>
    ensures { IfOk result (λ found. found ≡ fault_of (constant_value consts.now expr.now)) }
{
    match constant_value(alloc, consts, expr)? {
        Ok(_) => Ok(None),
        Err(fault) => Ok(Some(fault)),
    }
}

/// The whole number that an expression of constants is.
fn whole_in(alloc: Global, consts: &Consts, expr: &Expr) -> Result<i64, AllocError>
    ensures value { IfOk result (λ number. number ≡ whole_of (constant_value consts.now expr.now)) }
    ensures within { IfOk result IsWithinLimits }
{
    match constant_value(alloc, consts, expr)? {
        Ok(value) => Ok(stored(&value)),
        Err(_) => Ok(0),
    }
}

/// The least value of a variable.
pub fn least(alloc: Global, consts: &Consts, variable: &Variable) -> Result<i64, AllocError>
    ensures value { IfOk result (λ number. number ≡ least (constant_value consts.now) variable.now) }
    ensures within { IfOk result IsWithinLimits }
{
    match &variable.range {
        Some((least, _)) => whole_in(alloc, consts, least),
        None => Ok(0),
    }
}

/// The greatest value of a variable.
pub fn greatest(alloc: Global, consts: &Consts, variable: &Variable) -> Result<i64, AllocError>
    ensures value { IfOk result (λ number. number ≡ greatest (constant_value consts.now) variable.now) }
    ensures within { IfOk result IsWithinLimits }
{
    match &variable.range {
        Some((_, greatest)) => whole_in(alloc, consts, greatest),
        None => Ok(1),
    }
}

/// The value that a variable starts with.
pub fn start(alloc: Global, consts: &Consts, variable: &Variable) -> Result<i64, AllocError>
    ensures value { IfOk result (λ number. number ≡ start (constant_value consts.now) variable.now) }
    ensures within { IfOk result IsWithinLimits }
{
    match &variable.init {
        Some(expr) => whole_in(alloc, consts, expr),
        None => least(alloc, consts, variable),
    }
}

/// A variable's name, where its least value is above its greatest.
fn if_empty(alloc: Global, consts: &Consts, variable: &Variable) -> Result<Option<Text>, AllocError>
    ensures { IfOk result (λ found. found ≡ if_empty (constant_value consts.now) variable.now) }
{
    let least = least(alloc, consts, variable)?;
    let greatest = greatest(alloc, consts, variable)?;
    if greatest < least {
        Ok(Some(variable.name.copy(alloc)?))
    } else {
        Ok(None)
    }
}

/// A variable's name, where it starts outside its range.
fn if_outside(
    alloc: Global,
    consts: &Consts,
    variable: &Variable,
) -> Result<Option<Text>, AllocError>
    ensures { IfOk result (λ found. found ≡ if_outside (constant_value consts.now) variable.now) }
{
    let least = least(alloc, consts, variable)?;
    let start = start(alloc, consts, variable)?;
    let greatest = greatest(alloc, consts, variable)?;
    if least <= start && start <= greatest {
        Ok(None)
    } else {
        Ok(Some(variable.name.copy(alloc)?))
    }
}
