//! The constants of a model, or why it is refused.

ghost use Rattle.std.specs.Prelude.{◌≡◌, ◌⊎◌, None, bytes_eq, IfOk, OnOk, IfErr, List, ℕ};
ghost use Rattle.indexmap.specs.IndexMap.{get};
ghost use Rattle.prism_names.specs.First.{AreDistinct};
ghost use Rattle.name_graph.specs.Graph.{IsOrder};
ghost use Rattle.const_eval.specs.declared.fault.ConstFault.{ConstFault};
ghost use Rattle.const_eval.specs.Constants.{const_names, given_to, uses_of, AreConsts, AreGivenSorted, AreSorted};
ghost use Rattle.const_eval.specs.Refusals.{IsOutOfMemory, IsRefused, ArePassed, first_wrong_type};
ghost use Rattle.const_eval.specs.Listing.{declared_sorts};

use crate::consts::{Constant, Consts};
use crate::cycles::definition_order;
use crate::fault::ConstFault;
use crate::givens::{given_table, refuse_given_twice};
use crate::listing::{declared_sorts, list_constants};
use crate::results::evaluate;
use crate::undefined::refuse_undefined;
use crate::unknown::refuse_unknown;
use crate::wrong_types::refuse_wrong_type;
use chain_model::{Given, Sort};
use indexmap::IndexMap;
use prism_syntax::{ConstText, FlatText};
use smc_num::Text;
use std::alloc::Global;

/// The constants of a flat text with these given values, in text order, each with its declared sort and its value; or
/// the first reason to refuse them.
pub fn constants(alloc: Global, flat: &FlatText, given: &[Given]) -> Result<Consts, ConstFault>
    requires distinct { AreDistinct (const_names flat.now.consts) }
    ensures values { IfOk result (λ known. AreConsts flat.now.consts (given_to given.now) known) }
    ensures sorted { IfOk result (λ known. AreGivenSorted given.now → AreSorted known) }
    ensures accepted { OnOk result ((told : ConstFault) → ¬ IsRefused flat.now.consts given.now told) }
    ensures refused { IfErr result (λ told. IsOutOfMemory told ⊎ IsRefused flat.now.consts given.now told) }
{
    evaluate_all(alloc, flat.consts.as_slice(), given)
}

/// Looks for each cause of a refusal in order, and evaluates the constants.
fn evaluate_all(alloc: Global, consts: &[ConstText], given: &[Given]) -> Result<Consts, ConstFault>
    requires distinct { AreDistinct (const_names consts.now) }
    ensures values { IfOk result (λ known. AreConsts consts.now (given_to given.now) known) }
    ensures sorted { IfOk result (λ known. AreGivenSorted given.now → AreSorted known) }
    ensures accepted { OnOk result ((told : ConstFault) → ¬ IsRefused consts.now given.now told) }
    ensures refused { IfErr result (λ told. IsOutOfMemory told ⊎ IsRefused consts.now given.now told) }
{
    let sorts = match declared_sorts(alloc, consts) {
        Ok(sorts) => sorts,
        Err(fault) => return Err(ConstFault::OutOfMemory(fault)),
    };
    let table = match given_table(alloc, given) {
        Ok(table) => table,
        Err(fault) => return Err(ConstFault::OutOfMemory(fault)),
    };
    refuse_all(alloc, consts, given, &sorts, &table)
}

/// Looks for each cause of a refusal in order, and evaluates the constants, by tables of the constants' sorts and of
/// what is given.
fn refuse_all(
    alloc: Global,
    consts: &[ConstText],
    given: &[Given],
    sorts: &IndexMap<Text, Sort>,
    table: &IndexMap<Text, Constant>,
) -> Result<Consts, ConstFault>
    requires distinct { AreDistinct (const_names consts.now) }
    requires sorts { sorts.now.entries ≡ declared_sorts consts.now }
    requires table { (name : List ℕ) → get bytes_eq table.now name ≡ given_to given.now name }
    ensures values { IfOk result (λ known. AreConsts consts.now (given_to given.now) known) }
    ensures sorted { IfOk result (λ known. AreGivenSorted given.now → AreSorted known) }
    ensures accepted { OnOk result ((told : ConstFault) → ¬ IsRefused consts.now given.now told) }
    ensures refused { IfErr result (λ told. IsOutOfMemory told ⊎ IsRefused consts.now given.now told) }
{
    match refuse_names(alloc, consts, given, sorts, table) {
        Ok(()) => {}
        Err(told) => return Err(told),
    }
    match refuse_definitions(alloc, consts, given, sorts, table) {
        Ok(order) => give_values(alloc, consts, given, sorts, table, order.as_slice()),
        Err(told) => Err(told),
    }
}

/// Refuses a constant without a value, a name that is no constant, or a name that is given twice.
fn refuse_names(
    alloc: Global,
    consts: &[ConstText],
    given: &[Given],
    sorts: &IndexMap<Text, Sort>,
    table: &IndexMap<Text, Constant>,
) -> Result<(), ConstFault>
    requires sorts { sorts.now.entries ≡ declared_sorts consts.now }
    requires table { (name : List ℕ) → get bytes_eq table.now name ≡ given_to given.now name }
    ensures passed { OnOk result (ArePassed consts.now given.now (get bytes_eq sorts.now) (get bytes_eq table.now)) }
    ensures refused { IfErr result (λ told. IsOutOfMemory told ⊎ IsRefused consts.now given.now told) }
{
    match refuse_undefined(alloc, consts, table) {
        Ok(()) => {}
        Err(told) => return Err(told),
    }
    match refuse_unknown(alloc, consts, sorts, given) {
        Ok(()) => {}
        Err(told) => return Err(told),
    }
    match refuse_given_twice(alloc, consts, given) {
        Ok(()) => Ok(()),
        Err(told) => Err(told),
    }
}

/// Refuses a constant that reaches itself, or one with a value of a wrong sort; or else gives an order to evaluate in.
fn refuse_definitions(
    alloc: Global,
    consts: &[ConstText],
    given: &[Given],
    sorts: &IndexMap<Text, Sort>,
    table: &IndexMap<Text, Constant>,
) -> Result<Vec<u32>, ConstFault>
    requires sorts { sorts.now.entries ≡ declared_sorts consts.now }
    requires table { (name : List ℕ) → get bytes_eq table.now name ≡ given_to given.now name }
    requires passed { ArePassed consts.now given.now (get bytes_eq sorts.now) (get bytes_eq table.now) }
    ensures order { IfOk result (λ order. IsOrder (uses_of consts.now) order.items) }
    ensures sorted { OnOk result (first_wrong_type (get bytes_eq sorts.now) (get bytes_eq table.now) consts.now ≡ None) }
    ensures refused { IfErr result (λ told. IsOutOfMemory told ⊎ IsRefused consts.now given.now told) }
{
    match definition_order(alloc, consts, sorts) {
        Ok(order) => match refuse_wrong_type(alloc, consts, sorts, table) {
            Ok(()) => Ok(order),
            Err(told) => Err(told),
        },
        Err(told) => Err(told),
    }
}

/// Evaluates the constants in this order, and refuses the first in text order whose result is a fault.
fn give_values(
    alloc: Global,
    consts: &[ConstText],
    given: &[Given],
    sorts: &IndexMap<Text, Sort>,
    table: &IndexMap<Text, Constant>,
    order: &[u32],
) -> Result<Consts, ConstFault>
    requires distinct { AreDistinct (const_names consts.now) }
    requires sorts { sorts.now.entries ≡ declared_sorts consts.now }
    requires table { (name : List ℕ) → get bytes_eq table.now name ≡ given_to given.now name }
    requires passed { ArePassed consts.now given.now (get bytes_eq sorts.now) (get bytes_eq table.now) }
    requires sorted { first_wrong_type (get bytes_eq sorts.now) (get bytes_eq table.now) consts.now ≡ None }
    requires order { IsOrder (uses_of consts.now) order.now }
    ensures values { IfOk result (λ known. AreConsts consts.now (given_to given.now) known) }
    ensures sorted { IfOk result (λ known. AreGivenSorted given.now → AreSorted known) }
    ensures accepted { OnOk result ((told : ConstFault) → ¬ IsRefused consts.now given.now told) }
    ensures refused { IfErr result (λ told. IsOutOfMemory told ⊎ IsRefused consts.now given.now told) }
{
    match evaluate(alloc, consts, table, order) {
        Ok(values) => list_constants(alloc, consts, &values),
        Err(fault) => Err(ConstFault::OutOfMemory(fault)),
    }
}
