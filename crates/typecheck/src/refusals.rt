//! Refusals of flat models, each with the first name or item of its kind.

ghost use Rattle.std.specs.Prelude.{◌≡◌, ◌⊎◌, IfErr, OnOk, None, map, bytes_eq};
ghost use Rattle.indexmap.specs.IndexMap.{get};
ghost use Rattle.prism_names.specs.First.{first_some};
ghost use Rattle.typed_trees.specs.Leaves.{shown};
ghost use Rattle.typed_trees.specs.Scopes.{name_in, tree_in};
ghost use Rattle.typed_trees.specs.Numbers.{constant_value};
ghost use Rattle.typecheck.specs.declared.fault.TypeFault.{TypeFault};
ghost use Rattle.typecheck.specs.Refusals.{IsTold, IsOutOfMemory};
ghost use Rattle.typecheck.specs.Numbers.{number_fault};
ghost use Rattle.typecheck.specs.Uses.{unknown_in_model};
ghost use Rattle.typecheck.specs.Items.{first_unfit};
ghost use Rattle.typecheck.specs.Sorts.{sort_in};
ghost use Rattle.typecheck.specs.Ranges.{first_variable_fault, first_empty, first_outside_range};
ghost use Rattle.typecheck.specs.Writes.{foreign_write, global_write, double_write};

use crate::fault::{Item, TypeFault};
use crate::numbers::number_fault;
use crate::ranges::{first_empty, first_outside_range, first_variable_fault};
use crate::unfit_model::first_unfit;
use crate::uses::unknown_in_model;
use crate::writes::{first_double, first_foreign, first_global};
use const_eval::Consts;
use indexmap::IndexMap;
use prism_syntax::{Command, FlatText, Variable};
use smc_num::Text;
use std::alloc::Global;
use typed_trees::Scope;

/// Refuses a flat model in which a name may not stand where it does.
pub fn refuse_unknown(
    alloc: Global,
    constants: &Scope<'_>,
    scope: &Scope<'_>,
    flat: &FlatText,
) -> Result<(), TypeFault>
    ensures known { OnOk result (unknown_in_model (name_in constants.now) (name_in scope.now) (get bytes_eq scope.now.variables.now) flat.now ≡ None) }
    ensures told { IfErr result (λ fault. IsOutOfMemory fault
        ⊎ IsTold (unknown_in_model (name_in constants.now) (name_in scope.now) (get bytes_eq scope.now.variables.now) flat.now) (λ name f. f ≡ TypeFault.UnknownName name) fault) }
{
    match unknown_in_model(alloc, constants, scope, flat).map_err(TypeFault::OutOfMemory)? {
        Some(name) => Err(TypeFault::UnknownName { name }),
        None => Ok(()),
    }
}

/// Refuses a flat model of which an item's sorts do not fit.
pub fn refuse_unfit(
    alloc: Global,
    constants: &Scope<'_>,
    scope: &Scope<'_>,
    flat: &FlatText,
) -> Result<(), TypeFault>
    ensures fit { OnOk result (first_unfit (tree_in constants.now) (tree_in scope.now) (sort_in scope.now) flat.now ≡ None) }
    ensures told { IfErr result (λ fault. IsOutOfMemory fault
        ⊎ IsTold (first_unfit (tree_in constants.now) (tree_in scope.now) (sort_in scope.now) flat.now) (λ item f. f ≡ TypeFault.WrongType item) fault) }
{
    match first_unfit(alloc, constants, scope, flat).map_err(TypeFault::OutOfMemory)? {
        Some(item) => Err(TypeFault::WrongType { item }),
        None => Ok(()),
    }
}

/// Refuses variables of which one has an expression that faults.
pub fn refuse_fault(
    alloc: Global,
    consts: &Consts,
    variables: &[(Option<usize>, &Variable)],
) -> Result<(), TypeFault>
    ensures valued { OnOk result (first_variable_fault (constant_value consts.now) (map (λ v. v.1.now) variables.now) ≡ None) }
    ensures told { IfErr result (λ fault. IsOutOfMemory fault
        ⊎ IsTold (first_variable_fault (constant_value consts.now) (map (λ v. v.1.now) variables.now))
        (λ found f. f ≡ TypeFault.BadNumber (Item.Variable (shown found.0)) (number_fault found.1)) fault) }
{
    match first_variable_fault(alloc, consts, variables).map_err(TypeFault::OutOfMemory)? {
        Some((number, fault)) => Err(TypeFault::BadNumber {
            item: Item::Variable(shown(number)),
            fault: number_fault(fault),
        }),
        None => Ok(()),
    }
}

/// A number as a refusal has it, up to 2^32 - 1.
pub fn shown(number: usize) -> u32
    ensures { result ≡ shown number }
{
    number.min(4_294_967_295) as u32
}

/// Refuses variables of which one has an empty range.
pub fn refuse_empty(
    alloc: Global,
    consts: &Consts,
    variables: &[(Option<usize>, &Variable)],
) -> Result<(), TypeFault>
    ensures ranged { OnOk result (first_empty (constant_value consts.now) (map (λ v. v.1.now) variables.now) ≡ None) }
    ensures told { IfErr result (λ fault. IsOutOfMemory fault
        ⊎ IsTold (first_empty (constant_value consts.now) (map (λ v. v.1.now) variables.now)) (λ name f. f ≡ TypeFault.BadRange name) fault) }
{
    match first_empty(alloc, consts, variables).map_err(TypeFault::OutOfMemory)? {
        Some(name) => Err(TypeFault::BadRange { name }),
        None => Ok(()),
    }
}

/// Refuses variables of which one starts outside its range.
pub fn refuse_outside(
    alloc: Global,
    consts: &Consts,
    variables: &[(Option<usize>, &Variable)],
) -> Result<(), TypeFault>
    ensures within { OnOk result (first_outside_range (constant_value consts.now) (map (λ v. v.1.now) variables.now) ≡ None) }
    ensures told { IfErr result (λ fault. IsOutOfMemory fault
        ⊎ IsTold (first_outside_range (constant_value consts.now) (map (λ v. v.1.now) variables.now)) (λ name f. f ≡ TypeFault.InitOutside name) fault) }
{
    match first_outside_range(alloc, consts, variables).map_err(TypeFault::OutOfMemory)? {
        Some(name) => Err(TypeFault::InitOutside { name }),
        None => Ok(()),
    }
}

/// Refuses commands of which one writes a variable of another module.
pub fn refuse_foreign(
    alloc: Global,
    owners: &IndexMap<Text, Option<usize>>,
    commands: &[(usize, &Command)],
) -> Result<(), TypeFault>
    ensures own { OnOk result (first_some (foreign_write (get bytes_eq owners.now)) (map (λ c. (c.0, c.1.now)) commands.now) ≡ None) }
    ensures told { IfErr result (λ fault. IsOutOfMemory fault
        ⊎ IsTold (first_some (foreign_write (get bytes_eq owners.now)) (map (λ c. (c.0, c.1.now)) commands.now)) (λ name f. f ≡ TypeFault.ForeignWrite name) fault) }
{
    match first_foreign(alloc, owners, commands).map_err(TypeFault::OutOfMemory)? {
        Some(name) => Err(TypeFault::ForeignWrite { name }),
        None => Ok(()),
    }
}

/// Refuses commands of which a labelled one writes a global.
pub fn refuse_global(
    alloc: Global,
    owners: &IndexMap<Text, Option<usize>>,
    commands: &[(usize, &Command)],
) -> Result<(), TypeFault>
    ensures unwritten { OnOk result (first_some (global_write (get bytes_eq owners.now)) (map (λ c. c.1.now) commands.now) ≡ None) }
    ensures told { IfErr result (λ fault. IsOutOfMemory fault
        ⊎ IsTold (first_some (global_write (get bytes_eq owners.now)) (map (λ c. c.1.now) commands.now)) (λ name f. f ≡ TypeFault.GlobalInSync name) fault) }
{
    match first_global(alloc, owners, commands).map_err(TypeFault::OutOfMemory)? {
        Some(name) => Err(TypeFault::GlobalInSync { name }),
        None => Ok(()),
    }
}

/// Refuses commands of which one writes a variable twice in one update.
pub fn refuse_double(alloc: Global, commands: &[(usize, &Command)]) -> Result<(), TypeFault>
    ensures once { OnOk result (first_some double_write (map (λ c. c.1.now) commands.now) ≡ None) }
    ensures told { IfErr result (λ fault. IsOutOfMemory fault
        ⊎ IsTold (first_some double_write (map (λ c. c.1.now) commands.now)) (λ name f. f ≡ TypeFault.WrittenTwice name) fault) }
{
    match first_double(alloc, commands).map_err(TypeFault::OutOfMemory)? {
        Some(name) => Err(TypeFault::WrittenTwice { name }),
        None => Ok(()),
    }
}
