ghost use Rattle.std.specs.Prelude.{◌≡◌, ◌⊎◌, ℕ, List, [], Option, None, IfOk, IfErr, OnOk, map, bytes_eq};
ghost use Rattle.indexmap.specs.IndexMap.{get};
ghost use Rattle.prism_names.specs.First.{first_some};
ghost use Rattle.prism_syntax.specs.declared.commands.Command.{Command};
ghost use Rattle.prism_syntax.specs.declared.models.Variable.{Variable};
ghost use Rattle.typed_trees.specs.Numbers.{constant_value};
ghost use Rattle.typed_trees.specs.Scopes.{name_in, tree_in};
ghost use Rattle.typecheck.specs.declared.fault.TypeFault.{TypeFault};
ghost use Rattle.typecheck.specs.Refusals.{IsOutOfMemory};
ghost use Rattle.typecheck.specs.Declarations.{declared_variables, declared_commands, variable_sorts};
ghost use Rattle.typecheck.specs.Uses.{unknown_in_model};
ghost use Rattle.typecheck.specs.Items.{first_unfit};
ghost use Rattle.typecheck.specs.Ranges.{first_variable_fault, first_empty, first_outside_range};
ghost use Rattle.typecheck.specs.Writes.{foreign_write, global_write, double_write, owner_in};
ghost use Rattle.typecheck.specs.Sorts.{sort_in, IsScope};
ghost use Rattle.typecheck.specs.ModelRefusals.{TellsSorts, TellsNumbers, TellsWrites, IsTooLarge, IsRefused};
ghost use Rattle.typecheck.specs.Chains.{IsChainOf};
ghost use Rattle.typecheck.specs.ModelTables.{AreTables};

use crate::fault::TypeFault;
use crate::model_tables::{Tables, model_tables};
use crate::parts::{chain_of, made_parts};
use crate::refusals::{
    refuse_double, refuse_empty, refuse_fault, refuse_foreign, refuse_global, refuse_outside,
    refuse_unfit, refuse_unknown,
};
use crate::sizes::are_too_many;
use chain_model::Chain;
use const_eval::Consts;
use indexmap::IndexMap;
use prism_syntax::{Command, FlatText, Variable};
use smc_num::Text;
use std::alloc::{AllocError, Global};
use typed_trees::Scope;

/// The chain of a flat model with its constants, or why its types are refused.
pub fn check(alloc: Global, flat: &FlatText, consts: &Consts) -> Result<Chain, TypeFault>
    ensures chain { IfOk result (λ chain. IsChainOf flat.now consts.now chain) }
    ensures accepted { OnOk result ((fault : TypeFault) → ¬ IsRefused flat.now consts.now fault) }
    ensures refused { IfErr result (λ fault. IsOutOfMemory fault ⊎ IsRefused flat.now consts.now fault) }
{
    match model_tables(alloc, flat) {
        Ok(tables) => checked(alloc, flat, consts, &tables),
        Err(error) => Err(TypeFault::OutOfMemory(error)),
    }
}

/// The chain of a flat model with its constants and these tables, or why its types are refused.
fn checked(
    alloc: Global,
    flat: &FlatText,
    consts: &Consts,
    tables: &Tables<'_>,
) -> Result<Chain, TypeFault>
    requires { AreTables tables.now flat.now }
    ensures chain { IfOk result (λ chain. IsChainOf flat.now consts.now chain) }
    ensures accepted { OnOk result ((fault : TypeFault) → ¬ IsRefused flat.now consts.now fault) }
    ensures refused { IfErr result (λ fault. IsOutOfMemory fault ⊎ IsRefused flat.now consts.now fault) }
{
    let constants = Scope {
        consts,
        variables: &tables.nothing,
        labels: &tables.nothing,
    };
    let scope = Scope {
        consts,
        variables: &tables.trees,
        labels: &tables.nothing,
    };
    let (variables, commands) = (tables.variables.as_slice(), tables.commands.as_slice());
    refuse(
        alloc,
        flat,
        &constants,
        &scope,
        &tables.owners,
        variables,
        commands,
    )?;
    match typed_chain(alloc, flat, &scope, variables, commands) {
        Ok(chain) => Ok(chain),
        Err(error) => Err(TypeFault::OutOfMemory(error)),
    }
}

/// Refuses a flat model with these variables and commands, where its types do not fit.
fn refuse(
    alloc: Global,
    flat: &FlatText,
    constants: &Scope<'_>,
    scope: &Scope<'_>,
    owners: &IndexMap<Text, Option<usize>>,
    variables: &[(Option<usize>, &Variable)],
    commands: &[(usize, &Command)],
) -> Result<(), TypeFault>
    requires variables { map {B = Option ℕ × Variable} (λ v. (v.0, v.1.now)) variables.now ≡ declared_variables flat.now }
    requires commands { map {B = ℕ × Command} (λ c. (c.0, c.1.now)) commands.now ≡ declared_commands flat.now }
    requires constants { IsScope constants.now scope.now.consts.now [] }
    requires scope { IsScope scope.now scope.now.consts.now (variable_sorts flat.now) }
    requires owners { (name : List ℕ) → get bytes_eq owners.now name ≡ owner_in (declared_variables flat.now) name }
    ensures accepted { OnOk result ((fault : TypeFault) → ¬ IsRefused flat.now scope.now.consts.now fault) }
    ensures refused { IfErr result (λ fault. IsOutOfMemory fault ⊎ IsRefused flat.now scope.now.consts.now fault) }
{
    refuse_sorts(alloc, flat, constants, scope)?;
    refuse_numbers(alloc, scope.consts, variables)?;
    refuse_writes(alloc, owners, commands)?;
    if are_too_many(flat.modules.len(), variables.len(), commands) {
        Err(TypeFault::TooLarge)
    } else {
        Ok(())
    }
}

/// Refuses a flat model in which a name may not stand where it does, or else sorts do not fit.
fn refuse_sorts(
    alloc: Global,
    flat: &FlatText,
    constants: &Scope<'_>,
    scope: &Scope<'_>,
) -> Result<(), TypeFault>
    ensures known { OnOk result (unknown_in_model (name_in constants.now) (name_in scope.now) (get bytes_eq scope.now.variables.now) flat.now ≡ None) }
    ensures fit { OnOk result (first_unfit (tree_in constants.now) (tree_in scope.now) (sort_in scope.now) flat.now ≡ None) }
    ensures told { IfErr result (λ fault. IsOutOfMemory fault
        ⊎ TellsSorts (name_in constants.now) (name_in scope.now) (get bytes_eq scope.now.variables.now)
        (tree_in constants.now) (tree_in scope.now) (sort_in scope.now) flat.now (λ _. ⊥) fault) }
{
    refuse_unknown(alloc, constants, scope, flat)?;
    refuse_unfit(alloc, constants, scope, flat)
}

/// Refuses variables of which a number faults, or else a range is empty, or else one starts outside its range.
fn refuse_numbers(
    alloc: Global,
    consts: &Consts,
    variables: &[(Option<usize>, &Variable)],
) -> Result<(), TypeFault>
    ensures valued { OnOk result (first_variable_fault (constant_value consts.now) (map (λ v. v.1.now) variables.now) ≡ None) }
    ensures ranged { OnOk result (first_empty (constant_value consts.now) (map (λ v. v.1.now) variables.now) ≡ None) }
    ensures within { OnOk result (first_outside_range (constant_value consts.now) (map (λ v. v.1.now) variables.now) ≡ None) }
    ensures told { IfErr result (λ fault. IsOutOfMemory fault
        ⊎ TellsNumbers (constant_value consts.now) (map (λ v. v.1.now) variables.now) (λ _. ⊥) fault) }
{
    refuse_fault(alloc, consts, variables)?;
    refuse_empty(alloc, consts, variables)?;
    refuse_outside(alloc, consts, variables)
}

/// Refuses commands that write what they may not, where the variables of names have these owners.
fn refuse_writes(
    alloc: Global,
    owners: &IndexMap<Text, Option<usize>>,
    commands: &[(usize, &Command)],
) -> Result<(), TypeFault>
    ensures own { OnOk result (first_some (foreign_write (get bytes_eq owners.now)) (map {B = ℕ × Command} (λ c. (c.0, c.1.now)) commands.now) ≡ None) }
    ensures unwritten { OnOk result (first_some (global_write (get bytes_eq owners.now)) (map (λ c. c.1.now) commands.now) ≡ None) }
    ensures once { OnOk result (first_some double_write (map (λ c. c.1.now) commands.now) ≡ None) }
    ensures told { IfErr result (λ fault. IsOutOfMemory fault ⊎ TellsWrites (get bytes_eq owners.now)
        (map {B = ℕ × Command} (λ c. (c.0, c.1.now)) commands.now) (map (λ c. c.1.now) commands.now) (λ _. ⊥) fault) }
{
    refuse_foreign(alloc, owners, commands)?;
    refuse_global(alloc, owners, commands)?;
    refuse_double(alloc, commands)
}

/// The chain of a flat model with these variables and commands, of which nothing is refused.
fn typed_chain(
    alloc: Global,
    flat: &FlatText,
    scope: &Scope<'_>,
    variables: &[(Option<usize>, &Variable)],
    commands: &[(usize, &Command)],
) -> Result<Chain, AllocError>
    requires variables { map {B = Option ℕ × Variable} (λ v. (v.0, v.1.now)) variables.now ≡ declared_variables flat.now }
    requires commands { map {B = ℕ × Command} (λ c. (c.0, c.1.now)) commands.now ≡ declared_commands flat.now }
    requires scope { IsScope scope.now scope.now.consts.now (variable_sorts flat.now) }
    requires accepted { (fault : TypeFault) → ¬ IsRefused flat.now scope.now.consts.now fault }
    ensures { IfOk result (λ chain. IsChainOf flat.now scope.now.consts.now chain) }
{
    let parts = made_parts(alloc, flat, scope, variables, commands)?;
    Ok(chain_of(parts.unwrap()))
}
