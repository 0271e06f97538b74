//! The first name in a flat model that may not stand where it does.

ghost use Rattle.std.specs.Prelude.{◌≡◌, IfOk, bytes_eq};
ghost use Rattle.std.specs.Option.{option_and_then};
ghost use Rattle.indexmap.specs.IndexMap.{get};
ghost use Rattle.prism_names.specs.First.{first_some};
ghost use Rattle.typed_trees.specs.Scopes.{name_in};
ghost use Rattle.typecheck.specs.Uses.{unknown_in_variable, unknown_in_set, unknown_in_branch, unknown_in_command, unknown_in_module, unknown_in_model};
ghost use Rattle.typecheck.specs.Names.{unknown_in};

use crate::declarations::{commands_of, variables_of};
use crate::known::unknown_in;
use prism_syntax::{Branch, Command, Expr, FlatText, Module, Named, Variable};
use smc_num::Text;
use std::alloc::{AllocError, Global};
use typed_trees::Scope;

/// The first name in a flat model, in text order, that may not stand where it does.
pub fn unknown_in_model(
    alloc: Global,
    constants: &Scope<'_>,
    scope: &Scope<'_>,
    flat: &FlatText,
) -> Result<Option<Text>, AllocError>
    ensures { IfOk result (λ found. found ≡ unknown_in_model (name_in constants.now) (name_in scope.now) (get bytes_eq scope.now.variables.now) flat.now) }
{
    if let Some(name) = unknown_in_variables(alloc, constants, flat.globals.as_slice())? {
        return Ok(Some(name));
    }
    match unknown_in_modules(alloc, constants, scope, flat.modules.as_slice())? {
        Some(name) => Ok(Some(name)),
        None => unknown_in_labels(alloc, scope, flat.labels.as_slice()),
    }
}

/// The first unknown name in modules.
fn unknown_in_modules(
    alloc: Global,
    constants: &Scope<'_>,
    scope: &Scope<'_>,
    modules: &[Module],
) -> Result<Option<Text>, AllocError>
    ensures { IfOk result (λ found. found ≡ first_some (unknown_in_module (name_in constants.now) (name_in scope.now) (get bytes_eq scope.now.variables.now)) modules.now) }
{
    for item in modules {
        match unknown_in_module(alloc, constants, scope, item)? {
            Some(name) => return Ok(Some(name)),
            None => {}
        }
    }
    Ok(None)
}

/// The first unknown name in a module's variables, and then in its commands.
fn unknown_in_module(
    alloc: Global,
    constants: &Scope<'_>,
    scope: &Scope<'_>,
    item: &Module,
) -> Result<Option<Text>, AllocError>
    ensures { IfOk result (λ found. found ≡ unknown_in_module (name_in constants.now) (name_in scope.now) (get bytes_eq scope.now.variables.now) item.now) }
{
    match unknown_in_variables(alloc, constants, variables_of(item))? {
        Some(name) => Ok(Some(name)),
        None => unknown_in_commands(alloc, scope, commands_of(item)),
    }
}

/// The first unknown name in labels.
fn unknown_in_labels(
    alloc: Global,
    scope: &Scope<'_>,
    labels: &[Named],
) -> Result<Option<Text>, AllocError>
    ensures { IfOk result (λ found. found ≡ first_some (λ l. unknown_in (name_in scope.now) l.body) labels.now) }
{
    for label in labels {
        match unknown_in(alloc, scope, &label.body)? {
            Some(name) => return Ok(Some(name)),
            None => {}
        }
    }
    Ok(None)
}

/// The first unknown name in variables.
fn unknown_in_variables(
    alloc: Global,
    constants: &Scope<'_>,
    variables: &[Variable],
) -> Result<Option<Text>, AllocError>
    ensures { IfOk result (λ found. found ≡ first_some (unknown_in_variable (name_in constants.now)) variables.now) }
{
    for variable in variables {
        match unknown_in_variable(alloc, constants, variable)? {
            Some(name) => return Ok(Some(name)),
            None => {}
        }
    }
    Ok(None)
}

/// The first unknown name in a variable's range, and then in its initial value: only constants may be named there.
fn unknown_in_variable(
    alloc: Global,
    constants: &Scope<'_>,
    variable: &Variable,
) -> Result<Option<Text>, AllocError>
    ensures { IfOk result (λ found. found ≡ unknown_in_variable (name_in constants.now) variable.now) }
{
    if let Some((least, greatest)) = &variable.range {
        if let Some(name) = unknown_in(alloc, constants, least)? {
            return Ok(Some(name));
        }
        if let Some(name) = unknown_in(alloc, constants, greatest)? {
            return Ok(Some(name));
        }
    }
    unknown_in_part(alloc, constants, &variable.init)
}

/// The first unknown name in a part that may be left out.
fn unknown_in_part(
    alloc: Global,
    scope: &Scope<'_>,
    part: &Option<Expr>,
) -> Result<Option<Text>, AllocError>
    ensures { IfOk result (λ found. found ≡ option_and_then (unknown_in (name_in scope.now)) part.now) }
{
    match part {
        Some(expr) => unknown_in(alloc, scope, expr),
        None => Ok(None),
    }
}

/// The first unknown name in commands.
fn unknown_in_commands(
    alloc: Global,
    scope: &Scope<'_>,
    commands: &[Command],
) -> Result<Option<Text>, AllocError>
    ensures { IfOk result (λ found. found ≡ first_some (unknown_in_command (name_in scope.now) (get bytes_eq scope.now.variables.now)) commands.now) }
{
    for command in commands {
        match unknown_in_command(alloc, scope, command)? {
            Some(name) => return Ok(Some(name)),
            None => {}
        }
    }
    Ok(None)
}

/// The first unknown name in a command's guard, and then in its branches.
fn unknown_in_command(
    alloc: Global,
    scope: &Scope<'_>,
    command: &Command,
) -> Result<Option<Text>, AllocError>
    ensures { IfOk result (λ found. found ≡ unknown_in_command (name_in scope.now) (get bytes_eq scope.now.variables.now) command.now) }
{
    match unknown_in(alloc, scope, &command.guard)? {
        Some(name) => Ok(Some(name)),
        None => unknown_in_branches(alloc, scope, command.branches.as_slice()),
    }
}

/// The first unknown name in branches.
fn unknown_in_branches(
    alloc: Global,
    scope: &Scope<'_>,
    branches: &[Branch],
) -> Result<Option<Text>, AllocError>
    ensures { IfOk result (λ found. found ≡ first_some (unknown_in_branch (name_in scope.now) (get bytes_eq scope.now.variables.now)) branches.now) }
{
    for branch in branches {
        match unknown_in_branch(alloc, scope, branch)? {
            Some(name) => return Ok(Some(name)),
            None => {}
        }
    }
    Ok(None)
}

/// The first unknown name in a branch's weight, and then in its assignments.
fn unknown_in_branch(
    alloc: Global,
    scope: &Scope<'_>,
    branch: &Branch,
) -> Result<Option<Text>, AllocError>
    ensures { IfOk result (λ found. found ≡ unknown_in_branch (name_in scope.now) (get bytes_eq scope.now.variables.now) branch.now) }
{
    match unknown_in_part(alloc, scope, &branch.weight)? {
        Some(name) => Ok(Some(name)),
        None => unknown_in_sets(alloc, scope, branch.sets.as_slice()),
    }
}

/// The first unknown name in assignments.
fn unknown_in_sets(
    alloc: Global,
    scope: &Scope<'_>,
    sets: &[(Text, Expr)],
) -> Result<Option<Text>, AllocError>
    ensures { IfOk result (λ found. found ≡ first_some (unknown_in_set (name_in scope.now) (get bytes_eq scope.now.variables.now)) sets.now) }
{
    for set in sets {
        match unknown_in_set(alloc, scope, set)? {
            Some(name) => return Ok(Some(name)),
            None => {}
        }
    }
    Ok(None)
}

/// The assigned name, where it is no variable, or the first unknown name in its value.
fn unknown_in_set(
    alloc: Global,
    scope: &Scope<'_>,
    set: &(Text, Expr),
) -> Result<Option<Text>, AllocError>
    ensures { IfOk result (λ found. found ≡ unknown_in_set (name_in scope.now) (get bytes_eq scope.now.variables.now) set.now) }
{
    match scope.variables.get(&set.0) {
        Some(_) => unknown_in(alloc, scope, &set.1),
        None => Ok(Some(set.0.copy(alloc)?)),
    }
}
