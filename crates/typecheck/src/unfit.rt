//! The first item of a flat model whose sorts do not fit.

ghost use Rattle.std.specs.Prelude.{◌≡◌, ℕ, ◌+◌, IfOk};
ghost use Rattle.typed_trees.specs.Leaves.{shown};
ghost use Rattle.typed_trees.specs.Scopes.{tree_in};
ghost use Rattle.typecheck.specs.Items.{unfit_variable, unfit_command, unfit_label, unfit_in_module};
ghost use Rattle.typecheck.specs.Sorts.{sort_in};

use crate::declarations::{commands_of, variables_of};
use crate::fault::Item;
use crate::fitting::{command_fits, is_tree_of, variable_fits};
use crate::refusals::shown;
use chain_model::Sort;
use prism_syntax::{Command, Module, Named, Variable};
use std::alloc::{AllocError, Global};
use typed_trees::Scope;

/// The first item of a module, its variables before its commands, whose sorts do not fit; they are numbered from here.
pub fn unfit_in_module(
    alloc: Global,
    constants: &Scope<'_>,
    scope: &Scope<'_>,
    item: &Module,
    variables: u32,
    commands: u32,
) -> Result<Option<Item>, AllocError>
    ensures { IfOk result (λ found. (n m : ℕ) → variables ≡ shown n → commands ≡ shown m
        → found ≡ unfit_in_module (tree_in constants.now) (tree_in scope.now) (sort_in scope.now) n m item.now) }
{
    match unfit_variables(alloc, constants, variables_of(item), variables)? {
        Some(found) => Ok(Some(found)),
        None => unfit_commands(alloc, scope, commands_of(item), commands),
    }
}

/// The first variable, numbered from here, whose sorts do not fit.
pub fn unfit_variables(
    alloc: Global,
    constants: &Scope<'_>,
    variables: &[Variable],
    from: u32,
) -> Result<Option<Item>, AllocError>
    ensures { IfOk result (λ found. (n : ℕ) → from ≡ shown n → found ≡ unfit_variable (tree_in constants.now) n variables.now) }
{
    let mut number = from;
    for variable in variables {
        let fits = variable_fits(alloc, constants, variable)?;
        if !fits {
            return Ok(Some(Item::Variable(number)));
        }
        number = next(number);
    }
    Ok(None)
}

/// The first command, numbered from here, whose sorts do not fit.
pub fn unfit_commands(
    alloc: Global,
    scope: &Scope<'_>,
    commands: &[Command],
    from: u32,
) -> Result<Option<Item>, AllocError>
    ensures { IfOk result (λ found. (n : ℕ) → from ≡ shown n → found ≡ unfit_command (tree_in scope.now) (sort_in scope.now) n commands.now) }
{
    let mut number = from;
    for command in commands {
        let fits = command_fits(alloc, scope, command)?;
        if !fits {
            return Ok(Some(Item::Command(number)));
        }
        number = next(number);
    }
    Ok(None)
}

/// The first label that is not of sort `bool`.
pub fn unfit_labels(
    alloc: Global,
    scope: &Scope<'_>,
    labels: &[Named],
) -> Result<Option<Item>, AllocError>
    ensures { IfOk result (λ found. found ≡ unfit_label (tree_in scope.now) labels.now) }
{
    for (number, label) in labels.iter().enumerate() {
        let fits = is_tree_of(alloc, scope, Sort::Bool, &label.body)?;
        if !fits {
            return Ok(Some(Item::Label(shown(number))));
        }
    }
    Ok(None)
}

/// The number after a number, up to 2^32 - 1.
fn next(number: u32) -> u32
    ensures { (n : ℕ) → number ≡ shown n → result ≡ shown (n + 1) }
{
    if number < 4_294_967_295 {
        number + 1
    } else {
        number
    }
}
