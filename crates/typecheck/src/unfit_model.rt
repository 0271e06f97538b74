//! The first item of a flat model, in text order, whose sorts do not fit.

ghost use Rattle.std.specs.Prelude.{◌≡◌, ℕ, ◌+◌, IfOk};
ghost use Rattle.typed_trees.specs.Leaves.{shown};
ghost use Rattle.typed_trees.specs.Scopes.{tree_in};
ghost use Rattle.typecheck.specs.Items.{first_unfit, unfit_in_modules};
ghost use Rattle.typecheck.specs.Sorts.{sort_in};

use crate::declarations::{commands_of, variables_of};
use crate::fault::Item;
use crate::refusals::shown;
use crate::unfit::{unfit_in_module, unfit_labels, unfit_variables};
use prism_syntax::{FlatText, Module};
use std::alloc::{AllocError, Global};
use typed_trees::Scope;

/// The first item of a flat model, in text order, whose sorts do not fit.
pub fn first_unfit(
    alloc: Global,
    constants: &Scope<'_>,
    scope: &Scope<'_>,
    flat: &FlatText,
) -> Result<Option<Item>, AllocError>
    ensures { IfOk result (λ found. found ≡ first_unfit (tree_in constants.now) (tree_in scope.now) (sort_in scope.now) flat.now) }
{
    let global = unfit_variables(alloc, constants, flat.globals.as_slice(), 0)?;
    if global.is_some() {
        return Ok(global);
    }
    match unfit_in_modules(
        alloc,
        constants,
        scope,
        flat.modules.as_slice(),
        flat.globals.len(),
    )? {
        Some(found) => Ok(Some(found)),
        None => unfit_labels(alloc, scope, flat.labels.as_slice()),
    }
}

/// The first item of modules whose sorts do not fit, where so many variables stand before them.
fn unfit_in_modules(
    alloc: Global,
    constants: &Scope<'_>,
    scope: &Scope<'_>,
    modules: &[Module],
    before: usize,
) -> Result<Option<Item>, AllocError>
    ensures { IfOk result (λ found. found ≡ unfit_in_modules (tree_in constants.now) (tree_in scope.now) (sort_in scope.now) before 0 modules.now) }
{
    let mut variables = shown(before);
    let mut commands = 0;
    for item in modules {
        match unfit_in_module(alloc, constants, scope, item, variables, commands)? {
            Some(found) => return Ok(Some(found)),
            None => {}
        }
        variables = later(variables, variables_of(item).len());
        commands = later(commands, commands_of(item).len());
    }
    Ok(None)
}

/// The number that stands so many after a number, up to 2^32 - 1.
fn later(number: u32, more: usize) -> u32
    ensures { (n : ℕ) → number ≡ shown n → result ≡ shown (n + more) }
{
    number.saturating_add(shown(more))
}
