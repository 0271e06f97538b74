//! Whether the sorts of an item fit.

ghost use Rattle.std.specs.Prelude.{◌≡◌, ◌&&◌, IfOk, length, nat_lt};
ghost use Rattle.std.specs.List.{list_all};
ghost use Rattle.chain_model.specs.Typing.{is_same_sort};
ghost use Rattle.typed_trees.specs.Scopes.{tree_in};
ghost use Rattle.typecheck.specs.Declarations.{declared_sort};
ghost use Rattle.typecheck.specs.Items.{is_tree_of, range_fits, init_fits, variable_fits, assignment_fits, weight_fits, branch_fits, command_fits};
ghost use Rattle.typecheck.specs.Sorts.{sort_in};

use crate::formulas::{is_number_tree, sort_of};
use chain_model::Sort;
use prism_syntax::{Branch, Command, Expr, Variable};
use smc_num::Text;
use std::alloc::{AllocError, Global};
use typed_trees::Scope;

/// Whether two sorts are one.
fn is_same_sort(a: Sort, b: Sort) -> bool
    ensures { result ≡ is_same_sort a b }
{
    match a {
        Sort::Int => matches!(b, Sort::Int),
        Sort::Double => matches!(b, Sort::Double),
        Sort::Bool => matches!(b, Sort::Bool),
    }
}

/// Whether an expression has a tree, of this sort.
pub fn is_tree_of(
    alloc: Global,
    scope: &Scope<'_>,
    sort: Sort,
    expr: &Expr,
) -> Result<bool, AllocError>
    ensures { IfOk result (λ fits. fits ≡ is_tree_of sort (tree_in scope.now expr.now)) }
{
    match sort_of(alloc, scope, expr)? {
        Some(found) => Ok(is_same_sort(sort, found)),
        None => Ok(false),
    }
}

/// The sort that a variable is declared with.
pub fn declared_sort(variable: &Variable) -> Sort
    ensures { result ≡ declared_sort variable.now }
{
    match &variable.range {
        Some(_) => Sort::Int,
        None => Sort::Bool,
    }
}

/// Whether a variable's range and its initial value fit.
pub fn variable_fits(
    alloc: Global,
    constants: &Scope<'_>,
    variable: &Variable,
) -> Result<bool, AllocError>
    ensures { IfOk result (λ fits. fits ≡ variable_fits (tree_in constants.now) variable.now) }
{
    if range_fits(alloc, constants, variable)? {
        init_fits(alloc, constants, variable)
    } else {
        Ok(false)
    }
}

/// Whether the ends of a variable's range are of sort `int`.
fn range_fits(alloc: Global, constants: &Scope<'_>, variable: &Variable) -> Result<bool, AllocError>
    ensures { IfOk result (λ fits. fits ≡ range_fits (tree_in constants.now) variable.now) }
{
    match &variable.range {
        Some((least, greatest)) => {
            if is_tree_of(alloc, constants, Sort::Int, least)? {
                is_tree_of(alloc, constants, Sort::Int, greatest)
            } else {
                Ok(false)
            }
        }
        None => Ok(true),
    }
}

/// Whether a variable's initial value is of its sort.
fn init_fits(alloc: Global, constants: &Scope<'_>, variable: &Variable) -> Result<bool, AllocError>
    ensures { IfOk result (λ fits. fits ≡ init_fits (tree_in constants.now) variable.now) }
{
    match &variable.init {
        Some(expr) => is_tree_of(alloc, constants, declared_sort(variable), expr),
        None => Ok(true),
    }
}

/// Whether a command's guard is of sort `bool`, and it has branches, each of which fits.
pub fn command_fits(alloc: Global, scope: &Scope<'_>, command: &Command) -> Result<bool, AllocError>
    ensures { IfOk result (λ fits. fits ≡ command_fits (tree_in scope.now) (sort_in scope.now) command.now) }
{
    if is_tree_of(alloc, scope, Sort::Bool, &command.guard)? {
        some_branches_fit(alloc, scope, command.branches.as_slice())
    } else {
        Ok(false)
    }
}

/// Whether there are branches, and all fit.
fn some_branches_fit(
    alloc: Global,
    scope: &Scope<'_>,
    branches: &[Branch],
) -> Result<bool, AllocError>
    ensures { IfOk result (λ fit. fit ≡ (nat_lt 0 (length branches.now) && list_all (branch_fits (tree_in scope.now) (sort_in scope.now)) branches.now)) }
{
    if branches.is_empty() {
        Ok(false)
    } else {
        branches_fit(alloc, scope, branches)
    }
}

/// Whether branches all fit.
fn branches_fit(alloc: Global, scope: &Scope<'_>, branches: &[Branch]) -> Result<bool, AllocError>
    ensures { IfOk result (λ fits. fits ≡ list_all (branch_fits (tree_in scope.now) (sort_in scope.now)) branches.now) }
{
    for branch in branches {
        let fits = branch_fits(alloc, scope, branch)?;
        if !fits {
            return Ok(false);
        }
    }
    Ok(true)
}

/// Whether a branch's weight is a number, and each of its assignments fits.
fn branch_fits(alloc: Global, scope: &Scope<'_>, branch: &Branch) -> Result<bool, AllocError>
    ensures { IfOk result (λ fits. fits ≡ branch_fits (tree_in scope.now) (sort_in scope.now) branch.now) }
{
    if weight_fits(alloc, scope, branch)? {
        assignments_fit(alloc, scope, branch.sets.as_slice())
    } else {
        Ok(false)
    }
}

/// Whether a branch's weight is a number.
fn weight_fits(alloc: Global, scope: &Scope<'_>, branch: &Branch) -> Result<bool, AllocError>
    ensures { IfOk result (λ fits. fits ≡ weight_fits (tree_in scope.now) (sort_in scope.now) branch.now) }
{
    match &branch.weight {
        Some(expr) => is_number_tree(alloc, scope, expr),
        None => Ok(true),
    }
}

/// Whether assignments all fit.
fn assignments_fit(
    alloc: Global,
    scope: &Scope<'_>,
    sets: &[(Text, Expr)],
) -> Result<bool, AllocError>
    ensures { IfOk result (λ fits. fits ≡ list_all (assignment_fits (tree_in scope.now) (sort_in scope.now)) sets.now) }
{
    for set in sets {
        let fits = assignment_fits(alloc, scope, set)?;
        if !fits {
            return Ok(false);
        }
    }
    Ok(true)
}

/// Whether an assigned value is of its variable's sort.
fn assignment_fits(alloc: Global, scope: &Scope<'_>, set: &(Text, Expr)) -> Result<bool, AllocError>
    ensures { IfOk result (λ fits. fits ≡ assignment_fits (tree_in scope.now) (sort_in scope.now) set.now) }
{
    match scope.variables.get(&set.0) {
        Some(variable) => is_tree_of(alloc, scope, variable.sort, &set.1),
        None => Ok(false),
    }
}
