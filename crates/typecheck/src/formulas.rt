//! The typed trees of the state formulas of a path, and whether the sorts of a property's numbers fit.

ghost use Rattle.std.specs.Prelude.{◌≡◌, IfOk, Some, option_map};
ghost use Rattle.typed_trees.specs.Scopes.{tree_in};
ghost use Rattle.typecheck.specs.Formulas.{of_truth, one_formula, two_formulas, formulas_of};
ghost use Rattle.typecheck.specs.PathRefusals.{is_whole_tree, is_number_tree, numbers_fit};

use crate::pairs::both;
use chain_model::{Sort, Typed, Value, is_number};
use prism_syntax::{Expr, PathText, Property, Time};
use std::alloc::{AllocError, Global};
use typed_trees::{Scope, literal, type_tree};

/// The trees of the first and the second state formula of a path, where they are of sort `bool`.
pub fn formulas_of(
    alloc: Global,
    scope: &Scope<'_>,
    path: &PathText,
) -> Result<Option<(Typed, Typed)>, AllocError>
    ensures { IfOk result (λ found. found ≡ formulas_of (tree_in scope.now) path.now) }
{
    match path {
        PathText::Next(formula) => one_formula(alloc, scope, formula),
        PathText::Finally(_, formula) => one_formula(alloc, scope, formula),
        PathText::Globally(_, formula) => one_formula(alloc, scope, formula),
        PathText::Until(first, _, second) => two_formulas(alloc, scope, first, second),
    }
}

/// The trees of one state formula, of which the first always holds.
fn one_formula(
    alloc: Global,
    scope: &Scope<'_>,
    expr: &Expr,
) -> Result<Option<(Typed, Typed)>, AllocError>
    ensures { IfOk result (λ found. found ≡ one_formula (tree_in scope.now expr.now)) }
{
    match truth_tree(alloc, scope, expr)? {
        Some(second) => Ok(Some((literal(Sort::Bool, Value::Bool(true)), second))),
        None => Ok(None),
    }
}

/// The trees of two state formulas.
fn two_formulas(
    alloc: Global,
    scope: &Scope<'_>,
    first: &Expr,
    second: &Expr,
) -> Result<Option<(Typed, Typed)>, AllocError>
    ensures { IfOk result (λ found. found ≡ two_formulas (tree_in scope.now first.now) (tree_in scope.now second.now)) }
{
    let (first, second) = both(
        truth_tree(alloc, scope, first),
        truth_tree(alloc, scope, second),
    )?;
    Ok(first.zip(second))
}

/// The tree of a state formula, where it is of sort `bool`.
fn truth_tree(alloc: Global, scope: &Scope<'_>, expr: &Expr) -> Result<Option<Typed>, AllocError>
    ensures { IfOk result (λ found. found ≡ of_truth (tree_in scope.now expr.now)) }
{
    match type_tree(alloc, scope, expr)? {
        Some(tree) => Ok(only_truth(tree)),
        None => Ok(None),
    }
}

/// A tree, where it is of sort `bool`.
fn only_truth(tree: Typed) -> Option<Typed>
    ensures { result ≡ of_truth (Some tree) }
{
    match tree.sort {
        Sort::Bool => Some(tree),
        Sort::Int | Sort::Double => None,
    }
}

/// Whether the sorts of a property's numbers fit: the bound is a number, and the time of sort `int`.
pub fn numbers_fit(
    alloc: Global,
    constants: &Scope<'_>,
    property: &Property,
) -> Result<bool, AllocError>
    ensures { IfOk result (λ fit. fit ≡ numbers_fit (tree_in constants.now) property.now) }
{
    if !is_number_tree(alloc, constants, &property.bound)? {
        return Ok(false);
    }
    match &property.path {
        PathText::Next(_) => Ok(true),
        PathText::Finally(Time::Upto { last, .. }, _) => is_whole_tree(alloc, constants, last),
        PathText::Globally(Time::Upto { last, .. }, _) => is_whole_tree(alloc, constants, last),
        PathText::Until(_, Time::Upto { last, .. }, _) => is_whole_tree(alloc, constants, last),
    }
}

/// Whether an expression has a tree, of a number.
pub fn is_number_tree(alloc: Global, scope: &Scope<'_>, expr: &Expr) -> Result<bool, AllocError>
    ensures { IfOk result (λ fits. fits ≡ is_number_tree (tree_in scope.now expr.now)) }
{
    match sort_of(alloc, scope, expr)? {
        Some(sort) => Ok(is_number(sort)),
        None => Ok(false),
    }
}

/// Whether an expression has a tree, of sort `int`.
fn is_whole_tree(alloc: Global, scope: &Scope<'_>, expr: &Expr) -> Result<bool, AllocError>
    ensures { IfOk result (λ fits. fits ≡ is_whole_tree (tree_in scope.now expr.now)) }
{
    match sort_of(alloc, scope, expr)? {
        Some(sort) => Ok(matches!(sort, Sort::Int)),
        None => Ok(false),
    }
}

/// The sort of an expression, where it has a tree.
pub fn sort_of(alloc: Global, scope: &Scope<'_>, expr: &Expr) -> Result<Option<Sort>, AllocError>
    ensures { IfOk result (λ found. found ≡ option_map (λ tree. tree.sort) (tree_in scope.now expr.now)) }
{
    match type_tree(alloc, scope, expr)? {
        Some(tree) => Ok(Some(tree.sort)),
        None => Ok(None),
    }
}
