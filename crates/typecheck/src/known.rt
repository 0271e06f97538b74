//! The names of an expression that stand for nothing.

ghost use Rattle.std.specs.Prelude.{◌≡◌, IfOk, map};
ghost use Rattle.typed_trees.specs.Scopes.{name_in, label_in};
ghost use Rattle.typecheck.specs.Names.{first_without, unknown_in, unknown_label_in};

use crate::quoted::quoted;
use prism_names::names;
use prism_syntax::Expr;
use smc_num::Text;
use std::alloc::{AllocError, Global};
use typed_trees::{Scope, stands};

/// The first name in an expression, in text order, that stands for nothing.
pub fn unknown_in(alloc: Global, scope: &Scope<'_>, expr: &Expr) -> Result<Option<Text>, AllocError>
    ensures { IfOk result (λ found. found ≡ unknown_in (name_in scope.now) expr.now) }
{
    let names = names(alloc, expr)?;
    unknown_among(alloc, scope, names.as_slice())
}

/// The first label that an expression names, in text order, and that is not there.
pub fn unknown_label_in(
    alloc: Global,
    scope: &Scope<'_>,
    expr: &Expr,
) -> Result<Option<Text>, AllocError>
    ensures { IfOk result (λ found. found ≡ unknown_label_in (label_in scope.now) expr.now) }
{
    let names = quoted(alloc, expr)?;
    unlabelled_among(alloc, scope, names.as_slice())
}

/// The first of these names that stands for nothing.
fn unknown_among(
    alloc: Global,
    scope: &Scope<'_>,
    names: &[&Text],
) -> Result<Option<Text>, AllocError>
    ensures { IfOk result (λ found. found ≡ first_without (name_in scope.now) (map (λ name. name.now) names.now)) }
{
    for name in names {
        if !stands(scope, name) {
            return Ok(Some(name.copy(alloc)?));
        }
    }
    Ok(None)
}

/// The first of these labels that is not there.
fn unlabelled_among(
    alloc: Global,
    scope: &Scope<'_>,
    names: &[&Text],
) -> Result<Option<Text>, AllocError>
    ensures { IfOk result (λ found. found ≡ first_without (label_in scope.now) (map (λ name. name.now) names.now)) }
{
    for name in names {
        if scope.labels.get(*name).is_none() {
            return Ok(Some(name.copy(alloc)?));
        }
    }
    Ok(None)
}
