ghost use Rattle.std.specs.Prelude.{◌≡◌, IfOk, is_some, bytes_eq};
ghost use Rattle.indexmap.specs.IndexMap.{get};
ghost use Rattle.typed_trees.specs.Leaves.{literal, constant_tree, constant_leaf};
ghost use Rattle.typed_trees.specs.Scopes.{name_in, label_in};

use crate::copying::copy_tree;
use chain_model::{Form, Sort, Typed, Value, is_of_sort};
use const_eval::{Constant, Consts};
use indexmap::IndexMap;
use smc_num::Text;
use std::alloc::{AllocError, Global};

/// What names stand for in an expression: constants, and the trees of variables and of labels.
#[derive(Drop)]
pub struct Scope<'a> {
    pub consts: &'a Consts,
    pub variables: &'a IndexMap<Text, Typed>,
    pub labels: &'a IndexMap<Text, Typed>,
}

/// A literal of a sort.
pub fn literal(sort: Sort, value: Value) -> Typed
    ensures { result ≡ literal sort value }
{
    Typed {
        sort,
        form: Form::Lit(value),
    }
}

/// The tree of a name.
pub fn name_tree(alloc: Global, scope: &Scope<'_>, name: &Text) -> Result<Option<Typed>, AllocError>
    ensures { IfOk result (λ found. found ≡ name_in scope.now name.now) }
{
    match constant_leaf(scope.consts, name) {
        Some(tree) => Ok(Some(tree)),
        None => listed_tree(alloc, scope.variables, name),
    }
}

/// Whether a name stands for something.
pub fn stands(scope: &Scope<'_>, name: &Text) -> bool
    ensures { result ≡ is_some (name_in scope.now name.now) }
{
    match constant_leaf(scope.consts, name) {
        Some(_) => true,
        None => scope.variables.get(name).is_some(),
    }
}

/// What a name stands for among constants.
fn constant_leaf(consts: &Consts, name: &Text) -> Option<Typed>
    ensures { result ≡ constant_leaf consts.now name.now }
{
    match consts.get(name) {
        Some(constant) => constant_tree(constant),
        None => None,
    }
}

/// A constant as a literal, where its value is of its sort, as each constant's is.
fn constant_tree(constant: Constant) -> Option<Typed>
    ensures { result ≡ constant_tree constant }
{
    if is_of_sort(constant.sort, &constant.value) {
        Some(literal(constant.sort, constant.value))
    } else {
        None
    }
}

/// The tree of a label.
pub fn label_tree(
    alloc: Global,
    scope: &Scope<'_>,
    name: &Text,
) -> Result<Option<Typed>, AllocError>
    ensures { IfOk result (λ found. found ≡ label_in scope.now name.now) }
{
    listed_tree(alloc, scope.labels, name)
}

/// The tree that a table has for a name.
fn listed_tree(
    alloc: Global,
    table: &IndexMap<Text, Typed>,
    name: &Text,
) -> Result<Option<Typed>, AllocError>
    ensures { IfOk result (λ found. found ≡ get bytes_eq table.now name.now) }
{
    match table.get(name) {
        Some(tree) => Ok(Some(copy_tree(alloc, tree)?)),
        None => Ok(None),
    }
}
