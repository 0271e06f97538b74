//! The commands of the chain of a flat model.

ghost use Rattle.std.specs.Prelude.{◌≡◌, ℕ, map, Some, IfOk, bytes_eq};
ghost use Rattle.indexmap.specs.IndexMap.{get};
ghost use Rattle.prism_syntax.specs.declared.commands.Command.{Command};
ghost use Rattle.typed_trees.specs.Scopes.{tree_in};
ghost use Rattle.typecheck.specs.Chains.{one};
ghost use Rattle.typecheck.specs.Parts.{all_made, number_of, assigned_number, made_set, made_weight, made_branch, action_number, made_command};

use crate::pairs::both;
use crate::refusals::shown;
use chain_model::{Act, Arm, Form, Sort, Typed, Value};
use indexmap::IndexSet;
use prism_syntax::{Branch, Command, Expr};
use smc_num::{Frac, Text};
use sqlite_items::Items;
use std::alloc::{AllocError, Global};
use typed_trees::{Scope, literal, type_tree};

/// The commands of a chain, each with the number of its module, where all their expressions have trees.
pub fn made_commands(
    alloc: Global,
    scope: &Scope<'_>,
    names: &IndexSet<Text>,
    commands: &[(usize, &Command)],
) -> Result<Option<Items<Act>>, AllocError>
    ensures { IfOk result (λ found. found ≡ all_made (map (made_command (tree_in scope.now) (get bytes_eq scope.now.variables.now) names.now.keys) (map {B = ℕ × Command} (λ c. (c.0, c.1.now)) commands.now))) }
{
    let mut acts = Items::new(alloc);
    for command in commands {
        match made_command(alloc, scope, names, command.0, command.1)? {
            Some(act) => acts.push(act)?,
            None => return Ok(None),
        }
    }
    Ok(Some(acts))
}

/// A command of a chain.
fn made_command(
    alloc: Global,
    scope: &Scope<'_>,
    names: &IndexSet<Text>,
    owner: usize,
    command: &Command,
) -> Result<Option<Act>, AllocError>
    ensures { IfOk result (λ found. found ≡ made_command (tree_in scope.now) (get bytes_eq scope.now.variables.now) names.now.keys (owner, command.now)) }
{
    let (guard, branches) = both(
        type_tree(alloc, scope, &command.guard),
        made_branches(alloc, scope, command.branches.as_slice()),
    )?;
    match guard.zip(branches) {
        Some((guard, branches)) => Ok(Some(Act {
            module: shown(owner),
            action: action_number(names, &command.action),
            guard,
            branches,
        })),
        None => Ok(None),
    }
}

/// The number of an action.
fn action_number(names: &IndexSet<Text>, action: &Option<Text>) -> Option<u32>
    ensures { result ≡ action_number names.now.keys action.now }
{
    match action {
        Some(name) => match names.get_index_of(name) {
            Some(number) => Some(shown(number)),
            None => None,
        },
        None => None,
    }
}

/// The branches of a command.
fn made_branches(
    alloc: Global,
    scope: &Scope<'_>,
    branches: &[Branch],
) -> Result<Option<Items<Arm>>, AllocError>
    ensures { IfOk result (λ found. found ≡ all_made (map (made_branch (tree_in scope.now) (get bytes_eq scope.now.variables.now)) branches.now)) }
{
    let mut arms = Items::new(alloc);
    for branch in branches {
        match made_branch(alloc, scope, branch)? {
            Some(arm) => arms.push(arm)?,
            None => return Ok(None),
        }
    }
    Ok(Some(arms))
}

/// A branch of a command.
fn made_branch(alloc: Global, scope: &Scope<'_>, branch: &Branch) -> Result<Option<Arm>, AllocError>
    ensures { IfOk result (λ found. found ≡ made_branch (tree_in scope.now) (get bytes_eq scope.now.variables.now) branch.now) }
{
    let (weight, sets) = both(
        made_weight(alloc, scope, branch),
        made_sets(alloc, scope, branch.sets.as_slice()),
    )?;
    match weight.zip(sets) {
        Some((weight, sets)) => Ok(Some(Arm { weight, sets })),
        None => Ok(None),
    }
}

/// The weight of a branch, which is 1 where it is left out.
fn made_weight(
    alloc: Global,
    scope: &Scope<'_>,
    branch: &Branch,
) -> Result<Option<Typed>, AllocError>
    ensures { IfOk result (λ found. found ≡ made_weight (tree_in scope.now) branch.now) }
{
    match &branch.weight {
        Some(expr) => type_tree(alloc, scope, expr),
        None => Ok(Some(literal(Sort::Int, Value::Num(one())))),
    }
}

/// The number 1.
fn one() -> Frac
    ensures { result ≡ one }
{
    Frac::new(1, 1).unwrap()
}

/// The assignments of a branch.
fn made_sets(
    alloc: Global,
    scope: &Scope<'_>,
    sets: &[(Text, Expr)],
) -> Result<Option<Items<(u32, Typed)>>, AllocError>
    ensures { IfOk result (λ found. found ≡ all_made (map (made_set (tree_in scope.now) (get bytes_eq scope.now.variables.now)) sets.now)) }
{
    let mut made = Items::new(alloc);
    for set in sets {
        match made_set(alloc, scope, set)? {
            Some(one) => made.push(one)?,
            None => return Ok(None),
        }
    }
    Ok(Some(made))
}

/// An assignment.
fn made_set(
    alloc: Global,
    scope: &Scope<'_>,
    set: &(Text, Expr),
) -> Result<Option<(u32, Typed)>, AllocError>
    ensures { IfOk result (λ found. found ≡ made_set (tree_in scope.now) (get bytes_eq scope.now.variables.now) set.now) }
{
    let Some(number) = assigned_number(scope, &set.0) else {
        return Ok(None);
    };
    match type_tree(alloc, scope, &set.1)? {
        Some(tree) => Ok(Some((number, tree))),
        None => Ok(None),
    }
}

/// The number of the variable of a name.
fn assigned_number(scope: &Scope<'_>, name: &Text) -> Option<u32>
    ensures { result ≡ assigned_number (get bytes_eq scope.now.variables.now) name.now }
{
    match scope.variables.get(name) {
        Some(tree) => number_of(tree),
        None => None,
    }
}

/// The number of the variable that a tree is.
fn number_of(tree: &Typed) -> Option<u32>
    ensures { result ≡ number_of tree.now }
{
    match &tree.form {
        Form::Var(number) => Some(*number),
        Form::Lit(_) => None,
        Form::Call(_, _) => None,
        Form::Not(_) => None,
        Form::Minus(_) => None,
        Form::Level(_, _) => None,
        Form::If(_, _, _) => None,
        Form::IsInit => None,
        Form::IsDeadlock => None,
    }
}
