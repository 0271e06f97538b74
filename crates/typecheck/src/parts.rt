//! The parts of the chain of a flat model.

ghost use Rattle.std.specs.Prelude.{◌≡◌, ℕ, [], List, Option, filter_map, map, IfOk, OnOk, All, bytes_eq};
ghost use Rattle.indexmap.specs.IndexMap.{get};
ghost use Rattle.chain_model.specs.Chain.{IsChain};
ghost use Rattle.chain_model.specs.Values.{Valued};
ghost use Rattle.prism_syntax.specs.declared.expressions.Expr.{Expr};
ghost use Rattle.prism_syntax.specs.declared.commands.Command.{Command};
ghost use Rattle.prism_syntax.specs.declared.models.Variable.{Variable};
ghost use Rattle.typed_trees.specs.Numbers.{constant_value};
ghost use Rattle.typed_trees.specs.Scopes.{tree_in};
ghost use Rattle.typecheck.specs.Declarations.{first_appearances, module_name};
ghost use Rattle.typecheck.specs.Parts.{made_variable, made_actions, made_parts};
ghost use Rattle.typecheck.specs.Limits.{IsWithin};

use crate::actions::{action_names, made_actions};
use crate::commands::made_commands;
use crate::labels::made_labels;
use crate::pairs::both;
use crate::variables::made_variables;
use chain_model::{Act, Action, Chain, Typed, Var};
use indexmap::IndexSet;
use prism_syntax::{Command, FlatText, Module, Variable};
use smc_num::Text;
use sqlite_items::Items;
use std::alloc::{AllocError, Global};
use typed_trees::Scope;

/// The parts of a chain.
#[derive(Drop)]
pub struct Parts {
    pub vars: Items<Var>,
    pub actions: Items<Action>,
    pub modules: Items<Text>,
    pub commands: Items<Act>,
    pub labels: Items<(Text, Typed)>,
}

/// The parts of the chain of a flat model with these variables and commands, where all its expressions have trees.
pub fn made_parts(
    alloc: Global,
    flat: &FlatText,
    scope: &Scope<'_>,
    variables: &[(Option<usize>, &Variable)],
    commands: &[(usize, &Command)],
) -> Result<Option<Parts>, AllocError>
    ensures made { IfOk result (λ found. found ≡ made_parts (constant_value scope.now.consts.now) (tree_in scope.now) (get bytes_eq scope.now.variables.now)
        (map {B = Option ℕ × Variable} (λ v. (v.0, v.1.now)) variables.now) (map {B = ℕ × Command} (λ c. (c.0, c.1.now)) commands.now)
        flat.now.labels flat.now.modules (first_appearances [] (filter_map (λ c. c.1.now.action) commands.now))) }
    ensures within { OnOk result (All IsWithin (map (made_variable (constant_value scope.now.consts.now)) (map {B = Option ℕ × Variable} (λ v. (v.0, v.1.now)) variables.now))) }
{
    let vars = made_variables(alloc, scope.consts, variables)?;
    let names = action_names(alloc, commands)?;
    parts_with(alloc, flat, scope, &names, vars, commands)
}

/// The parts of a chain with these variables and names of actions, where all expressions of its commands and labels
/// have trees.
fn parts_with(
    alloc: Global,
    flat: &FlatText,
    scope: &Scope<'_>,
    names: &IndexSet<Text>,
    vars: Items<Var>,
    commands: &[(usize, &Command)],
) -> Result<Option<Parts>, AllocError>
    ensures { IfOk result (λ found. (values : Expr → Valued) (variables : List (Option ℕ × Variable)) → vars ≡ map (made_variable values) variables
        → found ≡ made_parts values (tree_in scope.now) (get bytes_eq scope.now.variables.now) variables
        (map {B = ℕ × Command} (λ c. (c.0, c.1.now)) commands.now) flat.now.labels flat.now.modules names.now.keys) }
{
    let (commands, labels) = both(
        made_commands(alloc, scope, names, commands),
        made_labels(alloc, scope, flat.labels.as_slice()),
    )?;
    match commands.zip(labels) {
        Some((commands, labels)) => {
            let modules = flat.modules.as_slice();
            Ok(Some(whole_parts(alloc, names, modules, vars, commands, labels)?))
        }
        None => Ok(None),
    }
}

/// These variables, commands and labels, with the actions and the names of modules.
fn whole_parts(
    alloc: Global,
    names: &IndexSet<Text>,
    modules: &[Module],
    vars: Items<Var>,
    commands: Items<Act>,
    labels: Items<(Text, Typed)>,
) -> Result<Parts, AllocError>
    ensures { IfOk result (λ parts. parts ≡ record {
      vars = vars;
      actions = made_actions commands names.now.keys;
      modules = map module_name modules.now;
      commands = commands;
      labels = labels;
    }) }
{
    let (actions, modules) = both(
        made_actions(alloc, names, commands.as_slice()),
        module_names(alloc, modules),
    )?;
    Ok(Parts {
        vars,
        actions,
        modules,
        commands,
        labels,
    })
}

/// The names of modules.
fn module_names(alloc: Global, modules: &[Module]) -> Result<Items<Text>, AllocError>
    ensures { IfOk result (λ names. names ≡ map module_name modules.now) }
{
    let mut names = Items::new(alloc);
    for item in modules {
        names.push(module_name(alloc, item)?)?;
    }
    Ok(names)
}

/// The name of a module.
fn module_name(alloc: Global, item: &Module) -> Result<Text, AllocError>
    ensures { IfOk result (λ name. name ≡ module_name item.now) }
{
    match item {
        Module::Written { name, .. } => name.copy(alloc),
        Module::Renamed { name, .. } => name.copy(alloc),
    }
}

/// The chain of parts that are one.
pub fn chain_of(parts: Parts) -> Chain
    requires { IsChain parts.vars parts.actions parts.modules parts.commands parts.labels }
    ensures vars { result.vars ≡ parts.vars }
    ensures actions { result.actions ≡ parts.actions }
    ensures modules { result.modules ≡ parts.modules }
    ensures commands { result.commands ≡ parts.commands }
    ensures labels { result.labels ≡ parts.labels }
{
    Chain::new(
        parts.vars,
        parts.actions,
        parts.modules,
        parts.commands,
        parts.labels,
    )
    .unwrap()
}
