//! The actions of the chain of a flat model.

ghost use Rattle.std.specs.Prelude.{◌≡◌, [], ◌∷◌, ◌++◌, filter, filter_map, map, IfOk, OnOk};
ghost use Rattle.typecheck.specs.Declarations.{first_appearances, with_name};
ghost use Rattle.typecheck.specs.Parts.{has_action, taking, made_actions};

use chain_model::{Act, Action};
use indexmap::IndexSet;
use prism_syntax::Command;
use smc_num::Text;
use sqlite_items::Items;
use std::alloc::{AllocError, Global};

/// The names of the actions of commands, by first appearance.
pub fn action_names(
    alloc: Global,
    commands: &[(usize, &Command)],
) -> Result<IndexSet<Text>, AllocError>
    ensures { IfOk result (λ names. names.keys ≡ first_appearances [] (filter_map (λ c. c.1.now.action) commands.now)) }
{
    let mut names = IndexSet::new(alloc);
    for command in commands {
        note_action(alloc, &command.1.action, &mut names)?;
    }
    Ok(names)
}

/// Lists the action of one command more, where it has one that is not there.
fn note_action(
    alloc: Global,
    action: &Option<Text>,
    names: &mut IndexSet<Text>,
) -> Result<(), AllocError>
    ensures { OnOk result (names.new.keys ≡ with_name names.old.keys action.now) }
{
    match action {
        Some(name) => {
            names.insert(name.copy(alloc)?)?;
            Ok(())
        }
        None => Ok(()),
    }
}

/// The actions of these names.
pub fn made_actions(
    alloc: Global,
    names: &IndexSet<Text>,
    acts: &[Act],
) -> Result<Items<Action>, AllocError>
    ensures { IfOk result (λ actions. actions ≡ made_actions acts.now names.now.keys) }
{
    let mut actions = Items::new(alloc);
    for number in 0..names.len() {
        let name = names.get_index(number).unwrap();
        actions.push(Action {
            name: name.copy(alloc)?,
            takes: taking(alloc, acts, number)?,
        })?;
    }
    Ok(actions)
}

/// The modules that have a command with the action of this number.
fn taking(alloc: Global, acts: &[Act], number: usize) -> Result<Items<u32>, AllocError>
    ensures { IfOk result (λ modules. modules ≡ taking acts.now number) }
{
    let mut modules = modules_with(alloc, acts, number)?;
    modules.dedup();
    Ok(Items::from_vec(modules))
}

/// The modules of the commands with the action of this number.
fn modules_with(alloc: Global, acts: &[Act], number: usize) -> Result<Vec<u32>, AllocError>
    ensures { IfOk result (λ modules. modules.items ≡ map (λ act. act.module) (filter (has_action number) acts.now)) }
{
    let mut modules = Vec::new(alloc);
    for act in acts {
        note_module(act, number, &mut modules)?;
    }
    Ok(modules)
}

/// Lists the module of one command more, where it has the action of this number.
fn note_module(act: &Act, number: usize, modules: &mut Vec<u32>) -> Result<(), AllocError>
    ensures { OnOk result (modules.new.items ≡ modules.old.items ++ map (λ a. a.module) (filter (has_action number) (act.now ∷ []))) }
{
    if has_action(act, number) {
        modules.push(act.module)?;
    }
    Ok(())
}

/// Whether a command has the action of this number.
fn has_action(act: &Act, number: usize) -> bool
    ensures { result ≡ has_action number act.now }
{
    match act.action {
        Some(action) => action as usize == number,
        None => false,
    }
}
