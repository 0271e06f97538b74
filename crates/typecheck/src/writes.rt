//! What commands may not assign.

ghost use Rattle.std.specs.Prelude.{◌≡◌, IfOk, map, bytes_eq, Some, None, if◌then◌else◌};
ghost use Rattle.indexmap.specs.IndexMap.{get};
ghost use Rattle.prism_names.specs.First.{first_some, first_repeated};
ghost use Rattle.typecheck.specs.Writes.{is_foreign, is_global, first_assigned, assigned_names, double_write, foreign_write, global_write};

use indexmap::IndexMap;
use prism_names::first_repeated;
use prism_syntax::{Branch, Command, Expr};
use smc_num::Text;
use std::alloc::{AllocError, Global};

/// The first name that commands assign and that is a variable of another module.
pub fn first_foreign(
    alloc: Global,
    owners: &IndexMap<Text, Option<usize>>,
    commands: &[(usize, &Command)],
) -> Result<Option<Text>, AllocError>
    ensures { IfOk result (λ found. found ≡ first_some (foreign_write (get bytes_eq owners.now)) (map (λ c. (c.0, c.1.now)) commands.now)) }
{
    for command in commands {
        match foreign_in_command(alloc, owners, command.0, command.1)? {
            Some(name) => return Ok(Some(name)),
            None => {}
        }
    }
    Ok(None)
}

/// The first name that a command of this module assigns and that is a variable of another.
fn foreign_in_command(
    alloc: Global,
    owners: &IndexMap<Text, Option<usize>>,
    number: usize,
    command: &Command,
) -> Result<Option<Text>, AllocError>
    ensures { IfOk result (λ found. found ≡ foreign_write (get bytes_eq owners.now) (number, command.now)) }
{
    foreign_in_branches(alloc, owners, number, command.branches.as_slice())
}

/// The first name that branches assign and that is a variable of another module than this one.
fn foreign_in_branches(
    alloc: Global,
    owners: &IndexMap<Text, Option<usize>>,
    number: usize,
    branches: &[Branch],
) -> Result<Option<Text>, AllocError>
    ensures { IfOk result (λ found. found ≡ first_some (λ b. first_some (λ s. if is_foreign number (get bytes_eq owners.now s.0) then Some s.0 else None) b.sets) branches.now) }
{
    for branch in branches {
        match foreign_in_branch(alloc, owners, number, branch)? {
            Some(name) => return Ok(Some(name)),
            None => {}
        }
    }
    Ok(None)
}

/// The first name that a branch assigns and that is a variable of another module than this one.
fn foreign_in_branch(
    alloc: Global,
    owners: &IndexMap<Text, Option<usize>>,
    number: usize,
    branch: &Branch,
) -> Result<Option<Text>, AllocError>
    ensures { IfOk result (λ found. found ≡ first_some (λ s. if is_foreign number (get bytes_eq owners.now s.0) then Some s.0 else None) branch.now.sets) }
{
    foreign_in_sets(alloc, owners, number, branch.sets.as_slice())
}

/// The first name that is assigned and that is a variable of another module than this one.
fn foreign_in_sets(
    alloc: Global,
    owners: &IndexMap<Text, Option<usize>>,
    number: usize,
    sets: &[(Text, Expr)],
) -> Result<Option<Text>, AllocError>
    ensures { IfOk result (λ found. found ≡ first_some (λ s. if is_foreign number (get bytes_eq owners.now s.0) then Some s.0 else None) sets.now) }
{
    for set in sets {
        match if_foreign(alloc, owners, number, &set.0)? {
            Some(name) => return Ok(Some(name)),
            None => {}
        }
    }
    Ok(None)
}

/// A name, where it is a variable of another module than this one.
fn if_foreign(
    alloc: Global,
    owners: &IndexMap<Text, Option<usize>>,
    number: usize,
    name: &Text,
) -> Result<Option<Text>, AllocError>
    ensures { IfOk result (λ found. found ≡ (if is_foreign number (get bytes_eq owners.now name.now) then Some name.now else None)) }
{
    match owners.get(name) {
        Some(Some(owner)) => {
            if *owner == number {
                Ok(None)
            } else {
                Ok(Some(name.copy(alloc)?))
            }
        }
        Some(None) => Ok(None),
        None => Ok(None),
    }
}

/// The first global that labelled commands assign.
pub fn first_global(
    alloc: Global,
    owners: &IndexMap<Text, Option<usize>>,
    commands: &[(usize, &Command)],
) -> Result<Option<Text>, AllocError>
    ensures { IfOk result (λ found. found ≡ first_some (global_write (get bytes_eq owners.now)) (map (λ c. c.1.now) commands.now)) }
{
    for command in commands {
        match global_in_command(alloc, owners, command.1)? {
            Some(name) => return Ok(Some(name)),
            None => {}
        }
    }
    Ok(None)
}

/// The first global that a command assigns, where it is labelled.
fn global_in_command(
    alloc: Global,
    owners: &IndexMap<Text, Option<usize>>,
    command: &Command,
) -> Result<Option<Text>, AllocError>
    ensures { IfOk result (λ found. found ≡ global_write (get bytes_eq owners.now) command.now) }
{
    match &command.action {
        Some(_) => global_in_branches(alloc, owners, command.branches.as_slice()),
        None => Ok(None),
    }
}

/// The first global that branches assign.
fn global_in_branches(
    alloc: Global,
    owners: &IndexMap<Text, Option<usize>>,
    branches: &[Branch],
) -> Result<Option<Text>, AllocError>
    ensures { IfOk result (λ found. found ≡ first_some (λ b. first_some (λ s. if is_global (get bytes_eq owners.now s.0) then Some s.0 else None) b.sets) branches.now) }
{
    for branch in branches {
        match global_in_branch(alloc, owners, branch)? {
            Some(name) => return Ok(Some(name)),
            None => {}
        }
    }
    Ok(None)
}

/// The first global that a branch assigns.
fn global_in_branch(
    alloc: Global,
    owners: &IndexMap<Text, Option<usize>>,
    branch: &Branch,
) -> Result<Option<Text>, AllocError>
    ensures { IfOk result (λ found. found ≡ first_some (λ s. if is_global (get bytes_eq owners.now s.0) then Some s.0 else None) branch.now.sets) }
{
    global_in_sets(alloc, owners, branch.sets.as_slice())
}

/// The first global that is assigned.
fn global_in_sets(
    alloc: Global,
    owners: &IndexMap<Text, Option<usize>>,
    sets: &[(Text, Expr)],
) -> Result<Option<Text>, AllocError>
    ensures { IfOk result (λ found. found ≡ first_some (λ s. if is_global (get bytes_eq owners.now s.0) then Some s.0 else None) sets.now) }
{
    for set in sets {
        match if_global(alloc, owners, &set.0)? {
            Some(name) => return Ok(Some(name)),
            None => {}
        }
    }
    Ok(None)
}

/// A name, where it is a global.
fn if_global(
    alloc: Global,
    owners: &IndexMap<Text, Option<usize>>,
    name: &Text,
) -> Result<Option<Text>, AllocError>
    ensures { IfOk result (λ found. found ≡ (if is_global (get bytes_eq owners.now name.now) then Some name.now else None)) }
{
    match owners.get(name) {
        Some(Some(_)) => Ok(None),
        Some(None) => Ok(Some(name.copy(alloc)?)),
        None => Ok(None),
    }
}

/// The first name that one update of commands assigns twice.
pub fn first_double(
    alloc: Global,
    commands: &[(usize, &Command)],
) -> Result<Option<Text>, AllocError>
    ensures { IfOk result (λ found. found ≡ first_some double_write (map (λ c. c.1.now) commands.now)) }
{
    for command in commands {
        match double_in_command(alloc, command.1)? {
            Some(name) => return Ok(Some(name)),
            None => {}
        }
    }
    Ok(None)
}

/// The first name that one update of a command assigns twice.
fn double_in_command(alloc: Global, command: &Command) -> Result<Option<Text>, AllocError>
    ensures { IfOk result (λ found. found ≡ double_write command.now) }
{
    double_in_branches(alloc, command.branches.as_slice())
}

/// The first name that one of these branches assigns twice.
fn double_in_branches(alloc: Global, branches: &[Branch]) -> Result<Option<Text>, AllocError>
    ensures { IfOk result (λ found. found ≡ first_some (λ b. first_repeated (assigned_names b) (assigned_names b)) branches.now) }
{
    for branch in branches {
        match double_in_branch(alloc, branch)? {
            Some(name) => return Ok(Some(name)),
            None => {}
        }
    }
    Ok(None)
}

/// The first name that a branch assigns twice.
fn double_in_branch(alloc: Global, branch: &Branch) -> Result<Option<Text>, AllocError>
    ensures { IfOk result (λ found. found ≡ first_repeated (assigned_names branch.now) (assigned_names branch.now)) }
{
    let names = assigned_names(alloc, branch.sets.as_slice())?;
    match first_repeated(alloc, names.as_slice(), names.as_slice())? {
        Some(name) => Ok(Some(name.copy(alloc)?)),
        None => Ok(None),
    }
}

/// The names that are assigned.
fn assigned_names<'a>(alloc: Global, sets: &'a [(Text, Expr)]) -> Result<Vec<&'a Text>, AllocError>
    ensures { IfOk result (λ names. map (λ name. name.now) names.items ≡ map (λ s. s.0) sets.now) }
{
    let mut names = Vec::new(alloc);
    for set in sets {
        names.push(&set.0)?;
    }
    Ok(names)
}
