ghost use Rattle.std.specs.Prelude.{◌≡◌, IfOk, map, bytes_eq};
ghost use Rattle.std.specs.Option.{option_map, option_copied};
ghost use Rattle.indexmap.specs.IndexMap.{get};
ghost use Rattle.prism_syntax.specs.Replaced.{replaced};
ghost use Rattle.module_expand.specs.Renamed.{renamed, copied_variable, copied_set, copied_branch, copied_command, copied_module, variables_of, commands_of};

use crate::pairs::both;
use crate::renamings::NewNames;
use indexmap::IndexMap;
use prism_syntax::{Branch, Command, Expr, Module, Variable};
use smc_num::Text;
use sqlite_items::Items;
use std::alloc::{AllocError, Global};

/// The new name of a name, or the name itself where it has none.
fn copy_name(alloc: Global, name: &Text, names: &NewNames) -> Result<Text, AllocError>
    ensures { IfOk result (λ copy. copy ≡ renamed (λ n. option_copied (get bytes_eq names.now n)) name.now) }
{
    match names.get(name) {
        Some(new_name) => new_name.copy(alloc),
        None => name.copy(alloc),
    }
}

/// An expression with its names replaced, where there is one.
pub fn copy_optional(
    alloc: Global,
    expr: &Option<Expr>,
    trees: &IndexMap<Text, Expr>,
) -> Result<Option<Expr>, AllocError>
    ensures { IfOk result (λ copy. copy ≡ option_map (replaced (get bytes_eq trees.now)) expr.now) }
{
    match expr {
        Some(tree) => Ok(Some(tree.replace(alloc, trees)?)),
        None => Ok(None),
    }
}

/// The ends of a range with their names replaced, where there is one.
fn copy_range(
    alloc: Global,
    range: &Option<(Expr, Expr)>,
    trees: &IndexMap<Text, Expr>,
) -> Result<Option<(Expr, Expr)>, AllocError>
    ensures { IfOk result (λ copy. copy
        ≡ option_map (λ r. (replaced (get bytes_eq trees.now) r.0, replaced (get bytes_eq trees.now) r.1)) range.now) }
{
    match range {
        Some((low, high)) => Ok(Some(both(low.replace(alloc, trees), high.replace(alloc, trees))?)),
        None => Ok(None),
    }
}

/// A variable with its names replaced.
pub fn copy_variable(
    alloc: Global,
    variable: &Variable,
    names: &NewNames,
    trees: &IndexMap<Text, Expr>,
) -> Result<Variable, AllocError>
    ensures { IfOk result (λ copy. copy
        ≡ copied_variable (λ n. option_copied (get bytes_eq names.now n)) (get bytes_eq trees.now) variable.now) }
{
    let name = copy_name(alloc, &variable.name, names)?;
    let (range, init) = both(
        copy_range(alloc, &variable.range, trees),
        copy_optional(alloc, &variable.init, trees),
    )?;
    Ok(Variable { name, range, init })
}

/// Variables with their names replaced.
pub fn copy_variables(
    alloc: Global,
    variables: &[Variable],
    names: &NewNames,
    trees: &IndexMap<Text, Expr>,
) -> Result<Items<Variable>, AllocError>
    ensures { IfOk result (λ copies. copies
        ≡ map (copied_variable (λ n. option_copied (get bytes_eq names.now n)) (get bytes_eq trees.now)) variables.now) }
{
    let mut copies = Items::new(alloc);
    for variable in variables {
        copies.push(copy_variable(alloc, variable, names, trees)?)?;
    }
    Ok(copies)
}

/// An assignment with its names replaced.
fn copy_set(
    alloc: Global,
    set: &(Text, Expr),
    names: &NewNames,
    trees: &IndexMap<Text, Expr>,
) -> Result<(Text, Expr), AllocError>
    ensures { IfOk result (λ copy. copy
        ≡ copied_set (λ n. option_copied (get bytes_eq names.now n)) (get bytes_eq trees.now) set.now) }
{
    both(copy_name(alloc, &set.0, names), set.1.replace(alloc, trees))
}

/// A branch with its names replaced.
fn copy_branch(
    alloc: Global,
    branch: &Branch,
    names: &NewNames,
    trees: &IndexMap<Text, Expr>,
) -> Result<Branch, AllocError>
    ensures { IfOk result (λ copy. copy
        ≡ copied_branch (λ n. option_copied (get bytes_eq names.now n)) (get bytes_eq trees.now) branch.now) }
{
    let (weight, sets) = both(
        copy_optional(alloc, &branch.weight, trees),
        copy_sets(alloc, branch.sets.as_slice(), names, trees),
    )?;
    Ok(Branch { weight, sets })
}

/// Assignments with their names replaced.
fn copy_sets(
    alloc: Global,
    sets: &[(Text, Expr)],
    names: &NewNames,
    trees: &IndexMap<Text, Expr>,
) -> Result<Items<(Text, Expr)>, AllocError>
    ensures { IfOk result (λ copies. copies
        ≡ map (copied_set (λ n. option_copied (get bytes_eq names.now n)) (get bytes_eq trees.now)) sets.now) }
{
    let mut copies = Items::new(alloc);
    for set in sets {
        copies.push(copy_set(alloc, set, names, trees)?)?;
    }
    Ok(copies)
}

/// An action with its new name, where there is one.
fn copy_action(
    alloc: Global,
    action: &Option<Text>,
    names: &NewNames,
) -> Result<Option<Text>, AllocError>
    ensures { IfOk result (λ copy. copy
        ≡ option_map (renamed (λ n. option_copied (get bytes_eq names.now n))) action.now) }
{
    match action {
        Some(name) => Ok(Some(copy_name(alloc, name, names)?)),
        None => Ok(None),
    }
}

/// A command with its names replaced.
fn copy_command(
    alloc: Global,
    command: &Command,
    names: &NewNames,
    trees: &IndexMap<Text, Expr>,
) -> Result<Command, AllocError>
    ensures { IfOk result (λ copy. copy
        ≡ copied_command (λ n. option_copied (get bytes_eq names.now n)) (get bytes_eq trees.now) command.now) }
{
    let branches = copy_branches(alloc, command.branches.as_slice(), names, trees)?;
    let (action, guard) = both(
        copy_action(alloc, &command.action, names),
        command.guard.replace(alloc, trees),
    )?;
    Ok(Command {
        action,
        guard,
        branches,
    })
}

/// Branches with their names replaced.
fn copy_branches(
    alloc: Global,
    branches: &[Branch],
    names: &NewNames,
    trees: &IndexMap<Text, Expr>,
) -> Result<Items<Branch>, AllocError>
    ensures { IfOk result (λ copies. copies
        ≡ map (copied_branch (λ n. option_copied (get bytes_eq names.now n)) (get bytes_eq trees.now)) branches.now) }
{
    let mut copies = Items::new(alloc);
    for branch in branches {
        copies.push(copy_branch(alloc, branch, names, trees)?)?;
    }
    Ok(copies)
}

/// Commands with their names replaced.
fn copy_commands(
    alloc: Global,
    commands: &[Command],
    names: &NewNames,
    trees: &IndexMap<Text, Expr>,
) -> Result<Items<Command>, AllocError>
    ensures { IfOk result (λ copies. copies
        ≡ map (copied_command (λ n. option_copied (get bytes_eq names.now n)) (get bytes_eq trees.now)) commands.now) }
{
    let mut copies = Items::new(alloc);
    for command in commands {
        copies.push(copy_command(alloc, command, names, trees)?)?;
    }
    Ok(copies)
}

/// A module of this name with the variables and the commands of another that is written out, their names replaced.
pub fn copy_module(
    alloc: Global,
    title: &Text,
    from: &Module,
    names: &NewNames,
    trees: &IndexMap<Text, Expr>,
) -> Result<Module, AllocError>
    ensures { IfOk result (λ copy. copy
        ≡ copied_module (λ n. option_copied (get bytes_eq names.now n)) (get bytes_eq trees.now) title.now from.now) }
{
    let name = title.copy(alloc)?;
    let (vars, commands) = copy_parts(alloc, from, names, trees)?;
    Ok(Module::Written {
        name,
        vars,
        commands,
    })
}

/// The variables and the commands of a module that is written out, their names replaced.
fn copy_parts(
    alloc: Global,
    from: &Module,
    names: &NewNames,
    trees: &IndexMap<Text, Expr>,
) -> Result<(Items<Variable>, Items<Command>), AllocError>
    ensures vars { IfOk result (λ copies. copies.0 ≡ map (copied_variable (λ n. option_copied (get bytes_eq names.now n))
        (get bytes_eq trees.now)) (variables_of from.now)) }
    ensures commands { IfOk result (λ copies. copies.1 ≡ map (copied_command (λ n. option_copied (get bytes_eq names.now n))
        (get bytes_eq trees.now)) (commands_of from.now)) }
{
    match from {
        Module::Written { vars, commands, .. } => both(
            copy_variables(alloc, vars.as_slice(), names, trees),
            copy_commands(alloc, commands.as_slice(), names, trees),
        ),
        Module::Renamed { .. } => Ok((Items::new(alloc), Items::new(alloc))),
    }
}
