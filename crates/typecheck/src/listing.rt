//! The variables and commands of a flat model, listed as they stand in the text.

ghost use Rattle.std.specs.Prelude.{◌≡◌, ◌++◌, map, flat_map, ℕ, Option, Some, IfOk, OnOk};
ghost use Rattle.std.specs.List.{enumerate_from};
ghost use Rattle.prism_syntax.specs.declared.commands.Command.{Command};
ghost use Rattle.prism_syntax.specs.declared.models.Variable.{Variable};
ghost use Rattle.typecheck.specs.Declarations.{variables_of, commands_of, declared_variables, declared_commands};

use crate::declarations::{commands_of, variables_of};
use prism_syntax::{Command, FlatText, Module, Variable};
use std::alloc::{AllocError, Global};

/// The variables of a flat model, each with the number of its module; a global has none.
pub fn declared_variables<'a>(
    alloc: Global,
    flat: &'a FlatText,
) -> Result<Vec<(Option<usize>, &'a Variable)>, AllocError>
    ensures { IfOk result (λ list. map {B = Option ℕ × Variable} (λ v. (v.0, v.1.now)) list.items ≡ declared_variables flat.now) }
{
    let mut list = Vec::new(alloc);
    list_variables(None, flat.globals.as_slice(), &mut list)?;
    list_module_variables(flat.modules.as_slice(), &mut list)?;
    Ok(list)
}

/// Appends the variables of modules, each with the number of its module.
fn list_module_variables<'a>(
    modules: &'a [Module],
    list: &mut Vec<(Option<usize>, &'a Variable)>,
) -> Result<(), AllocError>
    ensures { OnOk result (map {B = Option ℕ × Variable} (λ v. (v.0, v.1.now)) list.new.items ≡ map {B = Option ℕ × Variable} (λ v. (v.0, v.1.now)) list.old.items
        ++ flat_map (λ m. map {B = Option ℕ × Variable} (λ v. (Some m.0, v)) (variables_of m.1)) (enumerate_from 0 modules.now)) }
{
    for (number, item) in modules.iter().enumerate() {
        list_variables(Some(number), variables_of(item), list)?;
    }
    Ok(())
}

/// Appends variables with the number of their module.
fn list_variables<'a>(
    owner: Option<usize>,
    variables: &'a [Variable],
    list: &mut Vec<(Option<usize>, &'a Variable)>,
) -> Result<(), AllocError>
    ensures { OnOk result (map {B = Option ℕ × Variable} (λ v. (v.0, v.1.now)) list.new.items ≡ map {B = Option ℕ × Variable} (λ v. (v.0, v.1.now)) list.old.items ++ map {B = Option ℕ × Variable} (λ v. (owner, v)) variables.now) }
{
    for variable in variables {
        list.push((owner, variable))?;
    }
    Ok(())
}

/// The commands of a flat model, each with the number of its module.
pub fn declared_commands<'a>(
    alloc: Global,
    flat: &'a FlatText,
) -> Result<Vec<(usize, &'a Command)>, AllocError>
    ensures { IfOk result (λ list. map {B = ℕ × Command} (λ c. (c.0, c.1.now)) list.items ≡ declared_commands flat.now) }
{
    let mut list = Vec::new(alloc);
    list_module_commands(flat.modules.as_slice(), &mut list)?;
    Ok(list)
}

/// Appends the commands of modules, each with the number of its module.
fn list_module_commands<'a>(
    modules: &'a [Module],
    list: &mut Vec<(usize, &'a Command)>,
) -> Result<(), AllocError>
    ensures { OnOk result (map {B = ℕ × Command} (λ c. (c.0, c.1.now)) list.new.items ≡ map {B = ℕ × Command} (λ c. (c.0, c.1.now)) list.old.items
        ++ flat_map (λ m. map {B = ℕ × Command} (λ c. (m.0, c)) (commands_of m.1)) (enumerate_from 0 modules.now)) }
{
    for (number, item) in modules.iter().enumerate() {
        list_commands(number, commands_of(item), list)?;
    }
    Ok(())
}

/// Appends commands with the number of their module.
fn list_commands<'a>(
    owner: usize,
    commands: &'a [Command],
    list: &mut Vec<(usize, &'a Command)>,
) -> Result<(), AllocError>
    ensures { OnOk result (map {B = ℕ × Command} (λ c. (c.0, c.1.now)) list.new.items ≡ map {B = ℕ × Command} (λ c. (c.0, c.1.now)) list.old.items ++ map {B = ℕ × Command} (λ c. (owner, c)) commands.now) }
{
    for command in commands {
        list.push((owner, command))?;
    }
    Ok(())
}
