ghost use Rattle.std.specs.Prelude.{◌≡◌, ◌++◌, flat_map, OnOk, IfErr};
ghost use Rattle.prism_syntax.specs.declared.models.Module.TheVariants.{Written};
ghost use Rattle.prism_print.specs.Pieces.{text_of};
ghost use Rattle.prism_print.specs.Printed.{const_line, global_line, formula_line, label_line, variable_line, command_line, indented, module_lines, layout, printed};

use crate::commands::append_command;
use crate::lines::{append_const, append_formula, append_global, append_label, append_variable};
use prism_syntax::{Command, ConstText, FlatText, Module, Named, Variable};
use smc_num::Text;
use std::alloc::{AllocError, Global};

/// Appends the printed form of a flat text; where memory runs out, `out` is as before.
pub fn print(alloc: Global, flat: &FlatText, out: &mut Vec<u8>) -> Result<(), AllocError>
    ensures printed { OnOk result (out.new.items ≡ out.old.items ++ printed flat.now) }
    ensures kept { IfErr result (λ fault. out.new.items ≡ out.old.items) }
{
    let mut text = Vec::new(alloc);
    match append_flat(&mut text, flat) {
        Ok(()) => out.extend_from_slice(text.as_slice()),
        Err(error) => Err(error),
    }
}

/// Appends the printed form of a flat text.
fn append_flat(text: &mut Vec<u8>, flat: &FlatText) -> Result<(), AllocError>
    ensures { OnOk result (text.new.items ≡ text.old.items ++ text_of (layout flat.now)) }
{
    text.extend_from_slice(b"dtmc\n")?;
    append_consts(text, flat.consts.as_slice())?;
    append_globals(text, flat.globals.as_slice())?;
    append_formulas(text, flat.formulas.as_slice())?;
    append_modules(text, flat.modules.as_slice())?;
    append_labels(text, flat.labels.as_slice())
}

/// Appends the lines of constants.
fn append_consts(text: &mut Vec<u8>, consts: &[ConstText]) -> Result<(), AllocError>
    ensures { OnOk result (text.new.items ≡ text.old.items ++ flat_map (λ x. text_of (const_line x)) consts.now) }
{
    for constant in consts {
        append_const(text, constant)?;
    }
    Ok(())
}

/// Appends the lines of global variables.
fn append_globals(text: &mut Vec<u8>, globals: &[Variable]) -> Result<(), AllocError>
    ensures { OnOk result (text.new.items ≡ text.old.items ++ flat_map (λ x. text_of (global_line x)) globals.now) }
{
    for variable in globals {
        append_global(text, variable)?;
    }
    Ok(())
}

/// Appends the lines of formulas.
fn append_formulas(text: &mut Vec<u8>, formulas: &[Named]) -> Result<(), AllocError>
    ensures { OnOk result (text.new.items ≡ text.old.items ++ flat_map (λ x. text_of (formula_line x)) formulas.now) }
{
    for formula in formulas {
        append_formula(text, formula)?;
    }
    Ok(())
}

/// Appends the lines of labels.
fn append_labels(text: &mut Vec<u8>, labels: &[Named]) -> Result<(), AllocError>
    ensures { OnOk result (text.new.items ≡ text.old.items ++ flat_map (λ x. text_of (label_line x)) labels.now) }
{
    for label in labels {
        append_label(text, label)?;
    }
    Ok(())
}

/// Appends the lines of modules.
fn append_modules(text: &mut Vec<u8>, modules: &[Module]) -> Result<(), AllocError>
    ensures { OnOk result (text.new.items ≡ text.old.items ++ flat_map (λ x. text_of (module_lines x)) modules.now) }
{
    for one in modules {
        append_module(text, one)?;
    }
    Ok(())
}

/// Appends the lines of a module that is written out.
fn append_module(text: &mut Vec<u8>, one: &Module) -> Result<(), AllocError>
    ensures { OnOk result (text.new.items ≡ text.old.items ++ text_of (module_lines one.now)) }
{
    match one {
        Module::Written {
            name,
            vars,
            commands,
        } => append_written(text, name, vars.as_slice(), commands.as_slice()),
        Module::Renamed { .. } => Ok(()),
    }
}

/// Appends the lines of a module of this name with these variables and commands.
fn append_written(
    text: &mut Vec<u8>,
    name: &Text,
    vars: &[Variable],
    commands: &[Command],
) -> Result<(), AllocError>
    ensures { OnOk result (text.new.items ≡ text.old.items ++ text_of (module_lines (Written name.now vars.now commands.now))) }
{
    text.extend_from_slice(b"module ")?;
    text.extend_from_slice(name.bytes())?;
    text.extend_from_slice(b"\n")?;
    append_variables(text, vars)?;
    append_commands(text, commands)?;
    text.extend_from_slice(b"endmodule\n")
}

/// Appends the lines of a module's variables.
fn append_variables(text: &mut Vec<u8>, vars: &[Variable]) -> Result<(), AllocError>
    ensures { OnOk result (text.new.items ≡ text.old.items
        ++ flat_map (λ v. text_of (indented (variable_line v))) vars.now) }
{
    for variable in vars {
        text.extend_from_slice(b"  ")?;
        append_variable(text, variable)?;
    }
    Ok(())
}

/// Appends the lines of a module's commands.
fn append_commands(text: &mut Vec<u8>, commands: &[Command]) -> Result<(), AllocError>
    ensures { OnOk result (text.new.items ≡ text.old.items
        ++ flat_map (λ c. text_of (indented (command_line c))) commands.now) }
{
    for command in commands {
        text.extend_from_slice(b"  ")?;
        append_command(text, command)?;
    }
    Ok(())
}
