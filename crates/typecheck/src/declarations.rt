//! The parts of a module; those of a flat model are all written out.

ghost use Rattle.std.specs.Prelude.{◌≡◌};
ghost use Rattle.typecheck.specs.Declarations.{variables_of, commands_of};

use prism_syntax::{Command, Module, Variable};

/// The variables of a module.
pub fn variables_of(item: &Module) -> &[Variable]
    ensures { result.now ≡ variables_of item.now }
{
    match item {
        Module::Written { vars, .. } => vars.as_slice(),
        Module::Renamed { .. } => &[],
    }
}

/// The commands of a module.
pub fn commands_of(item: &Module) -> &[Command]
    ensures { result.now ≡ commands_of item.now }
{
    match item {
        Module::Written { commands, .. } => commands.as_slice(),
        Module::Renamed { .. } => &[],
    }
}
