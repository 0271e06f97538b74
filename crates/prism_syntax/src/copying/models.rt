ghost use Rattle.std.specs.Prelude.{◌≡◌, IfOk};

use crate::commands::Command;
use crate::copying::copy_optional;
use crate::expressions::Expr;
use crate::models::{ConstText, FlatText, ModelText, Module, Named, Variable};
use smc_num::Text;
use sqlite_items::Items;
use std::alloc::{AllocError, Global};

impl ConstText {
    /// Another constant that is the same.
    pub fn copy(&self, alloc: Global) -> Result<ConstText, AllocError>
        ensures { IfOk result (λ copy. copy ≡ self.now) }
    {
        Ok(ConstText {
            name: self.name.copy(alloc)?,
            sort: self.sort,
            value: copy_optional(alloc, &self.value)?,
        })
    }
}

impl Named {
    /// Another formula or label that is the same.
    pub fn copy(&self, alloc: Global) -> Result<Named, AllocError>
        ensures { IfOk result (λ copy. copy ≡ self.now) }
    {
        Ok(Named {
            name: self.name.copy(alloc)?,
            body: self.body.copy(alloc)?,
        })
    }
}

impl Variable {
    /// Another variable that is the same.
    pub fn copy(&self, alloc: Global) -> Result<Variable, AllocError>
        ensures { IfOk result (λ copy. copy ≡ self.now) }
    {
        Ok(Variable {
            name: self.name.copy(alloc)?,
            range: copy_range(alloc, &self.range)?,
            init: copy_optional(alloc, &self.init)?,
        })
    }
}

impl Module {
    /// Another module that is the same.
    pub fn copy(&self, alloc: Global) -> Result<Module, AllocError>
        ensures { IfOk result (λ copy. copy ≡ self.now) }
    {
        match self {
            Module::Written {
                name,
                vars,
                commands,
            } => Ok(Module::Written {
                name: name.copy(alloc)?,
                vars: copy_variables(alloc, vars.as_slice())?,
                commands: copy_commands(alloc, commands.as_slice())?,
            }),
            Module::Renamed {
                name,
                source,
                pairs,
            } => Ok(Module::Renamed {
                name: name.copy(alloc)?,
                source: source.copy(alloc)?,
                pairs: copy_pairs(alloc, pairs.as_slice())?,
            }),
        }
    }
}

impl ModelText {
    /// Another model that is the same.
    pub fn copy(&self, alloc: Global) -> Result<ModelText, AllocError>
        ensures { IfOk result (λ copy. copy ≡ self.now) }
    {
        Ok(ModelText {
            consts: copy_consts(alloc, self.consts.as_slice())?,
            globals: copy_variables(alloc, self.globals.as_slice())?,
            formulas: copy_named(alloc, self.formulas.as_slice())?,
            modules: copy_modules(alloc, self.modules.as_slice())?,
            labels: copy_named(alloc, self.labels.as_slice())?,
        })
    }
}

impl FlatText {
    /// Another flat model that is the same.
    pub fn copy(&self, alloc: Global) -> Result<FlatText, AllocError>
        ensures { IfOk result (λ copy. copy ≡ self.now) }
    {
        Ok(FlatText {
            consts: copy_consts(alloc, self.consts.as_slice())?,
            globals: copy_variables(alloc, self.globals.as_slice())?,
            formulas: copy_named(alloc, self.formulas.as_slice())?,
            modules: copy_modules(alloc, self.modules.as_slice())?,
            labels: copy_named(alloc, self.labels.as_slice())?,
        })
    }
}

/// The same range once more, where there is one.
fn copy_range(
    alloc: Global,
    range: &Option<(Expr, Expr)>,
) -> Result<Option<(Expr, Expr)>, AllocError>
    ensures { IfOk result (λ copy. copy ≡ range.now) }
{
    match range {
        Some((low, high)) => Ok(Some((low.copy(alloc)?, high.copy(alloc)?))),
        None => Ok(None),
    }
}

/// The same constants once more.
fn copy_consts(alloc: Global, constants: &[ConstText]) -> Result<Items<ConstText>, AllocError>
    ensures { IfOk result (λ copies. copies ≡ constants.now) }
{
    let mut copies = Items::new(alloc);
    for constant in constants {
        copies.push(constant.copy(alloc)?)?;
    }
    Ok(copies)
}

/// The same formulas or labels once more.
fn copy_named(alloc: Global, all: &[Named]) -> Result<Items<Named>, AllocError>
    ensures { IfOk result (λ copies. copies ≡ all.now) }
{
    let mut copies = Items::new(alloc);
    for named in all {
        copies.push(named.copy(alloc)?)?;
    }
    Ok(copies)
}

/// The same variables once more.
fn copy_variables(alloc: Global, variables: &[Variable]) -> Result<Items<Variable>, AllocError>
    ensures { IfOk result (λ copies. copies ≡ variables.now) }
{
    let mut copies = Items::new(alloc);
    for variable in variables {
        copies.push(variable.copy(alloc)?)?;
    }
    Ok(copies)
}

/// The same modules once more.
fn copy_modules(alloc: Global, modules: &[Module]) -> Result<Items<Module>, AllocError>
    ensures { IfOk result (λ copies. copies ≡ modules.now) }
{
    let mut copies = Items::new(alloc);
    for module in modules {
        copies.push(module.copy(alloc)?)?;
    }
    Ok(copies)
}

/// The same commands once more.
fn copy_commands(alloc: Global, commands: &[Command]) -> Result<Items<Command>, AllocError>
    ensures { IfOk result (λ copies. copies ≡ commands.now) }
{
    let mut copies = Items::new(alloc);
    for command in commands {
        copies.push(command.copy(alloc)?)?;
    }
    Ok(copies)
}

/// The same pairs of names once more.
fn copy_pairs(alloc: Global, pairs: &[(Text, Text)]) -> Result<Items<(Text, Text)>, AllocError>
    ensures { IfOk result (λ copies. copies ≡ pairs.now) }
{
    let mut copies = Items::new(alloc);
    for pair in pairs {
        copies.push((pair.0.copy(alloc)?, pair.1.copy(alloc)?))?;
    }
    Ok(copies)
}
