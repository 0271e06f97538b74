use prism_syntax::{
    Branch, Command, ConstText, Expr, ModelText, Module, Named, Op, SortWord, Variable,
};
use smc_num::Text;
use sqlite_items::Items;
use std::alloc::{AllocError, Global};

/// A declaration of a model by its names.
pub enum Item {
    Const(&'static str),
    Global(&'static str),
    /// A formula, and the names whose sum it is.
    Formula(&'static str, &'static [&'static str]),
    /// A module with its variables. The first has the command `[action] guard -> (variable' = value)`.
    Written(&'static str, &'static [&'static str]),
    Renamed(&'static str, &'static str, &'static [(&'static str, &'static str)]),
    Label(&'static str),
}

pub fn text(alloc: Global, name: &str) -> Result<Text, AllocError> {
    Text::from_bytes(alloc, name.as_bytes())
}

pub fn name(alloc: Global, name: &str) -> Result<Expr, AllocError> {
    Ok(Expr::Name(text(alloc, name)?))
}

/// The names with `+` between them.
pub fn sum(alloc: Global, names: &[&str]) -> Result<Expr, AllocError> {
    let mut parts = Items::new(alloc);
    let mut operators = Items::new(alloc);
    for part in names {
        if parts.len() > 0 {
            operators.push(Op::Add)?;
        }
        parts.push(name(alloc, part)?)?;
    }
    Ok(Expr::Level(parts, operators))
}

/// A formula or a label.
pub fn formula(alloc: Global, declared: &str, body: Expr) -> Result<Named, AllocError> {
    Ok(Named {
        name: text(alloc, declared)?,
        body,
    })
}

fn constant(alloc: Global, declared: &str) -> Result<ConstText, AllocError> {
    Ok(ConstText {
        name: text(alloc, declared)?,
        sort: SortWord::Int,
        value: None,
    })
}

/// A variable that begins at `start`.
fn variable(alloc: Global, declared: &str) -> Result<Variable, AllocError> {
    Ok(Variable {
        name: text(alloc, declared)?,
        range: None,
        init: Some(name(alloc, "start")?),
    })
}

/// `[action] guard -> (variable' = value)`
fn command(alloc: Global, variable: &str) -> Result<Command, AllocError> {
    let mut sets = Items::new(alloc);
    sets.push((text(alloc, variable)?, name(alloc, "value")?))?;
    let mut branches = Items::new(alloc);
    branches.push(Branch { weight: None, sets })?;
    Ok(Command {
        action: Some(text(alloc, "action")?),
        guard: name(alloc, "guard")?,
        branches,
    })
}

fn written(alloc: Global, title: &str, names: &[&str]) -> Result<Module, AllocError> {
    let mut vars = Items::new(alloc);
    for declared in names {
        vars.push(variable(alloc, declared)?)?;
    }
    let mut commands = Items::new(alloc);
    if let [first, ..] = names {
        commands.push(command(alloc, first)?)?;
    }
    Ok(Module::Written {
        name: text(alloc, title)?,
        vars,
        commands,
    })
}

fn renamed(
    alloc: Global,
    title: &str,
    source: &str,
    names: &[(&str, &str)],
) -> Result<Module, AllocError> {
    let mut pairs = Items::new(alloc);
    for pair in names {
        pairs.push((text(alloc, pair.0)?, text(alloc, pair.1)?))?;
    }
    Ok(Module::Renamed {
        name: text(alloc, title)?,
        source: text(alloc, source)?,
        pairs,
    })
}

fn add(alloc: Global, model: &mut ModelText, item: &Item) -> Result<(), AllocError> {
    match item {
        Item::Const(declared) => model.consts.push(constant(alloc, declared)?),
        Item::Global(declared) => model.globals.push(variable(alloc, declared)?),
        Item::Formula(declared, parts) => model
            .formulas
            .push(formula(alloc, declared, sum(alloc, parts)?)?),
        Item::Written(title, names) => model.modules.push(written(alloc, title, names)?),
        Item::Renamed(title, source, names) => model
            .modules
            .push(renamed(alloc, title, source, names)?),
        Item::Label(declared) => model
            .labels
            .push(formula(alloc, declared, name(alloc, "start")?)?),
    }
}

/// The model of these declarations.
pub fn model(alloc: Global, items: &[Item]) -> Result<ModelText, AllocError> {
    let mut model = ModelText {
        consts: Items::new(alloc),
        globals: Items::new(alloc),
        formulas: Items::new(alloc),
        modules: Items::new(alloc),
        labels: Items::new(alloc),
    };
    for item in items {
        add(alloc, &mut model, item)?;
    }
    Ok(model)
}
