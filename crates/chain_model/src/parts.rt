//! The parts of small chains for the tests.

use super::*;
use smc_num::{Frac, Text};
use sqlite_items::Items;
use std::alloc::{AllocError, Global};

/// An expression of one node.
#[derive(Clone, Copy)]
pub enum Leaf {
    Truth,
    Whole(i64),
    Var(u32, Sort),
    Init,
}

/// The expression of one node.
pub fn node(leaf: Leaf) -> Typed {
    match leaf {
        Leaf::Truth => Typed {
            sort: Sort::Bool,
            form: Form::Lit(Value::Bool(true)),
        },
        Leaf::Whole(n) => Typed {
            sort: Sort::Int,
            form: match Frac::new(n, 1) {
                Ok(value) => Form::Lit(Value::Num(value)),
                Err(_) => Form::IsInit,
            },
        },
        Leaf::Var(number, sort) => Typed {
            sort,
            form: Form::Var(number),
        },
        Leaf::Init => Typed {
            sort: Sort::Bool,
            form: Form::IsInit,
        },
    }
}

/// The parts of a chain of two modules: a variable of the first and a global, a command of the first module, and one of
/// each module with the only action.
#[derive(Clone, Copy)]
pub struct Parts {
    /// The first variable's module, sort, least and greatest value, and the value that it starts with.
    pub variable: (Option<u32>, Sort, i64, i64, i64),
    /// The first command's module, action, guard and weight.
    pub command: (u32, Option<u32>, Leaf, Leaf),
    /// The first command's assignments, the second of which is of `true`.
    pub sets: (u32, Leaf, u32),
    /// The assignment of the command of the first module with the action.
    pub labelled: (u32, Leaf),
    pub takes: &'static [u32],
    pub label: Leaf,
    /// How many branches of the first command, actions, modules, globals, and commands of the second module there are.
    pub counts: (usize, usize, usize, usize, usize),
}

pub const PARTS: Parts = Parts {
    variable: (Some(0), Sort::Int, -2, 3, 1),
    command: (0, None, Leaf::Truth, Leaf::Whole(1)),
    sets: (0, Leaf::Var(0, Sort::Int), 1),
    labelled: (0, Leaf::Whole(1)),
    takes: &[0, 1],
    label: Leaf::Var(1, Sort::Bool),
    counts: (1, 1, 2, 1, 1),
};

fn variables(alloc: Global, parts: &Parts) -> Result<Items<Var>, AllocError> {
    let mut vars = Items::new(alloc);
    vars.push(Var {
        name: Text::from_bytes(alloc, b"x")?,
        owner: parts.variable.0,
        sort: parts.variable.1,
        lo: parts.variable.2,
        hi: parts.variable.3,
        init: parts.variable.4,
    })?;
    for _ in 0..parts.counts.3 {
        vars.push(Var {
            name: Text::from_bytes(alloc, b"g")?,
            owner: None,
            sort: Sort::Bool,
            lo: 0,
            hi: 1,
            init: 1,
        })?;
    }
    Ok(vars)
}

fn first_command(alloc: Global, parts: &Parts) -> Result<Act, AllocError> {
    let mut branches = Items::new(alloc);
    for _ in 0..parts.counts.0 {
        let mut sets = Items::new(alloc);
        sets.push((parts.sets.0, node(parts.sets.1)))?;
        sets.push((parts.sets.2, node(Leaf::Truth)))?;
        branches.push(Arm {
            weight: node(parts.command.3),
            sets,
        })?;
    }
    Ok(Act {
        module: parts.command.0,
        action: parts.command.1,
        guard: node(parts.command.2),
        branches,
    })
}

fn labelled_command(
    alloc: Global,
    module: u32,
    sets: Items<(u32, Typed)>,
) -> Result<Act, AllocError> {
    let mut branches = Items::new(alloc);
    branches.push(Arm {
        weight: node(Leaf::Whole(1)),
        sets,
    })?;
    Ok(Act {
        module,
        action: Some(0),
        guard: node(Leaf::Truth),
        branches,
    })
}

fn commands(alloc: Global, parts: &Parts) -> Result<Items<Act>, AllocError> {
    let mut sets = Items::new(alloc);
    sets.push((parts.labelled.0, node(parts.labelled.1)))?;
    let mut commands = Items::new(alloc);
    commands.push(first_command(alloc, parts)?)?;
    commands.push(labelled_command(alloc, 0, sets)?)?;
    for _ in 0..parts.counts.4 {
        commands.push(labelled_command(alloc, 1, Items::new(alloc))?)?;
    }
    Ok(commands)
}

fn actions(alloc: Global, parts: &Parts) -> Result<Items<Action>, AllocError> {
    let mut actions = Items::new(alloc);
    for _ in 0..parts.counts.1 {
        actions.push(Action {
            name: Text::from_bytes(alloc, b"a")?,
            takes: Items::from_slice(alloc, parts.takes)?,
        })?;
    }
    Ok(actions)
}

/// The chain of the parts, where they are one.
pub fn chain(alloc: Global, parts: &Parts) -> Result<Option<Chain>, AllocError> {
    let mut modules = Items::new(alloc);
    for _ in 0..parts.counts.2 {
        modules.push(Text::from_bytes(alloc, b"m")?)?;
    }
    let mut labels = Items::new(alloc);
    labels.push((Text::from_bytes(alloc, b"l")?, node(parts.label)))?;
    let vars = variables(alloc, parts)?;
    let actions = actions(alloc, parts)?;
    let commands = commands(alloc, parts)?;
    Ok(Chain::new(vars, actions, modules, commands, labels))
}
