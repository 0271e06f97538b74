//! Small jobs for the tests.

use chain_model::{
    Act, Action, Arm, Chain, Form, Job, Op, Path, PathKind, Sort, Typed, Value, Var,
};
use smc_num::{Frac, Text};
use sqlite_items::Items;
use std::alloc::{AllocError, Global};

/// A small expression.
#[derive(Clone, Copy)]
pub enum Tree {
    Truth(bool),
    /// A number over another.
    Number(i64, i64),
    /// The value of a variable.
    Var(u32),
    /// A variable and a number, added.
    Plus(u32, i64),
    /// Whether a variable has a value.
    Is(u32, i64),
    /// A variable over three.
    Third(u32),
    /// One over zero.
    Fault,
    /// Whether one over zero is one.
    FaultTruth,
}

/// A number over another as a literal, or `false` where that is no number.
fn number(num: i64, den: i64) -> Form {
    match Frac::new(num, den) {
        Ok(value) => Form::Lit(Value::Num(value)),
        Err(_) => Form::Lit(Value::Bool(false)),
    }
}

fn whole(n: i64) -> Typed {
    Typed {
        sort: Sort::Int,
        form: number(n, 1),
    }
}

fn variable(number: u32) -> Typed {
    Typed {
        sort: Sort::Int,
        form: Form::Var(number),
    }
}

fn pair(
    alloc: Global,
    sort: Sort,
    first: Typed,
    op: Op,
    second: Typed,
) -> Result<Typed, AllocError> {
    let mut operands = Items::new(alloc);
    operands.push(first)?;
    operands.push(second)?;
    let operators = Items::from_slice(alloc, &[op])?;
    Ok(Typed {
        sort,
        form: Form::Level(operands, operators),
    })
}

fn typed(alloc: Global, tree: Tree) -> Result<Typed, AllocError> {
    let (sort, form) = match tree {
        Tree::Truth(holds) => (Sort::Bool, Form::Lit(Value::Bool(holds))),
        Tree::Number(num, 1) => (Sort::Int, number(num, 1)),
        Tree::Number(num, den) => (Sort::Double, number(num, den)),
        Tree::Var(number) => return Ok(variable(number)),
        Tree::Plus(number, n) => {
            return pair(alloc, Sort::Int, variable(number), Op::Add, whole(n));
        }
        Tree::Is(number, n) => {
            return pair(alloc, Sort::Bool, variable(number), Op::Eq, whole(n));
        }
        Tree::Third(number) => {
            return pair(alloc, Sort::Double, variable(number), Op::Div, whole(3));
        }
        Tree::Fault => return pair(alloc, Sort::Double, whole(1), Op::Div, whole(0)),
        Tree::FaultTruth => {
            let quotient = pair(alloc, Sort::Double, whole(1), Op::Div, whole(0))?;
            return pair(alloc, Sort::Bool, quotient, Op::Eq, whole(1));
        }
    };
    Ok(Typed { sort, form })
}

/// A branch: its weight, and the variable that it assigns and the right side.
#[derive(Clone, Copy)]
pub struct Branch {
    pub weight: Tree,
    pub set: Option<(u32, Tree)>,
}

/// A command of one branch, or of two.
#[derive(Clone, Copy)]
pub struct Command {
    pub module: u32,
    pub action: Option<u32>,
    pub guard: Tree,
    pub first: Branch,
    pub second: Option<Branch>,
}

/// A branch that is sure and assigns nothing.
pub const SURE: Branch = Branch {
    weight: Tree::Number(1, 1),
    set: None,
};

/// The command of the first module that is always enabled, has no action and stays.
pub const STAYS: Command = Command {
    module: 0,
    action: None,
    guard: Tree::Truth(true),
    first: SURE,
    second: None,
};

fn arm(alloc: Global, branch: &Branch) -> Result<Arm, AllocError> {
    let mut sets = Items::new(alloc);
    if let Some((number, tree)) = branch.set {
        sets.push((number, typed(alloc, tree)?))?;
    }
    Ok(Arm {
        weight: typed(alloc, branch.weight)?,
        sets,
    })
}

fn act(alloc: Global, command: &Command) -> Result<Act, AllocError> {
    let mut branches = Items::new(alloc);
    branches.push(arm(alloc, &command.first)?)?;
    if let Some(second) = command.second {
        branches.push(arm(alloc, &second)?)?;
    }
    Ok(Act {
        module: command.module,
        action: command.action,
        guard: typed(alloc, command.guard)?,
        branches,
    })
}

fn acts(alloc: Global, commands: &[Command]) -> Result<Items<Act>, AllocError> {
    let mut acts = Items::new(alloc);
    for command in commands {
        acts.push(act(alloc, command)?)?;
    }
    Ok(acts)
}

/// Variables from 0 to 3, one of each module, which start with these values.
fn variables(alloc: Global, starts: &[i64]) -> Result<Items<Var>, AllocError> {
    let mut vars = Items::new(alloc);
    let mut module = 0;
    for start in starts {
        vars.push(Var {
            name: Text::from_bytes(alloc, b"x")?,
            owner: Some(module),
            sort: Sort::Int,
            lo: 0,
            hi: 3,
            init: *start,
        })?;
        if module < 64 {
            module += 1;
        }
    }
    Ok(vars)
}

fn names(alloc: Global, modules: usize) -> Result<Items<Text>, AllocError> {
    let mut names = Items::new(alloc);
    for _ in 0..modules {
        names.push(Text::from_bytes(alloc, b"m")?)?;
    }
    Ok(names)
}

/// An action of these modules.
fn action(alloc: Global, name: &[u8], takes: &[u32]) -> Result<Action, AllocError> {
    Ok(Action {
        name: Text::from_bytes(alloc, name)?,
        takes: Items::from_slice(alloc, takes)?,
    })
}

/// Whether one of some commands has the action of a number.
fn is_used(commands: &[Command], number: u32) -> bool {
    for command in commands {
        if command.action == Some(number) {
            return true;
        }
    }
    false
}

/// The actions of commands, at most two and each of these modules.
fn actions(
    alloc: Global,
    takes: &[u32],
    commands: &[Command],
) -> Result<Items<Action>, AllocError> {
    let mut actions = Items::new(alloc);
    if is_used(commands, 0) {
        actions.push(action(alloc, b"a", takes)?)?;
    }
    if is_used(commands, 1) {
        actions.push(action(alloc, b"b", takes)?)?;
    }
    Ok(actions)
}

/// The path formula `F<=1 true`.
fn path(alloc: Global) -> Result<Path, AllocError> {
    Ok(Path {
        kind: PathKind::Finally(1),
        first: typed(alloc, Tree::Truth(true))?,
        second: typed(alloc, Tree::Truth(true))?,
    })
}

/// The job under seed 1 of a chain whose modules have a variable each that starts with these values, and of commands,
/// whose actions are of some of the modules.
pub fn job(
    alloc: Global,
    starts: &[i64],
    takes: &[u32],
    commands: &[Command],
) -> Result<Option<Job>, AllocError> {
    let vars = variables(alloc, starts)?;
    let actions = actions(alloc, takes, commands)?;
    let names = names(alloc, starts.len())?;
    let acts = acts(alloc, commands)?;
    match Chain::new(vars, actions, names, acts, Items::new(alloc)) {
        Some(chain) => Ok(Job::new(chain, path(alloc)?, 1)),
        None => Ok(None),
    }
}
