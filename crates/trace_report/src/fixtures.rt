//! Small chains for the tests.

use chain_model::{Act, Action, Arm, Chain, Form, Op, Sort, Typed, Value, Var};
use smc_num::{Frac, Text};
use sqlite_items::Items;
use std::alloc::{AllocError, Global};

/// A guard.
#[derive(Clone, Copy)]
pub enum Guard {
    True,
    /// Whether a variable has a value.
    Is(u32, i64),
    /// Whether one over zero is one.
    Faults,
}

/// What a branch assigns to a variable.
#[derive(Clone, Copy)]
pub enum Set {
    Nothing,
    /// A whole number.
    Number(u32, i64),
    /// One less its own value.
    Opposite(u32),
    /// One more than its own value.
    OneMore(u32),
    True(u32),
}

/// A command of one sure branch, or of two with equal weights.
#[derive(Clone, Copy)]
pub struct Command {
    pub module: u32,
    pub action: Option<u32>,
    pub guard: Guard,
    pub first: Set,
    pub second: Option<Set>,
}

/// A variable: its name, its module, its sort and its greatest value. It goes from 0 on, and starts there.
pub type Variable = (&'static str, u32, Sort, i64);

/// A number over another as a literal, or `false` where that is no number.
fn number(sort: Sort, num: i64, den: i64) -> Typed {
    let form = match Frac::new(num, den) {
        Ok(value) => Form::Lit(Value::Num(value)),
        Err(_) => Form::Lit(Value::Bool(false)),
    };
    Typed { sort, form }
}

fn truth(holds: bool) -> Typed {
    Typed {
        sort: Sort::Bool,
        form: Form::Lit(Value::Bool(holds)),
    }
}

fn variable(number: u32) -> Typed {
    Typed {
        sort: Sort::Int,
        form: Form::Var(number),
    }
}

fn pair(
    alloc: Global,
    sort: Sort,
    first: Typed,
    op: Op,
    second: Typed,
) -> Result<Typed, AllocError> {
    let mut operands = Items::new(alloc);
    operands.push(first)?;
    operands.push(second)?;
    let operators = Items::from_slice(alloc, &[op])?;
    Ok(Typed {
        sort,
        form: Form::Level(operands, operators),
    })
}

fn whole(n: i64) -> Typed {
    number(Sort::Int, n, 1)
}

fn condition(alloc: Global, guard: Guard) -> Result<Typed, AllocError> {
    match guard {
        Guard::True => Ok(truth(true)),
        Guard::Is(var, n) => pair(alloc, Sort::Bool, variable(var), Op::Eq, whole(n)),
        Guard::Faults => {
            let quotient = pair(alloc, Sort::Double, whole(1), Op::Div, whole(0))?;
            pair(alloc, Sort::Bool, quotient, Op::Eq, whole(1))
        }
    }
}

fn assigned(alloc: Global, set: Set) -> Result<Option<(u32, Typed)>, AllocError> {
    match set {
        Set::Nothing => Ok(None),
        Set::Number(var, n) => Ok(Some((var, whole(n)))),
        Set::Opposite(var) => {
            let right = pair(alloc, Sort::Int, whole(1), Op::Sub, variable(var))?;
            Ok(Some((var, right)))
        }
        Set::OneMore(var) => {
            let right = pair(alloc, Sort::Int, variable(var), Op::Add, whole(1))?;
            Ok(Some((var, right)))
        }
        Set::True(var) => Ok(Some((var, truth(true)))),
    }
}

fn arm(alloc: Global, parts: i64, set: Set) -> Result<Arm, AllocError> {
    let mut sets = Items::new(alloc);
    if let Some(one) = assigned(alloc, set)? {
        sets.push(one)?;
    }
    Ok(Arm {
        weight: number(Sort::Double, 1, parts),
        sets,
    })
}

fn arms(alloc: Global, first: Set, second: Option<Set>) -> Result<Items<Arm>, AllocError> {
    let mut arms = Items::new(alloc);
    match second {
        None => arms.push(arm(alloc, 1, first)?)?,
        Some(second) => {
            arms.push(arm(alloc, 2, first)?)?;
            arms.push(arm(alloc, 2, second)?)?;
        }
    }
    Ok(arms)
}

/// The commands, all together so many times.
fn acts(alloc: Global, commands: &[Command], times: u32) -> Result<Items<Act>, AllocError> {
    let mut acts = Items::new(alloc);
    for _ in 0..times {
        for command in commands {
            acts.push(Act {
                module: command.module,
                action: command.action,
                guard: condition(alloc, command.guard)?,
                branches: arms(alloc, command.first, command.second)?,
            })?;
        }
    }
    Ok(acts)
}

fn variables(alloc: Global, variables: &[Variable]) -> Result<Items<Var>, AllocError> {
    let mut vars = Items::new(alloc);
    for (name, module, sort, hi) in variables {
        vars.push(Var {
            name: Text::from_bytes(alloc, name.as_bytes())?,
            owner: Some(*module),
            sort: *sort,
            lo: 0,
            hi: *hi,
            init: 0,
        })?;
    }
    Ok(vars)
}

fn modules(alloc: Global, count: u32) -> Result<Items<Text>, AllocError> {
    let mut names = Items::new(alloc);
    for _ in 0..count {
        names.push(Text::from_bytes(alloc, b"m")?)?;
    }
    Ok(names)
}

/// The action `a` of these modules, or none where there are none.
fn actions(alloc: Global, takes: &[u32]) -> Result<Items<Action>, AllocError> {
    let mut actions = Items::new(alloc);
    if !takes.is_empty() {
        actions.push(Action {
            name: Text::from_bytes(alloc, b"a")?,
            takes: Items::from_slice(alloc, takes)?,
        })?;
    }
    Ok(actions)
}

/// The chain of so many modules with these variables, of an action of some modules, and of commands, all together so
/// many times.
pub fn chain(
    alloc: Global,
    vars: &[Variable],
    count: u32,
    takes: &[u32],
    commands: &[Command],
    times: u32,
) -> Result<Option<Chain>, AllocError> {
    let vars = variables(alloc, vars)?;
    let actions = actions(alloc, takes)?;
    let names = modules(alloc, count)?;
    let acts = acts(alloc, commands, times)?;
    Ok(Chain::new(vars, actions, names, acts, Items::new(alloc)))
}
