//! Small jobs for the tests: one module with one variable, and commands without an action.

use chain_model::{Act, Arm, Chain, Form, Job, Op, Path, PathKind, Sort, Typed, Value, Var};
use smc_num::{Frac, Text};
use sqlite_items::Items;
use std::alloc::{AllocError, Global};

/// A small expression of the variable.
#[derive(Clone, Copy)]
pub enum Tree {
    Truth(bool),
    Number(i64),
    Half,
    /// The variable and one, added.
    Next,
    /// Whether the variable has a value.
    Is(i64),
    /// Whether the variable is below a value.
    Below(i64),
    /// Whether one over the variable is one.
    Inverse,
}

/// A command that is enabled at one value of the variable, or always: what the variable is assigned, and in the other
/// branch of two equal ones.
#[derive(Clone, Copy)]
pub struct Command {
    pub at: Tree,
    pub assigned: Tree,
    pub other: Option<Tree>,
}

/// A number over another as a literal, or `false` where that is no number.
fn number(num: i64, den: i64) -> Form {
    match Frac::new(num, den) {
        Ok(value) => Form::Lit(Value::Num(value)),
        Err(_) => Form::Lit(Value::Bool(false)),
    }
}

fn whole(n: i64) -> Typed {
    Typed {
        sort: Sort::Int,
        form: number(n, 1),
    }
}

fn variable() -> Typed {
    Typed {
        sort: Sort::Int,
        form: Form::Var(0),
    }
}

fn pair(
    alloc: Global,
    sort: Sort,
    first: Typed,
    op: Op,
    second: Typed,
) -> Result<Typed, AllocError> {
    let mut operands = Items::new(alloc);
    operands.push(first)?;
    operands.push(second)?;
    let operators = Items::from_slice(alloc, &[op])?;
    Ok(Typed {
        sort,
        form: Form::Level(operands, operators),
    })
}

fn typed(alloc: Global, tree: Tree) -> Result<Typed, AllocError> {
    match tree {
        Tree::Truth(holds) => Ok(Typed {
            sort: Sort::Bool,
            form: Form::Lit(Value::Bool(holds)),
        }),
        Tree::Number(n) => Ok(whole(n)),
        Tree::Half => Ok(Typed {
            sort: Sort::Double,
            form: number(1, 2),
        }),
        Tree::Next => pair(alloc, Sort::Int, variable(), Op::Add, whole(1)),
        Tree::Is(n) => pair(alloc, Sort::Bool, variable(), Op::Eq, whole(n)),
        Tree::Below(n) => pair(alloc, Sort::Bool, variable(), Op::Lt, whole(n)),
        Tree::Inverse => {
            let quotient = pair(alloc, Sort::Double, whole(1), Op::Div, variable())?;
            pair(alloc, Sort::Bool, quotient, Op::Eq, whole(1))
        }
    }
}

fn arm(alloc: Global, weight: Tree, assigned: Tree) -> Result<Arm, AllocError> {
    let mut sets = Items::new(alloc);
    sets.push((0, typed(alloc, assigned)?))?;
    Ok(Arm {
        weight: typed(alloc, weight)?,
        sets,
    })
}

fn act(alloc: Global, command: &Command) -> Result<Act, AllocError> {
    let mut branches = Items::new(alloc);
    match command.other {
        None => branches.push(arm(alloc, Tree::Number(1), command.assigned)?)?,
        Some(other) => {
            branches.push(arm(alloc, Tree::Half, command.assigned)?)?;
            branches.push(arm(alloc, Tree::Half, other)?)?;
        }
    }
    Ok(Act {
        module: 0,
        action: None,
        guard: typed(alloc, command.at)?,
        branches,
    })
}

/// The chain of a variable from 0 to a greatest value, which starts with a value, and of commands.
fn chain(
    alloc: Global,
    start: i64,
    greatest: i64,
    commands: &[Command],
) -> Result<Option<Chain>, AllocError> {
    let mut vars = Items::new(alloc);
    vars.push(Var {
        name: Text::from_bytes(alloc, b"x")?,
        owner: Some(0),
        sort: Sort::Int,
        lo: 0,
        hi: greatest,
        init: start,
    })?;
    let mut names = Items::new(alloc);
    names.push(Text::from_bytes(alloc, b"m")?)?;
    let mut acts = Items::new(alloc);
    for command in commands {
        acts.push(act(alloc, command)?)?;
    }
    Ok(Chain::new(vars, Items::new(alloc), names, acts, Items::new(alloc)))
}

/// A path formula over two small expressions.
fn path(alloc: Global, kind: PathKind, first: Tree, second: Tree) -> Result<Path, AllocError> {
    Ok(Path {
        kind,
        first: typed(alloc, first)?,
        second: typed(alloc, second)?,
    })
}

/// What is asked of a chain: a path formula.
pub type Question = (PathKind, Tree, Tree);

/// The job of a path formula over a chain, under seed 1.
pub fn job(
    alloc: Global,
    start: i64,
    greatest: i64,
    commands: &[Command],
    question: Question,
) -> Result<Option<Job>, AllocError> {
    let (kind, first, second) = question;
    match chain(alloc, start, greatest, commands)? {
        Some(chain) => Ok(Job::new(chain, path(alloc, kind, first, second)?, 1)),
        None => Ok(None),
    }
}
