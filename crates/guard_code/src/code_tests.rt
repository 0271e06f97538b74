//! The code of a small job: two variables without a module, `x` from 1 and `y` from 2; a command without an action,
//! `x<y` with the branches `1/2: x'=x+1` and `1/2: y'=x`; and a command of each of two modules with one action, `x=y`
//! and `y=3`, that assign nothing. The path asks for `"init"` and `"deadlock"`.

use super::*;
use crate::agreement::{Gives, is_given};
use crate::fixtures::{ADD, EQ, LT, Piece, tree};
use Gives::{Number, Truth};
use Piece::{Deadlock, Init, N, Q, X};
use chain_model::{Act, Action, Arm, Chain, Job, Path, PathKind, Sort, Typed, Var};
use smc_num::Text;
use sqlite_items::Items;
use std::alloc::{AllocError, Global};
use std::test::Fail;

fn variable(alloc: Global, name: &[u8], init: i64) -> Result<Var, AllocError> {
    Ok(Var {
        name: Text::from_bytes(alloc, name)?,
        owner: None,
        sort: Sort::Int,
        lo: 0,
        hi: 5,
        init,
    })
}

/// A branch that assigns a variable, or none.
fn arm(alloc: Global, weight: Piece, set: Option<(u32, &[Piece])>) -> Result<Arm, AllocError> {
    let mut sets = Items::new(alloc);
    match set {
        Some((number, side)) => sets.push((number, tree(alloc, side)?))?,
        None => {}
    }
    Ok(Arm {
        weight: tree(alloc, &[weight])?,
        sets,
    })
}

fn free_command(alloc: Global) -> Result<Act, AllocError> {
    let mut branches = Items::new(alloc);
    branches.push(arm(alloc, Q(1, 2), Some((0, &[X(0), N(1), ADD])))?)?;
    branches.push(arm(alloc, Q(1, 2), Some((1, &[X(0)])))?)?;
    Ok(Act {
        module: 0,
        action: None,
        guard: tree(alloc, &[X(0), X(1), LT])?,
        branches,
    })
}

fn joint_command(alloc: Global, module: u32, guard: &[Piece]) -> Result<Act, AllocError> {
    let mut branches = Items::new(alloc);
    branches.push(arm(alloc, N(1), None)?)?;
    Ok(Act {
        module,
        action: Some(0),
        guard: tree(alloc, guard)?,
        branches,
    })
}

fn commands(alloc: Global) -> Result<Items<Act>, AllocError> {
    let mut commands = Items::new(alloc);
    commands.push(free_command(alloc)?)?;
    commands.push(joint_command(alloc, 0, &[X(0), X(1), EQ])?)?;
    commands.push(joint_command(alloc, 1, &[X(1), N(3), EQ])?)?;
    Ok(commands)
}

fn variables(alloc: Global) -> Result<Items<Var>, AllocError> {
    let mut vars = Items::new(alloc);
    vars.push(variable(alloc, b"x", 1)?)?;
    vars.push(variable(alloc, b"y", 2)?)?;
    Ok(vars)
}

fn actions(alloc: Global) -> Result<Items<Action>, AllocError> {
    let mut actions = Items::new(alloc);
    actions.push(Action {
        name: Text::from_bytes(alloc, b"a")?,
        takes: Items::from_slice(alloc, &[0, 1])?,
    })?;
    Ok(actions)
}

fn chain(alloc: Global) -> Result<Option<Chain>, AllocError> {
    let mut modules = Items::new(alloc);
    modules.push(Text::from_bytes(alloc, b"m")?)?;
    modules.push(Text::from_bytes(alloc, b"n")?)?;
    let vars = variables(alloc)?;
    let actions = actions(alloc)?;
    let commands = commands(alloc)?;
    Ok(Chain::new(vars, actions, modules, commands, Items::new(alloc)))
}

fn path(alloc: Global) -> Result<Path, AllocError> {
    Ok(Path {
        kind: PathKind::Until(3),
        first: tree(alloc, &[Init])?,
        second: tree(alloc, &[Deadlock])?,
    })
}

fn job(alloc: Global) -> Result<Option<Job>, AllocError> {
    let path = path(alloc)?;
    match chain(alloc)? {
        Some(chain) => Ok(Job::new(chain, path, 1)),
        None => Ok(None),
    }
}

/// The code of the job; none where the parts are no job.
fn code(alloc: Global) -> Result<Option<Code>, AllocError> {
    match job(alloc)? {
        Some(job) => Ok(Some(compile(alloc, &job)?)),
        None => Ok(None),
    }
}

/// A state, the number of an expression, and its value.
static VALUES: [([i64; 2], u32, Gives); 21] = [
    ([1, 2], 0, Truth(true)),
    ([1, 2], 1, Number(1, 2)),
    ([1, 2], 2, Number(2, 1)),
    ([1, 2], 3, Number(1, 2)),
    ([1, 2], 4, Number(1, 1)),
    ([1, 2], 5, Truth(false)),
    ([1, 2], 6, Number(1, 1)),
    ([1, 2], 7, Truth(false)),
    ([1, 2], 8, Number(1, 1)),
    ([1, 2], 9, Truth(true)),
    ([1, 2], 10, Truth(false)),
    ([2, 2], 0, Truth(false)),
    ([2, 2], 2, Number(3, 1)),
    ([2, 2], 4, Number(2, 1)),
    ([2, 2], 5, Truth(true)),
    ([2, 2], 9, Truth(false)),
    ([2, 2], 10, Truth(true)),
    ([3, 3], 5, Truth(true)),
    ([3, 3], 7, Truth(true)),
    ([3, 3], 9, Truth(false)),
    ([3, 3], 10, Truth(false)),
];

#[test]
fn a_job_has_the_values_of_the_table(rt: HostRuntime) -> Result<(), Fail> {
    let code = code(rt.alloc())?.ok_or("the parts are no job")?;
    let mut stack = Stack::new(rt.alloc(), &code)?;
    for (state, at, gives) in &VALUES {
        assert!(rt; is_given(run(&code, *at, state, &mut stack), *gives));
    }
    Ok(())
}
