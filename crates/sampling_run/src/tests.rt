//! Runs over a coin, worked out by hand. Under seed 1 the first draw of each trace picks, of two parts, the first in the
//! traces 0, 1, 2, 4, 5, 6, 7 and 9, and the second in the traces 3 and 8, by the published ChaCha8 stream.

use super::*;
use chain_model::{
    Act, Arm, Chain, Form, Job, Op, Path, PathKind, Sort, TraceFault, Typed, Value, Var,
};
use sampling_plan::Plan;
use smc_num::{Frac, Text};
use sqlite_items::Items;
use std::alloc::{AllocError, Global};
use std::test::Fail;
use stop_rules::{Cause, End, Goal, Rule};

/// A number over another as a literal, or `false` where that is no number.
fn number(sort: Sort, num: i64, den: i64) -> Typed {
    let form = match Frac::new(num, den) {
        Ok(value) => Form::Lit(Value::Num(value)),
        Err(_) => Form::Lit(Value::Bool(false)),
    };
    Typed { sort, form }
}

fn truth() -> Typed {
    Typed {
        sort: Sort::Bool,
        form: Form::Lit(Value::Bool(true)),
    }
}

/// Whether the variable is one.
fn is_one(alloc: Global) -> Result<Typed, AllocError> {
    let mut operands = Items::new(alloc);
    operands.push(Typed {
        sort: Sort::Int,
        form: Form::Var(0),
    })?;
    operands.push(number(Sort::Int, 1, 1))?;
    Ok(Typed {
        sort: Sort::Bool,
        form: Form::Level(operands, Items::from_slice(alloc, &[Op::Eq])?),
    })
}

/// A branch of weight one half that assigns this value.
fn half(alloc: Global, value: i64) -> Result<Arm, AllocError> {
    let mut sets = Items::new(alloc);
    sets.push((0, number(Sort::Int, value, 1)))?;
    Ok(Arm {
        weight: number(Sort::Double, 1, 2),
        sets,
    })
}

fn vars(alloc: Global) -> Result<Items<Var>, AllocError> {
    let mut vars = Items::new(alloc);
    vars.push(Var {
        name: Text::from_bytes(alloc, b"x")?,
        owner: Some(0),
        sort: Sort::Int,
        lo: 0,
        hi: 3,
        init: 0,
    })?;
    Ok(vars)
}

/// The command that assigns 1 or another value.
fn acts(alloc: Global, other: i64) -> Result<Items<Act>, AllocError> {
    let mut branches = Items::new(alloc);
    branches.push(half(alloc, 1)?)?;
    branches.push(half(alloc, other)?)?;
    let mut acts = Items::new(alloc);
    acts.push(Act {
        module: 0,
        action: None,
        guard: truth(),
        branches,
    })?;
    Ok(acts)
}

/// The job `F<=1 x=1` under seed 1, where `x` becomes 1 or another value.
fn coin(alloc: Global, other: i64) -> Result<Option<Job>, AllocError> {
    let mut names = Items::new(alloc);
    names.push(Text::from_bytes(alloc, b"m")?)?;
    let path = Path {
        kind: PathKind::Finally(1),
        first: truth(),
        second: is_one(alloc)?,
    };
    let vars = vars(alloc)?;
    let acts = acts(alloc, other)?;
    match Chain::new(vars, Items::new(alloc), names, acts, Items::new(alloc)) {
        Some(chain) => Ok(Job::new(chain, path, 1)),
        None => Ok(None),
    }
}

/// The other value, the limit, whether a trace succeeds where it is false, and then the end and the fault.
type Row = (i64, u64, bool, End, Option<(u32, TraceFault)>);

static RUNS: [Row; 4] = [
    (
        2,
        1_000_000,
        false,
        End {
            cause: Cause::Accept,
            d: 8,
            f: 2,
        },
        None,
    ),
    (
        2,
        1_000_000,
        true,
        End {
            cause: Cause::Reject,
            d: 0,
            f: 3,
        },
        None,
    ),
    (
        2,
        5,
        false,
        End {
            cause: Cause::Limit,
            d: 4,
            f: 1,
        },
        None,
    ),
    (
        4,
        1_000_000,
        false,
        End {
            cause: Cause::Fault,
            d: 3,
            f: 0,
        },
        Some((1, TraceFault::Range { var: 0 })),
    ),
];

/// The goal of a plan of 10 traces that accepts 8 successes.
fn goal(limit: u64, flip: bool) -> Option<Goal> {
    match Plan::new(10, 7) {
        Ok(plan) => if 1 <= limit && limit <= 1_000_000 {
            Some(Goal {
                rule: Rule::Plan(plan),
                limit,
                flip,
            })
        } else {
            None
        },
        Err(_) => None,
    }
}

/// Whether the run of a job ends as a row says.
fn ends(alloc: Global, job: &Job, row: &Row) -> bool {
    let Some(goal) = goal(row.1, row.2) else {
        return false;
    };
    match draw(alloc, job, goal, Vec::new(alloc)) {
        Ok(drawn) => drawn.end == row.3 && drawn.fault == row.4 && drawn.lines.is_empty(),
        Err(_) => false,
    }
}

/// Whether the run of a coin ends as its row says.
fn is_run(alloc: Global, row: &Row) -> Result<bool, AllocError> {
    match coin(alloc, row.0)? {
        Some(job) => Ok(ends(alloc, &job, row)),
        None => Ok(false),
    }
}

#[test]
fn a_run_ends_with_the_trace_that_decides(rt: HostRuntime) -> Result<(), Fail> {
    for row in &RUNS {
        assert!(rt; is_run(rt.alloc(), row)?);
    }
    Ok(())
}
