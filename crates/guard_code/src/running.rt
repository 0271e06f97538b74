//! The values of a job's expressions, by its code.

ghost use Rattle.std.specs.Prelude.{◌≡◌, ◌<◌, length, IsOk, Some, slice_get};
ghost use Rattle.chain_model.specs.declared.job.Job.{Job};
ghost use Rattle.chain_model.specs.States.{IsState};
ghost use Rattle.chain_model.specs.Labels.{value_of};
ghost use Rattle.guard_code.specs.Wholes.{truth_of};
ghost use Rattle.guard_code.specs.Codes.{IsCode, values_of, expressions_of, formula_of};

use crate::code::Code;
use crate::evaluation::value;
use crate::fronts::truth_in;
use crate::labels::NoLabels;
use crate::state_labels::StateLabels;
use chain_model::{TraceFault, Value};
use std::alloc::{AllocError, Global};

/// What evaluation needs beside a code and a state: nothing, since nodes hold their parts and values are passed on.
#[derive(Clone, Copy, Debug)]
pub struct Stack;

impl Stack {
    /// A stack for a code. It takes no memory.
    pub fn new(_alloc: Global, _code: &Code) -> Result<Stack, AllocError>
        ensures { IsOk result }
    {
        Ok(Stack)
    }
}

/// One of the two state formulas of a path.
#[derive(Clone, Copy, Debug, PartialEq, Eq)]
pub enum Formula {
    First,
    Second,
}

/// Whether a state formula of the path holds in a state, by the job's code.
pub fn formula_holds(code: &Code, formula: Formula, state: &[i64]) -> Result<bool, TraceFault>
    ensures { (job : Job) → IsCode job code.now → IsState job.chain state.now
        → result ≡ truth_of (value_of job.chain state.now (formula_of job.path formula)) }
{
    let labels = StateLabels { code, state };
    match formula {
        Formula::First => truth_in(&labels, state, &code.first),
        Formula::Second => truth_in(&labels, state, &code.second),
    }
}

/// The value of a job's expression of a number in a state, by the job's code.
pub fn run(code: &Code, at: u32, state: &[i64], _stack: &mut Stack) -> Result<Value, TraceFault>
    ensures { (job : Job) → IsCode job code.now → IsState job.chain state.now → at < length (expressions_of job)
        → slice_get (values_of job state.now) at ≡ Some result }
{
    let number = at as usize;
    match code.nodes.get(number) {
        Some(node) => value(&NoLabels, state, node),
        None => {
            let labels = StateLabels { code, state };
            if number == code.nodes.len() {
                value(&labels, state, &code.first)
            } else {
                value(&labels, state, &code.second)
            }
        }
    }
}
