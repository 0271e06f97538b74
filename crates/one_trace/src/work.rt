//! The memory that drawing traces takes.

ghost use Rattle.std.specs.Prelude.{◌≡◌, Some, IfOk, IfSome, List, slice_get};
ghost use Rattle.chain_model.specs.declared.job.Job.{Job};
ghost use Rattle.chain_model.specs.States.{State, IsState, initial_of};
ghost use Rattle.guard_code.specs.Codes.{IsCode};
ghost use Rattle.successors.specs.Steppers.{IsStepperOf};
ghost use Rattle.one_trace.specs.Known.{IsKnown};
ghost use Rattle.one_trace.specs.Kept.{AreKept};
ghost use Rattle.one_trace.specs.Work.{IsMadeFor};

use crate::kept::KeptChoices;
use crate::known::Known;
use chain_model::{Chain, Job, initial};
use guard_code::{Code, compile};
use std::alloc::{AllocError, Global};
use successors::Stepper;

/// For how many commands of one state's choices there is room.
const MOST_CHOSEN: usize = 1_024;

/// The memory for drawing traces of a job, taken once and used for one trace after another.
#[derive(Debug, Drop)]
pub struct TraceWork {
    pub(crate) code: Code,
    pub(crate) stepper: Stepper,
    pub(crate) known: Known,
    pub(crate) kept: KeptChoices,
    pub(crate) initial: Vec<i64>,
    pub(crate) start: Option<u32>,
    pub(crate) state: Vec<i64>,
    pub(crate) first: Vec<i64>,
    pub(crate) second: Vec<i64>,
    pub(crate) chosen: Vec<u32>,
}

/// What is known before the first trace: nothing but the number of the initial state.
fn known_at_first(alloc: Global, state: &[i64]) -> Result<(Known, Option<u32>), AllocError>
    ensures known { IfOk result (λ made. (job : Job) → IsState job.chain state.now → IsKnown job made.0) }
    ensures start { IfOk result (λ made. IfSome made.1 (λ number. slice_get made.0.table.states number ≡ Some state.now)) }
{
    let mut known = Known::new(alloc, state.len())?;
    let start = known.number_of(state);
    Ok((known, start))
}

/// The compiled formulas and steps of a job.
fn compiled(alloc: Global, job: &Job) -> Result<(Code, Stepper), AllocError>
    ensures code { IfOk result (λ made. IsCode job.now made.0) }
    ensures stepper { IfOk result (λ made. IsStepperOf job.now made.1) }
{
    let code = compile(alloc, job)?;
    let stepper = Stepper::new(alloc, job)?;
    Ok((code, stepper))
}

/// The initial state, twice.
fn initial_states(alloc: Global, chain: &Chain) -> Result<(Vec<i64>, Vec<i64>), AllocError>
    ensures first { IfOk result (λ made. made.0.items ≡ initial_of chain.now) }
    ensures state { IfOk result (λ made. IsState chain.now made.0.items) }
    ensures second { IfOk result (λ made. made.1.items ≡ initial_of chain.now) }
{
    let first = initial(alloc, chain)?;
    let second = initial(alloc, chain)?;
    Ok((first, second))
}

/// What is known of choices before the first trace, which is nothing, and room for the commands of a state's choices.
fn choices_at_first(alloc: Global, states: usize) -> Result<(KeptChoices, Vec<u32>), AllocError>
    ensures { IfOk result (λ made. (job : Job) (known : List State) → AreKept job known made.0) }
{
    let kept = KeptChoices::new(alloc, states)?;
    let chosen = vec![in alloc; 0; MOST_CHOSEN]?;
    Ok((kept, chosen))
}

/// What is known before the first trace of states and of their choices, with the number of the initial state, and room for
/// the commands of a state's choices.
fn memory_at_first(
    alloc: Global,
    state: &[i64],
) -> Result<(Known, Option<u32>, KeptChoices, Vec<u32>), AllocError>
    ensures known { IfOk result (λ made. (job : Job) → IsState job.chain state.now → IsKnown job made.0) }
    ensures start { IfOk result (λ made. IfSome made.1 (λ number. slice_get made.0.table.states number ≡ Some state.now)) }
    ensures kept { IfOk result (λ made. (job : Job) (known : List State) → AreKept job known made.2) }
{
    let (known, start) = known_at_first(alloc, state)?;
    let (kept, chosen) = choices_at_first(alloc, known.table.room())?;
    Ok((known, start, kept, chosen))
}

impl TraceWork {
    /// Takes the memory for the traces of a job.
    pub fn new(alloc: Global, job: &Job) -> Result<TraceWork, AllocError>
        ensures { IfOk result (λ work. IsMadeFor job.now work) }
    {
        let (code, stepper) = compiled(alloc, job)?;
        let (initial, state) = initial_states(alloc, &job.chain)?;
        let (first, second) = initial_states(alloc, &job.chain)?;
        let (known, start, kept, chosen) = memory_at_first(alloc, &initial)?;
        Ok(TraceWork {
            code,
            stepper,
            known,
            kept,
            initial,
            start,
            state,
            first,
            second,
            chosen,
        })
    }
}
