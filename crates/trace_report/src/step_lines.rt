ghost use Rattle.std.specs.Prelude.{◌≡◌, ◌++◌, ◌+◌, ◌<◌, ◌≤◌, ◌^◌, IfOk, IfSome, OnOk};
ghost use Rattle.trace_streams.specs.Draws.{draw_at};
ghost use Rattle.chain_model.specs.Step.{step_of};
ghost use Rattle.trace_report.specs.Lines.{fault_line, draws_line};
ghost use Rattle.trace_report.specs.Report.{step_line, lines_from, IsNext};

use crate::choice_lines::append_choices;
use crate::numbers::append_number;
use crate::state_line::append_state;
use crate::taken_line::append_taken;
use chain_model::{Chain, TraceFault, steps_draw_few};
use smc_report::cause;
use std::alloc::{AllocError, Global};
use trace_meaning::{StepFault, plain_step};
use trace_streams::Draws;

/// Appends the lines of a state and of the step from it, and gives the next state where the step doesn't fault.
#[tactic(auto, unfolding(crate::specs::Report::lines_from))]
pub(crate) fn append_lines(
    alloc: Global,
    text: &mut Vec<u8>,
    chain: &Chain,
    number: u32,
    state: &[i64],
    draws: &mut Draws,
) -> Result<Option<Vec<i64>>, AllocError>
    requires place { draws.old.place + 65 ≤ 2 ^ 62 }
    requires number { number + 1 < 2 ^ 32 }
    ensures text { OnOk result (text.new.items ≡ text.old.items ++ lines_from chain.now
        (draw_at draws.old.seed draws.old.trace) number (record { state = state.now; position = draws.old.place })) }
    ensures next { IfOk result (λ next. IsNext next draws.old.place draws.new.place (step_of chain.now
        (draw_at draws.old.seed draws.old.trace) (record { state = state.now; position = draws.old.place }))) }
    ensures near { OnOk result (draws.new.place ≤ draws.old.place + 65) }
    ensures stream { draws.new ≡ record draws.old { place = draws.new.place } }
{
    append_state(text, chain, number, state)?;
    append_choices(alloc, text, chain, state)?;
    append_step(alloc, text, chain, number + 1, state, draws)
}

/// Appends the line of a step, and gives the next state where the step doesn't fault.
fn append_step(
    alloc: Global,
    text: &mut Vec<u8>,
    chain: &Chain,
    number: u32,
    state: &[i64],
    draws: &mut Draws,
) -> Result<Option<Vec<i64>>, AllocError>
    requires { draws.old.place + 65 ≤ 2 ^ 62 }
    ensures text { OnOk result (text.new.items ≡ text.old.items ++ step_line chain.now number (step_of chain.now
        (draw_at draws.old.seed draws.old.trace) (record { state = state.now; position = draws.old.place }))) }
    ensures next { IfOk result (λ next. IsNext next draws.old.place draws.new.place (step_of chain.now
        (draw_at draws.old.seed draws.old.trace) (record { state = state.now; position = draws.old.place }))) }
    ensures near { OnOk result (draws.new.place ≤ draws.old.place + 65) }
    ensures stream { draws.new ≡ record draws.old { place = draws.new.place } }
{
    steps_draw_few();
    match plain_step(alloc, chain, state, draws) {
        Ok((next, taken)) => {
            append_taken(text, chain, &taken)?;
            Ok(Some(next))
        }
        Err(StepFault::Trace(fault)) => {
            append_fault(alloc, text, chain, number, fault)?;
            Ok(None)
        }
        Err(StepFault::OutOfMemory(error)) => Err(error),
    }
}

/// Appends the line of the fault in making the state of a number.
#[tactic(auto, unfolding(crate::specs::Lines::fault_line))]
fn append_fault(
    alloc: Global,
    text: &mut Vec<u8>,
    chain: &Chain,
    number: u32,
    fault: TraceFault,
) -> Result<(), AllocError>
    ensures { OnOk result (text.new.items ≡ text.old.items ++ fault_line chain.now number fault) }
{
    let cause = cause(alloc, chain, &fault)?;
    text.extend_from_slice(b"fault at step ")?;
    append_number(text, u64::from(number))?;
    text.extend_from_slice(b": ")?;
    text.extend_from_slice(cause.as_slice())?;
    text.extend_from_slice(b"\n")
}

/// Appends the line of the place in the stream.
#[tactic(auto, unfolding(crate::specs::Lines::draws_line))]
pub(crate) fn append_draws(text: &mut Vec<u8>, place: u64) -> Result<(), AllocError>
    ensures { OnOk result (text.new.items ≡ text.old.items ++ draws_line place) }
{
    text.extend_from_slice(b"draws: ")?;
    append_number(text, place)?;
    text.extend_from_slice(b"\n")
}
