ghost use Rattle.std.specs.Prelude.{◌≡◌, ◌↔◌, IfOk, IsErr};
ghost use Rattle.trace_streams.specs.Draws.{draw_at};
ghost use Rattle.trace_report.specs.States.{configuration_after};
ghost use Rattle.trace_report.specs.Report.{trace_text};

use crate::ended::Ended;
use crate::state_line::append_state;
use crate::step_lines::{append_draws, append_lines};
use chain_model::{Chain, initial};
use std::alloc::{AllocError, Global};
use trace_streams::Draws;

/// The report of a trace of a chain: so many steps of the trace of this index under this seed, or those up to its first
/// fault.
pub fn trace_report(
    alloc: Global,
    chain: &Chain,
    seed: u64,
    index: u64,
    steps: u32,
) -> Result<(Vec<u8>, Ended), AllocError>
    ensures text { IfOk result (λ told. told.0.items ≡ trace_text chain.now (draw_at seed index) steps) }
    ensures ended { IfOk result (λ told. (told.1 ≡ Ended.Fault)
        ↔ IsErr (configuration_after chain.now (draw_at seed index) steps)) }
{
    let mut text = Vec::new(alloc);
    let mut state = initial(alloc, chain)?;
    let mut draws = Draws::new(seed, index);
    for number in 0..steps {
        match append_lines(
            alloc,
            &mut text,
            chain,
            number,
            state.as_slice(),
            &mut draws,
        )? {
            Some(next) => state = next,
            None => {
                append_draws(&mut text, draws.place())?;
                return Ok((text, Ended::Fault));
            }
        }
    }
    append_state(&mut text, chain, steps, state.as_slice())?;
    append_draws(&mut text, draws.place())?;
    Ok((text, Ended::Whole))
}
