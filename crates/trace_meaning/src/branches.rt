//! The branches that the commands of a choice take.

ghost use Rattle.std.specs.Prelude.{◌≡◌, ◌+◌, ◌<◌, ◌≤◌, ◌^◌, All, length, map, sum, OnOk, OnErr};
ghost use Rattle.trace_streams.specs.Draws.{draw_at};
ghost use Rattle.chain_model.specs.Step.{arms_of, branch_number, branch_of, branches_of, command_draws, denominator_of, draws_for};
ghost use Rattle.trace_meaning.specs.Gives.{Gives};
ghost use Rattle.trace_meaning.specs.Weights.{IsWeight};

use crate::fault::StepFault;
use crate::weights::{add_up, denominator, index_above, weights};
use chain_model::{Arm, Chain, TraceFault};
use smc_num::Frac;
use sqlite_items::Items;
use std::alloc::Global;
use trace_streams::{Draws, pick};

/// The branches of the command of a number.
pub fn arms_of(chain: &Chain, command: u32) -> &[Arm]
    ensures { result.now ≡ arms_of chain.now command }
{
    match chain.commands.get(command as usize) {
        Some(act) => act.branches.as_slice(),
        None => &[],
    }
}

/// The branch that is taken of those with these weights: of several by a draw.
pub fn drawn_branch(weights: &[Frac], den: u64, draws: &mut Draws) -> usize
    requires weights { All IsWeight weights.now }
    requires common { den ≡ denominator_of weights.now }
    requires some { 0 < den }
    requires few { den ≤ 2 ^ 48 }
    requires place { draws.old.place < 2 ^ 62 }
    ensures value { result ≡ branch_number (draw_at draws.old.seed draws.old.trace) draws.old.place weights.now }
    ensures within { result ≤ length weights.now }
    ensures moves { draws.new ≡ record draws.old { place = draws.old.place + draws_for (length weights.now) } }
{
    if 2 <= weights.len() {
        index_above(weights, den, pick(draws.next(), den))
    } else {
        0
    }
}

/// The branch that a command takes: of several by a draw, after its weights were read.
pub fn branch(
    alloc: Global,
    chain: &Chain,
    state: &[i64],
    command: u32,
    draws: &mut Draws,
) -> Result<u32, StepFault>
    requires { draws.old.place < 2 ^ 62 }
    ensures value { Gives result (branch_of chain.now (draw_at draws.old.seed draws.old.trace) state.now draws.old.place command) }
    ensures moves { OnOk result (draws.new ≡ record draws.old { place = draws.old.place + command_draws chain.now command }) }
    ensures stays { OnErr result (draws.new ≡ draws.old) }
{
    let weights = match weights(alloc, state, command, arms_of(chain, command)) {
        Ok(weights) => weights,
        Err(fault) => return Err(fault),
    };
    let den = match denominator(weights.as_slice()) {
        Some(den) => den,
        None => return Err(StepFault::Trace(TraceFault::Denominator { command })),
    };
    if !add_up(weights.as_slice(), den) {
        return Err(StepFault::Trace(TraceFault::Weights { command }));
    }
    Ok(drawn_branch(weights.as_slice(), den, draws) as u32)
}

/// The branches that commands take, in their order.
pub fn branches(
    alloc: Global,
    chain: &Chain,
    state: &[i64],
    commands: &[u32],
    draws: &mut Draws,
) -> Result<Items<u32>, StepFault>
    requires { draws.old.place + length commands.now ≤ 2 ^ 62 }
    ensures value { Gives result (branches_of chain.now (draw_at draws.old.seed draws.old.trace) state.now draws.old.place commands.now) }
    ensures moves { OnOk result (draws.new.place ≡ draws.old.place + sum (map (command_draws chain.now) commands.now)) }
    ensures forward { draws.old.place ≤ draws.new.place }
    ensures stream { draws.new ≡ record draws.old { place = draws.new.place } }
{
    let mut branches = Items::new(alloc);
    for command in commands {
        let branch = match branch(alloc, chain, state, *command, draws) {
            Ok(branch) => branch,
            Err(fault) => return Err(fault),
        };
        match branches.push(branch) {
            Ok(()) => {}
            Err(error) => return Err(StepFault::OutOfMemory(error)),
        }
    }
    Ok(branches)
}
