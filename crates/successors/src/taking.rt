//! The branches that the commands of a choice take, and what they assign.

ghost use Rattle.std.specs.Prelude.{◌≡◌, ◌+◌, ◌<◌, ◌≤◌, ◌^◌, MatchResult, OnOk, OnErr, Ok, Err, length, map, sum, take};
ghost use Rattle.trace_streams.specs.Draws.{draw_at};
ghost use Rattle.chain_model.specs.Step.{all_sets, branch_of, branches_of, command_draws, sets_of};
ghost use Rattle.guard_code.specs.Tests.{IsSmall};
ghost use Rattle.trace_meaning.specs.Assigning.{assigned_to, Writes};
ghost use Rattle.successors.specs.Sides.{AreSides};
ghost use Rattle.successors.specs.Commands.{AreCommands};

use crate::commands::Command;
use crate::sides::{Side, assign};
use crate::weighing::branch;
use chain_model::{Chain, TraceFault};
use smc_num::Frac;
use sqlite_items::at;
use trace_streams::Draws;

/// The branch that the command of a number takes.
#[inline(always)]
fn branch_taken(
    chain: &Chain,
    commands: &[Command],
    command: u32,
    state: &[i64],
    weights: &mut [Frac],
    draws: &mut Draws,
) -> Result<usize, TraceFault>
    requires commands { AreCommands chain.now commands.now }
    requires small { IsSmall state.now }
    requires room { 64 ≤ length weights.old }
    requires place { draws.old.place < 2 ^ 62 }
    ensures value { result
        ≡ branch_of chain.now (draw_at draws.old.seed draws.old.trace) state.now draws.old.place command }
    ensures moves { OnOk result
        (draws.new ≡ record draws.old { place = draws.old.place + command_draws chain.now command }) }
    ensures stays { OnErr result (draws.new ≡ draws.old) }
{
    match at(commands, command as usize) {
        Some(code) => branch(chain, command, &code.weights, state, weights, draws),
        None => Err(TraceFault::Weights { command }),
    }
}

/// Writes the branches that commands take, in their order.
#[inline(always)]
pub fn write_branches(
    chain: &Chain,
    commands: &[Command],
    chosen: &[u32],
    state: &[i64],
    branches: &mut [usize],
    weights: &mut [Frac],
    draws: &mut Draws,
) -> Result<(), TraceFault>
    requires commands { AreCommands chain.now commands.now }
    requires small { IsSmall state.now }
    requires long { length chosen.now ≤ length branches.old }
    requires room { 64 ≤ length weights.old }
    requires place { draws.old.place + length chosen.now ≤ 2 ^ 62 }
    ensures value { MatchResult result
        (λ done. branches_of chain.now (draw_at draws.old.seed draws.old.trace) state.now draws.old.place chosen.now
        ≡ Ok (take (length chosen.now) branches.new))
        (λ fault. branches_of chain.now (draw_at draws.old.seed draws.old.trace) state.now draws.old.place chosen.now
        ≡ Err fault) }
    ensures moves { OnOk result (draws.new.place ≡ draws.old.place + sum (map (command_draws chain.now) chosen.now)) }
    ensures forward { draws.old.place ≤ draws.new.place }
    ensures stream { draws.new ≡ record draws.old { place = draws.new.place } }
{
    for (index, command) in chosen.iter().enumerate() {
        match branch_taken(chain, commands, *command, state, weights, draws) {
            Ok(branch) => branches[index] = branch,
            Err(fault) => return Err(fault),
        }
    }
    Ok(())
}

/// The right sides of a command's branch.
#[inline(always)]
pub fn sides_taken<'a>(
    chain: &Chain,
    commands: &'a [Command],
    command: u32,
    branch: usize,
) -> &'a [Side]
    requires { AreCommands chain.now commands.now }
    ensures { AreSides chain.now (sets_of chain.now command branch) result.now }
{
    match commands.get(command as usize) {
        Some(code) => match code.arms.get(branch) {
            Some(sides) => sides.as_slice(),
            None => &[],
        },
        None => &[],
    }
}

/// Makes the assignments of the commands' branches in a copy of the old state.
pub fn assign_all(
    chain: &Chain,
    commands: &[Command],
    chosen: &[u32],
    branches: &[usize],
    state: &[i64],
    copy: &mut [i64],
) -> Result<(), TraceFault>
    requires commands { AreCommands chain.now commands.now }
    requires small { IsSmall state.now }
    requires long { length branches.now ≡ length chosen.now }
    ensures { Writes result copy.new
        (assigned_to chain.now state.now copy.old (all_sets chain.now chosen.now branches.now)) }
{
    for (index, command) in chosen.iter().enumerate() {
        let sides = sides_taken(chain, commands, *command, branches[index]);
        match assign(sides, state, copy) {
            Ok(()) => {}
            Err(fault) => return Err(fault),
        }
    }
    Ok(())
}
