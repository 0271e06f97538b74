//! The next states of a state, where one draw at most tells them apart.

ghost use Rattle.std.specs.Prelude.{◌≡◌, ℕ, ◌≤◌, ◌∷◌, List, OnOk, Ok, length};
ghost use Rattle.chain_model.specs.States.{IsState};
ghost use Rattle.chain_model.specs.Step.{sets_of};
ghost use Rattle.guard_code.specs.Tests.{IsSmall};
ghost use Rattle.trace_meaning.specs.Assigning.{assigned_to, Writes};
ghost use Rattle.successors.specs.Enabled.{AreGuards};
ghost use Rattle.successors.specs.Commands.{AreCommands};
ghost use Rattle.successors.specs.Steppers.{IsPlan, IsRoom};
ghost use Rattle.successors.specs.Choosing.{IsOnlyChoice};
ghost use Rattle.successors.specs.Branching.{IsSure, IsByDraw, IsLed};
ghost use Rattle.successors.specs.Nexts.{IsNext};

use crate::branching::{Branching, branching_of};
use crate::choosing::{Choices, choices_by};
use crate::commands::Command;
use crate::next::Next;
use crate::plan::{Plan, Room};
use crate::sides::assign;
use crate::taking::sides_taken;
use chain_model::{Chain, TraceFault};
use smc_num::Frac;

/// Makes the assignments of a command's branch in a copy of the old state.
fn assign_branch(
    chain: &Chain,
    commands: &[Command],
    command: u32,
    branch: usize,
    state: &[i64],
    copy: &mut [i64],
) -> Result<(), TraceFault>
    requires commands { AreCommands chain.now commands.now }
    requires small { IsSmall state.now }
    ensures { Writes result copy.new (assigned_to chain.now state.now copy.old (sets_of chain.now command branch)) }
{
    let sides = sides_taken(chain, commands, command, branch);
    match assign(sides, state, copy) {
        Ok(()) => Ok(()),
        Err(fault) => Err(fault),
    }
}

/// Makes the assignments of a branch of a command in a first copy of the old state, and those of another in a second.
fn assign_both(
    chain: &Chain,
    commands: &[Command],
    command: u32,
    branches: (usize, usize),
    state: &[i64],
    first: &mut [i64],
    second: &mut [i64],
) -> Result<(), TraceFault>
    requires commands { AreCommands chain.now commands.now }
    requires small { IsSmall state.now }
    ensures first { OnOk result
        (assigned_to chain.now state.now first.old (sets_of chain.now command branches.0) ≡ Ok first.new) }
    ensures second { OnOk result
        (assigned_to chain.now state.now second.old (sets_of chain.now command branches.1) ≡ Ok second.new) }
{
    match assign_branch(chain, commands, command, branches.0, state, first) {
        Ok(()) => {}
        Err(fault) => return Err(fault),
    }
    match assign_branch(chain, commands, command, branches.1, state, second) {
        Ok(()) => Ok(()),
        Err(fault) => Err(fault),
    }
}

/// What is told of the copies after one command more that takes its first branch, and draws nothing.
fn lead_surely(
    chain: &Chain,
    commands: &[Command],
    command: u32,
    told: Next,
    state: &[i64],
    first: &mut [i64],
    second: &mut [i64],
) -> Next
    requires commands { AreCommands chain.now commands.now }
    requires small { IsSmall state.now }
    requires sure { IsSure chain.now state.now command }
    ensures { (all left : List ℕ) → IsLed chain.now state.now all (command ∷ left) told first.old second.old
        → IsLed chain.now state.now all left result first.new second.new }
{
    match assign_both(chain, commands, command, (0, 0), state, first, second) {
        Ok(()) => told,
        Err(_) => Next::Untold,
    }
}

/// What is told of the copies after one command more whose branch a draw decides, where nothing was drawn before.
fn lead_by_draw(
    chain: &Chain,
    commands: &[Command],
    command: u32,
    threshold: u64,
    branches: (usize, usize),
    state: &[i64],
    first: &mut [i64],
    second: &mut [i64],
) -> Next
    requires commands { AreCommands chain.now commands.now }
    requires small { IsSmall state.now }
    requires draw { IsByDraw chain.now state.now command threshold branches.0 branches.1 }
    ensures { (all left : List ℕ) → IsLed chain.now state.now all (command ∷ left) Next.One first.old second.old
        → IsLed chain.now state.now all left result first.new second.new }
{
    match assign_both(chain, commands, command, branches, state, first, second) {
        Ok(()) => Next::Drawn(threshold),
        Err(_) => Next::Untold,
    }
}

/// What is told of the copies after one command more.
fn lead_on(
    chain: &Chain,
    commands: &[Command],
    command: u32,
    told: Next,
    state: &[i64],
    weights: &mut [Frac],
    first: &mut [i64],
    second: &mut [i64],
) -> Next
    requires commands { AreCommands chain.now commands.now }
    requires small { IsSmall state.now }
    requires room { 64 ≤ length weights.old }
    ensures { (all left : List ℕ) → IsLed chain.now state.now all (command ∷ left) told first.old second.old
        → IsLed chain.now state.now all left result first.new second.new }
{
    match branching_of(chain, commands, command, state, weights) {
        Branching::Sure => lead_surely(chain, commands, command, told, state, first, second),
        Branching::ByDraw {
            threshold,
            below,
            above,
        } => match told {
            Next::One => lead_by_draw(
                chain,
                commands,
                command,
                threshold,
                (below, above),
                state,
                first,
                second,
            ),
            Next::Stays | Next::Drawn(_) | Next::Untold => Next::Untold,
        },
        Branching::Untold => Next::Untold,
    }
}

/// The next states of a state whose one choice these commands are.
fn lead(
    chain: &Chain,
    commands: &[Command],
    chosen: &[u32],
    state: &[i64],
    weights: &mut [Frac],
    first: &mut [i64],
    second: &mut [i64],
) -> Next
    requires commands { AreCommands chain.now commands.now }
    requires state { IsState chain.now state.now }
    requires only { IsOnlyChoice chain.now state.now chosen.now }
    requires room { 64 ≤ length weights.old }
    requires first { length first.old ≡ length state.now }
    requires second { length second.old ≡ length state.now }
    ensures { IsNext chain.now state.now result first.new second.new }
{
    first.copy_from_slice(state);
    second.copy_from_slice(state);
    let mut told = Next::One;
    for command in chosen {
        told = lead_on(
            chain, commands, *command, told, state, weights, first, second,
        );
    }
    told
}

/// The next states of a state by the lowest bits of bytes, which say which commands are enabled.
pub fn next_by(
    plan: &Plan,
    chain: &Chain,
    enabled: &[u8],
    room: &mut Room,
    state: &[i64],
    first: &mut [i64],
    second: &mut [i64],
) -> Next
    requires plan { IsPlan chain.now plan.now }
    requires room { IsRoom chain.now plan.now room.old }
    requires guards { AreGuards chain.now state.now 0 enabled.now }
    requires state { IsState chain.now state.now }
    requires first { length first.old ≡ length state.now }
    requires second { length second.old ≡ length state.now }
    ensures next { IsNext chain.now state.now result first.new second.new }
    ensures room { IsRoom chain.now plan.now room.new }
{
    match choices_by(plan, chain, state, enabled, &mut room.chosen) {
        Choices::Nothing => Next::Stays,
        Choices::One(size) => lead(
            chain,
            plan.commands.as_slice(),
            &room.chosen[..size],
            state,
            &mut room.weights,
            first,
            second,
        ),
        Choices::Several => Next::Untold,
    }
}
