//! A move from a state: a choice is drawn, and then the branches of its commands, whose assignments are made.

ghost use Rattle.std.specs.Prelude.{◌≡◌, ◌+◌, ◌<◌, ◌≤◌, ◌^◌, ◌↔◌, [], ◌∷◌, true, All, IfSome, OnErr, Ok, Some, length, slice_get, take};
ghost use Rattle.trace_streams.specs.Draws.{draw_at};
ghost use Rattle.chain_model.specs.States.{IsState};
ghost use Rattle.chain_model.specs.Chain.{is_unlabelled};
ghost use Rattle.chain_model.specs.Choices.{choices_of, command_is};
ghost use Rattle.chain_model.specs.Step.{draws_for};
ghost use Rattle.guard_code.specs.Tests.{IsSmall};
ghost use Rattle.successors.specs.Enabled.{is_enabled, numbers_with, AreGuards, IsFound};
ghost use Rattle.successors.specs.Partition.{choice_lists};
ghost use Rattle.successors.specs.Commands.{AreCommands};
ghost use Rattle.successors.specs.Steppers.{IsPlan, IsRoom};
ghost use Rattle.successors.specs.Moves.{next_of, came, commands_taken, after_commands};

use crate::assigning::assign_choice;
use crate::commands::Command;
use crate::decoding::write_choice;
use crate::first::first_choice;
use crate::found::Found;
use crate::plan::{Plan, Room};
use crate::taking::write_branches;
use chain_model::{Chain, TraceFault};
use smc_num::Frac;
use trace_meaning::{drawn_number, has_no_action};
use trace_streams::Draws;

/// Whether a choice was taken. A state without one stays as it is for ever.
#[derive(Clone, Copy, Debug, PartialEq, Eq)]
pub enum Moved {
    Taken,
    Stayed,
}

/// Draws a choice and writes its commands, where those of the first choice stand, which are so many; and says how many
/// they are.
fn choose(
    plan: &Plan,
    chain: &Chain,
    state: &[i64],
    enabled: &[u8],
    lane: u32,
    count: u64,
    size: usize,
    chosen: &mut [u32],
    draws: &mut Draws,
) -> usize
    requires plan { IsPlan chain.now plan.now }
    requires guards { AreGuards chain.now state.now lane enabled.now }
    requires lane { lane < 8 }
    requires count { count
        ≡ length (choice_lists (is_enabled lane enabled.now) plan.now.partition.singles plan.now.partition.actions) }
    requires some { 0 < count }
    requires few { count ≤ 2 ^ 48 }
    requires first { slice_get (choice_lists (is_enabled lane enabled.now) plan.now.partition.singles plan.now.partition.actions) 0
        ≡ Some (take size chosen.old) }
    requires size { size ≤ length chosen.old }
    requires room { 1 ≤ length chosen.old }
    requires wide { All (λ lists. length lists ≤ length chosen.old) plan.now.partition.actions }
    requires place { draws.old.place < 2 ^ 62 }
    ensures value { commands_taken chain.now (draw_at draws.old.seed draws.old.trace) state.now draws.old.place
        ≡ Ok (take result chosen.new, draws.new.place) }
    ensures within { result ≤ length chosen.old }
    ensures few { result ≤ 64 }
    ensures moves { draws.new ≡ record draws.old { place = draws.old.place + draws_for count } }
{
    let number = drawn_number(count, draws);
    write_choice(
        enabled,
        lane,
        plan.partition.singles.as_slice(),
        plan.partition.actions.as_slice(),
        number,
        size,
        chosen,
    )
}

/// Takes the branches of commands, by the draws from where they stand, and makes their assignments.
#[inline(always)]
pub fn take_commands(
    commands: &[Command],
    chain: &Chain,
    chosen: &[u32],
    branches: &mut [usize],
    weights: &mut [Frac],
    next: &mut [i64],
    state: &mut [i64],
    draws: &mut Draws,
) -> Result<(), TraceFault>
    requires commands { AreCommands chain.now commands.now }
    requires small { IsSmall state.old }
    requires branches { length chosen.now ≤ length branches.old }
    requires weights { 64 ≤ length weights.old }
    requires next { length next.old ≡ length state.old }
    requires place { draws.old.place + length chosen.now ≤ 2 ^ 62 }
    ensures step { came result state.new draws.new.place
        ≡ after_commands chain.now (draw_at draws.old.seed draws.old.trace) state.old (chosen.now, draws.old.place) }
    ensures stays { OnErr result (state.new ≡ state.old) }
    ensures forward { draws.old.place ≤ draws.new.place }
    ensures stream { draws.new ≡ record draws.old { place = draws.new.place } }
{
    match write_branches(chain, commands, chosen, state, branches, weights, draws) {
        Ok(()) => {}
        Err(fault) => return Err(fault),
    }
    match assign_choice(
        chain,
        commands,
        chosen,
        &branches[..chosen.len()],
        next,
        state,
    ) {
        Ok(()) => Ok(()),
        Err(fault) => Err(fault),
    }
}

/// Draws a choice, where the commands of the first stand, which are so many, and takes it.
fn take_choice(
    plan: &Plan,
    chain: &Chain,
    enabled: &[u8],
    lane: u32,
    count: u64,
    size: usize,
    room: &mut Room,
    state: &mut [i64],
    draws: &mut Draws,
) -> Result<(), TraceFault>
    requires plan { IsPlan chain.now plan.now }
    requires room { IsRoom chain.now plan.now room.old }
    requires guards { AreGuards chain.now state.old lane enabled.now }
    requires lane { lane < 8 }
    requires state { IsState chain.now state.old }
    requires count { count
        ≡ length (choice_lists (is_enabled lane enabled.now) plan.now.partition.singles plan.now.partition.actions) }
    requires some { 0 < count }
    requires few { count ≤ 2 ^ 48 }
    requires first { slice_get (choice_lists (is_enabled lane enabled.now) plan.now.partition.singles plan.now.partition.actions) 0
        ≡ Some (take size room.old.chosen.items) }
    requires size { size ≤ length room.old.chosen.items }
    requires place { draws.old.place + 65 ≤ 2 ^ 62 }
    ensures step { came result state.new draws.new.place
        ≡ next_of chain.now (draw_at draws.old.seed draws.old.trace)
        (record { state = state.old; position = draws.old.place }) }
    ensures stays { OnErr result (state.new ≡ state.old) }
    ensures keeps { IsState chain.now state.new }
    ensures forward { draws.old.place ≤ draws.new.place }
    ensures stream { draws.new ≡ record draws.old { place = draws.new.place } }
    ensures room { IsRoom chain.now plan.now room.new }
{
    let size = choose(
        plan,
        chain,
        state,
        enabled,
        lane,
        count,
        size,
        &mut room.chosen,
        draws,
    );
    take_commands(
        plan.commands.as_slice(),
        chain,
        &room.chosen[..size],
        &mut room.branches,
        &mut room.weights,
        &mut room.next,
        state,
        draws,
    )
}

/// Takes the commands of the choice of a step, for which nothing is drawn. After a fault the draws may stand further on.
#[inline(always)]
fn take_only(
    plan: &Plan,
    chain: &Chain,
    chosen: &[u32],
    room: &mut Room,
    state: &mut [i64],
    draws: &mut Draws,
) -> Result<(), TraceFault>
    requires plan { IsPlan chain.now plan.now }
    requires room { IsRoom chain.now plan.now room.old }
    requires state { IsState chain.now state.old }
    requires taken { commands_taken chain.now (draw_at draws.old.seed draws.old.trace) state.old draws.old.place
        ≡ Ok (chosen.now, draws.old.place) }
    requires long { length chosen.now ≤ length room.old.branches.items }
    requires place { draws.old.place + length chosen.now ≤ 2 ^ 62 }
    ensures step { came result state.new draws.new.place
        ≡ next_of chain.now (draw_at draws.old.seed draws.old.trace)
        (record { state = state.old; position = draws.old.place }) }
    ensures stays { OnErr result (state.new ≡ state.old) }
    ensures keeps { IsState chain.now state.new }
    ensures forward { draws.old.place ≤ draws.new.place }
    ensures stream { draws.new ≡ record draws.old { place = draws.new.place } }
    ensures room { IsRoom chain.now plan.now room.new }
{
    take_commands(
        plan.commands.as_slice(),
        chain,
        chosen,
        &mut room.branches,
        &mut room.weights,
        &mut room.next,
        state,
        draws,
    )
}

/// Takes the commands of the choice of a step, so many, which stand in the room, and for which nothing is drawn. After a
/// fault the draws may stand further on.
#[inline(always)]
pub fn take_written(
    plan: &Plan,
    chain: &Chain,
    size: usize,
    room: &mut Room,
    state: &mut [i64],
    draws: &mut Draws,
) -> Result<(), TraceFault>
    requires plan { IsPlan chain.now plan.now }
    requires room { IsRoom chain.now plan.now room.old }
    requires state { IsState chain.now state.old }
    requires taken { commands_taken chain.now (draw_at draws.old.seed draws.old.trace) state.old draws.old.place
        ≡ Ok (take size room.old.chosen.items, draws.old.place) }
    requires size { size ≤ length room.old.chosen.items }
    requires place { draws.old.place + size ≤ 2 ^ 62 }
    ensures step { came result state.new draws.new.place
        ≡ next_of chain.now (draw_at draws.old.seed draws.old.trace)
        (record { state = state.old; position = draws.old.place }) }
    ensures stays { OnErr result (state.new ≡ state.old) }
    ensures keeps { IsState chain.now state.new }
    ensures forward { draws.old.place ≤ draws.new.place }
    ensures stream { draws.new ≡ record draws.old { place = draws.new.place } }
    ensures room { IsRoom chain.now plan.now room.new }
{
    take_commands(
        plan.commands.as_slice(),
        chain,
        &room.chosen[..size],
        &mut room.branches,
        &mut room.weights,
        &mut room.next,
        state,
        draws,
    )
}

/// A move by the bits of a lane, which say which commands are enabled. After a fault the draws may stand further on.
#[inline(never)]
fn move_by_bytes(
    plan: &Plan,
    chain: &Chain,
    enabled: &[u8],
    lane: u32,
    room: &mut Room,
    state: &mut [i64],
    draws: &mut Draws,
) -> Result<Moved, TraceFault>
    requires plan { IsPlan chain.now plan.now }
    requires room { IsRoom chain.now plan.now room.old }
    requires guards { AreGuards chain.now state.old lane enabled.now }
    requires lane { lane < 8 }
    requires state { IsState chain.now state.old }
    requires place { draws.old.place + 65 ≤ 2 ^ 62 }
    ensures step { came result state.new draws.new.place
        ≡ next_of chain.now (draw_at draws.old.seed draws.old.trace)
        (record { state = state.old; position = draws.old.place }) }
    ensures stayed { (result ≡ Ok Moved.Stayed) ↔ (choices_of chain.now state.old ≡ Ok []) }
    ensures stays { OnErr result (state.new ≡ state.old) }
    ensures keeps { IsState chain.now state.new }
    ensures forward { draws.old.place ≤ draws.new.place }
    ensures stream { draws.new ≡ record draws.old { place = draws.new.place } }
    ensures room { IsRoom chain.now plan.now room.new }
{
    let (count, size) = first_choice(
        enabled,
        lane,
        plan.partition.singles.as_slice(),
        plan.partition.actions.as_slice(),
        &mut room.chosen,
    );
    if count > 1 << 48 {
        return Err(TraceFault::Choices);
    }
    if count == 0 {
        return Ok(Moved::Stayed);
    }
    match take_choice(plan, chain, enabled, lane, count, size, room, state, draws) {
        Ok(()) => Ok(Moved::Taken),
        Err(fault) => Err(fault),
    }
}

/// The one choice of a state, where it is known from what was found of the enabled commands: a command without an action
/// that alone is enabled, in a chain without actions.
#[inline(always)]
fn sole_choice(chain: &Chain, found: Found) -> Option<u32>
    ensures { IfSome result (λ command. (chain.now.actions ≡ []) × (found ≡ Found.One command)
        × (command_is is_unlabelled chain.now.commands command ≡ true)) }
{
    let [] = chain.actions.as_slice() else {
        return None;
    };
    match found {
        Found::One(command) => {
            if has_no_action(chain.commands.as_slice(), command) {
                Some(command)
            } else {
                None
            }
        }
        Found::Nothing | Found::Several => None,
    }
}

/// A move by what was found of the enabled commands or, where that doesn't say the choice, by the bits of a lane. After
/// a fault the draws may stand further on.
#[inline(always)]
fn try_move(
    plan: &Plan,
    chain: &Chain,
    found: Found,
    enabled: &[u8],
    lane: u32,
    room: &mut Room,
    state: &mut [i64],
    draws: &mut Draws,
) -> Result<Moved, TraceFault>
    requires plan { IsPlan chain.now plan.now }
    requires room { IsRoom chain.now plan.now room.old }
    requires guards { AreGuards chain.now state.old lane enabled.now }
    requires lane { lane < 8 }
    requires found { IsFound found (numbers_with lane 0 enabled.now) }
    requires state { IsState chain.now state.old }
    requires place { draws.old.place + 65 ≤ 2 ^ 62 }
    ensures step { came result state.new draws.new.place
        ≡ next_of chain.now (draw_at draws.old.seed draws.old.trace)
        (record { state = state.old; position = draws.old.place }) }
    ensures stayed { (result ≡ Ok Moved.Stayed) ↔ (choices_of chain.now state.old ≡ Ok []) }
    ensures stays { OnErr result (state.new ≡ state.old) }
    ensures keeps { IsState chain.now state.new }
    ensures forward { draws.old.place ≤ draws.new.place }
    ensures stream { draws.new ≡ record draws.old { place = draws.new.place } }
    ensures room { IsRoom chain.now plan.now room.new }
{
    match sole_choice(chain, found) {
        Some(command) => match take_only(plan, chain, &[command], room, state, draws) {
            Ok(()) => Ok(Moved::Taken),
            Err(fault) => Err(fault),
        },
        None => move_by_bytes(plan, chain, enabled, lane, room, state, draws),
    }
}

/// A move by what was found of the enabled commands and by the bits of a lane, which say which those are. After a fault
/// the state and the draws are as they were.
pub fn make_move(
    plan: &Plan,
    chain: &Chain,
    found: Found,
    enabled: &[u8],
    lane: u32,
    room: &mut Room,
    state: &mut [i64],
    draws: &mut Draws,
) -> Result<Moved, TraceFault>
    requires plan { IsPlan chain.now plan.now }
    requires room { IsRoom chain.now plan.now room.old }
    requires guards { AreGuards chain.now state.old lane enabled.now }
    requires lane { lane < 8 }
    requires found { IsFound found (numbers_with lane 0 enabled.now) }
    requires state { IsState chain.now state.old }
    requires place { draws.old.place + 65 ≤ 2 ^ 62 }
    ensures step { came result state.new draws.new.place
        ≡ next_of chain.now (draw_at draws.old.seed draws.old.trace)
        (record { state = state.old; position = draws.old.place }) }
    ensures stayed { (result ≡ Ok Moved.Stayed) ↔ (choices_of chain.now state.old ≡ Ok []) }
    ensures stays { OnErr result ((state.new ≡ state.old) × (draws.new ≡ draws.old)) }
    ensures keeps { IsState chain.now state.new }
    ensures stream { draws.new ≡ record draws.old { place = draws.new.place } }
    ensures room { IsRoom chain.now plan.now room.new }
{
    let start = draws.place();
    match try_move(plan, chain, found, enabled, lane, room, state, draws) {
        Ok(moved) => Ok(moved),
        Err(fault) => {
            draws.back_to(start);
            Err(fault)
        }
    }
}
