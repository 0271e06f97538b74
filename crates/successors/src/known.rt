//! A step from a state whose choices are known.

ghost use Rattle.std.specs.Prelude.{◌≡◌, ◌+◌, ◌≤◌, ◌^◌, OnErr, Ok, length, take};
ghost use Rattle.trace_streams.specs.Draws.{draw_at};
ghost use Rattle.chain_model.specs.States.{IsState};
ghost use Rattle.chain_model.specs.Step.{draws_for};
ghost use Rattle.successors.specs.Steppers.{IsPlan, IsRoom};
ghost use Rattle.successors.specs.Choosing.{AreKnownChoices, IsOnlyChoice};
ghost use Rattle.successors.specs.Moves.{next_of, came, commands_taken};

use crate::listing::Listed;
use crate::moving::{take_commands, take_written};
use crate::plan::{Plan, Room};
use chain_model::{Chain, TraceFault};
use trace_meaning::drawn_number;
use trace_streams::Draws;

/// The commands of the choice that is drawn.
#[inline(always)]
fn drawn_choice<'a>(
    chain: &Chain,
    state: &[i64],
    listed: Listed,
    commands: &'a [u32],
    draws: &mut Draws,
) -> &'a [u32]
    requires known { AreKnownChoices chain.now state.now listed.count listed.size commands.now }
    requires place { draws.old.place + 1 ≤ 2 ^ 62 }
    ensures taken { commands_taken chain.now (draw_at draws.old.seed draws.old.trace) state.now draws.old.place
        ≡ Ok (result.now, draws.new.place) }
    ensures long { length result.now ≡ listed.size }
    ensures moves { draws.new ≡ record draws.old { place = draws.old.place + draws_for listed.count } }
{
    let number = drawn_number(listed.count as u64, draws) as usize;
    let from = number * listed.size;
    &commands[from..from + listed.size]
}

/// Draws a choice and takes its commands. After a fault the draws may stand further on.
#[inline(always)]
fn take_drawn(
    plan: &Plan,
    chain: &Chain,
    listed: Listed,
    commands: &[u32],
    room: &mut Room,
    state: &mut [i64],
    draws: &mut Draws,
) -> Result<(), TraceFault>
    requires plan { IsPlan chain.now plan.now }
    requires room { IsRoom chain.now plan.now room.old }
    requires state { IsState chain.now state.old }
    requires known { AreKnownChoices chain.now state.old listed.count listed.size commands.now }
    requires long { listed.size ≤ length room.old.branches.items }
    requires place { draws.old.place + 1 + listed.size ≤ 2 ^ 62 }
    ensures step { came result state.new draws.new.place
        ≡ next_of chain.now (draw_at draws.old.seed draws.old.trace)
        (record { state = state.old; position = draws.old.place }) }
    ensures stays { OnErr result (state.new ≡ state.old) }
    ensures keeps { IsState chain.now state.new }
    ensures forward { draws.old.place ≤ draws.new.place }
    ensures stream { draws.new ≡ record draws.old { place = draws.new.place } }
    ensures room { IsRoom chain.now plan.now room.new }
{
    let chosen = drawn_choice(chain, state, listed, commands, draws);
    take_commands(
        plan.commands.as_slice(),
        chain,
        chosen,
        &mut room.branches,
        &mut room.weights,
        &mut room.next,
        state,
        draws,
    )
}

/// Draws a choice of a state, where its choices are these, and takes its commands. After a fault the state and the draws
/// are as they were.
pub fn take_known(
    plan: &Plan,
    chain: &Chain,
    listed: Listed,
    commands: &[u32],
    room: &mut Room,
    state: &mut [i64],
    draws: &mut Draws,
) -> Result<(), TraceFault>
    requires plan { IsPlan chain.now plan.now }
    requires room { IsRoom chain.now plan.now room.old }
    requires state { IsState chain.now state.old }
    requires known { AreKnownChoices chain.now state.old listed.count listed.size commands.now }
    requires long { listed.size ≤ length room.old.branches.items }
    requires place { draws.old.place + 1 + listed.size ≤ 2 ^ 62 }
    ensures step { came result state.new draws.new.place
        ≡ next_of chain.now (draw_at draws.old.seed draws.old.trace)
        (record { state = state.old; position = draws.old.place }) }
    ensures stays { OnErr result ((state.new ≡ state.old) × (draws.new ≡ draws.old)) }
    ensures keeps { IsState chain.now state.new }
    ensures stream { draws.new ≡ record draws.old { place = draws.new.place } }
    ensures room { IsRoom chain.now plan.now room.new }
{
    let start = draws.place();
    match take_drawn(plan, chain, listed, commands, room, state, draws) {
        Ok(()) => Ok(()),
        Err(fault) => {
            draws.back_to(start);
            Err(fault)
        }
    }
}

/// Takes the commands of the one choice of a state, so many, which stand in the room. After a fault the state and the
/// draws are as they were.
#[tactic(auto, using(crate::proofs::ChoiceLemmas::only_taken))]
pub fn take_told(
    plan: &Plan,
    chain: &Chain,
    size: usize,
    room: &mut Room,
    state: &mut [i64],
    draws: &mut Draws,
) -> Result<(), TraceFault>
    requires plan { IsPlan chain.now plan.now }
    requires room { IsRoom chain.now plan.now room.old }
    requires state { IsState chain.now state.old }
    requires only { IsOnlyChoice chain.now state.old (take size room.old.chosen.items) }
    requires size { size ≤ length room.old.chosen.items }
    requires place { draws.old.place + size ≤ 2 ^ 62 }
    ensures step { came result state.new draws.new.place
        ≡ next_of chain.now (draw_at draws.old.seed draws.old.trace)
        (record { state = state.old; position = draws.old.place }) }
    ensures stays { OnErr result ((state.new ≡ state.old) × (draws.new ≡ draws.old)) }
    ensures keeps { IsState chain.now state.new }
    ensures stream { draws.new ≡ record draws.old { place = draws.new.place } }
    ensures room { IsRoom chain.now plan.now room.new }
{
    let start = draws.place();
    match take_written(plan, chain, size, room, state, draws) {
        Ok(()) => Ok(()),
        Err(fault) => {
            draws.back_to(start);
            Err(fault)
        }
    }
}
