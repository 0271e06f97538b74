//! A step of a trace.

ghost use Rattle.std.specs.Prelude.{◌≡◌, ◌+◌, ◌<◌, ◌≤◌, ◌^◌, length, flat_map, IfOk, OnErr};
ghost use Rattle.trace_streams.specs.Draws.{draw_at};
ghost use Rattle.chain_model.specs.Step.{all_sets, choice_of, draws_for, step_of};
ghost use Rattle.trace_meaning.specs.Assigning.{assigned_to};
ghost use Rattle.trace_meaning.specs.Gives.{Gives};
ghost use Rattle.trace_meaning.specs.Groups.{group_choices};
ghost use Rattle.trace_meaning.specs.Stepped.{choice_number, choice_taken, at_position, items_in, GivesStep};

use crate::assignments::assign_all;
use crate::branches::branches;
use crate::fault::StepFault;
use crate::groups::{Group, choice};
use crate::listing::counted_groups;
use chain_model::{Chain, Choice, Taken};
use sqlite_items::Items;
use std::alloc::{AllocError, Global};
use trace_streams::{Draws, pick};

/// The number of the choice that is taken of so many: of several by a draw.
pub fn drawn_number(count: u64, draws: &mut Draws) -> u64
    requires some { 0 < count }
    requires few { count ≤ 2 ^ 48 }
    requires place { draws.old.place < 2 ^ 62 }
    ensures value { result ≡ choice_number (draw_at draws.old.seed draws.old.trace draws.old.place) count }
    ensures within { result < count }
    ensures moves { draws.new ≡ record draws.old { place = draws.old.place + draws_for count } }
{
    if 2 <= count {
        pick(draws.next(), count)
    } else {
        0
    }
}

/// The choice that is taken: of several by a draw, and none where there is none.
fn drawn_choice(
    alloc: Global,
    groups: &[Group],
    count: u64,
    draws: &mut Draws,
) -> Result<Choice, AllocError>
    requires count { count ≡ length (flat_map group_choices groups.now) }
    requires few { length (flat_map group_choices groups.now) ≤ 2 ^ 48 }
    requires place { draws.old.place < 2 ^ 62 }
    ensures value { IfOk result (λ choice. choice ≡ choice_of (draw_at draws.old.seed draws.old.trace) draws.old.place (flat_map group_choices groups.now)) }
    ensures moves { draws.new ≡ record draws.old { place = draws.old.place + draws_for count } }
{
    if count == 0 {
        return Ok(Choice {
            action: None,
            commands: Items::new(alloc),
        });
    }
    let number = drawn_number(count, draws);
    choice(alloc, groups, number)
}

/// The choice that a step takes.
fn taken_choice(
    alloc: Global,
    chain: &Chain,
    state: &[i64],
    draws: &mut Draws,
) -> Result<Choice, StepFault>
    requires { draws.old.place < 2 ^ 62 }
    ensures value { Gives (at_position draws.new.place result) (choice_taken chain.now (draw_at draws.old.seed draws.old.trace) state.now draws.old.place) }
    ensures few { IfOk result (λ choice. length choice.commands ≤ 64) }
    ensures forward { draws.old.place ≤ draws.new.place }
    ensures near { draws.new.place ≤ draws.old.place + 1 }
    ensures stream { draws.new ≡ record draws.old { place = draws.new.place } }
{
    let (count, groups) = match counted_groups(alloc, chain, state) {
        Ok(counted) => counted,
        Err(fault) => return Err(fault),
    };
    match drawn_choice(alloc, groups.as_slice(), count, draws) {
        Ok(choice) => Ok(choice),
        Err(error) => Err(StepFault::OutOfMemory(error)),
    }
}

/// The state after the assignments of the branches that are taken.
fn next_state(
    alloc: Global,
    chain: &Chain,
    state: &[i64],
    commands: &[u32],
    branches: &[u32],
) -> Result<Vec<i64>, StepFault>
    ensures { Gives (items_in result) (assigned_to chain.now state.now state.now (all_sets chain.now commands.now branches.now)) }
{
    let mut copy = match Vec::from_slice(alloc, state) {
        Ok(copy) => copy,
        Err(error) => return Err(StepFault::OutOfMemory(error)),
    };
    match assign_all(chain, state, commands, branches, &mut copy) {
        Ok(()) => Ok(copy),
        Err(fault) => Err(StepFault::Trace(fault)),
    }
}

/// The next state and what is taken. After a fault the draws may stand further on.
fn step(
    alloc: Global,
    chain: &Chain,
    state: &[i64],
    draws: &mut Draws,
) -> Result<(Vec<i64>, Taken), StepFault>
    requires { draws.old.place + 65 ≤ 2 ^ 62 }
    ensures value { GivesStep result draws.new.place (step_of chain.now (draw_at draws.old.seed draws.old.trace) (record { state = state.now; position = draws.old.place })) }
    ensures forward { draws.old.place ≤ draws.new.place }
    ensures stream { draws.new ≡ record draws.old { place = draws.new.place } }
{
    let choice = match taken_choice(alloc, chain, state, draws) {
        Ok(choice) => choice,
        Err(fault) => return Err(fault),
    };
    let branches = match branches(alloc, chain, state, choice.commands.as_slice(), draws) {
        Ok(branches) => branches,
        Err(fault) => return Err(fault),
    };
    match next_state(
        alloc,
        chain,
        state,
        choice.commands.as_slice(),
        branches.as_slice(),
    ) {
        Ok(next) => Ok((next, Taken { choice, branches })),
        Err(fault) => Err(fault),
    }
}

/// The next state of a trace, and the choice and branches that are taken, by the draws from where they stand. After a
/// fault the draws stand where they stood.
pub fn plain_step(
    alloc: Global,
    chain: &Chain,
    state: &[i64],
    draws: &mut Draws,
) -> Result<(Vec<i64>, Taken), StepFault>
    requires { draws.old.place + 65 ≤ 2 ^ 62 }
    ensures step { GivesStep result draws.new.place (step_of chain.now (draw_at draws.old.seed draws.old.trace) (record { state = state.now; position = draws.old.place })) }
    ensures stream { draws.new ≡ record draws.old { place = draws.new.place } }
    ensures stays { OnErr result (draws.new ≡ draws.old) }
{
    let start = draws.place();
    match step(alloc, chain, state, draws) {
        Ok(step) => Ok(step),
        Err(fault) => {
            draws.back_to(start);
            Err(fault)
        }
    }
}
