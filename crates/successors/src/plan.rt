//! What a step needs beside a state.

ghost use Rattle.std.specs.Prelude.{◌≡◌, ◌≤◌, IfOk, length};
ghost use Rattle.successors.specs.Steppers.{IsPlan, IsRoom};

use crate::commands::{Command, commands, guards};
use crate::partition::{Partition, partition_of, widest};
use crate::plain::have_truth;
use chain_model::Chain;
use chain_model::limits::MOST_BRANCHES;
use guard_code::Node;
use smc_num::Frac;
use sqlite_items::Items;
use std::alloc::{AllocError, Global};

/// A chain, compiled: the nodes of its guards, whether none of them can fault, its commands, and what they may be part of.
#[derive(Debug, Drop)]
pub struct Plan {
    pub guards: Items<Node>,
    pub plain: bool,
    pub commands: Items<Command>,
    pub partition: Partition,
}

/// Room for what a step takes: the commands of a choice and their branches, the weights of a command, and the next
/// state.
#[derive(Debug, Drop)]
pub struct Room {
    pub chosen: Vec<u32>,
    pub branches: Vec<usize>,
    pub weights: Vec<Frac>,
    pub next: Vec<i64>,
}

/// A chain, compiled.
pub fn plan_of(alloc: Global, chain: &Chain) -> Result<Plan, AllocError>
    ensures { IfOk result (λ plan. IsPlan chain.now plan) }
{
    let guards = guards(alloc, chain.commands.as_slice())?;
    let plain = have_truth(guards.as_slice());
    Ok(Plan {
        guards,
        plain,
        commands: commands(alloc, chain)?,
        partition: partition_of(alloc, chain)?,
    })
}

/// The number 0, which stands where no weight was written yet.
fn zero() -> Frac {
    Frac::new(0, 1).unwrap()
}

/// Room for the steps of a chain.
pub fn room_for(alloc: Global, chain: &Chain, plan: &Plan) -> Result<Room, AllocError>
    ensures { IfOk result (λ room. IsRoom chain.now plan.now room) }
{
    let width = widest(plan.partition.actions.as_slice());
    Ok(Room {
        chosen: vec![in alloc; 0; width]?,
        branches: vec![in alloc; 0; width]?,
        weights: vec![in alloc; zero(); MOST_BRANCHES]?,
        next: vec![in alloc; 0; chain.vars.len()]?,
    })
}
