//! Compiled commands: their guards, weights and right sides.

ghost use Rattle.std.specs.Prelude.{◌≡◌, length, map, IfOk};
ghost use Rattle.chain_model.specs.Step.{arms_of};
ghost use Rattle.guard_code.specs.Means.{AllMean};
ghost use Rattle.successors.specs.Weighing.{HasWeights};
ghost use Rattle.successors.specs.Commands.{AreArms, IsCommandCode, AreCommands, AreGuardNodes};

use crate::fixed::weights_of;
use crate::sides::{Side, sides};
use crate::weighing::Weights;
use chain_model::{Act, Arm, Chain};
use guard_code::{Node, node_of};
use sqlite_items::Items;
use std::alloc::{AllocError, Global};

/// A command: how its branch is found, and the right sides of each branch.
#[derive(Debug, Drop)]
pub struct Command {
    pub weights: Weights,
    pub arms: Items<Items<Side>>,
}

/// The nodes of the weights of branches.
fn weight_nodes(alloc: Global, arms: &[Arm]) -> Result<Items<Node>, AllocError>
    ensures means { IfOk result (λ nodes. AllMean nodes (map (λ arm. arm.weight) arms.now)) }
    ensures long { IfOk result (λ nodes. length nodes ≡ length arms.now) }
{
    let mut nodes = Items::new(alloc);
    for arm in arms {
        nodes.push(node_of(alloc, &arm.weight)?)?;
    }
    Ok(nodes)
}

/// The right sides of branches, one list for one.
fn arms_of(alloc: Global, chain: &Chain, arms: &[Arm]) -> Result<Items<Items<Side>>, AllocError>
    ensures { IfOk result (λ lists. AreArms chain.now arms.now lists) }
{
    let mut lists = Items::new(alloc);
    for arm in arms {
        lists.push(sides(alloc, chain, arm.sets.as_slice())?)?;
    }
    Ok(lists)
}

/// The compiled command of a number.
fn command_of(alloc: Global, chain: &Chain, number: usize, act: &Act) -> Result<Command, AllocError>
    requires { arms_of chain.now number ≡ act.now.branches }
    ensures { IfOk result (λ command. IsCommandCode chain.now number command) }
{
    let arms = act.branches.as_slice();
    Ok(Command {
        weights: weights_of(alloc, chain, number, weight_nodes(alloc, arms)?)?,
        arms: arms_of(alloc, chain, arms)?,
    })
}

/// The compiled commands of a chain.
pub fn commands(alloc: Global, chain: &Chain) -> Result<Items<Command>, AllocError>
    ensures { IfOk result (λ commands. AreCommands chain.now commands) }
{
    let mut commands = Items::new(alloc);
    for (number, act) in chain.commands.as_slice().iter().enumerate() {
        commands.push(command_of(alloc, chain, number, act)?)?;
    }
    Ok(commands)
}

/// The nodes of the guards of commands.
pub fn guards(alloc: Global, acts: &[Act]) -> Result<Items<Node>, AllocError>
    ensures { IfOk result (λ nodes. AreGuardNodes acts.now nodes) }
{
    let mut nodes = Items::new(alloc);
    for act in acts {
        nodes.push(node_of(alloc, &act.guard)?)?;
    }
    Ok(nodes)
}
