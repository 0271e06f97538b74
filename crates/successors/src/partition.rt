//! The commands by what they may be part of, sorted out once.

ghost use Rattle.std.specs.Prelude.{◌≡◌, ◌<◌, ◌≤◌, ◌^◌, All, filter, length, map, IfOk};
ghost use Rattle.std.specs.List.{enumerate_from, range_with_len};
ghost use Rattle.chain_model.specs.Chain.{is_unlabelled};
ghost use Rattle.chain_model.specs.Choices.{command_is, parts_of};
ghost use Rattle.successors.specs.Partition.{numbers_of, IsPartition};

use chain_model::{Act, Action, Chain};
use sqlite_items::Items;
use std::alloc::{AllocError, Global};
use trace_meaning::{has_no_action, parts};

/// The numbers of the commands without an action, and for each action and each module that takes part in it those of
/// the module's commands with it.
#[derive(Debug, Drop)]
pub struct Partition {
    pub singles: Items<u32>,
    pub actions: Items<Items<Items<u32>>>,
}

/// The numbers of so many commands.
fn numbers(alloc: Global, count: usize) -> Result<Items<u32>, AllocError>
    requires { count < 2 ^ 32 }
    ensures { IfOk result (λ numbers. numbers ≡ range_with_len 0 count) }
{
    let mut numbers = Items::new(alloc);
    for number in 0..count {
        numbers.push(number as u32)?;
    }
    Ok(numbers)
}

/// Those of some commands that have no action.
fn singles(alloc: Global, acts: &[Act], numbers: &[u32]) -> Result<Items<u32>, AllocError>
    ensures { IfOk result (λ singles. singles ≡ filter (command_is is_unlabelled acts.now) numbers.now) }
{
    let mut singles = Items::new(alloc);
    for number in numbers {
        if has_no_action(acts, *number) {
            singles.push(*number)?;
        }
    }
    Ok(singles)
}

/// For each action and each module that takes part in it, those of some commands that are the module's with it.
fn joint(
    alloc: Global,
    acts: &[Act],
    numbers: &[u32],
    actions: &[Action],
) -> Result<Items<Items<Items<u32>>>, AllocError>
    ensures { IfOk result (λ joint. joint
        ≡ map (λ action. parts_of acts.now numbers.now action.0 action.1.takes) (enumerate_from 0 actions.now)) }
{
    let mut joint = Items::new(alloc);
    for (number, action) in actions.iter().enumerate() {
        joint.push(parts(alloc, acts, numbers, number, action.takes.as_slice())?)?;
    }
    Ok(joint)
}

/// The commands of a chain by what they may be part of.
pub fn partition_of(alloc: Global, chain: &Chain) -> Result<Partition, AllocError>
    ensures { IfOk result (λ partition. IsPartition chain.now partition.singles partition.actions) }
{
    let acts = chain.commands.as_slice();
    let numbers = numbers(alloc, acts.len())?;
    Ok(Partition {
        singles: singles(alloc, acts, numbers.as_slice())?,
        actions: joint(alloc, acts, numbers.as_slice(), chain.actions.as_slice())?,
    })
}

/// How many modules the widest of some actions takes, and at least one.
pub fn widest(actions: &[Items<Items<u32>>]) -> usize
    ensures all { All (λ lists. length lists ≤ result) actions.now }
    ensures some { 1 ≤ result }
{
    let mut width = 1;
    for lists in actions {
        width = lists.len().max(width);
    }
    width
}
