ghost use Rattle.std.specs.Prelude.{◌≡◌, ◌≤◌, ◌^◌, length, take, flat_map, IfOk};
ghost use Rattle.trace_meaning.specs.Counted.{limited_choices, counted_choices, choices_in};
ghost use Rattle.trace_meaning.specs.Gives.{Gives};
ghost use Rattle.trace_meaning.specs.Groups.{group_choices};

use crate::enabled::enabled;
use crate::fault::StepFault;
use crate::groups::{Group, choice, groups, total};
use chain_model::{Chain, Choice, TraceFault};
use sqlite_items::Items;
use std::alloc::{AllocError, Global};

/// The number of a state's choices, and their groups.
pub fn counted_groups(
    alloc: Global,
    chain: &Chain,
    state: &[i64],
) -> Result<(u64, Items<Group>), StepFault>
    ensures choices { Gives (choices_in result) (limited_choices chain.now state.now) }
    ensures count { IfOk result (λ counted. counted.0 ≡ length (flat_map group_choices counted.1)) }
    ensures few { IfOk result (λ counted. length (flat_map group_choices counted.1) ≤ 2 ^ 48) }
{
    let enabled = match enabled(alloc, state, chain.commands.as_slice()) {
        Ok(enabled) => enabled,
        Err(fault) => return Err(fault),
    };
    let groups = match groups(alloc, chain, enabled.as_slice()) {
        Ok(groups) => groups,
        Err(error) => return Err(StepFault::OutOfMemory(error)),
    };
    let count = total(groups.as_slice());
    if count > 1 << 48 {
        return Err(StepFault::Trace(TraceFault::Choices));
    }
    Ok((count, groups))
}

/// The number of a state's choices, and the first of them, up to so many.
pub fn choices(
    alloc: Global,
    chain: &Chain,
    state: &[i64],
    most: u32,
) -> Result<(u64, Items<Choice>), StepFault>
    ensures { Gives result (counted_choices chain.now state.now most) }
{
    let (count, groups) = match counted_groups(alloc, chain, state) {
        Ok(counted) => counted,
        Err(fault) => return Err(fault),
    };
    match first(alloc, groups.as_slice(), count.min(u64::from(most))) {
        Ok(list) => Ok((count, list)),
        Err(error) => Err(StepFault::OutOfMemory(error)),
    }
}

/// The first choices, so many.
fn first(alloc: Global, groups: &[Group], shown: u64) -> Result<Items<Choice>, AllocError>
    requires there { shown ≤ length (flat_map group_choices groups.now) }
    requires few { length (flat_map group_choices groups.now) ≤ 2 ^ 48 }
    ensures { IfOk result (λ list. list ≡ take shown (flat_map group_choices groups.now)) }
{
    let mut list = Items::new(alloc);
    for number in 0..shown {
        let choice = match choice(alloc, groups, number) {
            Ok(choice) => choice,
            Err(error) => return Err(error),
        };
        match list.push(choice) {
            Ok(()) => {}
            Err(error) => return Err(error),
        }
    }
    Ok(list)
}
