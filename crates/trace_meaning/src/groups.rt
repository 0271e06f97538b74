ghost use Rattle.std.specs.Prelude.{◌≡◌, [], ◌∷◌, ◌+◌, ◌<◌, ◌≤◌, ◌^◌, min, map, filter, length, Some, IfOk, slice_get, flat_map};
ghost use Rattle.chain_model.specs.Chain.{is_part, is_unlabelled};
ghost use Rattle.chain_model.specs.Choices.{command_is, parts_of};
ghost use Rattle.trace_meaning.specs.Groups.{group_choices, single_group, action_group, groups_of};

use crate::combinations::{count, nth_combination};
use crate::guards::{is_part, is_unlabelled};
use chain_model::{Act, Action, Chain, Choice};
use sqlite_items::Items;
use std::alloc::{AllocError, Global};

/// A group of choices: its action, and the lists of which a choice has one command each.
#[derive(Debug, Drop)]
pub struct Group {
    pub action: Option<u32>,
    pub parts: Items<Items<u32>>,
}

/// Whether the command of a number has no action.
pub fn has_no_action(acts: &[Act], number: u32) -> bool
    ensures { result ≡ command_is is_unlabelled acts.now number }
{
    match acts.get(number as usize) {
        Some(act) => is_unlabelled(act),
        None => false,
    }
}

/// Whether the command of a number is one of a module with an action.
fn has_part(acts: &[Act], action: usize, owner: u32, number: u32) -> bool
    ensures { result ≡ command_is (is_part action owner) acts.now number }
{
    match acts.get(number as usize) {
        Some(act) => is_part(action, owner, act),
        None => false,
    }
}

/// The enabled commands of a module with an action.
fn part(
    alloc: Global,
    acts: &[Act],
    enabled: &[u32],
    action: usize,
    owner: u32,
) -> Result<Items<u32>, AllocError>
    ensures { IfOk result (λ numbers. numbers ≡ filter (command_is (is_part action owner) acts.now) enabled.now) }
{
    let mut numbers = Items::new(alloc);
    for number in enabled {
        if has_part(acts, action, owner, *number) {
            match numbers.push(*number) {
                Ok(()) => {}
                Err(error) => return Err(error),
            }
        }
    }
    Ok(numbers)
}

/// The enabled commands with an action, by the modules that take part.
pub fn parts(
    alloc: Global,
    acts: &[Act],
    enabled: &[u32],
    action: usize,
    modules: &[u32],
) -> Result<Items<Items<u32>>, AllocError>
    ensures { IfOk result (λ lists. lists ≡ parts_of acts.now enabled.now action modules.now) }
{
    let mut lists = Items::new(alloc);
    for owner in modules {
        let list = match part(alloc, acts, enabled, action, *owner) {
            Ok(list) => list,
            Err(error) => return Err(error),
        };
        match lists.push(list) {
            Ok(()) => {}
            Err(error) => return Err(error),
        }
    }
    Ok(lists)
}

/// The group of one command.
fn single_group(alloc: Global, number: u32) -> Result<Group, AllocError>
    ensures { IfOk result (λ group. group ≡ single_group number) }
{
    let mut list = Items::new(alloc);
    list.push(number)?;
    let mut parts = Items::new(alloc);
    parts.push(list)?;
    Ok(Group {
        action: None,
        parts,
    })
}

/// The groups of the enabled commands that have no action.
fn single_groups(alloc: Global, acts: &[Act], enabled: &[u32]) -> Result<Items<Group>, AllocError>
    ensures { IfOk result (λ groups. groups ≡ map single_group (filter (command_is is_unlabelled acts.now) enabled.now)) }
{
    let mut groups = Items::new(alloc);
    for number in enabled {
        if has_no_action(acts, *number) {
            let group = match single_group(alloc, *number) {
                Ok(group) => group,
                Err(error) => return Err(error),
            };
            match groups.push(group) {
                Ok(()) => {}
                Err(error) => return Err(error),
            }
        }
    }
    Ok(groups)
}

/// The group of an action.
fn action_group(
    alloc: Global,
    acts: &[Act],
    enabled: &[u32],
    number: u32,
    action: &Action,
) -> Result<Group, AllocError>
    ensures { IfOk result (λ group. group ≡ action_group acts.now enabled.now (number, action.now)) }
{
    match parts(
        alloc,
        acts,
        enabled,
        number as usize,
        action.takes.as_slice(),
    ) {
        Ok(parts) => Ok(Group {
            action: Some(number),
            parts,
        }),
        Err(error) => Err(error),
    }
}

/// The groups of choices of the enabled commands.
#[tactic(auto, using(crate::proofs::ActionLemmas::actions_few))]
pub fn groups(alloc: Global, chain: &Chain, enabled: &[u32]) -> Result<Items<Group>, AllocError>
    ensures { IfOk result (λ groups. groups ≡ groups_of chain.now enabled.now) }
{
    let acts = chain.commands.as_slice();
    let mut groups = single_groups(alloc, acts, enabled)?;
    for (number, action) in chain.actions.as_slice().iter().enumerate() {
        let group = match action_group(alloc, acts, enabled, number as u32, action) {
            Ok(group) => group,
            Err(error) => return Err(error),
        };
        match groups.push(group) {
            Ok(()) => {}
            Err(error) => return Err(error),
        }
    }
    Ok(groups)
}

/// How many choices a group has, up to one more than the most.
#[tactic(auto, using(crate::proofs::GroupLemmas::group_size))]
pub fn size(group: &Group) -> u64
    ensures { result ≡ min (length (group_choices group.now)) (2 ^ 48 + 1) }
{
    count(group.parts.as_slice())
}

/// How many choices the groups have, up to one more than the most.
pub fn total(groups: &[Group]) -> u64
    ensures { result ≡ min (length (flat_map group_choices groups.now)) (2 ^ 48 + 1) }
{
    let mut total: u64 = 0;
    for group in groups {
        total = (total + size(group)).min((1 << 48) + 1);
    }
    total
}

/// The choice of this number of a group.
#[tactic(auto, using(crate::proofs::GroupLemmas::group_nth))]
fn choice_in(alloc: Global, group: &Group, number: u64) -> Result<Choice, AllocError>
    requires there { number < length (group_choices group.now) }
    requires few { length (group_choices group.now) ≤ 2 ^ 48 }
    ensures { IfOk result (λ choice. slice_get (group_choices group.now) number ≡ Some choice) }
{
    match nth_combination(alloc, group.parts.as_slice(), number) {
        Ok(commands) => Ok(Choice {
            action: group.action,
            commands,
        }),
        Err(error) => Err(error),
    }
}

/// The choice of this number.
pub fn choice(alloc: Global, groups: &[Group], number: u64) -> Result<Choice, AllocError>
    requires there { number < length (flat_map group_choices groups.now) }
    requires few { length (flat_map group_choices groups.now) ≤ 2 ^ 48 }
    ensures { IfOk result (λ choice. slice_get (flat_map group_choices groups.now) number ≡ Some choice) }
{
    let mut left = number;
    for group in groups {
        let many = size(group);
        if left < many {
            return choice_in(alloc, group, left);
        }
        left -= many;
    }
    unreachable!()
}
