//! How many choices there are, and the commands of the first of them.

ghost use Rattle.std.specs.Prelude.{◌≡◌, ◌+◌, ◌<◌, ◌≤◌, ◌^◌, All, Some, flat_map, length, min, slice_get, take};
ghost use Rattle.successors.specs.Enabled.{is_enabled};
ghost use Rattle.successors.specs.Partition.{joint_lists, choice_lists};

use crate::counting::{TOO_MANY, capped_product, count_actions};
use crate::lanes::first_enabled;
use sqlite_items::Items;

/// How many choices an action has, up to one more than the most. Where it has one, the commands of the first are
/// written.
fn first_joint(enabled: &[u8], lane: u32, lists: &[Items<u32>], chosen: &mut [u32]) -> u64
    requires lane { lane < 8 }
    requires room { length lists.now ≤ length chosen.old }
    ensures count { result ≡ min (length (joint_lists (is_enabled lane enabled.now) lists.now)) (2 ^ 48 + 1) }
    ensures first { 0 < result → slice_get (joint_lists (is_enabled lane enabled.now) lists.now) 0
        ≡ Some (take (length lists.now) chosen.new) }
{
    let mut product = 1;
    let mut place = lists.len();
    while place > 0 {
        place -= 1;
        let (count, first) = first_enabled(enabled, lane, lists[place].as_slice());
        match first {
            Some(command) => chosen[place] = command,
            None => return 0,
        }
        product = capped_product(product, count);
    }
    product
}

/// How many choices actions have, up to one more than the most, and how many commands the first has. Where there is one,
/// its commands are written.
fn first_action(
    enabled: &[u8],
    lane: u32,
    actions: &[Items<Items<u32>>],
    chosen: &mut [u32],
) -> (u64, usize)
    requires lane { lane < 8 }
    requires room { All (λ lists. length lists ≤ length chosen.old) actions.now }
    ensures count { result.0
        ≡ min (length (flat_map (joint_lists (is_enabled lane enabled.now)) actions.now)) (2 ^ 48 + 1) }
    ensures first { 0 < result.0 → slice_get (flat_map (joint_lists (is_enabled lane enabled.now)) actions.now) 0
        ≡ Some (take result.1 chosen.new) }
    ensures within { result.1 ≤ length chosen.old }
{
    for (index, lists) in actions.iter().enumerate() {
        let count = first_joint(enabled, lane, lists.as_slice(), chosen);
        if count > 0 {
            let others = count_actions(enabled, lane, &actions[index + 1..]);
            return ((count + others).min(TOO_MANY), lists.len());
        }
    }
    (0, 0)
}

/// How many choices there are, up to one more than the most, and how many commands the first has. Where there is one, its
/// commands are written.
pub fn first_choice(
    enabled: &[u8],
    lane: u32,
    singles: &[u32],
    actions: &[Items<Items<u32>>],
    chosen: &mut [u32],
) -> (u64, usize)
    requires lane { lane < 8 }
    requires some { 1 ≤ length chosen.old }
    requires room { All (λ lists. length lists ≤ length chosen.old) actions.now }
    ensures count { result.0
        ≡ min (length (choice_lists (is_enabled lane enabled.now) singles.now actions.now)) (2 ^ 48 + 1) }
    ensures first { 0 < result.0 → slice_get (choice_lists (is_enabled lane enabled.now) singles.now actions.now) 0
        ≡ Some (take result.1 chosen.new) }
    ensures within { result.1 ≤ length chosen.old }
{
    let (alone, first) = first_enabled(enabled, lane, singles);
    match first {
        Some(command) => {
            chosen[0] = command;
            let joint = count_actions(enabled, lane, actions);
            ((alone.min(TOO_MANY) + joint).min(TOO_MANY), 1)
        }
        None => first_action(enabled, lane, actions, chosen),
    }
}
