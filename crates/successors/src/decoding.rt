//! The choice of a number, as its commands. The number is read in mixed radix, the last module's digit first.

ghost use Rattle.std.specs.Prelude.{◌≡◌, ◌+◌, ◌<◌, ◌≤◌, ◌^◌, All, Some, flat_map, length, slice_get, take};
ghost use Rattle.successors.specs.Enabled.{is_enabled};
ghost use Rattle.successors.specs.Partition.{joint_lists, choice_lists};

use crate::counting::count_joint;
use crate::lanes::{count_enabled, digit_of, nth_enabled};
use sqlite_items::Items;

/// Writes the commands of the choice of a number among those of an action.
fn write_joint(enabled: &[u8], lane: u32, lists: &[Items<u32>], number: u64, chosen: &mut [u32])
    requires lane { lane < 8 }
    requires there { number < length (joint_lists (is_enabled lane enabled.now) lists.now) }
    requires room { length lists.now ≤ length chosen.old }
    ensures { slice_get (joint_lists (is_enabled lane enabled.now) lists.now) number
        ≡ Some (take (length lists.now) chosen.new) }
{
    let mut left = number;
    let mut place = lists.len();
    while place > 0 {
        place -= 1;
        let (command, higher) = digit_of(enabled, lane, lists[place].as_slice(), left);
        chosen[place] = command;
        left = higher;
    }
}

/// Writes the commands of the choice of a number among those of actions, and says how many they are.
fn write_action(
    enabled: &[u8],
    lane: u32,
    actions: &[Items<Items<u32>>],
    number: u64,
    chosen: &mut [u32],
) -> usize
    requires lane { lane < 8 }
    requires there { number < length (flat_map (joint_lists (is_enabled lane enabled.now)) actions.now) }
    requires few { length (flat_map (joint_lists (is_enabled lane enabled.now)) actions.now) ≤ 2 ^ 48 }
    requires room { All (λ lists. length lists ≤ length chosen.old) actions.now }
    ensures within { result ≤ length chosen.old }
    ensures value { slice_get (flat_map (joint_lists (is_enabled lane enabled.now)) actions.now) number
        ≡ Some (take result chosen.new) }
{
    let mut left = number;
    for lists in actions {
        let many = count_joint(enabled, lane, lists.as_slice());
        if left < many {
            write_joint(enabled, lane, lists.as_slice(), left, chosen);
            return lists.len();
        }
        left -= many;
    }
    unreachable!()
}

/// Writes the commands of the choice of a number, and says how many they are.
pub fn write_numbered(
    enabled: &[u8],
    lane: u32,
    singles: &[u32],
    actions: &[Items<Items<u32>>],
    number: u64,
    chosen: &mut [u32],
) -> usize
    requires lane { lane < 8 }
    requires there { number < length (choice_lists (is_enabled lane enabled.now) singles.now actions.now) }
    requires few { length (choice_lists (is_enabled lane enabled.now) singles.now actions.now) ≤ 2 ^ 48 }
    requires some { 1 ≤ length chosen.old }
    requires room { All (λ lists. length lists ≤ length chosen.old) actions.now }
    ensures within { result ≤ length chosen.old }
    ensures value { slice_get (choice_lists (is_enabled lane enabled.now) singles.now actions.now) number
        ≡ Some (take result chosen.new) }
{
    let alone = count_enabled(enabled, lane, singles);
    if number < alone {
        chosen[0] = nth_enabled(enabled, lane, singles, number);
        return 1;
    }
    write_action(enabled, lane, actions, number - alone, chosen)
}

/// The same, where those of the first choice stand, which are so many.
pub fn write_choice(
    enabled: &[u8],
    lane: u32,
    singles: &[u32],
    actions: &[Items<Items<u32>>],
    number: u64,
    size: usize,
    chosen: &mut [u32],
) -> usize
    requires lane { lane < 8 }
    requires there { number < length (choice_lists (is_enabled lane enabled.now) singles.now actions.now) }
    requires few { length (choice_lists (is_enabled lane enabled.now) singles.now actions.now) ≤ 2 ^ 48 }
    requires some { 1 ≤ length chosen.old }
    requires room { All (λ lists. length lists ≤ length chosen.old) actions.now }
    requires first { slice_get (choice_lists (is_enabled lane enabled.now) singles.now actions.now) 0
        ≡ Some (take size chosen.old) }
    requires size { size ≤ length chosen.old }
    ensures within { result ≤ length chosen.old }
    ensures value { slice_get (choice_lists (is_enabled lane enabled.now) singles.now actions.now) number
        ≡ Some (take result chosen.new) }
{
    if number == 0 {
        return size;
    }
    write_numbered(enabled, lane, singles, actions, number, chosen)
}
