//! All choices of a state, their commands one after another.

ghost use Rattle.std.specs.Prelude.{◌≡◌, ◌+◌, ◌*◌, ◌<◌, ◌≤◌, ◌^◌, ℕ, All, IfSome, IsTrue, Some, length, slice_get, take};
ghost use Rattle.successors.specs.Enabled.{is_enabled, AreGuards};
ghost use Rattle.successors.specs.Partition.{choice_lists};
ghost use Rattle.successors.specs.Steppers.{IsPlan, IsRoom};
ghost use Rattle.successors.specs.Choosing.{part_of, AreKnownChoices};

use crate::counting::TOO_MANY;
use crate::decoding::write_numbered;
use crate::first::first_choice;
use crate::plan::{Plan, Room};
use chain_model::Chain;
use sqlite_items::Items;

/// How many choices stand one after another, and how many commands each of them has.
#[derive(Clone, Copy, Debug, PartialEq, Eq)]
pub struct Listed {
    pub count: usize,
    pub size: usize,
}

/// Writes the commands of the choice of a number at their place among those of all, where they are so many, and says
/// whether they are.
fn write_part(
    enabled: &[u8],
    singles: &[u32],
    actions: &[Items<Items<u32>>],
    number: usize,
    size: usize,
    room: &mut [u32],
    chosen: &mut [u32],
) -> bool
    requires there { number < length (choice_lists (is_enabled 0 enabled.now) singles.now actions.now) }
    requires few { length (choice_lists (is_enabled 0 enabled.now) singles.now actions.now) ≤ 2 ^ 48 }
    requires some { 1 ≤ length room.old }
    requires wide { All (λ lists. length lists ≤ length room.old) actions.now }
    requires fits { number * size + size ≤ length chosen.old }
    ensures part { IsTrue result → slice_get (choice_lists (is_enabled 0 enabled.now) singles.now actions.now) number
        ≡ Some (part_of size chosen.new number) }
    ensures before { take (number * size) chosen.new ≡ take (number * size) chosen.old }
{
    let found = write_numbered(enabled, 0, singles, actions, number as u64, room);
    if found != size {
        return false;
    }
    let from = number * size;
    chosen[from..from + size].copy_from_slice(&room[..size]);
    true
}

/// Writes the commands of all choices one after another, where each has so many, and says whether each has.
fn write_parts(
    enabled: &[u8],
    singles: &[u32],
    actions: &[Items<Items<u32>>],
    count: usize,
    size: usize,
    room: &mut [u32],
    chosen: &mut [u32],
) -> bool
    requires count { count ≡ length (choice_lists (is_enabled 0 enabled.now) singles.now actions.now) }
    requires few { count ≤ 2 ^ 48 }
    requires some { 1 ≤ length room.old }
    requires wide { All (λ lists. length lists ≤ length room.old) actions.now }
    requires fits { count * size ≤ length chosen.old }
    ensures parts { IsTrue result → (number : ℕ) → number < count
        → slice_get (choice_lists (is_enabled 0 enabled.now) singles.now actions.now) number
        ≡ Some (part_of size chosen.new number) }
{
    for number in 0..count {
        if !write_part(enabled, singles, actions, number, size, room, chosen) {
            return false;
        }
    }
    true
}

/// Writes the commands of all choices of a state one after another, where each has equally many and room for them is
/// given, by the lowest bits of bytes, which say which commands are enabled.
pub fn write_choices(
    plan: &Plan,
    chain: &Chain,
    state: &[i64],
    enabled: &[u8],
    room: &mut Room,
    chosen: &mut [u32],
) -> Option<Listed>
    requires plan { IsPlan chain.now plan.now }
    requires room { IsRoom chain.now plan.now room.old }
    requires guards { AreGuards chain.now state.now 0 enabled.now }
    ensures known { IfSome result (λ listed. AreKnownChoices chain.now state.now listed.count listed.size
        (take (listed.count * listed.size) chosen.new)) }
    ensures within { IfSome result (λ listed. listed.count * listed.size ≤ length chosen.new) }
    ensures room { IsRoom chain.now plan.now room.new }
{
    let singles = plan.partition.singles.as_slice();
    let actions = plan.partition.actions.as_slice();
    let (count, size) = first_choice(enabled, 0, singles, actions, &mut room.chosen);
    if count == 0 || count >= TOO_MANY {
        return None;
    }
    let count = count as usize;
    let total = count.checked_mul(size)?;
    if total > chosen.len()
        || !write_parts(
            enabled,
            singles,
            actions,
            count,
            size,
            &mut room.chosen,
            chosen,
        )
    {
        return None;
    }
    Some(Listed { count, size })
}
