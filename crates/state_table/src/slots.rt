//! Where the number of a state may stand: a hash says where to look first, and what stands there is compared.

ghost use Rattle.std.specs.Prelude.{◌≡◌, ◌*◌, ◌<◌, length};
ghost use Rattle.state_table.specs.Slots.{IsSlotOf};

use crate::words::state_at;

/// What is found of a state among the slots.
#[derive(Clone, Copy, Debug, PartialEq, Eq)]
pub(crate) enum Slot {
    /// It has this number.
    Met(u32),
    /// It isn't found, and this slot is free.
    Free(usize),
    /// It isn't found, and there is no free slot near.
    Crowded,
}

/// In a slot: it has no number, since there is no state of this one.
pub(crate) const FREE: u32 = u32::MAX;

/// How many slots are looked at.
const PROBES: u32 = 8;

/// Spreads values well, if multiplied by them: it is odd, and its bits are irregular.
const SPREAD: u64 = 0x9e37_79b9_7f4a_7c15;

/// A number that differs for most states. Four sums take a value each in turn, so that none waits for the one before.
#[inline(always)]
fn hash_of(state: &[i64]) -> u64 {
    let mut first: u64 = 0;
    let mut second: u64 = 0;
    let mut third: u64 = 0;
    let mut fourth: u64 = 0;
    for value in state {
        let next = (u64::rotate_left(first, 5) ^ value.cast_unsigned()).wrapping_mul(SPREAD);
        first = second;
        second = third;
        third = fourth;
        fourth = next;
    }
    let low = first ^ u64::rotate_left(second, 16);
    let high = u64::rotate_left(third, 32) ^ u64::rotate_left(fourth, 48);
    let hash = (low ^ high).wrapping_mul(SPREAD);
    hash ^ (hash >> 32)
}

/// Looks for a state among the slots.
#[inline(always)]
pub(crate) fn find(words: &[i64], width: usize, count: usize, slots: &[u32], state: &[i64]) -> Slot
    requires many { length words.now ≡ count * width }
    requires slots { 0 < length slots.now }
    ensures { IsSlotOf words.now width count (length slots.now) state.now result }
{
    let mask = slots.len() - 1;
    let mut at = hash_of(state) as usize & mask;
    for _probe in 0..PROBES {
        let number = slots[at];
        match state_at(words, width, count, number) {
            None => return Slot::Free(at),
            Some(known) => {
                if known == state {
                    return Slot::Met(number);
                }
            }
        }
        at = (at + 1) & mask;
    }
    Slot::Crowded
}
