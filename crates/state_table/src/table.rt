//! A table of states.

ghost use Rattle.std.specs.Prelude.{◌≡◌, ◌≤◌, [], IfOk, IfSome, IfNone, Some, length, slice_get};
ghost use Rattle.std.specs.Option.{option_map};
ghost use Rattle.state_table.specs.Table.{room_of, AddsAtMost};

use crate::room::room_of;
use crate::slots::{FREE, Slot, find};
use crate::words::state_at;
use std::alloc::{AllocError, Global};
use std::marker::Model;

/// States that were met, in the order in which they came, each of so many values. All its memory is taken by `new`.
#[derive(Debug, Drop)]
pub struct StateTable {
    width: usize,
    room: usize,
    count: usize,
    words: Vec<i64>,
    slots: Vec<u32>,
}

impl Model for StateTable {
    ghost use Rattle.std.specs.Prelude.{◌≡◌, ◌*◌, ◌<◌, ◌≤◌, length, vec_capacity};
    ghost use Rattle.state_table.specs.Table.{Table, states_of, room_of};

    ghost Value = { Table };

    ghost view = { λ t. record { width = t.width; states = states_of t.width t.count t.words.items } };

    ghost invariant = { λ t. (t.room ≡ room_of t.width) × (t.count ≤ t.room)
        × (length t.words.items ≡ t.count * t.width) × (t.room * t.width ≤ vec_capacity t.words)
        × (0 < length t.slots.items) };
}

impl StateTable {
    /// A table of no states yet, each of which is to have so many values.
    pub fn new(alloc: Global, width: usize) -> Result<StateTable, AllocError>
        ensures { IfOk result (λ table. table ≡ record { width = width; states = [] }) }
    {
        let room = room_of(width);
        let words = Vec::with_capacity(alloc, room * width)?;
        let slots = vec![in alloc; FREE; (2 * room).next_power_of_two()]?;
        Ok(StateTable {
            width,
            room,
            count: 0,
            words,
            slots,
        })
    }

    /// For how many states there is room.
    pub fn room(&self) -> usize
        ensures { result ≡ room_of self.now.width }
    {
        self.room
    }

    /// How many states there are.
    pub fn len(&self) -> usize
        ensures { result ≡ length self.now.states }
    {
        self.count
    }

    /// The state of a number.
    #[inline(always)]
    pub fn get(&self, number: u32) -> Option<&[i64]>
        ensures { option_map (λ state. state.now) result ≡ slice_get self.now.states number }
    {
        state_at(&self.words, self.width, self.count, number)
    }

    /// The number of a state, which is added where it isn't there yet. `None` where there is no room for it, or so little
    /// that it isn't found at once.
    pub fn number_of(&mut self, state: &[i64]) -> Option<u32>
        requires { length state.now ≡ self.old.width }
        ensures number { IfSome result (λ number. slice_get self.new.states number ≡ Some state.now) }
        ensures states { AddsAtMost self.old.states self.new.states state.now }
        ensures none { IfNone result (self.new.states ≡ self.old.states) }
        ensures room { length self.new.states ≤ room_of self.new.width }
        ensures width { self.new.width ≡ self.old.width }
    {
        match find(&self.words, self.width, self.count, &self.slots, state) {
            Slot::Met(number) => Some(number),
            Slot::Free(at) => {
                if self.count == self.room {
                    return None;
                }
                let number = self.count as u32;
                self.words.extend_from_slice(state).unwrap();
                self.slots[at] = number;
                self.count += 1;
                Some(number)
            }
            Slot::Crowded => None,
        }
    }
}
