//! Numbers of states, in the order in which they come.

use crate::StateTable;
use std::alloc::{AllocError, Global};
use std::test::Fail;

/// States of two values, and the number of each: the place at which it came first.
static MET: [([i64; 2], u32); 6] = [
    ([0, 0], 0),
    ([-1, 7], 1),
    ([7, -1], 2),
    ([-1, 7], 1),
    ([0, 0], 0),
    ([i64::MIN, i64::MAX], 3),
];

/// Whether each state has its number, and the number the state.
fn have_numbers(alloc: Global) -> Result<bool, AllocError> {
    let mut table = StateTable::new(alloc, 2)?;
    for (state, number) in &MET {
        if table.number_of(state) != Some(*number) {
            return Ok(false);
        }
        if table.get(*number) != Some(state.as_slice()) {
            return Ok(false);
        }
    }
    Ok(table.len() == 4)
}

#[test]
fn a_state_keeps_its_number(rt: HostRuntime) -> Result<(), Fail> {
    assert!(rt; have_numbers(rt.alloc())?);
    Ok(())
}

/// How many states have a number, of so many that come, each of so many equal values.
fn numbered(alloc: Global, width: usize, states: i64) -> Result<usize, AllocError> {
    let mut table = StateTable::new(alloc, width)?;
    for value in 0..states {
        let state = vec![in alloc; value; width]?;
        table.number_of(&state);
    }
    Ok(table.len())
}

/// Values of a state, how many states come, and for how many of them there is room.
static ROOMS: [(usize, i64, usize); 4] = [
    (0, 3, 1),
    (16, 40, 40),
    (262_144, 3, 1),
    (300_000, 2, 1),
];

#[test]
fn there_is_room_for_some_states(rt: HostRuntime) -> Result<(), Fail> {
    for (width, states, count) in &ROOMS {
        assert_eq!(rt; numbered(rt.alloc(), *width, *states)?, *count);
    }
    Ok(())
}
