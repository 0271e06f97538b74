//! For how many states there is room.

ghost use Rattle.std.specs.Prelude.{◌≡◌};
ghost use Rattle.state_table.specs.Table.{room_of};

/// The most states of a table.
const MOST_STATES: usize = 32_768;

/// The most values of a table, but for one state, for which there is always room.
const MOST_WORDS: usize = 262_144;

/// For how many states of so many values there is room.
pub(crate) fn room_of(width: usize) -> usize
    ensures { result ≡ room_of width }
{
    (MOST_WORDS / width.max(1)).min(MOST_STATES).max(1)
}
