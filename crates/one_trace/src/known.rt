//! The states that traces have met, and what is known of each.

ghost use Rattle.std.specs.Prelude.{◌≡◌, ◌<◌, ◌≤◌, ◌+◌, ◌-◌, [], Some, IfOk, IfSome, List, length, min, slice_get, vec_capacity, if◌then◌else◌};
ghost use Rattle.state_table.specs.Table.{room_of};
ghost use Rattle.chain_model.specs.declared.job.Job.{Job};
ghost use Rattle.chain_model.specs.States.{State, IsState};
ghost use Rattle.one_trace.specs.Numbers.{IsAt, GoesOnFrom};

use crate::rows::Row;
use state_table::StateTable;
use std::alloc::{AllocError, Global};

/// How many states in a row may come for the first time before none is looked for any more.
const MOST_PATIENCE: u32 = 16_384;

/// For how many of them one that came again makes up.
const WORTH: u32 = 4;

/// What is left of a patience after one state more, by whether it came again.
#[inline(always)]
fn patience_left(patience: u32, again: bool) -> u32
    ensures { result ≡ (if again then min (patience + 4) 16384 else patience - 1) }
{
    if again {
        patience.saturating_add(WORTH).min(MOST_PATIENCE)
    } else {
        patience.saturating_sub(1)
    }
}

/// The states that traces have met, and for each what is known of it. All its memory is taken by `new`. Where hardly any
/// state comes again, none is looked for any more.
#[derive(Debug, Drop)]
pub(crate) struct Known {
    pub(crate) table: StateTable,
    pub(crate) rows: Vec<Row>,
    patience: u32,
    ghost many: { length rows.items ≡ length table.states },
    ghost room: { room_of table.width ≤ vec_capacity rows },
}

impl Known {
    ghost use Rattle.one_trace.specs.Rows.{IsRow};
    ghost use Rattle.one_trace.specs.Known.{IsKnown};

    /// Nothing is known yet, of states of so many values.
    pub(crate) fn new(alloc: Global, width: usize) -> Result<Known, AllocError>
        ensures states { IfOk result (λ known. known.table.states ≡ []) }
        ensures width { IfOk result (λ known. known.table.width ≡ width) }
    {
        let table = StateTable::new(alloc, width)?;
        let rows = Vec::with_capacity(alloc, table.room())?;
        Ok(Known {
            table,
            rows,
            patience: MOST_PATIENCE,
        })
    }

    /// The number of a state, which has one from now on if there is room for it and patience is left.
    pub(crate) fn number_of(&mut self, state: &[i64]) -> Option<u32>
        requires { length state.now ≡ self.old.table.width }
        ensures number { IfSome result (λ number. slice_get self.new.table.states number ≡ Some state.now) }
        ensures states { GoesOnFrom self.old.table.states self.new.table.states }
        ensures width { self.new.table.width ≡ self.old.table.width }
        ensures known { (job : Job) → IsKnown job self.old → IsState job.chain state.now → IsKnown job self.new }
    {
        if self.patience == 0 {
            return None;
        }
        let number = self.table.number_of(state);
        if self.rows.len() == self.table.len() {
            self.patience = patience_left(self.patience, number.is_some());
            return number;
        }
        self.patience = patience_left(self.patience, false);
        self.rows.push_reserved(Row::New);
        number
    }

    /// What is known of the state of a number; nothing, where there is none.
    #[inline(always)]
    pub(crate) fn row_at(&self, number: Option<u32>) -> Row
        requires { IfSome number (λ number. number < length self.now.table.states) }
        ensures { (job : Job) (written state : State) → IsKnown job self.now → IsAt self.now.table.states number written state
            → IsRow job self.now.table.states state result }
    {
        match number {
            Some(number) => self.rows[number as usize],
            None => Row::New,
        }
    }

    /// Writes out the state of a number.
    pub(crate) fn write_state(&self, number: u32, state: &mut [i64])
        requires some { number < length self.now.table.states }
        requires long { IfSome (slice_get self.now.table.states number) (λ known. length known ≡ length state.old) }
        ensures { slice_get self.now.table.states number ≡ Some state.new }
    {
        match self.table.get(number) {
            Some(known) => state.copy_from_slice(known),
            None => unreachable!(),
        }
    }

    /// Keeps what is known of the state of a number.
    pub(crate) fn keep(&mut self, number: u32, row: Row)
        requires { number < length self.old.table.states }
        ensures table { self.new.table ≡ self.old.table }
        ensures known { (job : Job) (state : State) → IsKnown job self.old → slice_get self.old.table.states number ≡ Some state
            → IsRow job self.old.table.states state row → IsKnown job self.new }
    {
        self.rows[number as usize] = row;
    }
}
