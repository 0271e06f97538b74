//! What is known of the state that a trace has come to, and what is found out of it.

ghost use Rattle.std.specs.Prelude.{◌≡◌, Ok, Some, IfSome, slice_get, length};
ghost use Rattle.chain_model.specs.declared.job.Job.{Job};
ghost use Rattle.chain_model.specs.States.{State, IsState};
ghost use Rattle.chain_model.specs.Trace.{pair_of};
ghost use Rattle.successors.specs.Nexts.{LeadsTo, LeadsByDraw};
ghost use Rattle.one_trace.specs.Numbers.{IsAt, GoesOnFrom};
ghost use Rattle.one_trace.specs.Rows.{IsRow};
ghost use Rattle.one_trace.specs.Known.{IsKnown};
ghost use Rattle.one_trace.specs.Work.{IsMadeFor};

use crate::known::Known;
use crate::pairs::pair;
use crate::rows::Row;
use crate::work::TraceWork;
use chain_model::{Job, TraceFault};
use successors::Next;

/// What is kept of a state with this pair, from which each step leads to one state.
fn row_of_one(known: &mut Known, pair: (bool, bool), first: &[i64]) -> Row
    requires { length first.now ≡ known.old.table.width }
    ensures row { (job : Job) (state : State) → pair_of job state ≡ Ok pair → LeadsTo job.chain state first.now
        → IsRow job known.new.table.states state result }
    ensures states { GoesOnFrom known.old.table.states known.new.table.states }
    ensures known { (job : Job) → IsKnown job known.old → IsState job.chain first.now → IsKnown job known.new }
{
    match known.number_of(first) {
        Some(number) => Row::One(pair.0, pair.1, number),
        None => Row::Open(pair.0, pair.1),
    }
}

/// What is kept of a state with this pair, from which each step leads to one of two states, as a draw tells.
fn row_of_two(
    known: &mut Known,
    pair: (bool, bool),
    threshold: u64,
    first: &[i64],
    second: &[i64],
) -> Row
    requires first { length first.now ≡ known.old.table.width }
    requires second { length second.now ≡ known.old.table.width }
    ensures row { (job : Job) (state : State) → pair_of job state ≡ Ok pair
        → LeadsByDraw job.chain state threshold first.now second.now → IsRow job known.new.table.states state result }
    ensures states { GoesOnFrom known.old.table.states known.new.table.states }
    ensures known { (job : Job) → IsKnown job known.old → IsState job.chain first.now → IsState job.chain second.now
        → IsKnown job known.new }
{
    let Some(low) = known.number_of(first) else {
        return Row::Open(pair.0, pair.1);
    };
    match known.number_of(second) {
        Some(high) => Row::Drawn(pair.0, pair.1, threshold, low, high),
        None => Row::Open(pair.0, pair.1),
    }
}

/// What can be kept of the state that is written out: its pair, and where a step leads, as far as that is told and there
/// is room for it.
fn row_of(job: &Job, work: &mut TraceWork) -> Row
    requires work { IsMadeFor job.now work.old }
    requires state { IsState job.now.chain work.old.state.items }
    ensures row { IsRow job.now work.new.known.table.states work.old.state.items result }
    ensures states { GoesOnFrom work.old.known.table.states work.new.known.table.states }
    ensures written { work.new.state.items ≡ work.old.state.items }
    ensures work { IsMadeFor job.now work.new }
{
    let Ok(pair) = pair(&work.code, &work.state) else {
        return Row::Once;
    };
    match work
        .stepper
        .next_states(job, &work.state, &mut work.first, &mut work.second)
    {
        Next::Untold => Row::Open(pair.0, pair.1),
        Next::Stays => Row::Stays(pair.0, pair.1),
        Next::One => row_of_one(&mut work.known, pair, &work.first),
        Next::Drawn(threshold) => {
            row_of_two(&mut work.known, pair, threshold, &work.first, &work.second)
        }
    }
}

/// Keeps the choices of a state, which is written out, where they are known and its row doesn't tell where a step leads.
fn keep_choice(job: &Job, work: &mut TraceWork, number: u32, row: Row)
    requires work { IsMadeFor job.now work.old }
    requires state { slice_get work.old.known.table.states number ≡ Some work.old.state.items }
    ensures known { work.new.known ≡ work.old.known }
    ensures written { work.new.state.items ≡ work.old.state.items }
    ensures work { IsMadeFor job.now work.new }
{
    let Row::Open(_, _) = row else {
        return;
    };
    if let Some(listed) = work
        .stepper
        .known_choices(job, &work.state, &mut work.chosen)
    {
        work.kept
            .keep(number, listed, &work.chosen[..listed.count * listed.size]);
    }
}

/// What is known of the state of a number, which is written out. Where it was met before, and no more is known, as much
/// is found out as can be kept.
fn meet(job: &Job, work: &mut TraceWork, number: u32) -> Row
    requires work { IsMadeFor job.now work.old }
    requires state { slice_get work.old.known.table.states number ≡ Some work.old.state.items }
    ensures row { IsRow job.now work.new.known.table.states work.old.state.items result }
    ensures states { GoesOnFrom work.old.known.table.states work.new.known.table.states }
    ensures written { work.new.state.items ≡ work.old.state.items }
    ensures work { IsMadeFor job.now work.new }
{
    match work.known.row_at(Some(number)) {
        Row::New => {
            work.known.keep(number, Row::Once);
            Row::Once
        }
        Row::Once => {
            let row = row_of(job, work);
            work.known.keep(number, row);
            keep_choice(job, work, number, row);
            row
        }
        row => row,
    }
}

/// Writes out the state that a trace has come to, and says its pair.
pub(crate) fn look(
    job: &Job,
    work: &mut TraceWork,
    number: Option<u32>,
) -> Result<(bool, bool), TraceFault>
    requires work { IsMadeFor job.now work.old }
    requires here { (state : State) × IsAt work.old.known.table.states number work.old.state.items state × IsState job.now.chain state }
    ensures pair { result ≡ pair_of job.now work.new.state.items }
    ensures written { (state : State) → IsAt work.old.known.table.states number work.old.state.items state
        → work.new.state.items ≡ state }
    ensures numbered { IfSome number (λ n. slice_get work.new.known.table.states n ≡ Some work.new.state.items) }
    ensures work { IsMadeFor job.now work.new }
{
    let Some(number) = number else {
        return pair(&work.code, &work.state);
    };
    work.known.write_state(number, &mut work.state);
    match meet(job, work, number).pair() {
        Some(known) => Ok(known),
        None => pair(&work.code, &work.state),
    }
}
