//! The state that a trace has come to: what its pair says, and where a step leads.

ghost use Rattle.std.specs.Prelude.{◌≡◌, ◌≤◌, ◌+◌, ◌<◌, ◌^◌, [], Ok, Some, IfSome, nat_lt, if◌then◌else◌, slice_get};
ghost use Rattle.trace_streams.specs.Draws.{draw_at};
ghost use Rattle.chain_model.specs.Paths.{horizon_of};
ghost use Rattle.chain_model.specs.States.{IsState};
ghost use Rattle.chain_model.specs.Choices.{choices_of};
ghost use Rattle.successors.specs.Moves.{next_of, came};
ghost use Rattle.one_trace.specs.Work.{IsMadeFor};
ghost use Rattle.one_trace.specs.Underway.{IsVisited};

use crate::judging::judge;
use crate::meeting::look;
use crate::rows::Row;
use crate::standing::stand;
use crate::work::TraceWork;
use chain_model::{
    Job, Outcome, TraceFault, stays_without_choice, steps_draw_few, traces_keep_ranges,
};
use path_monitor::Monitor;
use successors::Moved;
use trace_streams::{Draws, draws_are_words};

/// What is found out where a trace has come to a state.
#[derive(Clone, Copy, Debug)]
pub(crate) enum Visited {
    /// The formula is settled, or no further state can be made.
    Settled(Outcome),
    /// The trace goes on at the state of this number, or at the one that is written out.
    At(Option<u32>),
}

ghost use Rattle.one_trace.specs.Visits.{IsUnderwayAt, IsComeTo};

/// The number of the state that one draw tells.
#[inline(always)]
fn drawn_number(draws: &mut Draws, threshold: u64, low: u32, high: u32) -> u32
    requires { draws.old.place < 2 ^ 62 }
    ensures number { result ≡ (if nat_lt (draw_at draws.old.seed draws.old.trace draws.old.place) threshold then low else high) }
    ensures moves { draws.new ≡ record draws.old { place = draws.old.place + 1 } }
{
    if draws.next() < threshold { low } else { high }
}

/// Looks at the state that a trace has come to after so many steps, and goes on to the next one where nothing is settled.
#[inline(always)]
pub(crate) fn visit(
    job: &Job,
    work: &mut TraceWork,
    number: Option<u32>,
    draws: &mut Draws,
    monitor: &mut Monitor,
    step: u32,
) -> Visited
    requires work { IsMadeFor job.now work.old }
    requires near { step ≤ horizon_of job.now.path.kind }
    requires underway { IsUnderwayAt job.now draws.old.trace step monitor.old work.old.known.table.states number
        work.old.state.items draws.old }
    ensures comes { IsComeTo job.now draws.old.trace (step + 1) monitor.new work.new.known.table.states work.new.state.items
        draws.new result }
    ensures trace { draws.new.trace ≡ draws.old.trace }
    ensures work { IsMadeFor job.now work.new }
{
    draws_are_words();
    steps_draw_few();
    traces_keep_ranges();
    stays_without_choice();
    match work.known.row_at(number) {
        Row::Drawn(first, second, threshold, low, high) => match judge(monitor, first, second) {
            Some(outcome) => Visited::Settled(outcome),
            None => Visited::At(Some(drawn_number(draws, threshold, low, high))),
        },
        Row::One(first, second, next) => match judge(monitor, first, second) {
            Some(outcome) => Visited::Settled(outcome),
            None => Visited::At(Some(next)),
        },
        Row::Stays(first, second) => match judge(monitor, first, second) {
            Some(outcome) => Visited::Settled(outcome),
            None => Visited::Settled(stand(monitor, job.path.kind.horizon(), first, second)),
        },
        Row::New | Row::Once | Row::Open(_, _) => {
            visit_state(job, work, number, draws, monitor, step)
        }
    }
}

/// The same, where no row tells all of the state.
#[inline(never)]
fn visit_state(
    job: &Job,
    work: &mut TraceWork,
    number: Option<u32>,
    draws: &mut Draws,
    monitor: &mut Monitor,
    step: u32,
) -> Visited
    requires work { IsMadeFor job.now work.old }
    requires near { step ≤ horizon_of job.now.path.kind }
    requires underway { IsUnderwayAt job.now draws.old.trace step monitor.old work.old.known.table.states number
        work.old.state.items draws.old }
    ensures comes { IsComeTo job.now draws.old.trace (step + 1) monitor.new work.new.known.table.states work.new.state.items
        draws.new result }
    ensures trace { draws.new.trace ≡ draws.old.trace }
    ensures work { IsMadeFor job.now work.new }
{
    let (first, second) = match look(job, work, number) {
        Ok(pair) => pair,
        Err(fault) => return Visited::Settled(Outcome::Fault { step, fault }),
    };
    match judge(monitor, first, second) {
        Some(outcome) => Visited::Settled(outcome),
        None => advance(job, work, number, draws, monitor, step, (first, second)),
    }
}

/// Makes a step from the state that is written out, which has this number if any, and says whether a choice was taken.
/// Where its choices are known, no guard is evaluated.
fn make_step(
    job: &Job,
    work: &mut TraceWork,
    number: Option<u32>,
    draws: &mut Draws,
) -> Result<Moved, TraceFault>
    requires work { IsMadeFor job.now work.old }
    requires numbered { IfSome number (λ n. slice_get work.old.known.table.states n ≡ Some work.old.state.items) }
    requires state { IsState job.now.chain work.old.state.items }
    requires place { draws.old.place + 65 ≤ 2 ^ 62 }
    ensures step { came result work.new.state.items draws.new.place
        ≡ next_of job.now.chain (draw_at draws.old.seed draws.old.trace)
        (record { state = work.old.state.items; position = draws.old.place }) }
    ensures stayed { result ≡ Ok Moved.Stayed → choices_of job.now.chain work.old.state.items ≡ Ok [] }
    ensures keeps { IsState job.now.chain work.new.state.items }
    ensures stream { draws.new ≡ record draws.old { place = draws.new.place } }
    ensures known { work.new.known ≡ work.old.known }
    ensures work { IsMadeFor job.now work.new }
{
    let Some((listed, commands)) = work.kept.choices_of(number) else {
        return work.stepper.advance(job, &mut work.state, draws);
    };
    match work
        .stepper
        .take_known(job, listed, commands, &mut work.state, draws)
    {
        Ok(()) => Ok(Moved::Taken),
        Err(fault) => Err(fault),
    }
}

/// Makes the next state of a trace from the one that is written out. Where that has no choice it stays for ever, and so
/// does its pair.
fn advance(
    job: &Job,
    work: &mut TraceWork,
    number: Option<u32>,
    draws: &mut Draws,
    monitor: &mut Monitor,
    step: u32,
    pair: (bool, bool),
) -> Visited
    requires work { IsMadeFor job.now work.old }
    requires numbered { IfSome number (λ n. slice_get work.old.known.table.states n ≡ Some work.old.state.items) }
    requires near { step ≤ horizon_of job.now.path.kind }
    requires visited { IsVisited job.now draws.old.trace step monitor.old work.old.state.items draws.old pair }
    ensures comes { IsComeTo job.now draws.old.trace (step + 1) monitor.new work.new.known.table.states work.new.state.items
        draws.new result }
    ensures trace { draws.new.trace ≡ draws.old.trace }
    ensures work { IsMadeFor job.now work.new }
{
    steps_draw_few();
    traces_keep_ranges();
    stays_without_choice();
    match make_step(job, work, number, draws) {
        Ok(Moved::Taken) => Visited::At(work.known.number_of(&work.state)),
        Ok(Moved::Stayed) => {
            Visited::Settled(stand(monitor, job.path.kind.horizon(), pair.0, pair.1))
        }
        Err(fault) => Visited::Settled(Outcome::Fault {
            step: step + 1,
            fault,
        }),
    }
}
