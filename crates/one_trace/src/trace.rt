//! One trace of a job.

ghost use Rattle.std.specs.Prelude.{◌≡◌, length};
ghost use Rattle.chain_model.specs.declared.job.Job.{Job};
ghost use Rattle.chain_model.specs.States.{initial_of};
ghost use Rattle.chain_model.specs.Outcome.{IsOutcome};
ghost use Rattle.one_trace.specs.Work.{IsMadeFor};
ghost use Rattle.one_trace.specs.Numbers.{IsAt};

use crate::visits::{Visited, visit};
use crate::work::TraceWork;
use chain_model::{Job, Outcome};
use path_monitor::{Monitor, open_law};
use trace_streams::Draws;

/// What trace number `trace` of a job says of the path formula: the value at the first of its states at which it is
/// settled, or the fault that came first. It takes no memory.
#[inline(never)]
pub fn outcome(job: &Job, trace: u64, work: &mut TraceWork) -> Outcome
    requires { IsMadeFor job.now work.old }
    ensures outcome { IsOutcome job.now trace result }
    ensures work { IsMadeFor job.now work.new }
{
    open_law();
    let mut number = start(work);
    let mut draws = Draws::new(job.seed, trace);
    let mut monitor = Monitor::new(&job.path);
    for step in 0..job.path.kind.horizon() + 1 {
        match visit(job, work, number, &mut draws, &mut monitor, step) {
            Visited::Settled(outcome) => return outcome,
            Visited::At(next) => number = next,
        }
    }
    unreachable!()
}

/// The number of the initial state, which is written out where it has none.
fn start(work: &mut TraceWork) -> Option<u32>
    requires { length work.old.state.items ≡ length work.old.initial.items }
    ensures state { (job : Job) → IsMadeFor job work.old
        → IsAt work.new.known.table.states result work.new.state.items (initial_of job.chain) }
    ensures work { (job : Job) → IsMadeFor job work.old → IsMadeFor job work.new }
{
    match work.start {
        Some(number) => Some(number),
        None => {
            work.state.copy_from_slice(work.initial.as_slice());
            None
        }
    }
}
