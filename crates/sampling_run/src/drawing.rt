//! The run of a job.

ghost use Rattle.std.specs.Prelude.{◌≡◌, ◌+◌, ◌≤◌, IsTrue, IfOk, map};
ghost use Rattle.std.specs.List.{list_all};
ghost use Rattle.stop_rules.specs.Observers.{is_ready};
ghost use Rattle.stop_rules.specs.Run.{EndsRun};
ghost use Rattle.one_trace.specs.Work.{IsMadeFor};
ghost use Rattle.sampling_run.specs.Drawn.{AreLines, IsFaultOf};

use crate::codes::{code_of_one, fault_of};
use chain_model::{Job, TraceFault};
use one_trace::{TraceWork, outcome};
use std::alloc::{AllocError, Global};
use stop_rules::{Admit, End, Goal, Line, Observer};

/// What drawing the traces of a job gives.
#[derive(Drop)]
pub struct Drawn {
    /// The end of the run.
    pub end: End,
    /// Where the run ended by a fault, the number of the state that was to be made, and the fault.
    pub fault: Option<(u32, TraceFault)>,
    /// What the observers say, in the order in which they were handed in.
    pub lines: Vec<Line>,
}

/// Draws the traces of a job one by one, up to the one that ends the run. Memory is taken before the first.
pub fn draw(
    alloc: Global,
    job: &Job,
    goal: Goal,
    watch: Vec<Box<dyn Observer>>,
) -> Result<Drawn, AllocError>
    requires ready { IsTrue (list_all is_ready (map (λ b. observation b) watch.items)) }
    ensures end { IfOk result (λ drawn. EndsRun job.now goal drawn.end) }
    ensures few { IfOk result (λ drawn. drawn.end.d + drawn.end.f ≤ goal.limit) }
    ensures fault { IfOk result (λ drawn. IsFaultOf job.now drawn.end drawn.fault) }
    ensures lines { IfOk result (λ drawn.
        AreLines job.now goal (map (λ b. observation b) watch.items) drawn.end drawn.lines.items) }
{
    let mut work = TraceWork::new(alloc, job)?;
    draw_in(alloc, job, &mut work, goal, watch)
}

/// Draws the traces of a job in the memory that was made for it.
fn draw_in(
    alloc: Global,
    job: &Job,
    work: &mut TraceWork,
    goal: Goal,
    watch: Vec<Box<dyn Observer>>,
) -> Result<Drawn, AllocError>
    requires work { IsMadeFor job.now work.old }
    requires ready { IsTrue (list_all is_ready (map (λ b. observation b) watch.items)) }
    ensures end { IfOk result (λ drawn. EndsRun job.now goal drawn.end) }
    ensures few { IfOk result (λ drawn. drawn.end.d + drawn.end.f ≤ goal.limit) }
    ensures fault { IfOk result (λ drawn. IsFaultOf job.now drawn.end drawn.fault) }
    ensures lines { IfOk result (λ drawn.
        AreLines job.now goal (map (λ b. observation b) watch.items) drawn.end drawn.lines.items) }
{
    let limit = goal.limit;
    let mut admit = Admit::new(alloc, goal, watch)?;
    for trace in 0..limit {
        let outcome = outcome(job, trace, work);
        if let Some(end) = admit.feed_code(code_of_one(&outcome), 1) {
            return Ok(Drawn {
                end,
                fault: fault_of(&outcome),
                lines: admit.finish(),
            });
        }
    }
    unreachable!()
}
