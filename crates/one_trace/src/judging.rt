//! What the pair of a state says.

ghost use Rattle.std.specs.Prelude.{IfSome, IfNone};
ghost use Rattle.one_trace.specs.Visits.{SettlesAs, LeavesOpen};

use chain_model::Outcome;
use path_monitor::{Monitor, Step};

/// Shows a monitor the pair of the state that a trace has come to. Told is the outcome, where that settles it.
#[inline(always)]
pub(crate) fn judge(monitor: &mut Monitor, first: bool, second: bool) -> Option<Outcome>
    ensures settled { IfSome result (SettlesAs monitor.old (first, second)) }
    ensures open { IfNone result (LeavesOpen monitor.old monitor.new (first, second)) }
{
    match monitor.see(first, second) {
        Step::True => Some(Outcome::True),
        Step::False => Some(Outcome::False),
        Step::More => None,
    }
}
