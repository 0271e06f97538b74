//! A trace that stays in a state without a choice for ever.

ghost use Rattle.std.specs.Prelude.{◌≡◌, ◌≤◌, List};
ghost use Rattle.chain_model.specs.Paths.{horizon_of};
ghost use Rattle.chain_model.specs.Limits.{most_horizon};
ghost use Rattle.chain_model.specs.Trace.{Pair};
ghost use Rattle.path_monitor.specs.Watching.{HasSeen};
ghost use Rattle.one_trace.specs.Standing.{StandsFor};

use chain_model::Outcome;
use path_monitor::{Monitor, Step, open_law};

/// What a trace says that shows its monitor one pair again and again. The formula speaks of no state past the horizon.
pub(crate) fn stand(monitor: &mut Monitor, horizon: u32, first: bool, second: bool) -> Outcome
    requires horizon { horizon_of monitor.old.kind ≡ horizon }
    requires near { horizon ≤ most_horizon }
    requires seen { (pairs : List Pair) × HasSeen monitor.old pairs }
    ensures { (pairs : List Pair) → HasSeen monitor.old pairs → StandsFor monitor.old.kind pairs (first, second) result }
{
    open_law();
    for _turn in 0..horizon + 1 {
        match monitor.see(first, second) {
            Step::True => return Outcome::True,
            Step::False => return Outcome::False,
            Step::More => {}
        }
    }
    unreachable!()
}
