ghost use Rattle.std.specs.Prelude.{◌≡◌};
ghost use Rattle.stop_rules.specs.Observers.{longest_run};

use crate::line::Line;
use crate::observer::{Observer, Stay};

/// Observes how many successes came in a row at most.
#[derive(Debug, Drop)]
pub struct LongestRun {
    run: u64,
    best: u64,
}

impl LongestRun {
    /// An observer that has seen nothing yet.
    pub fn new() -> Self
        ensures { ⟦<LongestRun as Observer>⟧.observation result ≡ longest_run 0 0 }
    {
        LongestRun { run: 0, best: 0 }
    }
}

impl Observer for LongestRun {
    ghost observation = { λ o. longest_run o.run o.best };

    fn feed(&mut self, bit: bool) -> Stay {
        self.run = if bit { self.run.saturating_add(1) } else { 0 };
        self.best = self.best.max(self.run);
        Stay::Keep
    }

    #[tactic(auto, using(crate::proofs::LineLemmas::twenty_digits))]
    fn line(&self, out: &mut Line) {
        out.set(b"longest run of true: ");
        out.append_number(self.best);
    }
}
