ghost use Rattle.std.specs.Prelude.{◌≡◌, ◌≤◌, ◌<◌, ◌^◌};
ghost use Rattle.stop_rules.specs.Observers.{batches};

use crate::line::Line;
use crate::observer::{Observer, Stay};

/// Observes batches of `size` traces: how many were full, and how many traces succeeded in a full one at
/// least and at most.
#[derive(Debug, Drop)]
pub struct Batches {
    size: u64,
    seen: u64,
    trues: u64,
    full: u64,
    least: u64,
    most: u64,
    ghost small: { size ≤ 2 ^ 28 },
    ghost partial: { seen < size },
    ghost some_true: { trues ≤ seen },
    ghost least_within: { least ≤ size },
    ghost most_within: { most ≤ size },
}

impl Batches {
    /// An observer of batches of this size that has seen nothing yet.
    pub fn new(size: u64) -> Self
        requires some { 1 ≤ size }
        requires small { size ≤ 2 ^ 28 }
        ensures { ⟦<Batches as Observer>⟧.observation result ≡ batches size 0 0 0 0 0 }
    {
        Batches {
            size,
            seen: 0,
            trues: 0,
            full: 0,
            least: 0,
            most: 0,
        }
    }
}

impl Observer for Batches {
    ghost observation = { λ o. batches o.size o.seen o.trues o.full o.least o.most };

    fn feed(&mut self, bit: bool) -> Stay {
        let seen = self.seen + 1;
        let trues = self.trues + u64::from(bit);
        if seen < self.size {
            self.seen = seen;
            self.trues = trues;
        } else {
            self.least = if self.full == 0 {
                trues
            } else {
                self.least.min(trues)
            };
            self.most = self.most.max(trues);
            self.full = self.full.saturating_add(1);
            self.seen = 0;
            self.trues = 0;
        }
        Stay::Keep
    }

    #[tactic(auto, using(crate::proofs::LineLemmas::nine_digits, crate::proofs::LineLemmas::twenty_digits))]
    fn line(&self, out: &mut Line) {
        out.set(b"batches of ");
        out.append_number(self.size);
        out.append(b": ");
        out.append_number(self.full);
        out.append(b" full, least ");
        out.append_number(self.least);
        out.append(b", most ");
        out.append_number(self.most);
    }
}
