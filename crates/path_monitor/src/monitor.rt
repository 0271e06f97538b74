ghost use Rattle.std.specs.Prelude.{◌≡◌, ◌<◌, ◌^◌, ◌++◌, ◌∷◌, [], List};
ghost use Rattle.chain_model.specs.Paths.{horizon_of};
ghost use Rattle.chain_model.specs.Trace.{Pair};
ghost use Rattle.path_monitor.specs.Watching.{HasSeen, Judges};
ghost use Rattle.path_monitor.specs.Verdicts.{verdict_of, last, next_number};
ghost use Rattle.path_monitor.specs.declared.step.Step.TheVariants.{More};

use crate::step::Step;
use chain_model::{Path, PathKind};

/// A monitor of one trace: the path formula, and how many pairs it has seen.
#[derive(Clone, Copy, Debug)]
pub struct Monitor {
    pub(crate) kind: PathKind,
    pub(crate) seen: u32,
}

impl Monitor {
    /// A monitor that has seen no pair yet.
    pub fn new(path: &Path) -> Monitor
        ensures kind { result.kind ≡ path.now.kind }
        ensures seen { HasSeen result [] }
    {
        Monitor {
            kind: path.kind,
            seen: 0,
        }
    }

    /// What the pairs so far and this further one say: the truth of the first and of the second state formula in the
    /// next state.
    pub fn see(&mut self, first: bool, second: bool) -> Step
        ensures verdict { result ≡ verdict_of self.old.kind self.old.seen first second }
        ensures judged { (pairs : List Pair) → HasSeen self.old pairs
            → Judges self.old.kind (pairs ++ ((first, second) ∷ [])) result }
        ensures seen { (pairs : List Pair) → HasSeen self.old pairs → result ≡ More
            → HasSeen self.new (pairs ++ ((first, second) ∷ [])) }
        ensures number { self.new.seen ≡ next_number self.old.kind self.old.seen }
        ensures kind { self.new.kind ≡ self.old.kind }
    {
        let step = verdict(self.kind, self.seen, first, second);
        self.seen = next_number(self.kind, self.seen);
        step
    }
}

/// The number of the next pair, up to the last that counts.
pub(crate) fn next_number(kind: PathKind, number: u32) -> u32
    ensures { result ≡ next_number kind number }
{
    let horizon = match kind {
        PathKind::Next => 1,
        PathKind::Until(horizon) | PathKind::Finally(horizon) | PathKind::Globally(horizon) =>
            horizon,
    };
    if number < horizon { number + 1 } else { number }
}

/// What a pair says after so many others that settle nothing.
fn verdict(kind: PathKind, seen: u32, first: bool, second: bool) -> Step
    ensures { result ≡ verdict_of kind seen first second }
{
    match kind {
        PathKind::Next => last(seen != 0, second),
        PathKind::Finally(horizon) => {
            if second {
                Step::True
            } else {
                last(seen == horizon, false)
            }
        }
        PathKind::Globally(horizon) => {
            if second {
                last(seen == horizon, true)
            } else {
                Step::False
            }
        }
        PathKind::Until(horizon) => {
            if second {
                Step::True
            } else {
                last(seen == horizon || !first, false)
            }
        }
    }
}

/// This truth value, where the pair is the last that counts.
fn last(is_last: bool, truth: bool) -> Step
    ensures { result ≡ last is_last truth }
{
    if !is_last {
        Step::More
    } else if truth {
        Step::True
    } else {
        Step::False
    }
}
