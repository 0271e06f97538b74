//! What is known of a state that was met.

ghost use Rattle.std.specs.Prelude.{◌≡◌, IfSome, List, Ok};
ghost use Rattle.chain_model.specs.declared.job.Job.{Job};
ghost use Rattle.chain_model.specs.States.{State};
ghost use Rattle.chain_model.specs.Trace.{pair_of};

/// What is known of a state that was met: whether the first state formula holds in it, whether the second does, and where
/// a step leads, by the numbers of states.
#[derive(Clone, Copy, Debug, PartialEq, Eq)]
pub(crate) enum Row {
    /// Nothing: it was not met yet.
    New,
    /// Nothing: it was met once, and may not be met again.
    Once,
    /// The pair is known, and where a step leads isn't.
    Open(bool, bool),
    /// It stays for ever.
    Stays(bool, bool),
    /// Each step leads to the state of this number, and draws nothing.
    One(bool, bool, u32),
    /// Each step draws once, and leads to the first of two states where the draw is below the threshold, else to the
    /// second.
    Drawn(bool, bool, u64, u32, u32),
}

impl Row {
    ghost use Rattle.one_trace.specs.Rows.{IsRow};

    /// The pair, where it is known.
    pub(crate) fn pair(self) -> Option<(bool, bool)>
        ensures { (job : Job) (states : List State) (state : State) → IsRow job states state self
            → IfSome result (λ pair. pair_of job state ≡ Ok pair) }
    {
        match self {
            Row::New | Row::Once => None,
            Row::Open(first, second) => Some((first, second)),
            Row::Stays(first, second) => Some((first, second)),
            Row::One(first, second, _) => Some((first, second)),
            Row::Drawn(first, second, _, _, _) => Some((first, second)),
        }
    }
}
