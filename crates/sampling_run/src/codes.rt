//! What a run is told of one trace.

ghost use Rattle.std.specs.Prelude.{◌≡◌, ◌↔◌, Some, ℕ};
ghost use Rattle.chain_model.specs.declared.job.Job.{Job};
ghost use Rattle.chain_model.specs.declared.outcome.TraceFault.{TraceFault};
ghost use Rattle.chain_model.specs.declared.outcome.Outcome.{Outcome};
ghost use Rattle.chain_model.specs.Outcome.{IsOutcome};
ghost use Rattle.stop_rules.specs.Codes.{IsBlockCode};

use chain_model::{Outcome, TraceFault};

/// The code of a block of one trace, whose outcome is this.
pub(crate) fn code_of_one(outcome: &Outcome) -> u64
    ensures { (job : Job) (trace : ℕ) → IsOutcome job trace outcome.now → IsBlockCode (IsOutcome job) trace 1 result }
{
    match outcome {
        Outcome::True => 0x8000_0001_0000_0001,
        Outcome::False => 0x8000_0001_0000_0000,
        Outcome::Fault { .. } => 0x8000_0000_0000_0000,
    }
}

/// The step and the fault of an outcome that is one.
pub(crate) fn fault_of(outcome: &Outcome) -> Option<(u32, TraceFault)>
    ensures { (step : ℕ) (fault : TraceFault)
        → (result ≡ Some (step, fault)) ↔ (outcome.now ≡ Outcome.Fault step fault) }
{
    match outcome {
        Outcome::Fault { step, fault } => Some((*step, *fault)),
        Outcome::True | Outcome::False => None,
    }
}
