ghost use Rattle.std.specs.Prelude.{◌≡◌, ◌≢◌, ◌<◌, ◌≤◌, ◌↔◌, IsOk, IsErrOf, IfOk};

use crate::class::Class;
use crate::fault::PlanFault;
use std::marker::Model;

/// A single sampling plan: at most `samples` traces are drawn, and the hypothesis is accepted where
/// more of them succeed than the acceptance number. The sample is curtailed: as soon as the counts
/// decide, the rest need not be drawn (Wald, Sequential Analysis, 1947).
#[derive(Clone, Copy, Debug, PartialEq, Eq)]
pub struct Plan {
    samples: u64,
    acceptance_number: u64,
}

impl Model for Plan {
    ghost use Rattle.std.specs.Prelude.{◌<◌};
    ghost use Rattle.sampling_plan.specs.SinglePlan.{SinglePlan};

    ghost Value = { SinglePlan };

    ghost view = { λ p. record { samples = p.samples; acceptance_number = p.acceptance_number } };

    ghost inverse = { λ p. record { samples = p.samples; acceptance_number = p.acceptance_number } };

    ghost invariant = { λ p. p.acceptance_number < p.samples };
}

impl Plan {
    ghost use Rattle.sampling_plan.specs.Decision.{Accepts, CannotAccept, class_of};

    /// The plan of `samples` traces at most with this acceptance number, which has to be below the
    /// number of samples; otherwise `PlanFault::BadPlan`.
    pub fn new(samples: u64, acceptance_number: u64) -> Result<Self, PlanFault>
        ensures valid { IsOk result ↔ (acceptance_number < samples) }
        ensures bad { IsErrOf result PlanFault.BadPlan ↔ (samples ≤ acceptance_number) }
        ensures samples { IfOk result (λ plan. plan.samples ≡ samples) }
        ensures number { IfOk result (λ plan. plan.acceptance_number ≡ acceptance_number) }
    {
        if acceptance_number >= samples {
            return Err(PlanFault::BadPlan);
        }
        Ok(Plan {
            samples,
            acceptance_number,
        })
    }

    /// How many traces are drawn at most.
    pub fn samples(&self) -> u64
        ensures value { result ≡ self.now.samples }
        ensures positive { self.now.acceptance_number < result }
    {
        self.samples
    }

    /// The number that the successes have to pass for the hypothesis to be accepted.
    pub fn acceptance_number(&self) -> u64
        ensures value { result ≡ self.now.acceptance_number }
        ensures below { result < self.now.samples }
    {
        self.acceptance_number
    }

    /// What the plan decides after these counts. `Accept` comes before `Reject`: counts that no
    /// sample of this size reaches can meet both.
    pub fn class(&self, successes: u64, failures: u64) -> Class
        ensures value { result ≡ class_of self.now successes failures }

        ensures accept { (result ≡ Class.Accept) ↔ Accepts self.now successes }
        ensures reject { (result ≡ Class.Reject)
            ↔ ((¬ Accepts self.now successes) × CannotAccept self.now failures) }
        ensures go { (result ≡ Class.Go)
            ↔ ((¬ Accepts self.now successes) × (¬ CannotAccept self.now failures)) }
        ensures decided { result ≢ Class.Close }
    {
        if successes > self.acceptance_number {
            Class::Accept
        } else if failures >= self.samples - self.acceptance_number {
            Class::Reject
        } else {
            Class::Go
        }
    }
}
