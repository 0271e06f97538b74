ghost use Rattle.std.specs.Prelude.{◌≡◌, ◌↔◌, Some, IsOk, IsSome, IfOk};

use crate::reason::Reason;
use crate::row_numbers::number;
use crate::statuses::status;
use std::alloc::AllocError;
use std::marker::Model;

/// A refusal: why there is no run. It is never want of memory. Contracts see the reason.
#[derive(Debug, Drop)]
pub struct Refusal {
    reason: Reason,
}

impl Model for Refusal {
    ghost use Rattle.std.specs.Prelude.{IsSome};
    ghost use Rattle.smc_report.specs.declared.reason.Reason.{Reason};
    ghost use Rattle.smc_report.specs.Refusals.{row_of};

    ghost Value = { Reason };

    ghost view = { λ refusal. refusal.reason };

    ghost invariant = { λ refusal. IsSome (row_of refusal.reason) };
}

impl Refusal {
    ghost use Rattle.smc_report.specs.Refusals.{row_of, number_in, status_of};

    /// The refusal for this reason, or want of memory, where the reason is that.
    pub fn new(reason: Reason) -> Result<Refusal, AllocError>
        ensures refused { IsOk result ↔ IsSome (row_of reason) }
        ensures reason { IfOk result (λ refusal. refusal ≡ reason) }
    {
        match number(&reason) {
            Some(_) => Ok(Refusal { reason }),
            None => Err(AllocError),
        }
    }

    /// Why there is no run.
    pub fn reason(&self) -> &Reason
        ensures reason { result.now ≡ self.now }
        ensures refused { IsSome (row_of result.now) }
    {
        &self.reason
    }

    /// The number of the refusal.
    pub fn number(&self) -> u32
        ensures { number_in (row_of self.now) ≡ Some result }
    {
        match number(&self.reason) {
            Some(number) => number,
            None => unreachable!(),
        }
    }

    /// The status with which the program ends: 3 for words, 4 for a read, 5 for the model, 6 for the property, 7 for
    /// settings.
    pub fn status(&self) -> u8
        ensures { result ≡ status_of self.now }
    {
        status(&self.reason)
    }
}
