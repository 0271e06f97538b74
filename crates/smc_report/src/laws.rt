//! A law of the definitions in `specs/`: the contract of a function that does nothing when called.

ghost use Rattle.std.specs.Prelude.{◌≡◌, ℕ, ◌/◌, Some};
ghost use Rattle.smc_report.specs.declared.reason.Reason.{Reason};
ghost use Rattle.smc_report.specs.Refusals.{row_of, number_in, status_of};

/// Law: the status with which the program ends is the hundreds of the refusal's number.
pub fn status_law()
    ensures { (reason : Reason) (number : ℕ) → number_in (row_of reason) ≡ Some number
        → number / 100 ≡ status_of reason }
{}
