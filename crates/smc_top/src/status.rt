ghost use Rattle.std.specs.Prelude.{◌≡◌};
ghost use Rattle.smc_report.specs.Refusals.{status_of};
ghost use Rattle.smc_top.specs.Codes.{code_of};
ghost use Rattle.smc_top.specs.Report.{status_of_run};

use smc_report::Refusal;
use stop_rules::Cause;

/// How the program ends.
#[derive(Clone, Copy, Debug, PartialEq, Eq)]
pub enum Status {
    /// The run accepts the claim, or another command is done.
    Accepted,
    /// The run rejects the claim.
    Rejected,
    /// The run ends at the limit, or too close to a boundary to decide; the report says which.
    Undecided,
    /// The words can't be read.
    Usage,
    /// The source failed.
    ReadFault,
    /// The model's text is refused.
    ModelRefused,
    /// The property is refused.
    PropertyRefused,
    /// The settings of the test are refused.
    SettingsRefused,
    /// A trace faulted.
    TraceFault,
    /// The sink failed.
    WriteFault,
    /// Memory ran out; nothing was written.
    OutOfMemory,
}

impl Status {
    /// The exit status of the program.
    pub fn code(&self) -> u8
        ensures { result ≡ code_of self.now }
    {
        match self {
            Status::Accepted => 0,
            Status::Rejected => 1,
            Status::Undecided => 2,
            Status::Usage => 3,
            Status::ReadFault => 4,
            Status::ModelRefused => 5,
            Status::PropertyRefused => 6,
            Status::SettingsRefused => 7,
            Status::TraceFault => 8,
            Status::WriteFault => 9,
            Status::OutOfMemory => 10,
        }
    }

    /// The status of a refusal.
    pub(crate) fn of_refusal(refusal: &Refusal) -> Status
        ensures { code_of result ≡ status_of refusal.now }
    {
        match refusal.status() {
            3 => Status::Usage,
            4 => Status::ReadFault,
            5 => Status::ModelRefused,
            6 => Status::PropertyRefused,
            _ => Status::SettingsRefused,
        }
    }

    /// The status of a run with this cause.
    pub(crate) fn of_run(cause: Cause) -> Status
        ensures { result ≡ status_of_run cause }
    {
        match cause {
            Cause::Accept => Status::Accepted,
            Cause::Reject => Status::Rejected,
            Cause::Close | Cause::Limit => Status::Undecided,
            Cause::Fault => Status::TraceFault,
        }
    }
}
