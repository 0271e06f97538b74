ghost use Rattle.std.specs.Prelude.{◌≡◌};
ghost use Rattle.smc_report.specs.Refusals.{status_for, status_of};

use crate::reason::{Reason, Subject};

/// The status with which the program ends for this reason.
pub(crate) fn status(reason: &Reason) -> u8
    ensures { result ≡ status_of reason.now }
{
    match reason {
        Reason::Usage => 3,
        Reason::ReadFault => 4,
        Reason::TooLong(subject) => status_for(*subject),
        Reason::Lex(subject, _) => status_for(*subject),
        Reason::Parse(subject, _) => status_for(*subject),
        Reason::Expand(subject, _) => status_for(*subject),
        Reason::Const(_) => 5,
        Reason::Type(subject, _) => status_for(*subject),
        Reason::Settings(_) => 7,
    }
}

/// The status of a refusal of this text.
fn status_for(subject: Subject) -> u8
    ensures { result ≡ status_for subject }
{
    match subject {
        Subject::Model => 5,
        Subject::Property => 6,
    }
}
