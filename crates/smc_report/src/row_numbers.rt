ghost use Rattle.std.specs.Prelude.{◌≡◌, ◌<◌, option_map};
ghost use Rattle.std.specs.Option.{ForSome};
ghost use Rattle.smc_report.specs.Refusals.{number_for, row_of, number_in};

use crate::family_numbers::{
    const_number, expand_number, lex_number, parse_number, settings_number, type_number,
};
use crate::reason::{Reason, Subject};

/// The number of the refusal for this reason; want of memory has none.
pub(crate) fn number(reason: &Reason) -> Option<u32>
    ensures { result ≡ number_in (row_of reason.now) }
{
    match reason {
        Reason::Usage => Some(300),
        Reason::ReadFault => Some(400),
        Reason::TooLong(subject) => for_text(*subject, Some(500)),
        Reason::Lex(subject, fault) => for_text(*subject, lex_number(fault)),
        Reason::Parse(subject, fault) => for_text(*subject, parse_number(fault)),
        Reason::Expand(subject, fault) => for_text(*subject, expand_number(fault)),
        Reason::Const(fault) => const_number(fault),
        Reason::Type(subject, fault) => for_text(*subject, type_number(fault)),
        Reason::Settings(fault) => Some(settings_number(fault)),
    }
}

/// The number of a refusal of this text, from that of the model.
fn for_text(subject: Subject, number: Option<u32>) -> Option<u32>
    requires { ForSome number (λ n. n < 600) }
    ensures { result ≡ option_map (number_for subject) number }
{
    match (subject, number) {
        (_, None) => None,
        (Subject::Model, Some(number)) => Some(number),
        (Subject::Property, Some(number)) => Some(number + 100),
    }
}
