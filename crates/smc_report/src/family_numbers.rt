ghost use Rattle.std.specs.Prelude.{◌≡◌, ◌<◌, Some};
ghost use Rattle.std.specs.Option.{ForSome};
ghost use Rattle.smc_report.specs.Refusals.{lex_row, parse_row, expand_row, const_row, type_row, settings_row, number_in};

use const_eval::ConstFault;
use module_expand::ExpandFault;
use prism_lexer::LexFault;
use prism_parser::ParseFault;
use run_goal::SettingsFault;
use typecheck::TypeFault;

/// The number of a model that is not cut into tokens.
pub(crate) fn lex_number(fault: &LexFault) -> Option<u32>
    ensures number { result ≡ number_in (lex_row fault.now) }
    ensures small { ForSome result (λ n. n < 600) }
{
    match fault {
        LexFault::BadByte { .. } => Some(510),
        LexFault::NumberTooWide { .. } => Some(511),
        LexFault::TooMany => Some(512),
        LexFault::OutOfMemory(_) => None,
    }
}

/// The number of a model whose tokens are refused.
pub(crate) fn parse_number(fault: &ParseFault) -> Option<u32>
    ensures number { result ≡ number_in (parse_row fault.now) }
    ensures small { ForSome result (λ n. n < 600) }
{
    match fault {
        ParseFault::Unsupported { .. } => Some(520),
        ParseFault::TooDeep { .. } => Some(521),
        ParseFault::NotInGrammar { .. } => Some(522),
        ParseFault::OutOfMemory(_) => None,
    }
}

/// The number of a model that has no flat text.
pub(crate) fn expand_number(fault: &ExpandFault) -> Option<u32>
    ensures number { result ≡ number_in (expand_row fault.now) }
    ensures small { ForSome result (λ n. n < 600) }
{
    match fault {
        ExpandFault::Duplicate { .. } => Some(530),
        ExpandFault::FormulaCycle { .. } => Some(531),
        ExpandFault::NoSuchModule { .. } => Some(532),
        ExpandFault::RenameLeavesVariable { .. } => Some(533),
        ExpandFault::RenameTwice { .. } => Some(534),
        ExpandFault::TooLarge => Some(535),
        ExpandFault::RenameToFormula { .. } => Some(536),
        ExpandFault::OutOfMemory(_) => None,
    }
}

/// The number of constants without values.
pub(crate) fn const_number(fault: &ConstFault) -> Option<u32>
    ensures { result ≡ number_in (const_row fault.now) }
{
    match fault {
        ConstFault::Undefined { .. } => Some(540),
        ConstFault::Unknown { .. } => Some(541),
        ConstFault::GivenTwice { .. } => Some(542),
        ConstFault::Cycle { .. } => Some(543),
        ConstFault::WrongType { .. } => Some(544),
        ConstFault::Num { .. } => Some(545),
        ConstFault::OutOfMemory(_) => None,
    }
}

/// The number of a model that has no type.
pub(crate) fn type_number(fault: &TypeFault) -> Option<u32>
    ensures number { result ≡ number_in (type_row fault.now) }
    ensures small { ForSome result (λ n. n < 600) }
{
    match fault {
        TypeFault::UnknownName { .. } => Some(550),
        TypeFault::WrongType { .. } => Some(551),
        TypeFault::BadRange { .. } => Some(552),
        TypeFault::InitOutside { .. } => Some(553),
        TypeFault::ForeignWrite { .. } => Some(554),
        TypeFault::GlobalInSync { .. } => Some(555),
        TypeFault::WrittenTwice { .. } => Some(556),
        TypeFault::TooLarge => Some(557),
        TypeFault::BadNumber { .. } => Some(558),
        TypeFault::UnknownLabel { .. } => Some(559),
        TypeFault::BadHorizon => Some(560),
        TypeFault::OutOfMemory(_) => None,
    }
}

/// The number of settings that make no goal.
pub(crate) fn settings_number(fault: &SettingsFault) -> u32
    ensures { number_in (settings_row fault.now) ≡ Some result }
{
    match fault {
        SettingsFault::Theta(_) => 700,
        SettingsFault::Delta(_) => 701,
        SettingsFault::ErrorOutside { .. } => 702,
        SettingsFault::ErrorSum { .. } => 703,
        SettingsFault::Denominator(_) => 704,
        SettingsFault::Plan { .. } => 705,
    }
}
