use const_eval::ConstFault;
use module_expand::ExpandFault;
use prism_lexer::LexFault;
use prism_parser::ParseFault;
use run_goal::SettingsFault;
use typecheck::TypeFault;

/// Which of the two texts is refused.
#[derive(Clone, Copy, Debug, PartialEq, Eq)]
pub enum Subject {
    Model,
    Property,
}

/// Why there is no run, by the stage that says so. The faults of stages that take memory tell want of memory too, which
/// is no refusal.
#[derive(Debug, Drop)]
pub enum Reason {
    /// The words give no settings.
    Usage,
    /// The source of the model failed.
    ReadFault,
    /// The text is longer than a text may be.
    TooLong(Subject),
    /// The text is not cut into tokens.
    Lex(Subject, LexFault),
    /// The tokens are outside the grammar, or past its limits.
    Parse(Subject, ParseFault),
    /// The model has no flat text, or the property is too large.
    Expand(Subject, ExpandFault),
    /// The constants have no values.
    Const(ConstFault),
    /// The text has no type.
    Type(Subject, TypeFault),
    /// The claim and the settings make no goal.
    Settings(SettingsFault),
}
