//! The stage that models and properties share: a text is cut into tokens.

ghost use Rattle.std.specs.Prelude.{◌≤◌, ◌<◌, ◌^◌, Ok, Err, length, All, IfOk, IfErr};
ghost use Rattle.prism_syntax.specs.WellFormed.{IsFormedKind};
ghost use Rattle.front_end.specs.Stops.{StopTells};
ghost use Rattle.front_end.specs.Stages.{CutTells};

use crate::stop::Stop;
use prism_lexer::tokens;
use prism_syntax::Token;
use smc_report::{Reason, Subject};
use std::alloc::Global;

/// The tokens of a text of at most so many bytes.
pub(crate) fn cut(
    alloc: Global,
    subject: Subject,
    most: usize,
    text: &[u8],
) -> Result<Vec<Token>, Stop>
    requires { most < 2 ^ 32 }
    ensures tokens { IfOk result (λ tokens. CutTells subject most text.now (Ok tokens.items)) }
    ensures formed { IfOk result (λ tokens. All (λ token. IsFormedKind token.kind) tokens.items) }
    ensures refused { IfErr result (StopTells (λ reason. CutTells subject most text.now (Err reason))) }
{
    if text.len() > most {
        return Err(Stop::new(Reason::TooLong(subject)));
    }
    match tokens(alloc, text) {
        Ok(tokens) => Ok(tokens),
        Err(fault) => Err(Stop::new(Reason::Lex(subject, fault))),
    }
}
