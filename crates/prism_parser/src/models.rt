ghost use Rattle.std.specs.Prelude.{◌≡◌, ℕ, List, All, IfOk, Ok, Err};
ghost use Rattle.prism_syntax.specs.declared.models.ModelText.{ModelText};
ghost use Rattle.prism_syntax.specs.Tokens.{kinds};
ghost use Rattle.prism_syntax.specs.Models.{IsModel};
ghost use Rattle.prism_syntax.specs.WellFormed.{IsFormedKind, IsFormedModel};
ghost use Rattle.prism_limits.specs.declared.kinds.TextKind.TheVariants.{Model};
ghost use Rattle.prism_parser.specs.Refusals.{IsAllowed, IsAccepted, IsUnsupported, RefusesNesting, RefusesGrammar};
ghost use Rattle.prism_parser.specs.Outcome.{IsNoText, ComesWhere, Tells};
ghost use Rattle.prism_parser.specs.Models.{HasLongModel};

use crate::fault::ParseFault;
use crate::places::place_of;
use crate::refusals::{allow, refuse_chains};
use prism_limits::TextKind;
use prism_model::parse;
use prism_reading::Mismatch;
use prism_syntax::{ModelText, Token};
use std::alloc::Global;

/// The model that the tokens are. It is refused by the first of these: a word that is refused by name, nesting that
/// is too deep, the grammar, and a chain with a second arrow.
pub fn model(alloc: Global, tokens: &[Token]) -> Result<ModelText, ParseFault>
    ensures ok { (tree : ModelText)
        → ComesWhere result (Ok tree) (IsAccepted Model (IsModel (kinds tokens.now)) HasLongModel tokens.now 0 tree) }
    ensures unsupported { (word : List ℕ) (at : ℕ)
        → ComesWhere result (Err (ParseFault.Unsupported word at)) (IsUnsupported Model (IsModel (kinds tokens.now)) HasLongModel tokens.now 0 word at) }
    ensures too_deep { (at : ℕ)
        → ComesWhere result (Err (ParseFault.TooDeep at)) (RefusesNesting Model tokens.now 0 at) }
    ensures not_in_grammar { (at : ℕ)
        → ComesWhere result (Err (ParseFault.NotInGrammar at)) (RefusesGrammar Model (IsNoText IsModel (kinds tokens.now)) tokens.now 0 at) }
    ensures formed { All (λ token. IsFormedKind token.kind) tokens.now → IfOk result IsFormedModel }
{
    parse_in_order(alloc, tokens)
}

/// The model, or the first refusal.
fn parse_in_order(alloc: Global, tokens: &[Token]) -> Result<ModelText, ParseFault>
    ensures { Tells Model (IsModel (kinds tokens.now)) HasLongModel (IsNoText IsModel (kinds tokens.now)) tokens.now 0 result }
{
    match allow(alloc, TextKind::Model, tokens, 0) {
        Ok(()) => parse_allowed(alloc, tokens),
        Err(fault) => Err(fault),
    }
}

/// The model that allowed tokens are.
fn parse_allowed(alloc: Global, tokens: &[Token]) -> Result<ModelText, ParseFault>
    requires { IsAllowed Model (kinds tokens.now) }
    ensures { Tells Model (IsModel (kinds tokens.now)) HasLongModel (IsNoText IsModel (kinds tokens.now)) tokens.now 0 result }
{
    match parse(alloc, tokens) {
        Ok(tree) => match refuse_chains(alloc, TextKind::Model, tokens, 0, tokens) {
            Ok(()) => Ok(tree),
            Err(fault) => Err(fault),
        },
        Err(Mismatch::NoText { left }) => Err(ParseFault::NotInGrammar {
            at: place_of(tokens, tokens.len() - left),
        }),
        Err(Mismatch::OutOfMemory(fault)) => Err(ParseFault::OutOfMemory(fault)),
    }
}
