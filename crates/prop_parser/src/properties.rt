ghost use Rattle.std.specs.Prelude.{◌≡◌, ℕ, List, All, IfOk, Ok, Err};
ghost use Rattle.prism_syntax.specs.declared.properties.Property.{Property};
ghost use Rattle.prism_syntax.specs.Tokens.{kinds};
ghost use Rattle.prism_syntax.specs.Properties.{IsProperty};
ghost use Rattle.prism_syntax.specs.WellFormed.{IsFormedKind, IsFormedProperty};
ghost use Rattle.prism_limits.specs.declared.kinds.TextKind.TheVariants.{Property as ForProperty};
ghost use Rattle.prism_parser.specs.declared.fault.ParseFault.TheVariants as fault;
ghost use Rattle.prism_parser.specs.Refusals.{IsAllowed, IsAccepted, IsUnsupported, RefusesNesting, RefusesGrammar};
ghost use Rattle.prism_parser.specs.Outcome.{IsNoText, ComesWhere, Tells};
ghost use Rattle.prop_parser.specs.Properties.{HasLongProperty};

use crate::grammar::parse;
use prism_limits::TextKind;
use prism_parser::{ParseFault, allow, place_of, refuse_chains};
use prism_reading::Mismatch;
use prism_syntax::{Property, Token};
use std::alloc::Global;

/// The property that the tokens are. It is refused by the first of these: a word that is refused by name, nesting that
/// is too deep, the grammar, and a chain with a second arrow.
pub fn property(alloc: Global, tokens: &[Token]) -> Result<Property, ParseFault>
    ensures ok { (tree : Property)
        → ComesWhere result (Ok tree) (IsAccepted ForProperty (IsProperty (kinds tokens.now)) HasLongProperty tokens.now 0 tree) }
    ensures unsupported { (word : List ℕ) (at : ℕ)
        → ComesWhere result (Err (fault.Unsupported word at)) (IsUnsupported ForProperty (IsProperty (kinds tokens.now)) HasLongProperty tokens.now 0 word at) }
    ensures too_deep { (at : ℕ)
        → ComesWhere result (Err (fault.TooDeep at)) (RefusesNesting ForProperty tokens.now 0 at) }
    ensures not_in_grammar { (at : ℕ)
        → ComesWhere result (Err (fault.NotInGrammar at)) (RefusesGrammar ForProperty (IsNoText IsProperty (kinds tokens.now)) tokens.now 0 at) }
    ensures formed { All (λ token. IsFormedKind token.kind) tokens.now → IfOk result IsFormedProperty }
{
    parse_in_order(alloc, tokens)
}

/// The property, or the first refusal.
fn parse_in_order(alloc: Global, tokens: &[Token]) -> Result<Property, ParseFault>
    ensures { Tells ForProperty (IsProperty (kinds tokens.now)) HasLongProperty (IsNoText IsProperty (kinds tokens.now)) tokens.now 0 result }
{
    match allow(alloc, TextKind::Property, tokens, 0) {
        Ok(()) => parse_allowed(alloc, tokens),
        Err(fault) => Err(fault),
    }
}

/// The property that allowed tokens are.
fn parse_allowed(alloc: Global, tokens: &[Token]) -> Result<Property, ParseFault>
    requires { IsAllowed ForProperty (kinds tokens.now) }
    ensures { Tells ForProperty (IsProperty (kinds tokens.now)) HasLongProperty (IsNoText IsProperty (kinds tokens.now)) tokens.now 0 result }
{
    match parse(alloc, tokens) {
        Ok(tree) => match refuse_chains(alloc, TextKind::Property, tokens, 0, tokens) {
            Ok(()) => Ok(tree),
            Err(fault) => Err(fault),
        },
        Err(Mismatch::NoText { left }) => Err(ParseFault::NotInGrammar {
            at: place_of(tokens, tokens.len() - left),
        }),
        Err(Mismatch::OutOfMemory(fault)) => Err(ParseFault::OutOfMemory(fault)),
    }
}
