ghost use Rattle.std.specs.Prelude.{◌≡◌, ◌≤◌, ◌<◌, ◌^◌, ℕ, List, All, drop, length, IfOk, Ok, Err};
ghost use Rattle.prism_syntax.specs.declared.labels.Labels.TheVariants.{Allowed};
ghost use Rattle.prism_syntax.specs.declared.expressions.Expr.{Expr};
ghost use Rattle.prism_syntax.specs.Tokens.{kinds};
ghost use Rattle.prism_syntax.specs.WellFormed.{IsFormedKind, IsFormed};
ghost use Rattle.prism_limits.specs.declared.kinds.TextKind.TheVariants.{Property};
ghost use Rattle.prism_parser.specs.Refusals.{IsAllowed, IsAccepted, IsUnsupported, RefusesNesting, RefusesGrammar};
ghost use Rattle.prism_parser.specs.Outcome.{ComesWhere, Tells};
ghost use Rattle.prism_parser.specs.Expressions.{FindsExpression, HasLong, BeginsNoExpression};

use crate::fault::ParseFault;
use crate::places::place_of;
use crate::refusals::{allow, refuse_chains};
use prism_expression::parse_longest;
use prism_limits::TextKind;
use prism_reading::Mismatch;
use prism_syntax::{Expr, Labels, Precedence, Token};
use std::alloc::Global;

/// The longest expression from the token with the index `at` on, in which names of labels are allowed, and the index
/// of the token after it. The tokens from `at` on are refused as those of a property are; of the arrows those of the
/// expression count.
pub fn expression(alloc: Global, tokens: &[Token], at: u32) -> Result<(Expr, u32), ParseFault>
    requires within { at ≤ length tokens.now }
    requires count { length tokens.now < 2 ^ 32 }
    ensures ok { (tree : Expr) (next : ℕ)
        → ComesWhere result (Ok (tree, next))
        (IsAccepted Property (FindsExpression tokens.now at) HasLong tokens.now at (tree, next)) }
    ensures unsupported { (word : List ℕ) (place : ℕ)
        → ComesWhere result (Err (ParseFault.Unsupported word place))
        (IsUnsupported Property (FindsExpression tokens.now at) HasLong tokens.now at word place) }
    ensures too_deep { (place : ℕ)
        → ComesWhere result (Err (ParseFault.TooDeep place)) (RefusesNesting Property tokens.now at place) }
    ensures not_in_grammar { (place : ℕ)
        → ComesWhere result (Err (ParseFault.NotInGrammar place))
        (RefusesGrammar Property (BeginsNoExpression tokens.now at) tokens.now at place) }
    ensures formed { All (λ token. IsFormedKind token.kind) tokens.now
        → IfOk result (λ found. IsFormed Allowed found.0) }
{
    parse_in_order(alloc, tokens, at as usize)
}

/// The expression from the token with the index `start` on, or the first refusal.
fn parse_in_order(alloc: Global, tokens: &[Token], start: usize) -> Result<(Expr, u32), ParseFault>
    requires within { start ≤ length tokens.now }
    requires count { length tokens.now < 2 ^ 32 }
    ensures { Tells Property (FindsExpression tokens.now start) HasLong (BeginsNoExpression tokens.now start)
        tokens.now start result }
{
    match allow(alloc, TextKind::Property, tokens, start) {
        Ok(()) => parse_allowed(alloc, tokens, start),
        Err(fault) => Err(fault),
    }
}

/// The expression from the token with the index `start` on, where the tokens are allowed.
fn parse_allowed(alloc: Global, tokens: &[Token], start: usize) -> Result<(Expr, u32), ParseFault>
    requires within { start ≤ length tokens.now }
    requires count { length tokens.now < 2 ^ 32 }
    requires allowed { IsAllowed Property (kinds (drop start tokens.now)) }
    ensures { Tells Property (FindsExpression tokens.now start) HasLong (BeginsNoExpression tokens.now start)
        tokens.now start result }
{
    let asked = tokens.split_at(start).1;
    match parse_longest(alloc, Labels::Allowed, Precedence::Conditional, asked) {
        Ok(longest) => {
            let prefix = asked.split_at(asked.len() - longest.rest.len()).0;
            match refuse_chains(alloc, TextKind::Property, tokens, start, prefix) {
                Ok(()) => Ok((longest.tree, (start + prefix.len()) as u32)),
                Err(fault) => Err(fault),
            }
        }
        Err(Mismatch::NoText { left }) => Err(ParseFault::NotInGrammar {
            at: place_of(tokens, tokens.len() - left),
        }),
        Err(Mismatch::OutOfMemory(fault)) => Err(ParseFault::OutOfMemory(fault)),
    }
}
