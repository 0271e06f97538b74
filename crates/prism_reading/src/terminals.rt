ghost use Rattle.std.specs.Prelude.{◌≡◌, ◌∷◌, List, MatchOption, length};
ghost use Rattle.prism_syntax.specs.declared.tokens.Kind.{Kind};
ghost use Rattle.prism_syntax.specs.Tokens.{kinds};
ghost use Rattle.prism_reading.specs.Reading.{Answers, Anything, Parses, Fails};
ghost use Rattle.prism_reading.specs.Sequences.{IsTerminal, IsName, IsQuoted};

use crate::kinds::is_kind;
use crate::mismatch::Mismatch;
use prism_syntax::{Kind, Token};
use smc_num::Text;
use std::alloc::Global;

/// The tokens after the first, where it is of this kind.
pub fn accept<'a>(tokens: &'a [Token], kind: &Kind) -> Option<&'a [Token]>
    ensures { MatchOption result
        ((after : List Kind) → kinds tokens.now ≡ kind.now ∷ after → ⊥)
        (λ rest. Parses (IsTerminal kind.now) Anything tokens.now tt rest.now (length rest.now)) }
{
    let (first, rest) = tokens.split_first()?;
    if is_kind(&first.kind, kind) {
        Some(rest)
    } else {
        None
    }
}

/// The tokens after the first, which has to be of this kind.
pub fn expect<'a>(tokens: &'a [Token], kind: &Kind) -> Result<&'a [Token], Mismatch>
    ensures { Answers
        (λ rest. Parses (IsTerminal kind.now) Anything tokens.now tt rest.now (length rest.now))
        (λ left. Fails (IsTerminal kind.now) Anything tokens.now left × (left ≡ length tokens.now))
        result }
{
    match accept(tokens, kind) {
        Some(rest) => Ok(rest),
        None => Err(Mismatch::NoText { left: tokens.len() }),
    }
}

/// The first token's text, where it is a name, and the tokens after it.
pub fn name<'a>(alloc: Global, tokens: &'a [Token]) -> Result<(Text, &'a [Token]), Mismatch>
    ensures { Answers
        (λ r. Parses IsName Anything tokens.now r.0 r.1.now (length r.1.now))
        (λ left. Fails IsName Anything tokens.now left × (left ≡ length tokens.now))
        result }
{
    let Some((first, rest)) = tokens.split_first() else {
        return Err(Mismatch::NoText { left: tokens.len() });
    };
    match &first.kind {
        Kind::Name(text) => Ok((text.copy(alloc)?, rest)),
        _ => Err(Mismatch::NoText { left: tokens.len() }),
    }
}

/// The first token's text, where it is the name of a label, and the tokens after it.
pub fn quoted<'a>(alloc: Global, tokens: &'a [Token]) -> Result<(Text, &'a [Token]), Mismatch>
    ensures { Answers
        (λ r. Parses IsQuoted Anything tokens.now r.0 r.1.now (length r.1.now))
        (λ left. Fails IsQuoted Anything tokens.now left × (left ≡ length tokens.now))
        result }
{
    let Some((first, rest)) = tokens.split_first() else {
        return Err(Mismatch::NoText { left: tokens.len() });
    };
    match &first.kind {
        Kind::Quoted(text) => Ok((text.copy(alloc)?, rest)),
        _ => Err(Mismatch::NoText { left: tokens.len() }),
    }
}
