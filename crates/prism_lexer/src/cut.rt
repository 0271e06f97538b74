ghost use Rattle.std.specs.Prelude.{◌≡◌, ◌+◌, ◌<◌, ◌^◌, ℕ, List, length, IfOk, Err, MatchResult, All, false};
ghost use Rattle.prism_syntax.specs.declared.tokens.Token.{Token};
ghost use Rattle.prism_syntax.specs.WellFormed.{IsFormedKind};
ghost use Rattle.prism_syntax.specs.Outcome.{ComesWhere};
ghost use Rattle.prism_lexer.specs.Outcome.{IsCutInto, HasTooMany, HasBadByte, HasWideNumber, IsOutOfMemory, Gives, Tells};
ghost use Rattle.prism_lexer.specs.Steps.{seen, IsNext, Refuses};

use crate::blanks::past_blanks;
use crate::fault::LexFault;
use crate::kinds::kind_of;
use crate::scanning::scan;
use prism_syntax::Token;
use std::alloc::{AllocError, Global};

/// The most tokens that a text may have.
const MOST_TOKENS: usize = 262_144;

/// The tokens of a text: it is cut at each place into its longest token, and blanks and comments are
/// passed over. The fault is at the first place that is wrong.
pub fn tokens(alloc: Global, text: &[u8]) -> Result<Vec<Token>, LexFault>
    requires { length text.now < 2 ^ 32 }
    ensures ok { IfOk result (λ v. IsCutInto text.now v.items) }
    ensures formed { IfOk result (λ v. All (λ t. IsFormedKind t.kind) v.items) }
    ensures all { (ts : List Token) → IsCutInto text.now ts → Gives result ts }
    ensures too_many { ComesWhere IsOutOfMemory result (Err LexFault.TooMany) (HasTooMany text.now) }
    ensures bad_byte { (at : ℕ)
        → ComesWhere IsOutOfMemory result (Err (LexFault.BadByte at)) (HasBadByte text.now at) }
    ensures too_wide { (at : ℕ)
        → ComesWhere IsOutOfMemory result (Err (LexFault.NumberTooWide at)) (HasWideNumber text.now at) }
{
    cut(alloc, text)
}

/// The tokens of a text, or the first fault.
fn cut(alloc: Global, text: &[u8]) -> Result<Vec<Token>, LexFault>
    requires { length text.now < 2 ^ 32 }
    ensures { Tells text.now (seen result) }
{
    let mut tokens = Vec::new(alloc);
    let mut rest = past_blanks(text);
    while !rest.is_empty() {
        let at = (text.len() - rest.len()) as u32;
        let is_full = tokens.len() == MOST_TOKENS;
        match next_token(alloc, rest, at, is_full) {
            Ok((token, after)) => {
                tokens
                    .push(token)
                    .map_err(|_| LexFault::OutOfMemory(AllocError))?;
                rest = past_blanks(after);
            }
            Err(fault) => return Err(fault),
        }
    }
    Ok(tokens)
}

/// The longest token that begins a text, which stands at this place, and what follows the token.
fn next_token<'a>(
    alloc: Global,
    text: &'a [u8],
    at: u32,
    is_full: bool,
) -> Result<(Token, &'a [u8]), LexFault>
    requires { at + length text.now < 2 ^ 32 }
    ensures { MatchResult result
        (λ next. IsNext text.now at next.0 next.1.now × (is_full ≡ false))
        (Refuses text.now at is_full) }
{
    let Some((form, length)) = scan(text) else {
        return Err(LexFault::BadByte { at });
    };
    let (bytes, after) = text.split_at(length);
    let kind = kind_of(alloc, form, bytes).map_err(LexFault::OutOfMemory)?;
    if is_full {
        return Err(LexFault::TooMany);
    }
    match kind {
        Some(kind) => Ok((
            Token {
                kind,
                from: at,
                to: at + length as u32,
            },
            after,
        )),
        None => Err(LexFault::NumberTooWide { at }),
    }
}
