ghost use Rattle.std.specs.Prelude.{◌≡◌, ◌<◌, ◌↔◌, length, IsTrue, IfSome};
ghost use Rattle.prism_syntax.specs.Tokens.{kinds};
ghost use Rattle.prism_limits.specs.Places.{Finds};
ghost use Rattle.prism_limits.specs.Words.{HasRefusedWord, IsRefused, refuses_word, has_operator, is_left_out, begins_open};

use crate::kinds::TextKind;
use crate::rewards::is_inside;
use prism_syntax::{Kind, Token, is_refused};

/// The index of the first token that is refused by name, outside each rewards block.
pub fn refused_word(text: TextKind, tokens: &[Token]) -> Option<usize>
    ensures first { Finds (HasRefusedWord text (kinds tokens.now)) result }
    ensures within { IfSome result (λ index. index < length tokens.now) }
{
    let mut index = 0;
    let mut inside = false;
    let mut rest = tokens;
    while let [token, after @ ..] = rest {
        let refused = is_refused_before(text, &token.kind, after);
        if refused && !inside {
            return Some(index);
        }
        inside = is_inside(inside, &token.kind);
        index += 1;
        rest = after;
    }
    None
}

/// Whether a token is refused by name where these tokens follow it.
fn is_refused_before(text: TextKind, kind: &Kind, after: &[Token]) -> bool
    ensures { IsTrue result ↔ IsRefused text kind.now (kinds after.now) }
{
    refuses_word(text, kind) || is_left_out(kind) && begins_open(after)
}

/// Whether a token is a reserved word that texts of this kind refuse.
fn refuses_word(text: TextKind, kind: &Kind) -> bool
    ensures { result ≡ refuses_word text kind.now }
{
    is_refused(kind) && !has_operator(text, kind)
}

/// Whether a reserved word is an operator in texts of this kind, though others refuse it.
fn has_operator(text: TextKind, kind: &Kind) -> bool
    ensures { result ≡ has_operator text kind.now }
{
    match (text, kind) {
        (TextKind::Nested, Kind::W | Kind::R) => true,
        _ => false,
    }
}

/// Whether a token is the name of a function that is left out.
fn is_left_out(kind: &Kind) -> bool
    ensures { result ≡ is_left_out kind.now }
{
    match kind {
        Kind::Name(text) => text.bytes() == b"log".as_slice()
            || text.bytes() == b"round".as_slice(),
        _ => false,
    }
}

/// Whether tokens begin with `(`.
fn begins_open(tokens: &[Token]) -> bool
    ensures { result ≡ begins_open (kinds tokens.now) }
{
    match tokens {
        [first, ..] => matches!(first.kind, Kind::Open),
        [] => false,
    }
}
