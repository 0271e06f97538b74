ghost use Rattle.std.specs.Prelude.{◌≡◌, ◌↔◌, IsTrue, None};
ghost use Rattle.prism_syntax.specs.Spelling.{spelling_of};

use prism_syntax::{Kind, spelling};

/// Whether a token is of this kind: they are spelled alike, or they hold the same name or number.
pub fn is_kind(token: &Kind, kind: &Kind) -> bool
    ensures { IsTrue result ↔ (token.now ≡ kind.now) }
{
    match (spelling(token), spelling(kind)) {
        (Some(bytes), Some(other)) => bytes == other,
        (None, None) => holds_same(token, kind),
        (Some(_), None) | (None, Some(_)) => false,
    }
}

/// Whether two names or numbers are the same.
fn holds_same(token: &Kind, kind: &Kind) -> bool
    ensures { spelling_of token.now ≡ None → IsTrue result ↔ (token.now ≡ kind.now) }
{
    match token {
        Kind::Name(text) => match kind {
            Kind::Name(other) => text.bytes() == other.bytes(),
            _ => false,
        },
        Kind::Quoted(text) => match kind {
            Kind::Quoted(other) => text.bytes() == other.bytes(),
            _ => false,
        },
        Kind::Whole(value) => match kind {
            Kind::Whole(other) => value == other,
            _ => false,
        },
        Kind::Real(value) => match kind {
            Kind::Real(other) => value == other,
            _ => false,
        },
        _ => false,
    }
}
