ghost use Rattle.std.specs.Prelude.{◌≡◌};
ghost use Rattle.prism_parser.specs.Places.{place_of, end_of};

use prism_syntax::Token;

/// The place of the token with this index; past the last token it is the end of the text.
pub fn place_of(tokens: &[Token], index: usize) -> u32
    ensures { result ≡ place_of tokens.now index }
{
    match tokens.get(index) {
        Some(token) => token.from,
        None => end_of(tokens),
    }
}

/// The place after the last token, or 0 where there is none.
fn end_of(tokens: &[Token]) -> u32
    ensures { result ≡ end_of tokens.now }
{
    match tokens.last() {
        Some(token) => token.to,
        None => 0,
    }
}
