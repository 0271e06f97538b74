ghost use Rattle.std.specs.Prelude.{◌≡◌, ◌↔◌, IfSome, None, bytes_eq, take};
ghost use Rattle.std.specs.Map.{lookup};
ghost use Rattle.prism_syntax.specs.Tokens.{IsLongestSymbol, BeginsNoSymbol};
ghost use Rattle.prism_syntax.specs.SpellingTables.{one_byte_symbols, two_byte_symbols, three_byte_symbols};

use crate::tokens::Kind;

/// The longest symbol with which a text begins.
pub fn symbol(text: &[u8]) -> Option<Kind>
    ensures found { IfSome result (λ kind. IsLongestSymbol text.now kind) }
    ensures none { (result ≡ None) ↔ BeginsNoSymbol text.now }
{
    match three_byte_symbol(prefix(text, 3)) {
        Some(kind) => Some(kind),
        None => match two_byte_symbol(prefix(text, 2)) {
            Some(kind) => Some(kind),
            None => one_byte_symbol(prefix(text, 1)),
        },
    }
}

/// The first bytes of a text, at most so many.
fn prefix(text: &[u8], most: usize) -> &[u8]
    ensures { result.now ≡ take most text.now }
{
    text.split_at(most.min(text.len())).0
}

/// Which of the symbols of one byte a text is.
#[tactic(auto, unfolding(crate::specs::SpellingTables::one_byte_symbols))]
fn one_byte_symbol(text: &[u8]) -> Option<Kind>
    ensures { result ≡ lookup (bytes_eq text.now) one_byte_symbols }
{
    match text {
        b";" => Some(Kind::Semicolon),
        b":" => Some(Kind::Colon),
        b"," => Some(Kind::Comma),
        b"[" => Some(Kind::OpenBracket),
        b"]" => Some(Kind::CloseBracket),
        b"(" => Some(Kind::Open),
        b")" => Some(Kind::Close),
        b"'" => Some(Kind::Prime),
        b"=" => Some(Kind::Equal),
        b"<" => Some(Kind::Less),
        b">" => Some(Kind::Greater),
        b"+" => Some(Kind::Plus),
        b"-" => Some(Kind::Dash),
        b"*" => Some(Kind::Star),
        b"/" => Some(Kind::Slash),
        b"&" => Some(Kind::Ampersand),
        b"|" => Some(Kind::Bar),
        b"!" => Some(Kind::Bang),
        b"?" => Some(Kind::Query),
        _ => None,
    }
}

/// Which of the symbols of two bytes a text is.
#[tactic(auto, unfolding(crate::specs::SpellingTables::two_byte_symbols))]
fn two_byte_symbol(text: &[u8]) -> Option<Kind>
    ensures { result ≡ lookup (bytes_eq text.now) two_byte_symbols }
{
    match text {
        b".." => Some(Kind::Dots),
        b"!=" => Some(Kind::NotEqual),
        b"<=" => Some(Kind::LessEqual),
        b">=" => Some(Kind::GreaterEqual),
        b"->" => Some(Kind::Arrow),
        b"=>" => Some(Kind::Implies),
        _ => None,
    }
}

/// Which of the symbol of three bytes a text is.
#[tactic(auto, unfolding(crate::specs::SpellingTables::three_byte_symbols))]
fn three_byte_symbol(text: &[u8]) -> Option<Kind>
    ensures { result ≡ lookup (bytes_eq text.now) three_byte_symbols }
{
    match text {
        b"<=>" => Some(Kind::Equivalent),
        _ => None,
    }
}
