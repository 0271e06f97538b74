ghost use Rattle.std.specs.Prelude.{◌≡◌, ◌≤◌, length, IfSome, IfNone};
ghost use Rattle.std.specs.List.{prefix_len};
ghost use Rattle.prism_syntax.specs.Spelling.{begins_word};
ghost use Rattle.prism_syntax.specs.Tokens.{goes_on_word, BeginsNoSymbol};
ghost use Rattle.prism_lexer.specs.Scan.{word_len, quoted_at, varied_at};
ghost use Rattle.prism_lexer.specs.Outcome.{BeginsNoToken};
ghost use Rattle.prism_lexer.specs.Lexemes.{IsLongestLexeme, IsSymbolLexeme};

use crate::lexeme::Lexeme;
use crate::numbers::number;
use prism_syntax::{spelling, symbol};

/// The longest token that begins a text: its form and how many bytes it has.
pub fn scan(text: &[u8]) -> Option<(Lexeme, usize)>
    ensures found { IfSome result (λ front. IsLongestLexeme text.now front.0 front.1) }
    ensures none { IfNone result (BeginsNoToken text.now) }
{
    match varied(text) {
        Some(front) => Some(front),
        None => symbol_lexeme(text),
    }
}

/// The quoted name, word or number that begins a text.
#[tactic(auto, unfolding(crate::specs::Scan::varied_at))]
fn varied(text: &[u8]) -> Option<(Lexeme, usize)>
    ensures { result ≡ varied_at text.now }
{
    match text {
        [] => None,
        [b'"', rest @ ..] => quoted(rest),
        _ => match word_len(text) {
            0 => number(text),
            length => Some((Lexeme::Word, length)),
        },
    }
}

/// The quoted name whose first quotation mark stands before a text.
#[tactic(auto, unfolding(crate::specs::Scan::quoted_at))]
fn quoted(text: &[u8]) -> Option<(Lexeme, usize)>
    ensures { result ≡ quoted_at text.now }
{
    let length = word_len(text);
    match text.split_at(length).1 {
        [b'"', ..] if 0 < length => Some((Lexeme::Quoted, length + 2)),
        _ => None,
    }
}

/// How long a name or a reserved word begins a text.
#[tactic(auto, unfolding(crate::specs::Scan::word_len))]
fn word_len(text: &[u8]) -> usize
    ensures value { result ≡ word_len text.now }
    ensures within { result ≤ length text.now }
{
    match text {
        [first, ..] if begins_word(*first) => run_len(text),
        _ => 0,
    }
}

/// How many bytes that go on a word begin a text.
fn run_len(text: &[u8]) -> usize
    ensures value { result ≡ prefix_len goes_on_word text.now }
    ensures within { result ≤ length text.now }
{
    text.iter().take_while(|byte| goes_on_word(**byte)).count()
}

fn begins_word(byte: u8) -> bool
    ensures { result ≡ begins_word byte }
{
    byte.is_ascii_alphabetic() || byte == b'_'
}

fn goes_on_word(byte: u8) -> bool
    ensures { result ≡ goes_on_word byte }
{
    byte.is_ascii_alphanumeric() || byte == b'_'
}

/// The longest symbol that begins a text.
fn symbol_lexeme(text: &[u8]) -> Option<(Lexeme, usize)>
    ensures found { IfSome result (λ front. IsSymbolLexeme text.now front.0 front.1) }
    ensures none { IfNone result (BeginsNoSymbol text.now) }
{
    let kind = symbol(text)?;
    let length = spelling(&kind)?.len();
    Some((Lexeme::Symbol(kind), length))
}
