ghost use Rattle.std.specs.Prelude.{◌≡◌, ◌≤◌, length, drop};
ghost use Rattle.prism_lexer.specs.Scan.{digits_len, fraction_len, sign_len, exponent_len, number_of, number_at};

use crate::lexeme::Lexeme;

/// The number that begins a text: its form and how many bytes it has.
#[tactic(auto, unfolding(crate::specs::Scan::number_at))]
pub fn number(text: &[u8]) -> Option<(Lexeme, usize)>
    ensures { result ≡ number_at text.now }
{
    let digits = digits_len(text);
    let after = text.split_at(digits).1;
    let fraction = fraction_len(after);
    let exponent = exponent_len(after.split_at(fraction).1);
    if digits + fraction == 0 {
        return None;
    }
    let form = if fraction + exponent == 0 {
        Lexeme::Whole
    } else {
        Lexeme::Real
    };
    Some((form, digits + fraction + exponent))
}

/// How many digits begin a text.
fn digits_len(text: &[u8]) -> usize
    ensures value { result ≡ digits_len text.now }
    ensures within { result ≤ length text.now }
{
    text.iter().take_while(|byte| byte.is_ascii_digit()).count()
}

/// How long a fraction begins a text: a point and digits.
#[tactic(auto, unfolding(crate::specs::Scan::fraction_len))]
fn fraction_len(text: &[u8]) -> usize
    ensures value { result ≡ fraction_len text.now }
    ensures within { result ≤ length text.now }
{
    match text {
        [b'.', rest @ ..] => {
            let digits = digits_len(rest);
            if digits == 0 { 0 } else { 1 + digits }
        }
        _ => 0,
    }
}

/// How long an exponent begins a text: `e` or `E`, a sign or none, and digits.
#[tactic(auto, unfolding(crate::specs::Scan::exponent_len))]
fn exponent_len(text: &[u8]) -> usize
    ensures value { result ≡ exponent_len text.now }
    ensures within { result ≤ length text.now }
{
    match text {
        [b'e' | b'E', rest @ ..] => {
            let sign = sign_len(rest);
            let digits = digits_len(rest.split_at(sign).1);
            if digits == 0 { 0 } else { 1 + sign + digits }
        }
        _ => 0,
    }
}

/// One byte of `+` or `-`, or none.
#[tactic(auto, unfolding(crate::specs::Scan::sign_len))]
fn sign_len(text: &[u8]) -> usize
    ensures value { result ≡ sign_len text.now }
    ensures within { result ≤ length text.now }
{
    match text {
        [b'+' | b'-', ..] => 1,
        _ => 0,
    }
}
