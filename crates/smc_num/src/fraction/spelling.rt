mod digits;
mod values;

ghost use Rattle.std.specs.Prelude.{◌≡◌, ◌↔◌, ◌==◌, Bool, length, take, drop, ◌≤◌, ◌^◌, unsigned_abs, option_map, IfSome, IsErrOf};
ghost use Rattle.std.specs.List.{prefix_len};
ghost use Rattle.std.specs.Char.{is_ascii_digit};
ghost use Rattle.std.specs.Str.Parse.{AllDigits};
ghost use Rattle.smc_num.specs.Spelling.{Written, IsNumber, value_of};
ghost use Rattle.smc_num.specs.Taken.{front_of, rest_of, is_numeral, signed_power_of, power_in, after_point, after_bar, after_digits, spelled_by, sign_of, unsigned_of, outcome_of, clamped};

use crate::fault::ReadNum;
use crate::fraction::Frac;
use digits::magnitude;
use values::{decimal, ratio};

/// The number that a text spells: digits, digits with a point, or either with an exponent, or two
/// whole numbers with `/` between them, of which the second is not 0; `-` may stand before it.
pub fn read(text: &[u8]) -> Result<Frac, ReadNum>
    ensures value { (sign : Bool) (written : Written) → IsNumber text.now sign written
        → result ≡ value_of sign written }
    ensures other { IsErrOf result ReadNum.NotANumber
        ↔ ((sign : Bool) (written : Written) → IsNumber text.now sign written → ⊥) }
{
    read_signed(text)
}

/// The number that a text spells, with or without a sign.
fn read_signed(text: &[u8]) -> Result<Frac, ReadNum>
    ensures { result ≡ outcome_of (sign_of text.now) (spelled_by (unsigned_of text.now)) }
{
    match text {
        [b'-', rest @ ..] => read_unsigned(true, rest),
        _ => read_unsigned(false, text),
    }
}

/// The number that a text without a sign spells, with a sign.
#[tactic(auto, unfolding(crate::specs::Taken::spelled_by, crate::specs::Taken::after_front))]
fn read_unsigned(negative: bool, text: &[u8]) -> Result<Frac, ReadNum>
    ensures { result ≡ outcome_of negative (spelled_by text.now) }
{
    let (front, rest) = split_digits(text);
    match rest {
        [b'.', after @ ..] => read_after_point(negative, front, after),
        [b'/', after @ ..] => read_after_bar(negative, front, after),
        _ => read_after_digits(negative, front, rest),
    }
}

/// A number whose exponent, if any, stands after these digits.
#[tactic(auto, unfolding(crate::specs::Taken::after_digits))]
fn read_after_digits(negative: bool, front: &[u8], text: &[u8]) -> Result<Frac, ReadNum>
    requires { AllDigits 10 front.now }
    ensures { result ≡ outcome_of negative (after_digits front.now text.now) }
{
    if front.is_empty() {
        return Err(ReadNum::NotANumber);
    }
    match power(text) {
        Some(power) => decimal(negative, front, &[], power),
        None => Err(ReadNum::NotANumber),
    }
}

/// A number whose point stands after these digits.
#[tactic(auto, unfolding(crate::specs::Taken::after_point))]
fn read_after_point(negative: bool, front: &[u8], text: &[u8]) -> Result<Frac, ReadNum>
    requires { AllDigits 10 front.now }
    ensures { result ≡ outcome_of negative (after_point front.now text.now) }
{
    let (part, rest) = split_digits(text);
    if part.is_empty() {
        return Err(ReadNum::NotANumber);
    }
    match power(rest) {
        Some(power) => decimal(negative, front, part, power),
        None => Err(ReadNum::NotANumber),
    }
}

/// A number whose bar stands after these digits.
#[tactic(auto, unfolding(crate::specs::Taken::after_bar))]
fn read_after_bar(negative: bool, front: &[u8], text: &[u8]) -> Result<Frac, ReadNum>
    requires { AllDigits 10 front.now }
    ensures { result ≡ outcome_of negative (after_bar front.now text.now) }
{
    if front.is_empty() || !is_numeral(text) {
        return Err(ReadNum::NotANumber);
    }
    ratio(negative, front, text)
}

/// The power of ten that an exponent gives, where the text is one.
#[tactic(auto, unfolding(crate::specs::Taken::power_in))]
fn power(text: &[u8]) -> Option<i128>
    ensures value { result ≡ option_map clamped (power_in text.now) }
    ensures bound { IfSome result (λ power. unsigned_abs power ≤ 2 ^ 100) }
{
    match text {
        [] => Some(0),
        [mark, rest @ ..] => {
            if *mark == b'e' || *mark == b'E' {
                signed_power(rest)
            } else {
                None
            }
        }
    }
}

/// The power of ten that stands after `e` or `E`.
fn signed_power(text: &[u8]) -> Option<i128>
    ensures value { result ≡ option_map clamped (signed_power_of text.now) }
    ensures bound { IfSome result (λ power. unsigned_abs power ≤ 2 ^ 100) }
{
    let (negative, digits) = match text {
        [b'-', rest @ ..] => (true, rest),
        [b'+', rest @ ..] => (false, rest),
        _ => (false, text),
    };
    if !is_numeral(digits) {
        return None;
    }
    let size = magnitude(digits) as i128;
    Some(if negative { -size } else { size })
}

/// Whether a text is one digit or more and nothing else.
fn is_numeral(text: &[u8]) -> bool
    ensures { result ≡ is_numeral text.now }
{
    !text.is_empty() && count_digits(text) == text.len()
}

/// The digits with which a text begins, and what follows them.
fn split_digits(text: &[u8]) -> (&[u8], &[u8])
    ensures front { result.0.now ≡ front_of text.now }
    ensures rest { result.1.now ≡ rest_of text.now }
    ensures digits { AllDigits 10 result.0.now }
{
    text.split_at(count_digits(text))
}

/// With how many digits a text begins.
fn count_digits(text: &[u8]) -> usize
    ensures { result ≡ prefix_len is_ascii_digit text.now }
{
    text.iter().take_while(|byte| byte.is_ascii_digit()).count()
}
