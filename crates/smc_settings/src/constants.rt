ghost use Rattle.std.specs.Prelude.{◌≡◌, ◌↔◌, ◌==◌, ◌&&◌, nat_lt, length, List, true, false, map, option_map, IfOk, IfSome, IfNone, IsErrOf, IsTrue};
ghost use Rattle.std.specs.List.{list_all, list_any};
ghost use Rattle.std.specs.Char.{is_ascii_digit};
ghost use Rattle.smc_num.specs.Fraction.{Fraction};
ghost use Rattle.smc_num.specs.Taken.{unsigned_of};
ghost use Rattle.prism_syntax.specs.Spelling.{begins_word};
ghost use Rattle.prism_syntax.specs.Tokens.{goes_on_word, is_word, IsWord, IsFree};
ghost use Rattle.smc_settings.specs.Constants.{IsValueOf, IsPair, ArePairs, ArePairsOr};

use crate::options::split_at_byte;
use crate::usage::Usage;
use chain_model::{Given, Sort, Value};
use prism_syntax::word;
use smc_num::{Frac, Text, read};
use sqlite_items::Items;
use std::alloc::Global;

/// The constants of an option, or none where it isn't given.
pub(crate) fn pairs_or_none(alloc: Global, text: Option<&str>) -> Result<Items<Given>, Usage>
    ensures read { IfOk result (λ given. ArePairsOr (option_map (λ t. t.now) text.entry) given) }
    ensures refused { IsErrOf result Usage.Words
        → (given : List Given) → ArePairsOr (option_map (λ t. t.now) text.entry) given → ⊥ }
{
    match text {
        None => Ok(Items::new(alloc)),
        Some(text) => pairs(alloc, text.as_bytes()),
    }
}

/// The constants of pairs with a comma between each two.
fn pairs(alloc: Global, text: &[u8]) -> Result<Items<Given>, Usage>
    ensures read { IfOk result (λ given. ArePairs text.now given) }
    ensures refused { IsErrOf result Usage.Words → (given : List Given) → ArePairs text.now given → ⊥ }
{
    let mut given = Items::new(alloc);
    let mut rest = text;
    'pairs: while let Some((first, others)) = split_at_byte(rest, b',') {
        match pair(alloc, first) {
            Ok(constant) => given.push(constant).map_err(Usage::OutOfMemory)?,
            Err(fault) => return Err(fault),
        }
        rest = others;
    }
    match pair(alloc, rest) {
        Ok(constant) => given.push(constant).map_err(Usage::OutOfMemory)?,
        Err(fault) => return Err(fault),
    }
    Ok(given)
}

/// The constant of one pair: a name, `=`, and a value.
fn pair(alloc: Global, text: &[u8]) -> Result<Given, Usage>
    ensures read { IfOk result (λ given. IsPair text.now given) }
    ensures refused { IsErrOf result Usage.Words → (given : Given) → IsPair text.now given → ⊥ }
{
    let Some((name, value)) = split_at_byte(text, b'=') else {
        return Err(Usage::Words);
    };
    if !is_name(name) {
        return Err(Usage::Words);
    }
    let Some((sort, value)) = value_of(value) else {
        return Err(Usage::Words);
    };
    Ok(Given {
        name: Text::from_bytes(alloc, name).map_err(Usage::OutOfMemory)?,
        sort,
        value,
    })
}

/// Tells whether a text is a name, which is no reserved word.
fn is_name(text: &[u8]) -> bool
    ensures { IsTrue result ↔ (IsWord text.now × IsFree text.now) }
{
    is_word(text) && word(text).is_none()
}

/// Tells whether a text is a letter or `_`, then letters, digits and `_`.
fn is_word(text: &[u8]) -> bool
    ensures { result ≡ is_word text.now }
{
    match text {
        [] => false,
        [first, others @ ..] => begins_word(*first) && go_on_word(others),
    }
}

/// Tells whether all bytes are letters, digits and `_`.
fn go_on_word(text: &[u8]) -> bool
    ensures { result ≡ list_all goes_on_word text.now }
{
    text.iter().all(|byte| goes_on_word(*byte))
}

fn begins_word(byte: u8) -> bool
    ensures { result ≡ begins_word byte }
{
    byte.is_ascii_alphabetic() || byte == b'_'
}

fn goes_on_word(byte: u8) -> bool
    ensures { result ≡ goes_on_word byte }
{
    byte.is_ascii_alphanumeric() || byte == b'_'
}

/// The value that a text spells, with its sort.
fn value_of(text: &[u8]) -> Option<(Sort, Value)>
    ensures found { IfSome result (λ r. IsValueOf text.now r.0 r.1) }
    ensures none { IfNone result ((sort : Sort) (value : Value) → IsValueOf text.now sort value → ⊥) }
{
    if text == b"true".as_slice() {
        Some((Sort::Bool, Value::Bool(true)))
    } else if text == b"false".as_slice() {
        Some((Sort::Bool, Value::Bool(false)))
    } else {
        match number(text) {
            Some((sort, number)) => Some((sort, Value::Num(number))),
            None => None,
        }
    }
}

/// The number that a text spells, with its sort: `int` for digits alone, `double` for others. No fraction with `/`.
fn number(text: &[u8]) -> Option<(Sort, Frac)>
    ensures found { IfSome result (λ r. IsValueOf text.now r.0 (Value.Num r.1)) }
    ensures none { IfNone result ((sort : Sort) (number : Fraction) → IsValueOf text.now sort (Value.Num number) → ⊥) }
{
    if has_bar(text) {
        return None;
    }
    match read(text) {
        Ok(number) if is_numeral(without_minus(text)) => Some((Sort::Int, number)),
        Ok(number) => Some((Sort::Double, number)),
        Err(_) => None,
    }
}

/// Tells whether a text has a `/`.
fn has_bar(text: &[u8]) -> bool
    ensures { result ≡ list_any (λ x. x == 47) text.now }
{
    text.iter().any(|byte| *byte == b'/')
}

/// A text without `-` before it.
fn without_minus(text: &[u8]) -> &[u8]
    ensures { result.now ≡ unsigned_of text.now }
{
    match text {
        [b'-', rest @ ..] => rest,
        _ => text,
    }
}

/// Tells whether a text is digits, one or more.
fn is_numeral(text: &[u8]) -> bool
    ensures { result ≡ (nat_lt 0 (length text.now) && list_all is_ascii_digit text.now) }
{
    !text.is_empty() && are_digits(text)
}

/// Tells whether all bytes are digits.
fn are_digits(text: &[u8]) -> bool
    ensures { result ≡ list_all is_ascii_digit text.now }
{
    text.iter().all(|byte| byte.is_ascii_digit())
}
