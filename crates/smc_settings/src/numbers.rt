ghost use Rattle.std.specs.Prelude.{◌≡◌, ◌<◌, ◌≤◌, ◌^◌, length, IfSome, IfNone, Some, pos, option_map};
ghost use Rattle.std.specs.Option.{SomeIff};
ghost use Rattle.std.specs.Str.Parse.{IsNumeral, digits_value};
ghost use Rattle.smc_num.specs.Fraction.{Fraction};
ghost use Rattle.smc_settings.specs.Values.{whole_within, whole_or, plan_of, IsNumberOf, IsNumberOr};

use crate::commands::TestWords;
use smc_num::{Frac, read};

/// As many traces as a run may draw at most; no number of a plan is above it.
pub(crate) const MOST_TRACES: u64 = 1 << 28;

/// The most digits of a whole number, leading zeros among them.
const MOST_DIGITS: usize = 20;

/// The whole number that the text writes in 1 to 20 digits.
fn whole(text: &str) -> Option<u64>
    ensures { let value = digits_value 10 text.now in
        SomeIff result (IsNumeral 10 text.now × (length text.now ≤ 20) × (value < 2 ^ 64)) value }
{
    match text.as_bytes() {
        [b'+', ..] => None,
        digits if digits.len() > MOST_DIGITS => None,
        _ => text.parse::<u64>().ok(),
    }
}

/// The whole number that the text writes in 1 to 20 digits, where it is from least to most.
pub(crate) fn whole_within(least: u64, most: u64, text: &str) -> Option<u64>
    ensures value { result ≡ whole_within least most text.now }
    ensures within { IfSome result (λ number. (least ≤ number) × (number ≤ most)) }
{
    let number = whole(text)?;
    if least <= number && number <= most {
        Some(number)
    } else {
        None
    }
}

/// The whole number of an option, from least to most, or its default where it isn't given.
pub(crate) fn whole_or(default: u64, least: u64, most: u64, text: Option<&str>) -> Option<u64>
    requires low { least ≤ default }
    requires high { default ≤ most }
    ensures value { result ≡ whole_or default least most (option_map (λ t. t.now) text.entry) }
    ensures within { IfSome result (λ number. (least ≤ number) × (number ≤ most)) }
{
    match text {
        None => Some(default),
        Some(text) => whole_within(least, most, text),
    }
}

/// The two whole numbers of a plan, with a comma between them.
pub(crate) fn plan(text: &str) -> Option<TestWords>
    ensures value { result ≡ plan_of text.now }
{
    let (samples, acceptance_number) = text.split_once(',')?;
    Some(TestWords::Plan {
        n: whole_within(0, MOST_TRACES, samples)?,
        c: whole_within(0, MOST_TRACES, acceptance_number)?,
    })
}

/// The number that a text spells.
fn number(text: &str) -> Option<Frac>
    ensures found { IfSome result (λ number. IsNumberOf text.now number) }
    ensures none { IfNone result ((number : Fraction) → IsNumberOf text.now number → ⊥) }
{
    match read(text.as_bytes()) {
        Ok(number) => Some(number),
        Err(_) => None,
    }
}

/// The number of an option, or one hundredth where it isn't given.
pub(crate) fn number_or(text: Option<&str>) -> Option<Frac>
    ensures found { IfSome result (λ number. IsNumberOr (option_map (λ t. t.now) text.entry) number) }
    ensures none { IfNone result ((number : Fraction) → IsNumberOr (option_map (λ t. t.now) text.entry) number → ⊥) }
{
    match text {
        None => hundredth(),
        Some(text) => number(text),
    }
}

/// One hundredth.
fn hundredth() -> Option<Frac>
    ensures { result ≡ Some (record { num = pos 1; den = 100 }) }
{
    match Frac::new(1, 100) {
        Ok(number) => Some(number),
        Err(_) => None,
    }
}
