ghost use Rattle.std.specs.Prelude.{◌≡◌, ℕ, ◌+◌, ◌*◌, ◌<◌, ◌≤◌, ◌^◌, min, length, MatchOption, IfSome};
ghost use Rattle.std.specs.Char.{digit_value};
ghost use Rattle.std.specs.Str.Parse.{AllDigits, digits_value, digits_value_after};
ghost use Rattle.smc_num.specs.Digits.{IsSignificant, IsLong};

use crate::fraction::{LIMIT, product_of_sizes};

/// No exponent is told apart from this one on.
const FAR: u128 = 1 << 100;

/// A number as its digits without the zeros at the end, which are below the limit, and how many
/// zeros those are.
#[derive(Clone, Copy)]
pub struct Significant {
    pub digits: u64,
    pub zeros: u128,
}

/// The number of a text of digits, brought to at most 2^100.
pub fn magnitude(digits: &[u8]) -> u128
    requires { AllDigits 10 digits.now }
    ensures { result ≡ min (digits_value 10 digits.now) (2 ^ 100) }
{
    let mut size = 0u128;
    for byte in digits {
        size = (size * 10 + u128::from(digit_of(*byte))).min(FAR);
    }
    size
}

/// The number with these digits behind it, unless it is too long then.
pub fn append_all(start: Significant, digits: &[u8]) -> Option<Significant>
    requires digits { AllDigits 10 digits.now }
    requires zeros { start.zeros < 2 ^ 66 }
    ensures value { (n : ℕ) → IsSignificant n start.digits start.zeros
        → MatchOption result (IsLong (digits_value_after 10 n digits.now))
        (λ next. IsSignificant (digits_value_after 10 n digits.now) next.digits next.zeros) }
    ensures zeros { IfSome result (λ next. next.zeros ≤ start.zeros + length digits.now) }
{
    let mut number = start;
    for byte in digits {
        match append(number, digit_of(*byte)) {
            Some(next) => number = next,
            None => return None,
        }
    }
    Some(number)
}

/// The number with one digit behind it, unless it is too long then.
fn append(number: Significant, digit: u64) -> Option<Significant>
    requires digit { digit < 10 }
    requires zeros { number.zeros < 2 ^ 100 }
    ensures value { (n : ℕ) → IsSignificant n number.digits number.zeros
        → MatchOption result (IsLong (n * 10 + digit))
        (λ next. IsSignificant (n * 10 + digit) next.digits next.zeros) }
    ensures zeros { IfSome result (λ next. next.zeros ≤ number.zeros + 1) }
{
    if digit == 0 {
        let zeros = if number.digits == 0 {
            0
        } else {
            number.zeros + 1
        };
        return Some(Significant {
            digits: number.digits,
            zeros,
        });
    }
    if number.zeros >= 18 {
        return None;
    }
    let shift = power_of_ten(number.zeros as u32 + 1);
    let digits = product_of_sizes(number.digits, shift) + u128::from(digit);
    if digits >= LIMIT {
        return None;
    }
    Some(Significant {
        digits: digits as u64,
        zeros: 0,
    })
}

/// A power of ten that is below the limit.
pub fn power_of_ten(exponent: u32) -> u64
    requires { exponent ≤ 18 }
    ensures value { result ≡ 10 ^ exponent }
    ensures bound { result < 2 ^ 62 }
{
    10u64.pow(exponent)
}

/// The value of a byte that is a digit.
fn digit_of(byte: u8) -> u64
    requires { digit_value byte < 10 }
    ensures value { result ≡ digit_value byte }
    ensures bound { result < 10 }
{
    u64::from(byte - b'0')
}
