ghost use Rattle.std.specs.Prelude.{◌≡◌, ◌++◌, ◌<◌, ◌≤◌, ◌^◌, ℤ, pos, ◌-ℤ◌, nat_lt, length, unsigned_abs, Err, if◌then◌else◌};
ghost use Rattle.std.specs.Str.Parse.{AllDigits, digits_value};
ghost use Rattle.smc_num.specs.declared.fault.ReadNum.TheVariants.{NotANumber};
ghost use Rattle.smc_num.specs.Spelling.{decimal_of, limited_of, ratio_of, readable};
ghost use Rattle.smc_num.specs.Taken.{clamped};

use crate::fault::{NumFault, ReadNum};
use crate::fraction::spelling::digits::{Significant, append_all, magnitude, power_of_ten};
use crate::fraction::{Frac, LIMIT, product_of_sizes};

/// The number of these digits, of which `part` stand after the point, times a power of ten.
pub fn decimal(negative: bool, front: &[u8], part: &[u8], power: i128) -> Result<Frac, ReadNum>
    requires front { AllDigits 10 front.now }
    requires part { AllDigits 10 part.now }
    requires power { unsigned_abs power ≤ 2 ^ 100 }
    ensures { (p : ℤ) → power ≡ clamped p
        → result ≡ decimal_of negative (digits_value 10 (front.now ++ part.now)) (p -ℤ pos (length part.now)) }
{
    let start = Significant {
        digits: 0,
        zeros: 0,
    };
    let Some(whole) = append_all(start, front) else {
        return Err(ReadNum::OutOfLimit);
    };
    let Some(number) = append_all(whole, part) else {
        return Err(ReadNum::OutOfLimit);
    };
    if number.digits == 0 {
        return Ok(Frac { num: 0, den: 1 });
    }
    let places = part.len() as i128;
    limited(
        negative,
        number.digits,
        power - places + number.zeros as i128,
    )
}

/// Two whole numbers with a bar between them.
pub fn ratio(negative: bool, top: &[u8], bottom: &[u8]) -> Result<Frac, ReadNum>
    requires top { AllDigits 10 top.now }
    requires bottom { AllDigits 10 bottom.now }
    ensures { result ≡ (if nat_lt 0 (digits_value 10 bottom.now)
        then ratio_of negative (digits_value 10 top.now) (digits_value 10 bottom.now)
        else Err NotANumber) }
{
    let top = magnitude(top);
    let bottom = magnitude(bottom);
    if bottom == 0 {
        return Err(ReadNum::NotANumber);
    }
    if top >= LIMIT || bottom >= LIMIT {
        return Err(ReadNum::OutOfLimit);
    }
    readable(Frac::reduced(negative, top as u64, bottom as u64))
}

/// Digits times a power of ten, where that is not too wide.
fn limited(negative: bool, digits: u64, power: i128) -> Result<Frac, ReadNum>
    requires some { 0 < digits }
    requires small { digits < 2 ^ 62 }
    ensures { result ≡ limited_of negative digits power }
{
    let size = power.unsigned_abs();
    if size > 18 {
        return Err(ReadNum::OutOfLimit);
    }
    let scale = power_of_ten(size as u32);
    if power < 0 {
        return readable(Frac::reduced(negative, digits, scale));
    }
    let whole = product_of_sizes(digits, scale);
    if whole >= LIMIT {
        return Err(ReadNum::OutOfLimit);
    }
    readable(Frac::reduced(negative, whole as u64, 1))
}

/// A value that is outside the limits is too wide to be read.
fn readable(value: Result<Frac, NumFault>) -> Result<Frac, ReadNum>
    ensures { result ≡ readable value }
{
    match value {
        Ok(fraction) => Ok(fraction),
        Err(_) => Err(ReadNum::OutOfLimit),
    }
}
