ghost use Rattle.std.specs.Prelude.{◌≡◌, ◌++◌, ◌<◌, map, decimal, unsigned_abs, OnOk};
ghost use Rattle.std.specs.List.{range_with_len};
ghost use Rattle.prism_print.specs.Decimals.{decimals_of, digit_after_point, point_decimal};

use itoa::Buffer;
use smc_num::Frac;
use std::alloc::AllocError;

/// No number of the language has more decimals.
const MOST_DECIMALS: u32 = 18;

/// Appends a whole number.
#[inline(never)]
fn append_number(text: &mut Vec<u8>, number: u64) -> Result<(), AllocError>
    ensures { OnOk result (text.new.items ≡ text.old.items ++ decimal number) }
{
    text.extend_from_slice(Buffer::new().format(number).as_bytes())
}

/// Appends the size of a whole number.
pub(crate) fn append_whole(text: &mut Vec<u8>, value: Frac) -> Result<(), AllocError>
    ensures { OnOk result (text.new.items ≡ text.old.items ++ decimal (unsigned_abs value.num)) }
{
    append_number(text, value.num().unsigned_abs())
}

/// Appends the size of a number as a decimal, with as few decimals as are exact.
#[inline(never)]
pub(crate) fn append_real(text: &mut Vec<u8>, value: Frac) -> Result<(), AllocError>
    ensures { OnOk result (text.new.items ≡ text.old.items ++ point_decimal value) }
{
    append_number(
        text,
        value.num().unsigned_abs() / value.den().unsigned_abs(),
    )?;
    text.extend_from_slice(b".")?;
    append_decimals(text, value, decimals(value))
}

/// Appends so many digits after the point.
fn append_decimals(text: &mut Vec<u8>, value: Frac, count: u32) -> Result<(), AllocError>
    requires { count < 20 }
    ensures { OnOk result (text.new.items ≡ text.old.items
        ++ map (digit_after_point value) (range_with_len 0 count)) }
{
    for place in 0..count {
        text.push(digit_after_point(value, place))?;
    }
    Ok(())
}

/// How many decimals a number is written with.
fn decimals(value: Frac) -> u32
    ensures count { result ≡ decimals_of value }
    ensures bound { result < 20 }
{
    let den = value.den().unsigned_abs();
    for places in 1..=MOST_DECIMALS {
        if 10u64.pow(places) % den == 0 {
            return places;
        }
    }
    MOST_DECIMALS + 1
}

/// The digit at a place after the point, where the first place is 0.
fn digit_after_point(value: Frac, place: u32) -> u8
    requires { place < 19 }
    ensures { result ≡ digit_after_point value place }
{
    let scaled = u128::from(value.num().unsigned_abs()) * u128::from(10u64.pow(place + 1));
    b'0' + (scaled / u128::from(value.den().unsigned_abs()) % 10) as u8
}
