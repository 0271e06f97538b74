ghost use Rattle.std.specs.Prelude.{◌≡◌, ◌*◌, ◌<◌, ◌^◌, ◌↔◌, ◌%◌, ◌==◌, ◌&&◌, pos, ◌<ℤ◌, int_lt, IsErrOf, SomeIff};
ghost use Rattle.smc_num.specs.Arithmetic.{power_of};

use crate::fault::NumFault;
use crate::fraction::{Frac, LIMIT, product_of_sizes};

impl Frac {
    /// The exact power; the power 0 is 1, also of 0.
    pub fn pow(a: Frac, k: i64) -> Result<Frac, NumFault>
        ensures value { result ≡ power_of a k }
        ensures negative { IsErrOf result NumFault.OutsideDomain ↔ (k <ℤ pos 0) }
    {
        if k < 0 {
            return Err(NumFault::OutsideDomain);
        }
        let k = k as u64;
        let Some(size) = power(a.num.unsigned_abs(), k) else {
            return Err(NumFault::OutOfLimit);
        };
        let Some(den) = power(a.den, k) else {
            return Err(NumFault::OutOfLimit);
        };
        let negative = is_negative_power(a.num, k);
        Frac::from_parts(negative, u128::from(size), u128::from(den))
    }
}

/// A power by repeated squaring, which ends as soon as a part of it reaches the limit.
fn power(base: u64, k: u64) -> Option<u64>
    requires { base < 2 ^ 62 }
    ensures { SomeIff result (base ^ k < 2 ^ 62) (base ^ k) }
{
    if k == 0 {
        return Some(1);
    }
    let half = power(base, k / 2)?;
    let square = product_below_limit(half, half)?;
    if k % 2 == 1 {
        product_below_limit(square, base)
    } else {
        Some(square)
    }
}

/// Whether a power is below 0: that of a negative number with an odd exponent.
fn is_negative_power(num: i64, k: u64) -> bool
    ensures { result ≡ (int_lt num (pos 0) && k % 2 == 1) }
{
    num < 0 && k % 2 == 1
}

/// A product of sizes, where it is below the limit.
fn product_below_limit(a: u64, b: u64) -> Option<u64>
    ensures { SomeIff result (a * b < 2 ^ 62) (a * b) }
{
    let product = product_of_sizes(a, b);
    if product < LIMIT {
        Some(product as u64)
    } else {
        None
    }
}
