ghost use Rattle.std.specs.Prelude.{◌≡◌, ◌*◌, ◌<◌, ◌^◌, ◌↔◌, pos, neg_ℤ, ◌*ℤ◌, IsErrOf, unsigned_abs};
ghost use Rattle.smc_num.specs.Gcd.{IsCoprime};
ghost use Rattle.smc_num.specs.Fraction.{IsFrac, signed, within, lowest, fraction_of};

mod denominators;
mod order;
mod powers;
mod products;
mod spelling;
mod sums;

use crate::euclid::gcd;
use crate::fault::NumFault;
pub use denominators::common;
pub use order::{ceil, floor};
pub use spelling::read;
use std::marker::Model;

/// Numerators lie between `-LIMIT` and `LIMIT`, denominators below `LIMIT`.
const LIMIT: u128 = 1 << 62;

/// An exact number: a fraction in lowest terms, whose numerator is within ±(2^62 - 1) and whose
/// denominator is 1 to 2^62 - 1.
#[derive(Clone, Copy, Debug, PartialEq, Eq, Hash)]
pub struct Frac {
    num: i64,
    den: u64,
}

impl Model for Frac {
    ghost use Rattle.smc_num.specs.Fraction.{Fraction, IsFrac};

    ghost Value = { Fraction };

    ghost view = { λ f. record { num = f.num; den = f.den } };

    ghost invariant = { λ f. IsFrac (record { num = f.num; den = f.den }) };

    ghost inverse = { λ v. record { num = v.num; den = v.den } };
}

impl Frac {
    /// The fraction `num / den` in lowest terms.
    pub fn new(num: i64, den: i64) -> Result<Frac, NumFault>
        ensures value { result ≡ fraction_of num den }
        ensures zero { IsErrOf result NumFault.ZeroDivisor ↔ (den ≡ pos 0) }
    {
        if den == 0 {
            return Err(NumFault::ZeroDivisor);
        }
        let negative = (num < 0) != (den < 0);
        Frac::reduced(negative, num.unsigned_abs(), den.unsigned_abs())
    }

    /// The numerator.
    pub fn num(&self) -> i64
        ensures value { result ≡ self.now.num }
        ensures lowest { IsFrac self.now }
    {
        self.num
    }

    /// The denominator, which is 1 or more.
    pub fn den(&self) -> i64
        ensures value { result ≡ pos self.now.den }
        ensures lowest { IsFrac self.now }
    {
        self.den as i64
    }

    /// The fraction of this sign, size and denominator, brought to lowest terms.
    fn reduced(negative: bool, size: u64, den: u64) -> Result<Frac, NumFault>
        requires { 0 < den }
        ensures { result ≡ lowest (signed negative size) den }
    {
        let shared = gcd(size, den);
        let den = den / shared;
        Frac::from_parts(negative, u128::from(size / shared), u128::from(den))
    }

    /// The fraction of these parts, which are in lowest terms, where they are within the limits.
    fn from_parts(negative: bool, size: u128, den: u128) -> Result<Frac, NumFault>
        requires coprime { IsCoprime size den }
        requires some { 0 < den }
        ensures { result ≡ within (signed negative size) den }
    {
        if size >= LIMIT || den >= LIMIT {
            return Err(NumFault::OutOfLimit);
        }
        let num = with_sign(negative, size as u64);
        Ok(Frac {
            num,
            den: den as u64,
        })
    }
}

/// The number of this sign and size.
fn with_sign(negative: bool, size: u64) -> i64
    requires { size < 2 ^ 63 }
    ensures { result ≡ signed negative size }
{
    if negative {
        -(size as i64)
    } else {
        size as i64
    }
}

/// The product of two sizes, which fits twice the bits.
fn product_of_sizes(a: u64, b: u64) -> u128
    ensures { result ≡ a * b }
{
    u128::from(a) * u128::from(b)
}

/// The fraction with the other sign.
fn negated(a: Frac) -> Frac
    ensures { result ≡ record { num = neg_ℤ a.num; den = a.den } }
{
    Frac {
        num: -a.num,
        den: a.den,
    }
}

/// A numerator times a factor.
fn scaled(num: i64, factor: u64) -> i128
    requires small { unsigned_abs num < 2 ^ 62 }
    requires factor { factor < 2 ^ 62 }
    ensures value { result ≡ num *ℤ pos factor }
    ensures bound { unsigned_abs result < 2 ^ 124 }
{
    i128::from(num) * i128::from(factor)
}
