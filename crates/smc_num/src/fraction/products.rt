ghost use Rattle.std.specs.Prelude.{◌≡◌, ◌*◌, ◌<◌, ◌≤◌, ◌^◌, ◌↔◌, pos, IsOkUnless, IsErrOf};
ghost use Rattle.smc_num.specs.Gcd.{IsCoprime};
ghost use Rattle.smc_num.specs.Fraction.{signed, lowest};
ghost use Rattle.smc_num.specs.Arithmetic.{product_of, quotient_of};

use crate::euclid::gcd;
use crate::fault::NumFault;
use crate::fraction::{Frac, product_of_sizes};

impl Frac {
    /// The exact product.
    pub fn mul(a: Frac, b: Frac) -> Result<Frac, NumFault>
        ensures value { result ≡ product_of a b }
        ensures refusal { IsOkUnless result NumFault.OutOfLimit }
    {
        let negative = (a.num < 0) != (b.num < 0);
        product(
            negative,
            (a.num.unsigned_abs(), a.den),
            (b.num.unsigned_abs(), b.den),
        )
    }

    /// The exact quotient.
    pub fn div(a: Frac, b: Frac) -> Result<Frac, NumFault>
        ensures value { result ≡ quotient_of a b }
        ensures zero { IsErrOf result NumFault.ZeroDivisor ↔ (b.num ≡ pos 0) }
    {
        if b.num == 0 {
            return Err(NumFault::ZeroDivisor);
        }
        let negative = (a.num < 0) != (b.num < 0);
        product(
            negative,
            (a.num.unsigned_abs(), a.den),
            (b.den, b.num.unsigned_abs()),
        )
    }
}

/// The product of two fractions of sizes, each in lowest terms, with a sign. What the one numerator
/// and the other denominator share is taken off before the parts are multiplied.
fn product(negative: bool, a: (u64, u64), b: (u64, u64)) -> Result<Frac, NumFault>
    requires a_coprime { IsCoprime a.0 a.1 }
    requires b_coprime { IsCoprime b.0 b.1 }
    requires a_some { 0 < a.1 }
    requires b_some { 0 < b.1 }
    ensures { result ≡ lowest (signed negative (a.0 * b.0)) (a.1 * b.1) }
{
    let (a_size, a_den) = a;
    let (b_size, b_den) = b;
    if a_den == 1 && b_den == 1 {
        return Frac::from_parts(negative, product_of_sizes(a_size, b_size), 1);
    }
    let left = gcd(a_size, b_den);
    let right = gcd(b_size, a_den);
    let size = product_of_sizes(a_size / left, b_size / right);
    let den = product_of_sizes(a_den / right, b_den / left);
    Frac::from_parts(negative, size, den)
}
