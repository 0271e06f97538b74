ghost use Rattle.std.specs.Prelude.{◌≡◌, IsOkUnless};
ghost use Rattle.smc_num.specs.Arithmetic.{common_of, within_all};

use crate::euclid::gcd;
use crate::fault::NumFault;
use crate::fraction::{Frac, LIMIT, product_of_sizes, scaled};

/// Both numerators over the least common denominator, and that denominator.
pub fn common(a: Frac, b: Frac) -> Result<(i64, i64, i64), NumFault>
    ensures value { result ≡ common_of a b }
    ensures refusal { IsOkUnless result NumFault.OutOfLimit }
{
    if a.den == b.den {
        return limited(i128::from(a.num), i128::from(b.num), u128::from(a.den));
    }
    let shared = gcd(a.den, b.den);
    let left = b.den / shared;
    let right = a.den / shared;
    let den = product_of_sizes(a.den, left);
    limited(scaled(a.num, left), scaled(b.num, right), den)
}

/// Two numerators over one denominator, where all three are within the limits.
fn limited(left: i128, right: i128, den: u128) -> Result<(i64, i64, i64), NumFault>
    ensures { result ≡ within_all left right den }
{
    if left.unsigned_abs() < LIMIT && right.unsigned_abs() < LIMIT && den < LIMIT {
        Ok((left as i64, right as i64, den as i64))
    } else {
        Err(NumFault::OutOfLimit)
    }
}
