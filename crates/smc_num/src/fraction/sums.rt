ghost use Rattle.std.specs.Prelude.{◌≡◌, ◌/◌, ◌%◌, ◌<◌, IsOkUnless};
ghost use Rattle.smc_num.specs.Arithmetic.{sum_of, difference_of};

use crate::euclid::gcd;
use crate::fault::NumFault;
use crate::fraction::{Frac, negated, product_of_sizes, scaled};

impl Frac {
    /// The exact sum.
    pub fn add(a: Frac, b: Frac) -> Result<Frac, NumFault>
        ensures value { result ≡ sum_of a b }
        ensures refusal { IsOkUnless result NumFault.OutOfLimit }
    {
        if a.den == 1 && b.den == 1 {
            let num = a.num + b.num;
            return Frac::from_parts(num < 0, u128::from(num.unsigned_abs()), 1);
        }
        let shared = gcd(a.den, b.den);
        let left = b.den / shared;
        let right = a.den / shared;
        let num = scaled(a.num, left) + scaled(b.num, right);
        let size = num.unsigned_abs();
        let rest = gcd(remainder(size, shared), shared);
        let den = product_of_sizes(right, b.den / rest);
        Frac::from_parts(num < 0, quotient(size, rest), den)
    }

    /// The exact difference.
    pub fn sub(a: Frac, b: Frac) -> Result<Frac, NumFault>
        ensures value { result ≡ difference_of a b }
        ensures refusal { IsOkUnless result NumFault.OutOfLimit }
    {
        Frac::add(a, negated(b))
    }
}

/// The remainder by a number of 64 bits, without a division of 128 bits where 64 serve.
fn remainder(size: u128, by: u64) -> u64
    requires { 0 < by }
    ensures { result ≡ size % by }
{
    match u64::try_from(size) {
        Ok(small) => small % by,
        Err(_) => (size % u128::from(by)) as u64,
    }
}

/// The quotient by a number of 64 bits, without a division of 128 bits where 64 serve.
fn quotient(size: u128, by: u64) -> u128
    requires { 0 < by }
    ensures { result ≡ size / by }
{
    if by == 1 {
        return size;
    }
    match u64::try_from(size) {
        Ok(small) => u128::from(small / by),
        Err(_) => size / u128::from(by),
    }
}
