ghost use Rattle.std.specs.Prelude.{◌≡◌, ◌<◌, ◌^◌, ◌↔◌, pos, ◌+ℤ◌, ◌*ℤ◌, ◌<ℤ◌, ◌≤ℤ◌, unsigned_abs};
ghost use Rattle.smc_num.specs.Arithmetic.{compare_of, floor_of, ceil_of};

use crate::fraction::{Frac, negated, scaled};
use std::cmp::Ordering;

impl Frac {
    /// Which of two fractions is the less, exactly.
    #[tactic(auto, unfolding(crate::specs::Arithmetic::compare_of))]
    pub fn cmp(a: Frac, b: Frac) -> Ordering
        ensures value { result ≡ compare_of a b }
        ensures equal { (result ≡ Ordering.Equal) ↔ (a ≡ b) }
    {
        scaled(a.num, b.den).cmp(&scaled(b.num, a.den))
    }
}

/// The greatest whole number that is at most `a`.
#[tactic(auto, unfolding(crate::specs::Arithmetic::floor_of))]
pub fn floor(a: Frac) -> i64
    ensures value { result ≡ floor_of a }
    ensures at_most { (result *ℤ pos a.den) ≤ℤ a.num }
    ensures next { a.num <ℤ ((result +ℤ pos 1) *ℤ pos a.den) }
    ensures bound { unsigned_abs result < 2 ^ 62 }
{
    if a.den == 1 {
        return a.num;
    }
    a.num.div_euclid(a.den as i64)
}

/// The least whole number that is at least `a`.
#[tactic(auto, unfolding(crate::specs::Arithmetic::ceil_of))]
pub fn ceil(a: Frac) -> i64
    ensures value { result ≡ ceil_of a }
    ensures at_least { a.num ≤ℤ (result *ℤ pos a.den) }
    ensures before { ((result *ℤ pos a.den) <ℤ (a.num +ℤ pos a.den)) }
    ensures bound { unsigned_abs result < 2 ^ 62 }
{
    -floor(negated(a))
}
