ghost use Rattle.std.specs.Prelude.{◌≡◌, ◌<◌, ◌^◌};
ghost use Rattle.std.specs.Option.{ForSome};
ghost use Rattle.wald_test.specs.Kept.{with_factor, compared, decided};

use crate::factor::Factor;
use sampling_plan::Class;
use std::cmp::Ordering;

/// The lower and the upper sum of the brackets of a product's factors.
#[derive(Clone, Copy, Debug, PartialEq, Eq)]
pub struct Sums {
    pub low: u128,
    pub high: u128,
}

/// The sums with one factor more. A product that is 0 has no sums.
pub fn with_factor(sums: Option<Sums>, factor: Factor) -> Option<Sums>
    requires { ForSome sums (λ s. (s.low < 2 ^ 127) × (s.high < 2 ^ 127)) }
    ensures { result ≡ with_factor sums factor }
{
    match sums {
        None => None,
        Some(s) => Some(Sums {
            low: s.low + u128::from(factor.low),
            high: s.high + u128::from(factor.high),
        }),
    }
}

/// How two numbers compare, where their sums tell.
pub fn compared(left: Option<Sums>, right: Option<Sums>) -> Option<Ordering>
    ensures { result ≡ compared left right }
{
    match (left, right) {
        (None, None) => Some(Ordering::Equal),
        (None, Some(_)) => Some(Ordering::Less),
        (Some(_), None) => Some(Ordering::Greater),
        (Some(l), Some(r)) => compared_sums(l, r),
    }
}

/// How two numbers above 0 compare, where their sums tell.
fn compared_sums(left: Sums, right: Sums) -> Option<Ordering>
    ensures { result ≡ compared (Some left) (Some right) }
{
    if left.high < right.low {
        Some(Ordering::Less)
    } else if right.high < left.low {
        Some(Ordering::Greater)
    } else if left.low == left.high && right.low == right.high && left.low == right.low {
        Some(Ordering::Equal)
    } else {
        None
    }
}

/// What the two boundaries decide: the comparison of the sides of each, where their sums tell.
pub fn decided(accept: Option<Ordering>, reject: Option<Ordering>) -> Class
    ensures { result ≡ decided accept reject }
{
    match (accept, reject) {
        (None, _) | (_, None) => Class::Close,
        (Some(Ordering::Less | Ordering::Equal), Some(_)) => Class::Accept,
        (Some(Ordering::Greater), Some(Ordering::Less)) => Class::Go,
        (Some(Ordering::Greater), Some(_)) => Class::Reject,
    }
}
