ghost use Rattle.std.specs.Prelude.{◌≡◌, ◌+◌, ◌*◌, ◌<◌, ◌≤◌, ◌^◌};
ghost use Rattle.std.specs.Option.{ForSome};
ghost use Rattle.wald_test.specs.Kept.{likelihood_at, sums_at, is_zero};

use crate::factor::Factor;
use crate::sums::Sums;

/// A probability and its complement, as whole numbers over one denominator.
#[derive(Clone, Copy, Debug, PartialEq, Eq)]
pub struct Likelihood {
    pub success: Factor,
    pub failure: Factor,
}

impl Likelihood {
    /// The probability `number / parts` and its complement.
    pub fn at(number: u64, parts: u64) -> Self
        requires most { number ≤ parts }
        requires small { parts < 2 ^ 62 }
        ensures { result ≡ likelihood_at number parts }
    {
        Likelihood {
            success: Factor::of(number),
            failure: Factor::of(parts - number),
        }
    }

    /// The sums of the likelihood of these counts, or `None` where it is 0.
    pub fn sums(&self, successes: u64, failures: u64) -> Option<Sums>
        requires { successes + failures ≤ 2 ^ 28 }
        ensures value { result ≡ sums_at self.now successes failures }
        ensures small { ForSome result (λ s. (s.low < 2 ^ 127) × (s.high < 2 ^ 127)) }
    {
        if is_zero(self.success.number, successes) || is_zero(self.failure.number, failures) {
            return None;
        }
        Some(Sums {
            low: weighted(successes, self.success.low, failures, self.failure.low),
            high: weighted(successes, self.success.high, failures, self.failure.high),
        })
    }
}

/// Whether a factor makes a product 0: it is 0 and stands in it.
fn is_zero(number: u64, times: u64) -> bool
    ensures { result ≡ is_zero number times }
{
    number == 0 && times > 0
}

/// Two numbers, each so many times.
fn weighted(successes: u64, success: u64, failures: u64, failure: u64) -> u128
    requires { successes + failures ≤ 2 ^ 28 }
    ensures value { result ≡ successes * success + failures * failure }
    ensures small { result < 2 ^ 127 }
{
    u128::from(successes) * u128::from(success) + u128::from(failures) * u128::from(failure)
}
