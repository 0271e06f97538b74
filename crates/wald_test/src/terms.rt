ghost use Rattle.std.specs.Prelude.{◌≡◌, ◌<◌};
ghost use Rattle.wald_test.specs.Settings.{least_terms};

use smc_num::gcd;

/// Two fractions over one denominator: `first / parts` and `second / parts`.
#[derive(Clone, Copy, Debug, PartialEq, Eq)]
pub struct Terms {
    pub first: u64,
    pub second: u64,
    pub parts: u64,
}

impl Terms {
    /// The fractions `first / parts` and `second / parts` over their least common denominator.
    #[tactic(auto, unfolding(crate::specs::Settings::least_terms))]
    pub fn least(first: u64, second: u64, parts: u64) -> Self
        requires { 0 < parts }
        ensures { result ≡ least_terms first second parts }
    {
        let shared = gcd(gcd(first, second), parts);
        Terms {
            first: first / shared,
            second: second / shared,
            parts: parts / shared,
        }
    }
}
