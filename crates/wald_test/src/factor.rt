ghost use Rattle.std.specs.Prelude.{◌≡◌, ◌<◌, ◌^◌};
ghost use Rattle.wald_test.specs.Kept.{factor_of};

use log_bracket::bracket;

/// A whole number with the bracket of its logarithm: `low` and `high` enclose 2^48 times its logarithm
/// to base 2. The number 0 has none, and both ends are 0.
#[derive(Clone, Copy, Debug, PartialEq, Eq)]
pub struct Factor {
    pub number: u64,
    pub low: u64,
    pub high: u64,
}

impl Factor {
    /// The factor of this number.
    pub fn of(number: u64) -> Self
        requires { number < 2 ^ 62 }
        ensures { result ≡ factor_of number }
    {
        if number == 0 {
            return Factor {
                number,
                low: 0,
                high: 0,
            };
        }
        let (low, high) = bracket(number);
        Factor { number, low, high }
    }
}
