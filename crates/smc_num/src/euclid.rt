ghost use Rattle.std.specs.Prelude.{◌≡◌};
ghost use Rattle.std.specs.Int.{IsGcd};
ghost use Rattle.smc_num.specs.Gcd.{gcd_of};

/// The greatest common divisor of two numbers, by Euclid's algorithm; that of 0 and 0 is 0.
pub fn gcd(a: u64, b: u64) -> u64
    ensures value { result ≡ gcd_of a b }
    ensures greatest { IsGcd a b result }
{
    let mut larger = a;
    let mut smaller = b;
    'steps: while smaller != 0 {
        let rest = larger % smaller;
        larger = smaller;
        smaller = rest;
    }
    larger
}
