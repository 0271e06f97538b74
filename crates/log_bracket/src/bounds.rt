ghost use Rattle.std.specs.Prelude.{◌≡◌, ◌+◌, ◌^◌, ◌<◌, ◌≤◌};
ghost use Rattle.log_bracket.specs.Bracket.{lower_run, upper_run, top_exponent, bracket_of, IsPowerOfTwo};

use crate::scaled::Scaled;

/// How often a number is squared: each squaring doubles its logarithm.
const SQUARINGS: u64 = 48;

/// Two whole numbers between which 2^48 times the logarithm of `x` to base 2 lies, for `x` from 1 to
/// 2^62 - 1. They are at most 2 apart, and equal where `x` is a power of two.
pub fn bracket(x: u64) -> (u64, u64)
    requires positive { 1 ≤ x }
    requires below { x < 2 ^ 62 }
    ensures value { result ≡ bracket_of x }

    ensures low { 2 ^ result.0 ≤ x ^ (2 ^ 48) }
    ensures high { x ^ (2 ^ 48) ≤ 2 ^ result.1 }
    ensures width { result.1 ≤ result.0 + 2 }
    ensures exact { IsPowerOfTwo x → result.0 ≡ result.1 }
{
    let start = Scaled::of(x);
    let low = squared_from_below(start);
    let high = squared_from_above(start);
    (low.exponent, high.top_exponent())
}

/// The lower run: each squaring rounds down.
fn squared_from_below(start: Scaled) -> Scaled
    requires exponent { start.exponent < 62 }
    requires least { 2 ^ 62 ≤ start.mantissa }
    requires most { start.mantissa < 2 ^ 63 }
    ensures { result ≡ lower_run 48 start }
{
    let mut run = start;
    for _done in 0..SQUARINGS {
        run = run.squared_down();
    }
    run
}

/// The upper run: each squaring rounds up.
fn squared_from_above(start: Scaled) -> Scaled
    requires exponent { start.exponent < 62 }
    requires least { 2 ^ 62 ≤ start.mantissa }
    requires most { start.mantissa ≤ 2 ^ 63 }
    ensures run { result ≡ upper_run 48 start }
    ensures exponent { result.exponent < 2 ^ 62 }
{
    let mut run = start;
    for _done in 0..SQUARINGS {
        run = run.squared_up();
    }
    run
}
