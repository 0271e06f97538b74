ghost use Rattle.std.specs.Prelude.{◌≡◌, ◌+◌, ◌*◌, ◌/◌, ◌-◌, ◌^◌, ◌<◌, ◌≤◌};
ghost use Rattle.log_bracket.specs.Scaled.{scaled, square_floor, square_ceil, squared_down, squared_up};
ghost use Rattle.log_bracket.specs.Bracket.{top_exponent};

/// The mantissa of 1.
const UNIT: u64 = 1 << 62;

/// The mantissa of 2.
const TWO: u64 = 1 << 63;

/// A number kept as 2^exponent times mantissa / 2^62.
#[derive(Clone, Copy)]
pub struct Scaled {
    pub exponent: u64,
    pub mantissa: u64,
}

impl Scaled {
    /// The whole number `x`, exactly.
    pub fn of(x: u64) -> Self
        requires positive { 1 ≤ x }
        requires below { x < 2 ^ 62 }
        ensures value { result ≡ scaled x }
        ensures exponent { result.exponent < 62 }
        ensures least { 2 ^ 62 ≤ result.mantissa }
        ensures most { result.mantissa < 2 ^ 63 }
    {
        let exponent = 63 - x.leading_zeros();
        Scaled {
            exponent: u64::from(exponent),
            mantissa: x << (62 - exponent),
        }
    }

    /// The square, rounded down.
    pub fn squared_down(self) -> Self
        requires exponent { self.exponent < 2 ^ 62 }
        requires most { self.mantissa < 2 ^ 63 }
        ensures { result ≡ squared_down self }
    {
        let square = square_floor(self.mantissa);
        if square >= TWO {
            Scaled {
                exponent: 2 * self.exponent + 1,
                mantissa: square / 2,
            }
        } else {
            Scaled {
                exponent: 2 * self.exponent,
                mantissa: square,
            }
        }
    }

    /// The square, rounded up.
    pub fn squared_up(self) -> Self
        requires exponent { self.exponent < 2 ^ 62 }
        requires most { self.mantissa ≤ 2 ^ 63 }
        ensures { result ≡ squared_up self }
    {
        let square = square_ceil(self.mantissa);
        if square > u128::from(TWO) {
            Scaled {
                exponent: 2 * self.exponent + 1,
                mantissa: ((square + 1) / 2) as u64,
            }
        } else {
            Scaled {
                exponent: 2 * self.exponent,
                mantissa: square as u64,
            }
        }
    }

    /// The least whole exponent whose power of two is not below the number.
    pub fn top_exponent(self) -> u64
        requires { self.exponent < 2 ^ 62 }
        ensures { result ≡ top_exponent self }
    {
        if self.mantissa == UNIT {
            self.exponent
        } else {
            self.exponent + 1
        }
    }
}

/// The square of a mantissa, rounded down.
fn square_floor(mantissa: u64) -> u64
    requires { mantissa < 2 ^ 63 }
    ensures { result ≡ square_floor mantissa }
{
    ((u128::from(mantissa) * u128::from(mantissa)) >> 62) as u64
}

/// The square of a mantissa, rounded up.
fn square_ceil(mantissa: u64) -> u128
    requires { mantissa ≤ 2 ^ 63 }
    ensures { result ≡ square_ceil mantissa }
{
    (u128::from(mantissa) * u128::from(mantissa) + u128::from(UNIT - 1)) >> 62
}
