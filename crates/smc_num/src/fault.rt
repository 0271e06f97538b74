/// Why an operation on numbers has no value.
#[derive(Clone, Copy, Debug, PartialEq, Eq, Hash)]
pub enum NumFault {
    /// A divisor, a modulus or a denominator is zero.
    ZeroDivisor,
    /// An exponent or a modulus is negative.
    OutsideDomain,
    /// The exact value is outside the limits, and neither of the others holds.
    OutOfLimit,
}

/// Why a text gives no number.
#[derive(Clone, Copy, Debug, PartialEq, Eq, Hash)]
pub enum ReadNum {
    /// The text is not of the spelling of numbers.
    NotANumber,
    /// It is, and the number is too wide.
    OutOfLimit,
}
