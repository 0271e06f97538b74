/// What stops a trace in making a state.
#[derive(Clone, Copy, Debug, PartialEq, Eq)]
pub enum TraceFault {
    /// A value outside its variable's range.
    Range { var: u32 },
    ZeroDivisor,
    /// A result outside the limits of numbers.
    OutOfLimit,
    /// A negative exponent or modulus.
    OutsideDomain,
    /// A weight of the command below 0 or above 1, or weights that don't sum to 1.
    Weights { command: u32 },
    /// The least common denominator of the command's weights is above 2^48.
    Denominator { command: u32 },
    /// The state has more than 2^48 choices.
    Choices,
}

/// What a trace says of the path formula: true, false, or the fault that came first and the number of the state that
/// was to be made.
#[derive(Clone, Copy, Debug, PartialEq, Eq)]
pub enum Outcome {
    True,
    False,
    Fault { step: u32, fault: TraceFault },
}
