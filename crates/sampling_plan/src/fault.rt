use std::error::Error;
use std::fmt;

/// Why the settings of a test are refused.
#[derive(Clone, Copy, Debug, PartialEq, Eq)]
pub enum PlanFault {
    /// The probability that the traces are compared with is below 0 or above 1.
    ThetaOutside,
    /// The indifference width is 0 or below.
    DeltaNotPositive,
    /// One of the two error probabilities is not strictly between 0 and 1.
    ErrorOutside,
    /// The two error probabilities add up to 1 or more.
    ErrorsTooLarge,
    /// One of the four fractions has a denominator above 2^31.
    Denominator,
    /// The acceptance number of a plan is not below its number of samples.
    BadPlan,
}

impl fmt::Display for PlanFault {
    fn fmt<W: fmt::Write>(&self, f: &mut fmt::Formatter<W>) -> fmt::Result {
        f.write_str(match self {
            PlanFault::ThetaOutside => "the probability is not between 0 and 1",
            PlanFault::DeltaNotPositive => "the indifference width is not above 0",
            PlanFault::ErrorOutside => "an error probability is not strictly between 0 and 1",
            PlanFault::ErrorsTooLarge => "the error probabilities do not add up to less than 1",
            PlanFault::Denominator => "a denominator is above 2147483648",
            PlanFault::BadPlan => "the acceptance number is not below the number of samples",
        })
    }
}

impl Error for PlanFault {}
