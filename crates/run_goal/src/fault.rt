use smc_num::Frac;
use std::error::Error;
use std::fmt;

/// Why a claim and the settings of a test make no goal, with what the line of the refusal prints.
#[derive(Clone, Copy, Debug, PartialEq, Eq)]
pub enum SettingsFault {
    /// The probability of the claim, as the property gives it, is below 0 or above 1.
    Theta(Frac),
    /// The indifference width is 0 or below.
    Delta(Frac),
    /// One of the two error probabilities is not strictly between 0 and 1.
    ErrorOutside { alpha: Frac, beta: Frac },
    /// The two error probabilities add up to 1 or more.
    ErrorSum { alpha: Frac, beta: Frac },
    /// The first denominator above 2^31 of the probability, the width and the two error probabilities.
    Denominator(i64),
    /// The acceptance number of the plan is not below its sample size.
    Plan { n: u64, c: u64 },
}

impl fmt::Display for SettingsFault {
    fn fmt<W: fmt::Write>(&self, f: &mut fmt::Formatter<W>) -> fmt::Result {
        f.write_str(match self {
            SettingsFault::Theta(_) => "the probability is not between 0 and 1",
            SettingsFault::Delta(_) => "the indifference width is not above 0",
            SettingsFault::ErrorOutside { .. } =>
                "an error probability is not strictly between 0 and 1",
            SettingsFault::ErrorSum { .. } =>
                "the error probabilities do not add up to less than 1",
            SettingsFault::Denominator(_) => "a denominator is above 2147483648",
            SettingsFault::Plan { .. } => "the acceptance number is not below the sample size",
        })
    }
}

impl Error for SettingsFault {}
