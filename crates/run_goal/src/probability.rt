ghost use Rattle.std.specs.Prelude.{◌≡◌, false};
ghost use Rattle.wald_test.specs.Settings.{theta_outside};
ghost use Rattle.run_goal.specs.Goal.{complement, tested};

use chain_model::Claim;
use smc_num::Frac;

/// Whether a number is below 0 or above 1.
pub(crate) fn is_outside(theta: Frac) -> bool
    ensures { result ≡ theta_outside theta }
{
    theta.num() < 0 || theta.num() > theta.den()
}

/// The probability that the traces are compared with.
pub(crate) fn tested(claim: &Claim) -> Frac
    requires { theta_outside claim.now.theta ≡ false }
    ensures { result ≡ tested claim.now }
{
    if claim.at_most {
        complement(claim.theta)
    } else {
        claim.theta
    }
}

/// The probability of the opposite.
fn complement(a: Frac) -> Frac
    requires { theta_outside a ≡ false }
    ensures { result ≡ complement a }
{
    match Frac::new(a.den() - a.num(), a.den()) {
        Ok(rest) => rest,
        Err(_) => unreachable!(),
    }
}
