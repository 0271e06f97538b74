ghost use Rattle.std.specs.Prelude.{◌≡◌, false, true, pos, Some, option_map, [], ◌∷◌};
ghost use Rattle.wald_test.specs.Settings.{theta_outside, a_denominator_large, fault_of, unless};
ghost use Rattle.run_goal.specs.Refusal.{first_large, wald_fault};
ghost use Rattle.run_goal.specs.Goal.{tested, rule_of};

use crate::fault::SettingsFault;
use crate::probability::{is_outside, tested};
use chain_model::Claim;
use sampling_plan::PlanFault;
use smc_num::Frac;
use smc_settings::TestWords;
use stop_rules::Rule;
use wald_test::Wald;

/// The largest denominator that a setting may have.
const LARGEST_DENOMINATOR: i64 = 1 << 31;

/// The rule of Wald's test of the claim.
pub(crate) fn wald_rule(
    claim: &Claim,
    delta: Frac,
    alpha: Frac,
    beta: Frac,
) -> Result<Rule, SettingsFault>
    ensures { result ≡ unless (wald_fault claim.now delta alpha beta)
        (rule_of claim.now (TestWords.Wald delta alpha beta)) }
{
    if is_outside(claim.theta) {
        return Err(SettingsFault::Theta(claim.theta));
    }
    match Wald::new(tested(claim), delta, alpha, beta) {
        Ok(wald) => Ok(Rule::Wald(wald)),
        Err(fault) => Err(told(claim, delta, alpha, beta, fault)),
    }
}

/// The first fault of the settings with what is printed of it.
fn told(claim: &Claim, delta: Frac, alpha: Frac, beta: Frac, fault: PlanFault) -> SettingsFault
    requires inside { theta_outside claim.now.theta ≡ false }
    requires first { fault_of (tested claim.now) delta alpha beta ≡ Some fault }
    ensures { wald_fault claim.now delta alpha beta ≡ Some result }
{
    match fault {
        PlanFault::ThetaOutside => SettingsFault::Theta(claim.theta),
        PlanFault::DeltaNotPositive => SettingsFault::Delta(delta),
        PlanFault::ErrorOutside => SettingsFault::ErrorOutside { alpha, beta },
        PlanFault::ErrorsTooLarge => SettingsFault::ErrorSum { alpha, beta },
        PlanFault::Denominator => SettingsFault::Denominator(large_denominator(
            claim.theta,
            delta,
            alpha,
            beta,
        )),
        PlanFault::BadPlan => unreachable!(),
    }
}

/// The first denominator above 2^31 of four fractions that have one.
fn large_denominator(theta: Frac, delta: Frac, alpha: Frac, beta: Frac) -> i64
    requires { a_denominator_large theta delta alpha beta ≡ true }
    ensures { option_map (λ f. pos f.den) (first_large (theta ∷ delta ∷ alpha ∷ beta ∷ [])) ≡ Some result }
{
    if theta.den() > LARGEST_DENOMINATOR {
        theta.den()
    } else if delta.den() > LARGEST_DENOMINATOR {
        delta.den()
    } else if alpha.den() > LARGEST_DENOMINATOR {
        alpha.den()
    } else {
        beta.den()
    }
}
