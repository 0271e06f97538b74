ghost use Rattle.std.specs.Prelude.{◌≡◌, ◌≤◌, ◌^◌, ◌↔◌, IsErrOf};
ghost use Rattle.wald_test.specs.Settings.{unless};
ghost use Rattle.run_goal.specs.Refusal.{refusal_of_settings, IsRefused};
ghost use Rattle.run_goal.specs.Goal.{rule_of, IsMade};

use crate::fault::SettingsFault;
use crate::wald::wald_rule;
use chain_model::Claim;
use sampling_plan::Plan;
use smc_settings::TestWords;
use stop_rules::{Goal, Rule};

/// The goal of a run that tests this claim so and draws at most `limit` traces. Where the claim is that the probability
/// is at most `theta`, the opposite is tested: that of the formula's negation is at least `1 - theta`, and a trace
/// succeeds where its path formula is false. A plan knows no probability.
pub fn goal(claim: &Claim, test: &TestWords, limit: u64) -> Result<Goal, SettingsFault>
    requires some { 1 ≤ limit }
    requires limited { limit ≤ 2 ^ 28 }
    ensures made { IsMade claim.now test.now limit result }
    // Each fault comes exactly where it holds and none before it does.
    ensures refused { (fault : SettingsFault) → IsErrOf result fault ↔ IsRefused claim.now test.now fault }
{
    match rule(claim, test) {
        Ok(rule) => Ok(Goal {
            rule,
            limit,
            flip: claim.at_most,
        }),
        Err(fault) => Err(fault),
    }
}

/// The rule that decides on the counts.
fn rule(claim: &Claim, test: &TestWords) -> Result<Rule, SettingsFault>
    ensures { result ≡ unless (refusal_of_settings claim.now test.now) (rule_of claim.now test.now) }
{
    match test {
        TestWords::Plan { n, c } => plan_rule(*n, *c),
        TestWords::Wald { delta, alpha, beta } => wald_rule(claim, *delta, *alpha, *beta),
    }
}

/// The rule of a plan.
fn plan_rule(n: u64, c: u64) -> Result<Rule, SettingsFault>
    ensures { (claim : Claim) → result ≡ unless (refusal_of_settings claim (TestWords.Plan n c))
        (rule_of claim (TestWords.Plan n c)) }
{
    match Plan::new(n, c) {
        Ok(plan) => Ok(Rule::Plan(plan)),
        Err(_) => Err(SettingsFault::Plan { n, c }),
    }
}
