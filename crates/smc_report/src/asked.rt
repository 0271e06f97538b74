ghost use Rattle.std.specs.Prelude.{◌≡◌, IfOk, string_bytes};
ghost use Rattle.wald_test.specs.Settings.{probabilities_of};
ghost use Rattle.run_goal.specs.Goal.{rule_of, tested, IsGoal};
ghost use Rattle.smc_report.specs.Texts.{fraction_text, quotient};
ghost use Rattle.smc_report.specs.Report.{claim_words, wald_words, test_words, asked_lines};

use crate::numbers::fraction_text;
use chain_model::Claim;
use smc_num::Frac;
use smc_settings::TestWords;
use std::alloc::{AllocError, Global};
use stop_rules::{Goal, Rule};
use wald_test::Wald;

/// The lines of what was asked: the claim, the test, how many traces are drawn at most, and the seed of their draws.
pub(crate) fn asked_lines(
    alloc: Global,
    claim: &Claim,
    words: &TestWords,
    goal: &Goal,
    seed: u64,
) -> Result<String, AllocError>
    requires { IsGoal claim.now words.now goal.now.limit goal.now }
    ensures { IfOk result (λ text. string_bytes text ≡ asked_lines claim.now words.now goal.now.limit seed) }
{
    let asked = claim_words(claim);
    let test = test_words(alloc, claim, words, &goal.rule)?;
    let limit = goal.limit;
    format!(in alloc; "claim: {asked}\ntest: {test}\nlimit: {limit}\nseed: {seed}\n")
}

/// The claim in words.
fn claim_words(claim: &Claim) -> &'static str
    ensures { result.now ≡ claim_words claim.now.at_most }
{
    if claim.at_most { "at most" } else { "at least" }
}

/// The test in words.
fn test_words(
    alloc: Global,
    claim: &Claim,
    words: &TestWords,
    rule: &Rule,
) -> Result<String, AllocError>
    requires { rule.now ≡ rule_of claim.now words.now }
    ensures { IfOk result (λ text. string_bytes text ≡ test_words claim.now words.now) }
{
    match words {
        TestWords::Plan { n, c } => format!(in alloc; "plan {n},{c}"),
        TestWords::Wald { delta, alpha, beta } => wald_words(
            alloc, claim, rule, *delta, *alpha, *beta,
        ),
    }
}

/// Wald's test of a claim in words.
fn wald_words(
    alloc: Global,
    claim: &Claim,
    rule: &Rule,
    delta: Frac,
    alpha: Frac,
    beta: Frac,
) -> Result<String, AllocError>
    requires { rule.now ≡ rule_of claim.now (TestWords.Wald delta alpha beta) }
    ensures { IfOk result (λ text. string_bytes text ≡
        wald_words (probabilities_of (tested claim.now) delta) alpha beta) }
{
    let Rule::Wald(wald) = rule else {
        unreachable!();
    };
    number_words(alloc, wald, alpha, beta)
}

/// Wald's test in words, with these error probabilities.
fn number_words(alloc: Global, wald: &Wald, alpha: Frac, beta: Frac) -> Result<String, AllocError>
    ensures { IfOk result (λ text. string_bytes text ≡
        wald_words (record { first = wald.now.upper; second = wald.now.lower; parts = wald.now.parts }) alpha beta) }
{
    let p0 = upper_text(alloc, wald)?;
    let p1 = lower_text(alloc, wald)?;
    let alpha = fraction_text(alloc, alpha)?;
    let beta = fraction_text(alloc, beta)?;
    format!(in alloc; "wald p0 {p0} p1 {p1} alpha {alpha} beta {beta}")
}

/// The upper probability of Wald's test.
fn upper_text(alloc: Global, wald: &Wald) -> Result<String, AllocError>
    ensures { IfOk result (λ text. string_bytes text ≡ fraction_text (quotient wald.now.upper wald.now.parts)) }
{
    fraction_text(alloc, wald.p0())
}

/// The lower probability of Wald's test.
fn lower_text(alloc: Global, wald: &Wald) -> Result<String, AllocError>
    ensures { IfOk result (λ text. string_bytes text ≡ fraction_text (quotient wald.now.lower wald.now.parts)) }
{
    fraction_text(alloc, wald.p1())
}
