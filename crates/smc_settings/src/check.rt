ghost use Rattle.std.specs.Prelude.{◌≡◌, ◌≤◌, ◌^◌, map, option_map, None, string_bytes, IfOk, IfSome, IfNone, IsErrOf};
ghost use Rattle.clap.specs.Words.{first_value, found_of};
ghost use Rattle.smc_settings.specs.Settings.{IsCheck, IsTest, AreCheckWords, check_table};

use crate::argument::Argument;
use crate::commands::{Settings, TestWords};
use crate::constants::pairs_or_none;
use crate::numbers::{MOST_TRACES, number_or, plan, whole_or};
use crate::reading::matches_of;
use crate::usage::Usage;
use clap::ArgMatches;
use std::alloc::Global;

/// The options of `check`.
const TABLE: [&str; 10] = [
    "model", "property", "const", "seed", "plan", "delta", "alpha", "beta", "limit", "workers",
];

/// How many traces a run draws at most that isn't given a limit.
const DEFAULT_LIMIT: u64 = 1_000_000;

/// How many threads may draw the traces of a run.
const MOST_WORKERS: u64 = 64;

/// The settings of the words after `check`.
pub(crate) fn check(alloc: Global, words: &[String]) -> Result<Settings, Usage>
    ensures read { IfOk result (λ settings. AreCheckWords (map string_bytes words.now) settings) }
    ensures refused { IsErrOf result Usage.Words
        → (settings : Settings) → AreCheckWords (map string_bytes words.now) settings → ⊥ }
{
    match matches_of(alloc, TABLE.as_slice(), words) {
        Ok(matches) => settings(alloc, &matches),
        Err(fault) => Err(fault),
    }
}

/// The settings of the options of `check`.
fn settings(alloc: Global, matches: &ArgMatches<'_>) -> Result<Settings, Usage>
    ensures read { IfOk result (λ settings. IsCheck (first_value (found_of matches.now)) settings) }
    ensures refused { IsErrOf result Usage.Words
        → (settings : Settings) → IsCheck (first_value (found_of matches.now)) settings → ⊥ }
{
    let Some(model) = matches.get_str("model") else {
        return Err(Usage::Words);
    };
    let Some(property) = matches.get_str("property") else {
        return Err(Usage::Words);
    };
    let Some(seed) = whole_or(1, 0, u64::MAX, matches.get_str("seed")) else {
        return Err(Usage::Words);
    };
    let Some(test) = test(
        matches.get_str("plan"),
        matches.get_str("delta"),
        matches.get_str("alpha"),
        matches.get_str("beta"),
    ) else {
        return Err(Usage::Words);
    };
    let Some(limit) = whole_or(DEFAULT_LIMIT, 1, MOST_TRACES, matches.get_str("limit")) else {
        return Err(Usage::Words);
    };
    let Some(workers) = whole_or(1, 1, MOST_WORKERS, matches.get_str("workers")) else {
        return Err(Usage::Words);
    };
    Ok(Settings::Check {
        given: pairs_or_none(alloc, matches.get_str("const"))?,
        model: Argument::new(alloc, model).map_err(Usage::OutOfMemory)?,
        property: Argument::new(alloc, property).map_err(Usage::OutOfMemory)?,
        seed,
        test,
        limit,
        workers,
    })
}

/// The test of the options: a plan, or Wald's test where none is given.
fn test(
    plan_text: Option<&str>,
    delta: Option<&str>,
    alpha: Option<&str>,
    beta: Option<&str>,
) -> Option<TestWords>
    ensures found { IfSome result (λ words. IsTest (option_map (λ t. t.now) plan_text.entry)
        (option_map (λ t. t.now) delta.entry) (option_map (λ t. t.now) alpha.entry)
        (option_map (λ t. t.now) beta.entry) words) }
    ensures none { IfNone result ((words : TestWords) → IsTest (option_map (λ t. t.now) plan_text.entry)
        (option_map (λ t. t.now) delta.entry) (option_map (λ t. t.now) alpha.entry)
        (option_map (λ t. t.now) beta.entry) words → ⊥) }
{
    match (plan_text, delta, alpha, beta) {
        (Some(text), None, None, None) => plan(text),
        (None, delta, alpha, beta) => wald(delta, alpha, beta),
        _ => None,
    }
}

/// Wald's test with these numbers.
fn wald(delta: Option<&str>, alpha: Option<&str>, beta: Option<&str>) -> Option<TestWords>
    ensures found { IfSome result (λ words. IsTest None (option_map (λ t. t.now) delta.entry)
        (option_map (λ t. t.now) alpha.entry) (option_map (λ t. t.now) beta.entry) words) }
    ensures none { IfNone result ((words : TestWords) → IsTest None (option_map (λ t. t.now) delta.entry)
        (option_map (λ t. t.now) alpha.entry) (option_map (λ t. t.now) beta.entry) words → ⊥) }
{
    let Some(delta) = number_or(delta) else {
        return None;
    };
    let Some(alpha) = number_or(alpha) else {
        return None;
    };
    let Some(beta) = number_or(beta) else {
        return None;
    };
    Some(TestWords::Wald { delta, alpha, beta })
}
