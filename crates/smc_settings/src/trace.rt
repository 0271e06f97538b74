ghost use Rattle.std.specs.Prelude.{◌≡◌, ◌≤◌, ◌^◌, map, string_bytes, IfOk, IsErrOf};
ghost use Rattle.clap.specs.Words.{first_value, found_of};
ghost use Rattle.smc_settings.specs.Settings.{IsTrace, AreTraceWords, trace_table};

use crate::argument::Argument;
use crate::commands::Settings;
use crate::constants::pairs_or_none;
use crate::numbers::whole_or;
use crate::reading::matches_of;
use crate::usage::Usage;
use clap::ArgMatches;
use std::alloc::Global;

/// The options of `trace`.
const TABLE: [&str; 5] = ["model", "const", "seed", "index", "steps"];

/// How many steps a trace has at most that isn't given their number.
const DEFAULT_STEPS: u64 = 10;

/// How many steps a trace may have.
const MOST_STEPS: u64 = 10_000;

/// The settings of the words after `trace`.
pub(crate) fn trace(alloc: Global, words: &[String]) -> Result<Settings, Usage>
    ensures read { IfOk result (λ settings. AreTraceWords (map string_bytes words.now) settings) }
    ensures refused { IsErrOf result Usage.Words
        → (settings : Settings) → AreTraceWords (map string_bytes words.now) settings → ⊥ }
{
    match matches_of(alloc, TABLE.as_slice(), words) {
        Ok(matches) => settings(alloc, &matches),
        Err(fault) => Err(fault),
    }
}

/// The settings of the options of `trace`.
fn settings(alloc: Global, matches: &ArgMatches<'_>) -> Result<Settings, Usage>
    ensures read { IfOk result (λ settings. IsTrace (first_value (found_of matches.now)) settings) }
    ensures refused { IsErrOf result Usage.Words
        → (settings : Settings) → IsTrace (first_value (found_of matches.now)) settings → ⊥ }
{
    let Some(model) = matches.get_str("model") else {
        return Err(Usage::Words);
    };
    let Some(seed) = whole_or(1, 0, u64::MAX, matches.get_str("seed")) else {
        return Err(Usage::Words);
    };
    let Some(index) = whole_or(0, 0, u64::MAX, matches.get_str("index")) else {
        return Err(Usage::Words);
    };
    let Some(steps) = whole_or(DEFAULT_STEPS, 0, MOST_STEPS, matches.get_str("steps")) else {
        return Err(Usage::Words);
    };
    Ok(Settings::Trace {
        given: pairs_or_none(alloc, matches.get_str("const"))?,
        model: Argument::new(alloc, model).map_err(Usage::OutOfMemory)?,
        seed,
        index,
        steps: steps as u32,
    })
}
