ghost use Rattle.std.specs.Prelude.{◌≡◌, ◌≤◌, ◌^◌, map, string_bytes, IfOk, IsErrOf};
ghost use Rattle.clap.specs.Words.{first_value, found_of};
ghost use Rattle.smc_settings.specs.Settings.{IsMake, AreMakeWords, make_table};

use crate::commands::Settings;
use crate::numbers::whole_or;
use crate::reading::matches_of;
use crate::usage::Usage;
use clap::ArgMatches;
use std::alloc::Global;

/// The options of `make`.
const TABLE: [&str; 3] = ["stations", "seed", "workers"];

/// How many stations a ring has that isn't given their number.
const DEFAULT_STATIONS: u64 = 9;

/// The fewest stations of a ring.
const FEWEST_STATIONS: u64 = 3;

/// The most stations of a ring.
const MOST_STATIONS: u64 = 63;

/// The most threads that draw traces.
const MOST_WORKERS: u64 = 64;

/// The settings of the words after `make`.
pub(crate) fn make(alloc: Global, words: &[String]) -> Result<Settings, Usage>
    ensures read { IfOk result (λ settings. AreMakeWords (map string_bytes words.now) settings) }
    ensures refused { IsErrOf result Usage.Words
        → (settings : Settings) → AreMakeWords (map string_bytes words.now) settings → ⊥ }
{
    match matches_of(alloc, TABLE.as_slice(), words) {
        Ok(matches) => settings(&matches),
        Err(fault) => Err(fault),
    }
}

/// The settings of the options of `make`.
fn settings(matches: &ArgMatches<'_>) -> Result<Settings, Usage>
    ensures read { IfOk result (λ settings. IsMake (first_value (found_of matches.now)) settings) }
    ensures refused { IsErrOf result Usage.Words
        → (settings : Settings) → IsMake (first_value (found_of matches.now)) settings → ⊥ }
{
    let stations = match whole_or(
        DEFAULT_STATIONS,
        FEWEST_STATIONS,
        MOST_STATIONS,
        matches.get_str("stations"),
    ) {
        Some(stations) if stations % 2 == 1 => stations,
        _ => return Err(Usage::Words),
    };
    let Some(seed) = whole_or(1, 0, u64::MAX, matches.get_str("seed")) else {
        return Err(Usage::Words);
    };
    let Some(workers) = whole_or(1, 1, MOST_WORKERS, matches.get_str("workers")) else {
        return Err(Usage::Words);
    };
    Ok(Settings::Make {
        stations: stations as u32,
        seed,
        workers,
    })
}
