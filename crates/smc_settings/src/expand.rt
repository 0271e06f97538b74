ghost use Rattle.std.specs.Prelude.{◌≡◌, map, string_bytes, IfOk, IsErrOf};
ghost use Rattle.clap.specs.Words.{first_value, found_of};
ghost use Rattle.smc_settings.specs.Settings.{IsExpand, AreExpandWords, expand_table};

use crate::argument::Argument;
use crate::commands::Settings;
use crate::reading::matches_of;
use crate::usage::Usage;
use clap::ArgMatches;
use std::alloc::Global;

/// The options of `expand`.
const TABLE: [&str; 1] = ["model"];

/// The settings of the words after `expand`.
pub(crate) fn expand(alloc: Global, words: &[String]) -> Result<Settings, Usage>
    ensures read { IfOk result (λ settings. AreExpandWords (map string_bytes words.now) settings) }
    ensures refused { IsErrOf result Usage.Words
        → (settings : Settings) → AreExpandWords (map string_bytes words.now) settings → ⊥ }
{
    match matches_of(alloc, TABLE.as_slice(), words) {
        Ok(matches) => settings(alloc, &matches),
        Err(fault) => Err(fault),
    }
}

/// The settings of the options of `expand`.
fn settings(alloc: Global, matches: &ArgMatches<'_>) -> Result<Settings, Usage>
    ensures read { IfOk result (λ settings. IsExpand (first_value (found_of matches.now)) settings) }
    ensures refused { IsErrOf result Usage.Words
        → (settings : Settings) → IsExpand (first_value (found_of matches.now)) settings → ⊥ }
{
    let Some(model) = matches.get_str("model") else {
        return Err(Usage::Words);
    };
    Ok(Settings::Expand {
        model: Argument::new(alloc, model).map_err(Usage::OutOfMemory)?,
    })
}
