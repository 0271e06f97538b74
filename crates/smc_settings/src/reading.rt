ghost use Rattle.std.specs.Prelude.{◌≡◌, ◌≤◌, ◌^◌, ◌↔◌, ℕ, List, ◌∷◌, map, string_bytes, IfOk, IsErrOf};
ghost use Rattle.clap.specs.Words.{first_value, found_of, kind_of};
ghost use Rattle.smc_settings.specs.Options.{AreOptions, value_in};
ghost use Rattle.smc_settings.specs.Parse.{IsTable, HasValues};
ghost use Rattle.smc_settings.specs.Settings.{IsSettings, AreWithin};

use crate::check::check;
use crate::commands::Settings;
use crate::expand::expand;
use crate::make::make;
use crate::options::are_options;
use crate::parsing::parse;
use crate::trace::trace;
use crate::usage::Usage;
use clap::error::ErrorKind;
use clap::{ArgMatches, Error};
use std::alloc::{AllocError, Global};

/// The settings that the words give: the first is the command, the others its options.
pub fn settings(alloc: Global, words: &[String]) -> Result<Settings, Usage>
    ensures read { IfOk result (λ settings. IsSettings (map string_bytes words.now) settings) }
    ensures refused { IsErrOf result Usage.Words
        → (settings : Settings) → IsSettings (map string_bytes words.now) settings → ⊥ }
    ensures within { IfOk result (λ settings. AreWithin settings) }
{
    match words {
        [] => Err(Usage::Words),
        [name, others @ ..] => command(alloc, name.as_str(), others),
    }
}

/// The settings of a command with its options.
fn command(alloc: Global, name: &str, words: &[String]) -> Result<Settings, Usage>
    ensures read { IfOk result (λ settings. IsSettings (name.now ∷ map string_bytes words.now) settings) }
    ensures refused { IsErrOf result Usage.Words
        → (settings : Settings) → IsSettings (name.now ∷ map string_bytes words.now) settings → ⊥ }
{
    match name {
        "check" => check(alloc, words),
        "trace" => trace(alloc, words),
        "expand" => expand(alloc, words),
        "make" => make(alloc, words),
        "help" if words.is_empty() => Ok(Settings::Help),
        _ => Err(Usage::Words),
    }
}

/// The options of a table that the words give, with their values.
pub(crate) fn matches_of<'a>(
    alloc: Global,
    table: &[&'a str],
    words: &'a [String],
) -> Result<ArgMatches<'a>, Usage>
    requires { IsTable (map (λ name. name.now) table.now) }
    ensures read { IfOk result (λ m. HasValues (map (λ name. name.now) table.now) (map string_bytes words.entry.now)
        (first_value (found_of m))) }
    ensures refused { IsErrOf result Usage.Words → (options : List (List ℕ × List ℕ))
        → AreOptions (map (λ name. name.now) table.now) (map string_bytes words.entry.now) options → ⊥ }
{
    if !are_options(table, words) {
        return Err(Usage::Words);
    }
    match parse(alloc, table, words) {
        Ok(matches) => Ok(matches),
        Err(error) => Err(usage(&error)),
    }
}

/// Want of memory, or words with an option that stands twice.
fn usage(error: &Error) -> Usage
    ensures { (result ≡ Usage.Words) → (kind_of error.now ≡ ErrorKind.OutOfMemory) → ⊥ }
{
    match error.kind() {
        ErrorKind::OutOfMemory => Usage::OutOfMemory(AllocError),
        _ => Usage::Words,
    }
}
