ghost use Rattle.std.specs.Prelude.{◌≡◌, ℕ, List, [], ◌∷◌, map, string_bytes, codes, true, false, IfOk, IfErr, Some, None};
ghost use Rattle.clap.specs.Words.{kind_of, app_of, rule_of, first_value, found_of};
ghost use Rattle.smc_settings.specs.Options.{Gives, are_distinct, value_in};
ghost use Rattle.smc_settings.specs.Parse.{option_rule, bare_app, command_app, IsTable};

use clap::error::ErrorKind;
use clap::{Arg, ArgMatches, Command, Error};
use std::alloc::{AllocError, Global};

/// What `clap` makes of words that give options of the table.
pub(crate) fn parse<'a>(
    alloc: Global,
    table: &[&'a str],
    words: &'a [String],
) -> Result<ArgMatches<'a>, Error>
    requires table { IsTable (map (λ name. name.now) table.now) }
    ensures distinct { IfOk result (λ m. (options : List (List ℕ × List ℕ))
        → Gives (map (λ name. name.now) table.now) (map string_bytes words.entry.now) options
        → are_distinct options ≡ true) }
    ensures values { IfOk result (λ m. (options : List (List ℕ × List ℕ))
        → Gives (map (λ name. name.now) table.now) (map string_bytes words.entry.now) options
        → (name : List ℕ) → first_value (found_of m) name ≡ value_in options name) }
    ensures err { IfErr result (λ e. (options : List (List ℕ × List ℕ))
        → Gives (map (λ name. name.now) table.now) (map string_bytes words.entry.now) options
        → are_distinct options ≡ true → kind_of e ≡ ErrorKind.OutOfMemory) }
{
    let command = command(alloc, table)?;
    match command.try_get_matches_from(words) {
        Ok(matches) => Ok(matches),
        Err(error) => Err(error),
    }
}

/// A command with the options of the table.
fn command<'a>(alloc: Global, table: &[&'a str]) -> Result<Command<'a>, AllocError>
    ensures { IfOk result (λ c. app_of c ≡ command_app (map (λ name. name.now) table.now)) }
{
    let mut command = bare(alloc);
    for name in table {
        command = command.arg(option(alloc, *name))?;
    }
    Ok(command)
}

/// A command without options, which takes words alone and has no flags of its own.
fn bare<'a>(alloc: Global) -> Command<'a>
    ensures { app_of result ≡ bare_app }
{
    Command::new(alloc, "smc")
        .no_binary_name(true)
        .disable_help_flag(true)
        .disable_version_flag(true)
}

/// An option of this name, which takes one text.
fn option<'a>(alloc: Global, name: &'a str) -> Arg<'a>
    ensures rule { rule_of result ≡ option_rule name.entry.now }
    ensures own { result.global ≡ false }
{
    Arg::new(alloc, name).long(name)
}
