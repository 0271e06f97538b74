//! What settings are answered over a model's text.

ghost use Rattle.std.specs.Prelude.{◌≡◌, IsTrue, IfOk, map};
ghost use Rattle.std.specs.List.{list_all};
ghost use Rattle.stop_rules.specs.Observers.{is_ready};
ghost use Rattle.smc_settings.specs.Settings.{AreWithin};
ghost use Rattle.smc_report.specs.Help.{commands_line};
ghost use Rattle.smc_top.specs.Report.{IsAnswer};

use crate::checking::check;
use crate::expanding::expand;
use crate::making::make;
use crate::report::Report;
use crate::status::Status;
use crate::tracing::trace;
use smc_report::help_line;
use smc_settings::Settings;
use std::alloc::{AllocError, Global};
use stop_rules::Observer;

/// What settings are answered over a model's text, of which `make` and `help` read nothing.
pub(crate) fn answer(
    alloc: Global,
    settings: &Settings,
    text: &[u8],
    watch: Vec<Box<dyn Observer>>,
) -> Result<Report, AllocError>
    requires within { AreWithin settings.now }
    requires ready { IsTrue (list_all is_ready (map (λ b. observation b) watch.items)) }
    ensures { IfOk result (IsAnswer (map (λ b. observation b) watch.items) settings.now text.now) }
{
    match settings {
        Settings::Check { .. } => check(alloc, settings, text, watch),
        Settings::Trace { .. } => trace(alloc, settings, text),
        Settings::Expand { .. } => expand(alloc, text),
        Settings::Make {
            stations,
            seed,
            workers,
        } => make(alloc, *stations, *seed, *workers, watch),
        Settings::Help => help(alloc),
    }
}

/// The report of `help`.
fn help(alloc: Global) -> Result<Report, AllocError>
    ensures { IfOk result (λ report. report ≡ record { status = Status.Accepted; bytes = commands_line }) }
{
    let line = help_line(alloc)?;
    Ok(Report::new(Status::Accepted, line))
}
