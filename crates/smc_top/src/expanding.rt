//! `expand`.

ghost use Rattle.std.specs.Prelude.{◌≡◌, ℕ, List, IfOk};
ghost use Rattle.stop_rules.specs.Observers.{Observation};
ghost use Rattle.smc_settings.specs.declared.commands.Settings.TheVariants as command;
ghost use Rattle.prism_print.specs.Printed.{printed as printed_form};
ghost use Rattle.smc_top.specs.Report.{IsAnswer};

use crate::report::Report;
use crate::status::Status;
use crate::stopping::stopped;
use front_end::read_flat;
use prism_print::print;
use prism_syntax::FlatText;
use std::alloc::{AllocError, Global};

/// The report of `expand` on a model's text.
pub(crate) fn expand(alloc: Global, text: &[u8]) -> Result<Report, AllocError>
    ensures { (watched : List Observation) (model : List ℕ) → IfOk result (IsAnswer watched (command.Expand model) text.now) }
{
    match read_flat(alloc, text) {
        Ok(flat) => printed(alloc, flat),
        Err(stop) => stopped(alloc, &stop),
    }
}

/// The report of a flat text, which is let go: its printed form.
fn printed(alloc: Global, flat: FlatText) -> Result<Report, AllocError>
    ensures { IfOk result (λ report. report ≡ record { status = Status.Accepted; bytes = printed_form flat }) }
{
    let mut bytes = Vec::new(alloc);
    print(alloc, &flat, &mut bytes)?;
    Ok(Report::new(Status::Accepted, bytes))
}
