//! A law of the definitions in `specs/`: the contract of a function that does nothing when called.

ghost use Rattle.std.specs.Prelude.{◌≡◌, ℕ, List};
ghost use Rattle.smc_io.specs.Files.{Named};
ghost use Rattle.stop_rules.specs.Observers.{Observation};
ghost use Rattle.smc_top.specs.Report.{IsReport};
ghost use Rattle.smc_top.specs.declared.report.Report.{Report};

use front_end::{one_flat_law, one_model_law, one_property_law};
use smc_settings::one_settings;
use stop_rules::one_end;

/// Law: words have at most one report over the same files, whatever observes the run.
pub fn one_report()
    ensures { (words : List (List ℕ)) (files : Named) (watched : List Observation) (a b : Report)
        → IsReport words files watched a → IsReport words files watched b → a ≡ b }
{
    one_settings();
    one_flat_law();
    one_model_law();
    one_property_law();
    one_end();
}
