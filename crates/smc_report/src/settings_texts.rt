ghost use Rattle.std.specs.Prelude.{◌≡◌, ◌++◌, Some, codes, string_bytes, IfOk};
ghost use Rattle.smc_report.specs.Texts.{fraction_text};
ghost use Rattle.smc_report.specs.Refusals.{settings_row, text_in};

use crate::numbers::fraction_text;
use run_goal::SettingsFault;
use smc_num::Frac;
use std::alloc::{AllocError, Global};

/// The text of a refusal of settings.
pub(crate) fn settings_text(alloc: Global, fault: &SettingsFault) -> Result<String, AllocError>
    ensures { IfOk result (λ text. text_in (settings_row fault.now) ≡ Some (string_bytes text)) }
{
    match fault {
        SettingsFault::Theta(theta) => one_number(alloc, "theta", *theta),
        SettingsFault::Delta(delta) => one_number(alloc, "delta", *delta),
        SettingsFault::ErrorOutside { alpha, beta } => errors(alloc, *alpha, *beta),
        SettingsFault::ErrorSum { alpha, beta } => errors(alloc, *alpha, *beta),
        SettingsFault::Denominator(number) => format!(in alloc; "denominator {number}"),
        SettingsFault::Plan { n, c } => format!(in alloc; "plan {n},{c}"),
    }
}

/// A label and a fraction.
fn one_number(alloc: Global, label: &str, number: Frac) -> Result<String, AllocError>
    ensures { IfOk result (λ text. string_bytes text ≡ label.now ++ (codes " " ++ fraction_text number)) }
{
    let number = fraction_text(alloc, number)?;
    format!(in alloc; "{label} {number}")
}

/// The two error probabilities.
fn errors(alloc: Global, alpha: Frac, beta: Frac) -> Result<String, AllocError>
    ensures { IfOk result (λ text. string_bytes text ≡
        codes "errors " ++ (fraction_text alpha ++ (codes " " ++ fraction_text beta))) }
{
    let alpha = fraction_text(alloc, alpha)?;
    let beta = fraction_text(alloc, beta)?;
    format!(in alloc; "errors {alpha} {beta}")
}
