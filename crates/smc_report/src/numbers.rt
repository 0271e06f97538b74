ghost use Rattle.std.specs.Prelude.{◌≡◌, ◌++◌, decimal, string_bytes, IfOk};
ghost use Rattle.smc_report.specs.Texts.{fraction_text};

use smc_num::Frac;
use std::alloc::{AllocError, Global};

/// A fraction as `num/den`, or as `num` alone where the denominator is 1.
pub(crate) fn fraction_text(alloc: Global, number: Frac) -> Result<String, AllocError>
    ensures { IfOk result (λ text. string_bytes text ≡ fraction_text number) }
{
    let num = number.num();
    let den = number.den();
    if den == 1 {
        format!(in alloc; "{num}")
    } else {
        format!(in alloc; "{num}/{den}")
    }
}

/// A label and a whole number.
pub(crate) fn numbered(alloc: Global, label: &str, number: u32) -> Result<Vec<u8>, AllocError>
    ensures { IfOk result (λ text. text.items ≡ label.now ++ decimal number) }
{
    let text = format!(in alloc; "{label}{number}")?;
    Ok(text.into_bytes())
}
