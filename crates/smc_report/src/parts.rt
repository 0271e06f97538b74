ghost use Rattle.std.specs.Prelude.{◌≡◌, ◌++◌, IfOk};
ghost use Rattle.std.specs.List.{flat_map};
ghost use Rattle.smc_report.specs.Refusals.{num_text};

use smc_num::{NumFault, Text};
use std::alloc::{AllocError, Global};

/// The text of these parts, one after another.
pub(crate) fn joined(alloc: Global, parts: &[&[u8]]) -> Result<Vec<u8>, AllocError>
    ensures { IfOk result (λ text. text.items ≡ flat_map (λ part. part.now) parts.now) }
{
    let mut text = Vec::new(alloc);
    for part in parts {
        text.extend_from_slice(part)?;
    }
    Ok(text)
}

/// A label and a name.
pub(crate) fn named(alloc: Global, label: &str, name: &Text) -> Result<Vec<u8>, AllocError>
    ensures { IfOk result (λ text. text.items ≡ label.now ++ name.now) }
{
    let mut text = Vec::from_slice(alloc, label.as_bytes())?;
    text.extend_from_slice(name.bytes())?;
    Ok(text)
}

/// Why an expression of constants has no number, and where.
pub(crate) fn fault_in(alloc: Global, fault: NumFault, place: &[u8]) -> Result<Vec<u8>, AllocError>
    ensures { IfOk result (λ text. text.items ≡ num_text fault ++ place.now) }
{
    let mut text = Vec::from_slice(alloc, num_words(fault))?;
    text.extend_from_slice(place)?;
    Ok(text)
}

/// Why an expression of constants has no number.
fn num_words(fault: NumFault) -> &'static [u8]
    ensures { result.now ≡ num_text fault }
{
    match fault {
        NumFault::ZeroDivisor => b"zero divisor",
        NumFault::OutsideDomain => b"outside the domain",
        NumFault::OutOfLimit => b"out of limit",
    }
}
