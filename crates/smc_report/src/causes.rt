ghost use Rattle.std.specs.Prelude.{◌≡◌, ◌++◌, codes, IfOk};
ghost use Rattle.smc_report.specs.Causes.{variable_name, cause_text};

use crate::numbers::numbered;
use chain_model::{Chain, TraceFault};
use std::alloc::{AllocError, Global};

/// The cause of a trace's fault in words. It names a variable of the chain, or a command by its number.
pub fn cause(alloc: Global, chain: &Chain, fault: &TraceFault) -> Result<Vec<u8>, AllocError>
    ensures { IfOk result (λ text. text.items ≡ cause_text chain.now fault.now) }
{
    match fault {
        TraceFault::Range { var } => outside(alloc, chain, *var),
        TraceFault::ZeroDivisor => Vec::from_slice(alloc, b"zero divisor"),
        TraceFault::OutOfLimit => Vec::from_slice(alloc, b"number out of limit"),
        TraceFault::OutsideDomain => Vec::from_slice(alloc, b"outside the domain"),
        TraceFault::Weights { command } => numbered(alloc, "weights of command ", *command),
        TraceFault::Denominator { command } => numbered(alloc, "denominator of command ", *command),
        TraceFault::Choices => Vec::from_slice(alloc, b"too many choices"),
    }
}

/// The cause that a value is outside the range of the variable of this number.
fn outside(alloc: Global, chain: &Chain, var: u32) -> Result<Vec<u8>, AllocError>
    ensures { IfOk result (λ text. text.items ≡ variable_name chain.now var ++ codes " outside its range") }
{
    let mut text = Vec::from_slice(alloc, name(chain, var))?;
    text.extend_from_slice(b" outside its range")?;
    Ok(text)
}

/// The name of the variable of this number.
fn name(chain: &Chain, var: u32) -> &[u8]
    ensures { result.now ≡ variable_name chain.now var }
{
    match chain.vars.as_slice().get(var as usize) {
        Some(var) => var.name.bytes(),
        None => b"",
    }
}
