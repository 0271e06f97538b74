ghost use Rattle.std.specs.Prelude.{◌≡◌, IfOk};
ghost use Rattle.model_gen.specs.Ring.{ring};

use crate::formula::append_formula;
use crate::stations::{append_others, first_station};
use std::alloc::{AllocError, Global};

/// The text of a ring of so many stations in the modelling language, meant for odd numbers from 3 on. All stations move together:
/// one whose variable is that of its neighbour draws a new value, and the others take their neighbour's. The label `"stable"` holds
/// where one token is left. The ring is that of T. Herman, Probabilistic self-stabilization, Information Processing Letters 35 (1990).
pub fn ring(alloc: Global, stations: u32) -> Result<Vec<u8>, AllocError>
    ensures { IfOk result (λ text. text.items ≡ ring stations) }
{
    let mut text = Vec::from_slice(alloc, b"dtmc\n")?;
    append_formula(alloc, &mut text, stations)?;
    text.extend_from_slice(first_station(alloc, stations)?.as_bytes())?;
    append_others(alloc, &mut text, stations)?;
    text.extend_from_slice(b"label \"stable\" = tokens=1;\n")?;
    Ok(text)
}
