ghost use Rattle.std.specs.Prelude.{◌≡◌, ◌++◌, codes, ◌+◌, flat_map, string_bytes, IfOk, OnOk};
ghost use Rattle.model_gen.specs.Ring.{token, all_but_last, formula_line};

use std::alloc::{AllocError, Global};

/// Appends the line of the number of tokens.
#[tactic(auto, unfolding(crate::specs::Ring::formula_line))]
pub(crate) fn append_formula(
    alloc: Global,
    text: &mut Vec<u8>,
    stations: u32,
) -> Result<(), AllocError>
    ensures { OnOk result (text.new.items ≡ text.old.items ++ formula_line stations) }
{
    text.extend_from_slice(b"formula tokens = ")?;
    append_tokens(alloc, text, stations)?;
    text.extend_from_slice(token(alloc, stations, 1)?.as_bytes())?;
    text.extend_from_slice(b";\n")?;
    Ok(())
}

/// Appends the tokens between each station and the next one.
fn append_tokens(alloc: Global, text: &mut Vec<u8>, stations: u32) -> Result<(), AllocError>
    ensures { OnOk result (text.new.items ≡ text.old.items
        ++ flat_map (λ station. token station (station + 1) ++ codes "+") (all_but_last stations)) }
{
    for station in 1..stations {
        text.extend_from_slice(token(alloc, station, station + 1)?.as_bytes())?;
        text.extend_from_slice(b"+")?;
    }
    Ok(())
}

/// What counts the token between two stations.
#[tactic(auto, unfolding(crate::specs::Ring::token))]
fn token(alloc: Global, one: u32, other: u32) -> Result<String, AllocError>
    ensures { IfOk result (λ text. string_bytes text ≡ token one other) }
{
    format!(in alloc; "(x{one}=x{other}?1:0)")
}
