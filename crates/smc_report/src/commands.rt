ghost use Rattle.std.specs.Prelude.{◌≡◌, ◌++◌, codes, IfOk, OnOk};
ghost use Rattle.std.specs.List.{flat_map};
ghost use Rattle.smc_report.specs.Help.{commands_line};

use std::alloc::{AllocError, Global};

/// The commands that are known.
const COMMANDS: [&str; 5] = ["check", "trace", "expand", "make", "help"];

/// The answer to `help`: the line that lists the commands.
pub fn help_line(alloc: Global) -> Result<Vec<u8>, AllocError>
    ensures { IfOk result (λ text. text.items ≡ commands_line) }
{
    let mut text = Vec::from_slice(alloc, b"commands:")?;
    append_after_blanks(&mut text, COMMANDS.as_slice())?;
    text.extend_from_slice(b"\n")?;
    Ok(text)
}

/// Puts words at the end of a text, each after a blank.
fn append_after_blanks(text: &mut Vec<u8>, words: &[&str]) -> Result<(), AllocError>
    ensures { OnOk result (text.new.items ≡ text.old.items ++ flat_map (λ word. codes " " ++ word.now) words.now) }
{
    for word in words {
        text.extend_from_slice(b" ")?;
        text.extend_from_slice(word.as_bytes())?;
    }
    Ok(())
}
