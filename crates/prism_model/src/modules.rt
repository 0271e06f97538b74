ghost use Rattle.std.specs.Prelude.{◌≡◌, length};
ghost use Rattle.prism_syntax.specs.Models.{IsModule};
ghost use Rattle.prism_reading.specs.Reading.{Answers, Anything, Parses, Fails};
ghost use Rattle.prism_model.specs.Parts.{IsBody};

use crate::commands::commands;
use crate::renamings::renaming;
use crate::variables::variables;
use prism_reading::{Mismatch, accept, expect, name};
use prism_syntax::{Command, Kind, Module, Token, Variable};
use sqlite_items::Items;
use std::alloc::Global;

/// The module that begins the tokens, and the tokens after it.
pub fn module<'a>(alloc: Global, tokens: &'a [Token]) -> Result<(Module, &'a [Token]), Mismatch>
    ensures { Answers
        (λ r. Parses IsModule Anything tokens.now r.0 r.1.now (length r.1.now))
        (Fails IsModule Anything tokens.now)
        result }
{
    let rest = expect(tokens, &Kind::Module)?;
    let (name, rest) = name(alloc, rest)?;
    match accept(rest, &Kind::Equal) {
        Some(rest) => {
            let ((source, pairs), rest) = renaming(alloc, rest)?;
            let module = Module::Renamed {
                name,
                source,
                pairs,
            };
            Ok((module, rest))
        }
        None => {
            let ((vars, commands), rest) = body(alloc, rest)?;
            let module = Module::Written {
                name,
                vars,
                commands,
            };
            Ok((module, rest))
        }
    }
}

/// The variables and the commands of a module, and the tokens after `endmodule`.
fn body<'a>(
    alloc: Global,
    tokens: &'a [Token],
) -> Result<((Items<Variable>, Items<Command>), &'a [Token]), Mismatch>
    ensures { Answers
        (λ r. Parses IsBody Anything tokens.now r.0 r.1.now (length r.1.now))
        (Fails IsBody Anything tokens.now)
        result }
{
    let (vars, rest) = variables(alloc, tokens)?;
    let (commands, rest) = commands(alloc, rest)?;
    let rest = expect(rest, &Kind::EndModule)?;
    Ok(((vars, commands), rest))
}
