ghost use Rattle.std.specs.Prelude.{◌≡◌, length};
ghost use Rattle.prism_syntax.specs.declared.tokens.Kind.TheVariants as k;
ghost use Rattle.prism_syntax.specs.Models.{Each, IsCommand};
ghost use Rattle.prism_reading.specs.Reading.{Answers, Anything, Parses, Fails};
ghost use Rattle.prism_model.specs.Parts.{BeginsNot, IsActionEnded};

use crate::branches::branches;
use prism_expression::expression_until;
use prism_reading::{Mismatch, accept, expect, name};
use prism_syntax::{Command, Kind, Labels, Precedence, Token};
use smc_num::Text;
use sqlite_items::Items;
use std::alloc::Global;

/// The commands that begin the tokens, up to where no `[` begins a further one, and the tokens after them.
pub fn commands<'a>(
    alloc: Global,
    tokens: &'a [Token],
) -> Result<(Items<Command>, &'a [Token]), Mismatch>
    ensures { Answers
        (λ r. Parses (Each IsCommand) (BeginsNot k.OpenBracket) tokens.now r.0 r.1.now (length r.1.now))
        (Fails (Each IsCommand) (BeginsNot k.OpenBracket) tokens.now)
        result }
{
    let mut commands = Items::new(alloc);
    let mut rest = tokens;
    while accept(rest, &Kind::OpenBracket).is_some() {
        let (next, after) = command(alloc, rest)?;
        commands.push(next)?;
        rest = after;
    }
    Ok((commands, rest))
}

/// The command that begins the tokens, and the tokens after it.
fn command<'a>(alloc: Global, tokens: &'a [Token]) -> Result<(Command, &'a [Token]), Mismatch>
    ensures { Answers
        (λ r. Parses IsCommand Anything tokens.now r.0 r.1.now (length r.1.now))
        (Fails IsCommand Anything tokens.now)
        result }
{
    let rest = expect(tokens, &Kind::OpenBracket)?;
    let (action, rest) = action(alloc, rest)?;
    let (guard, rest) = expression_until(
        alloc,
        Labels::Refused,
        Precedence::Conditional,
        rest,
        &Kind::Arrow,
    )?;
    let (branches, rest) = branches(alloc, rest)?;
    let command = Command {
        action,
        guard,
        branches,
    };
    Ok((command, rest))
}

/// The action that begins the tokens, if one does, and the tokens after the `]` that has to follow.
fn action<'a>(alloc: Global, tokens: &'a [Token]) -> Result<(Option<Text>, &'a [Token]), Mismatch>
    ensures { Answers
        (λ r. Parses IsActionEnded Anything tokens.now r.0 r.1.now (length r.1.now))
        (Fails IsActionEnded Anything tokens.now)
        result }
{
    match accept(tokens, &Kind::CloseBracket) {
        Some(rest) => Ok((None, rest)),
        None => {
            let (name, rest) = name(alloc, tokens)?;
            let rest = expect(rest, &Kind::CloseBracket)?;
            Ok((Some(name), rest))
        }
    }
}
