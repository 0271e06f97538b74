ghost use Rattle.std.specs.Prelude.{◌≡◌, length};
ghost use Rattle.prism_syntax.specs.declared.tokens.Kind.TheVariants as k;
ghost use Rattle.prism_syntax.specs.Models.{IsPair, Separated};
ghost use Rattle.prism_reading.specs.Reading.{Answers, Anything, Parses, Fails};
ghost use Rattle.prism_model.specs.Parts.{BeginsNot, IsRenaming};

use prism_reading::{Mismatch, accept, expect, name};
use prism_syntax::{Kind, Token};
use smc_num::Text;
use sqlite_items::Items;
use std::alloc::Global;

/// What a module is a copy of, with the names that are replaced, and the tokens after `endmodule`.
pub fn renaming<'a>(
    alloc: Global,
    tokens: &'a [Token],
) -> Result<((Text, Items<(Text, Text)>), &'a [Token]), Mismatch>
    ensures { Answers
        (λ r. Parses IsRenaming Anything tokens.now r.0 r.1.now (length r.1.now))
        (Fails IsRenaming Anything tokens.now)
        result }
{
    let (source, rest) = name(alloc, tokens)?;
    let rest = expect(rest, &Kind::OpenBracket)?;
    let (pairs, rest) = pairs(alloc, rest)?;
    let rest = expect(rest, &Kind::CloseBracket)?;
    let rest = expect(rest, &Kind::EndModule)?;
    Ok(((source, pairs), rest))
}

/// The pairs, separated by commas, that begin the tokens, and the tokens after them.
fn pairs<'a>(
    alloc: Global,
    tokens: &'a [Token],
) -> Result<(Items<(Text, Text)>, &'a [Token]), Mismatch>
    ensures { Answers
        (λ r. Parses (Separated k.Comma IsPair) (BeginsNot k.Comma) tokens.now r.0 r.1.now (length r.1.now))
        (Fails (Separated k.Comma IsPair) (BeginsNot k.Comma) tokens.now)
        result }
{
    let mut pairs = Items::new(alloc);
    let mut rest = tokens;
    loop {
        let (next, end) = pair(alloc, rest)?;
        pairs.push(next)?;
        match accept(end, &Kind::Comma) {
            Some(next) => rest = next,
            None => return Ok((pairs, end)),
        }
    }
}

/// The pair of a name and what replaces it that begins the tokens, and the tokens after it.
fn pair<'a>(alloc: Global, tokens: &'a [Token]) -> Result<((Text, Text), &'a [Token]), Mismatch>
    ensures { Answers
        (λ r. Parses IsPair Anything tokens.now r.0 r.1.now (length r.1.now))
        (Fails IsPair Anything tokens.now)
        result }
{
    let (from, rest) = name(alloc, tokens)?;
    let rest = expect(rest, &Kind::Equal)?;
    let (to, rest) = name(alloc, rest)?;
    Ok(((from, to), rest))
}
