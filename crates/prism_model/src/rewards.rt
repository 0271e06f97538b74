ghost use Rattle.std.specs.Prelude.{◌≡◌, length};
ghost use Rattle.prism_reading.specs.Reading.{Answers, Anything, Parses, Fails};
ghost use Rattle.prism_model.specs.Parts.{EndsRewards, IsPassed};

use prism_reading::{Mismatch, expect};
use prism_syntax::{Kind, Token};

/// The tokens after the rewards block that begins the tokens.
pub fn rewards<'a>(tokens: &'a [Token]) -> Result<&'a [Token], Mismatch>
    ensures { Answers
        (λ rest. Parses IsPassed Anything tokens.now tt rest.now (length rest.now))
        (Fails IsPassed Anything tokens.now)
        result }
{
    let rest = expect(tokens, &Kind::Rewards)?;
    let rest = after_rewards(rest)?;
    Ok(rest)
}

/// The tokens after the first `endrewards`.
fn after_rewards<'a>(tokens: &'a [Token]) -> Result<&'a [Token], Mismatch>
    ensures { Answers
        (λ rest. Parses EndsRewards Anything tokens.now tt rest.now (length rest.now))
        (Fails EndsRewards Anything tokens.now)
        result }
{
    let mut rest = tokens;
    while let [first, after @ ..] = rest {
        match first.kind {
            Kind::EndRewards => return Ok(after),
            _ => rest = after,
        }
    }
    Err(Mismatch::NoText { left: 0 })
}
