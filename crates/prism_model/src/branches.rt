ghost use Rattle.std.specs.Prelude.{◌≡◌, MatchBool, length};
ghost use Rattle.prism_syntax.specs.declared.tokens.Kind.TheVariants as k;
ghost use Rattle.prism_syntax.specs.Tokens.{kinds};
ghost use Rattle.prism_syntax.specs.Models.{IsWeighted, Separated};
ghost use Rattle.prism_reading.specs.Reading.{Answers, Anything, Parses, Fails};
ghost use Rattle.prism_model.specs.Parts.{AreBranchesEnded, BeginsNot, BeginsTarget, BeginsUpdate, EndsBranches};

use crate::updates::update;
use prism_expression::expression_until;
use prism_reading::{Mismatch, accept, expect};
use prism_syntax::{Branch, Kind, Labels, Precedence, Token};
use sqlite_items::Items;
use std::alloc::Global;

/// The branches that begin the tokens, and the tokens after the semicolon that has to follow.
pub fn branches<'a>(
    alloc: Global,
    tokens: &'a [Token],
) -> Result<(Items<Branch>, &'a [Token]), Mismatch>
    ensures { Answers
        (λ r. Parses AreBranchesEnded Anything tokens.now r.0 r.1.now (length r.1.now))
        (Fails AreBranchesEnded Anything tokens.now)
        result }
{
    if begins_update(tokens) {
        let (branches, rest) = alone(alloc, tokens)?;
        Ok((branches, rest))
    } else {
        let (branches, rest) = weighted_branches(alloc, tokens)?;
        let rest = expect(rest, &Kind::Semicolon)?;
        Ok((branches, rest))
    }
}

/// The update, as one branch, that begins the tokens, and the tokens after its semicolon.
fn alone<'a>(alloc: Global, tokens: &'a [Token]) -> Result<(Items<Branch>, &'a [Token]), Mismatch>
    requires { BeginsUpdate (kinds tokens.now) }
    ensures { Answers
        (λ r. Parses AreBranchesEnded Anything tokens.now r.0 r.1.now (length r.1.now))
        (Fails AreBranchesEnded Anything tokens.now)
        result }
{
    let (sets, rest) = update(alloc, tokens)?;
    let rest = expect(rest, &Kind::Semicolon)?;
    let mut branches = Items::new(alloc);
    branches.push(Branch { weight: None, sets })?;
    Ok((branches, rest))
}

/// Whether the tokens begin with an assigned name, or with a `true` that ends the branches. No weight begins so, and
/// every update without a weight does.
fn begins_update(tokens: &[Token]) -> bool
    ensures { MatchBool result (BeginsUpdate (kinds tokens.now)) (BeginsUpdate (kinds tokens.now) → ⊥) }
{
    match accept(tokens, &Kind::True) {
        Some(rest) => accept(rest, &Kind::Semicolon).is_some(),
        None => begins_target(tokens),
    }
}

/// Whether the tokens begin with an assigned name.
fn begins_target(tokens: &[Token]) -> bool
    ensures { MatchBool result (BeginsTarget (kinds tokens.now)) (BeginsTarget (kinds tokens.now) → ⊥) }
{
    let Some(rest) = accept(tokens, &Kind::Open) else {
        return false;
    };
    match rest {
        [] => false,
        [first, rest @ ..] => match first.kind {
            Kind::Name(_) => accept(rest, &Kind::Prime).is_some(),
            _ => false,
        },
    }
}

/// The branches with their weights, joined by `+`, that begin the tokens, and the tokens after them.
fn weighted_branches<'a>(
    alloc: Global,
    tokens: &'a [Token],
) -> Result<(Items<Branch>, &'a [Token]), Mismatch>
    ensures { Answers
        (λ r. Parses (Separated k.Plus IsWeighted) EndsBranches tokens.now r.0 r.1.now (length r.1.now))
        (Fails (Separated k.Plus IsWeighted) EndsBranches tokens.now)
        result }
{
    let mut branches = Items::new(alloc);
    let mut rest = tokens;
    loop {
        let (branch, end) = weighted(alloc, rest)?;
        branches.push(branch)?;
        match accept(end, &Kind::Plus) {
            Some(next) => rest = next,
            None => return Ok((branches, end)),
        }
    }
}

/// The branch with its weight that begins the tokens, and the tokens after it.
fn weighted<'a>(alloc: Global, tokens: &'a [Token]) -> Result<(Branch, &'a [Token]), Mismatch>
    ensures { Answers
        (λ r. Parses IsWeighted (BeginsNot k.Ampersand) tokens.now r.0 r.1.now (length r.1.now))
        (Fails IsWeighted (BeginsNot k.Ampersand) tokens.now)
        result }
{
    let (weight, rest) = expression_until(
        alloc,
        Labels::Refused,
        Precedence::Conditional,
        tokens,
        &Kind::Colon,
    )?;
    let (sets, rest) = update(alloc, rest)?;
    let branch = Branch {
        weight: Some(weight),
        sets,
    };
    Ok((branch, rest))
}
