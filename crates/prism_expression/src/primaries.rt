ghost use Rattle.std.specs.Prelude.{◌≡◌, IfOk};
ghost use Rattle.prism_syntax.specs.Precedence.{atom};
ghost use Rattle.prism_syntax.specs.Expressions.{Derives};
ghost use Rattle.prism_reading.specs.Reading.{Answers, Anything, Fails};
ghost use Rattle.prism_expression.specs.Longest.{ParsesLongest};

use crate::calls::call;
use crate::longest::Longest;
use crate::parsing::expression_until;
use prism_reading::{Mismatch, accept};
use prism_syntax::{Expr, Kind, Labels, Precedence, Token, function};
use sqlite_items::Boxed;
use std::alloc::{AllocError, Global};

/// `parse_longest` at the level of primaries.
#[cycle(grammar)]
pub fn primary<'a>(
    alloc: Global,
    labels: Labels,
    tokens: &'a [Token],
) -> Result<Longest<'a>, Mismatch>
    ensures { Answers
        (λ r. ParsesLongest labels Precedence.Primary tokens.now r.tree r.rest.now r.left)
        (Fails (Derives labels Precedence.Primary) Anything tokens.now)
        result }
{
    if let Some(inside) = accept(tokens, &Kind::Open) {
        let (tree, rest) = expression_until(
            alloc,
            labels,
            Precedence::Conditional,
            inside,
            &Kind::Close,
        )?;
        return Ok(Longest {
            tree: Expr::Paren(Boxed::new(alloc, tree)?),
            rest,
            left: rest.len(),
        });
    }
    let Some((first, rest)) = tokens.split_first() else {
        return Err(Mismatch::NoText { left: tokens.len() });
    };
    let Some(function) = function(&first.kind) else {
        return match atom(alloc, labels, &first.kind)? {
            Some(tree) => Ok(Longest {
                tree,
                rest,
                left: rest.len(),
            }),
            None => Err(Mismatch::NoText { left: tokens.len() }),
        };
    };
    match call(alloc, labels, function, rest) {
        Ok((parts, after)) => Ok(Longest {
            tree: Expr::Call(function, parts),
            rest: after,
            left: after.len(),
        }),
        Err(Mismatch::NoText { left }) => match atom(alloc, labels, &first.kind)? {
            Some(tree) => Ok(Longest { tree, rest, left }),
            None => Err(Mismatch::NoText { left }),
        },
        Err(Mismatch::OutOfMemory(fault)) => Err(Mismatch::OutOfMemory(fault)),
    }
}

/// The expression that a token is by itself.
fn atom(alloc: Global, labels: Labels, kind: &Kind) -> Result<Option<Expr>, AllocError>
    ensures { IfOk result (λ tree. tree ≡ atom labels kind.now) }
{
    match kind {
        Kind::Whole(value) => Ok(Some(Expr::Whole(*value))),
        Kind::Real(value) => Ok(Some(Expr::Real(*value))),
        Kind::True => Ok(Some(Expr::Truth(true))),
        Kind::False => Ok(Some(Expr::Truth(false))),
        Kind::Name(text) => Ok(Some(Expr::Name(text.copy(alloc)?))),
        Kind::Quoted(text) => match labels {
            Labels::Allowed => Ok(Some(Expr::Quoted(text.copy(alloc)?))),
            Labels::Refused => Ok(None),
        },
        _ => Ok(None),
    }
}
