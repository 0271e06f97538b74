ghost use Rattle.std.specs.Prelude.{◌≡◌, false, length};
ghost use Rattle.prism_syntax.specs.Expressions.{Derives};
ghost use Rattle.prism_reading.specs.Reading.{Answers, Anything, Parses, Fails};
ghost use Rattle.prism_reading.specs.Sequences.{Ended};
ghost use Rattle.prism_expression.specs.Follow.{goes_on};
ghost use Rattle.prism_expression.specs.Longest.{ParsesLongest};

use crate::chains::chain;
use crate::conditionals::conditional;
use crate::longest::Longest;
use crate::primaries::primary;
use crate::signs::signed;
use prism_reading::{Mismatch, accept};
use prism_syntax::{Expr, Kind, Labels, Precedence, Token};
use std::alloc::Global;

/// The longest text of a level that the tokens begin with.
#[cycle(grammar)]
pub fn parse_longest<'a>(
    alloc: Global,
    labels: Labels,
    level: Precedence,
    tokens: &'a [Token],
) -> Result<Longest<'a>, Mismatch>
    ensures { Answers
        (λ r. ParsesLongest labels level tokens.now r.tree r.rest.now r.left)
        (Fails (Derives labels level) Anything tokens.now)
        result }
{
    match level {
        Precedence::Conditional => conditional(alloc, labels, tokens),
        Precedence::Negation | Precedence::Unary => signed(alloc, labels, level, tokens),
        Precedence::Primary => primary(alloc, labels, tokens),
        Precedence::Implication
        | Precedence::Equivalence
        | Precedence::Disjunction
        | Precedence::Conjunction
        | Precedence::Equality
        | Precedence::Relation
        | Precedence::Sum
        | Precedence::Product => chain(alloc, labels, level, tokens),
    }
}

/// The text of a level up to a token that ends it, and the tokens after that one. The token may not go on a text of the
/// level.
#[cycle(grammar)]
pub fn expression_until<'a>(
    alloc: Global,
    labels: Labels,
    level: Precedence,
    tokens: &'a [Token],
    end: &Kind,
) -> Result<(Expr, &'a [Token]), Mismatch>
    requires { goes_on level end.now ≡ false }
    ensures { Answers
        (λ r. Parses (Ended (Derives labels level) end.now) Anything tokens.now r.0 r.1.now (length r.1.now))
        (Fails (Ended (Derives labels level) end.now) Anything tokens.now)
        result }
{
    let longest = parse_longest(alloc, labels, level, tokens)?;
    match accept(longest.rest, end) {
        Some(after) => Ok((longest.tree, after)),
        None => Err(Mismatch::NoText { left: longest.left }),
    }
}
