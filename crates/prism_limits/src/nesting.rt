ghost use Rattle.std.specs.Prelude.{◌≡◌, ◌+◌, ◌-◌, ◌<◌, ◌^◌, ◌↔◌, List, [], ◌∷◌, ◌++◌, length, IsTrue, IfSome};
ghost use Rattle.prism_syntax.specs.declared.tokens.Kind.{Kind};
ghost use Rattle.prism_syntax.specs.Tokens.{kinds};
ghost use Rattle.prism_limits.specs.Places.{Finds};
ghost use Rattle.prism_limits.specs.Nesting.{IsTooDeep, IsTooMany};
ghost use Rattle.prism_limits.specs.NestingCounts.{AreCountsOf, HasRoom, are_brackets_full};

use crate::kinds::TextKind;
use prism_syntax::{Kind, Token};

/// The most parentheses that may be open at once, and the most signs of one kind in a row.
const NESTING_LIMIT: usize = 64;

/// The most `?` with no `;` between them.
const QUERY_LIMIT: usize = 1024;

/// The most square brackets that may be open at once in a nested formula.
const BRACKET_LIMIT: usize = 17;

/// What is counted of the tokens before a place.
#[derive(Clone, Copy)]
pub struct NestingCounts {
    /// Opening parentheses.
    pub opened: usize,
    /// Closing parentheses.
    pub closed: usize,
    /// Opening square brackets.
    pub opened_brackets: usize,
    /// Closing square brackets.
    pub closed_brackets: usize,
    /// `!` in a row, right before the place.
    pub bangs: usize,
    /// `-` in a row, right before the place.
    pub dashes: usize,
    /// `?` since the last `;`.
    pub queries: usize,
}

/// The index of the first token at which the text is nested too deep.
pub fn too_deep(text: TextKind, tokens: &[Token]) -> Option<usize>
    ensures first { Finds (IsTooDeep text (kinds tokens.now)) result }
    ensures within { IfSome result (λ index. index < length tokens.now) }
{
    let mut index = 0;
    let mut counts = NestingCounts {
        opened: 0,
        closed: 0,
        opened_brackets: 0,
        closed_brackets: 0,
        bangs: 0,
        dashes: 0,
        queries: 0,
    };
    let mut rest = tokens;
    while let [token, after @ ..] = rest {
        if is_too_many(text, counts, &token.kind) {
            return Some(index);
        }
        counts = step(counts, &token.kind);
        index += 1;
        rest = after;
    }
    None
}

/// Whether the square brackets that are open in a nested formula are as many as may be.
fn are_brackets_full(text: TextKind, counts: NestingCounts) -> bool
    ensures { result ≡ are_brackets_full text (counts.opened_brackets - counts.closed_brackets) }
{
    match text {
        TextKind::Nested => {
            BRACKET_LIMIT
                <= counts
                    .opened_brackets
                    .saturating_sub(counts.closed_brackets)
        }
        TextKind::Model | TextKind::Property => false,
    }
}

/// Whether a token is one too many after what was counted.
fn is_too_many(text: TextKind, counts: NestingCounts, kind: &Kind) -> bool
    ensures { (before : List Kind) → AreCountsOf counts before → (IsTrue result ↔ IsTooMany text before kind.now) }
{
    match kind {
        Kind::Open => NESTING_LIMIT <= counts.opened.saturating_sub(counts.closed),
        Kind::Bang => NESTING_LIMIT <= counts.bangs,
        Kind::Dash => NESTING_LIMIT <= counts.dashes,
        Kind::Query => QUERY_LIMIT <= counts.queries,
        Kind::OpenBracket => are_brackets_full(text, counts),
        _ => false,
    }
}

/// What is counts after one more token.
fn step(counts: NestingCounts, kind: &Kind) -> NestingCounts
    requires { HasRoom counts }
    ensures { (before : List Kind) → AreCountsOf counts before → AreCountsOf result (before ++ (kind.now ∷ [])) }
{
    let still = NestingCounts {
        bangs: 0,
        dashes: 0,
        ..counts
    };
    match kind {
        Kind::Open => NestingCounts {
            opened: counts.opened + 1,
            ..still
        },
        Kind::Close => NestingCounts {
            closed: counts.closed + 1,
            ..still
        },
        Kind::OpenBracket => NestingCounts {
            opened_brackets: counts.opened_brackets + 1,
            ..still
        },
        Kind::CloseBracket => NestingCounts {
            closed_brackets: counts.closed_brackets + 1,
            ..still
        },
        Kind::Bang => NestingCounts {
            bangs: counts.bangs + 1,
            ..still
        },
        Kind::Dash => NestingCounts {
            dashes: counts.dashes + 1,
            ..still
        },
        Kind::Query => NestingCounts {
            queries: counts.queries + 1,
            ..still
        },
        Kind::Semicolon => NestingCounts {
            queries: 0,
            ..still
        },
        _ => still,
    }
}
