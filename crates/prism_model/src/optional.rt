ghost use Rattle.std.specs.Prelude.{◌≡◌, length};
ghost use Rattle.prism_syntax.specs.declared.tokens.Kind.TheVariants as k;
ghost use Rattle.prism_reading.specs.Reading.{Answers, Anything, Parses, Fails};
ghost use Rattle.prism_model.specs.Parts.{IsOptionalEnded};

use prism_expression::expression_until;
use prism_reading::{Mismatch, accept, expect};
use prism_syntax::{Expr, Kind, Labels, Precedence, Token};
use std::alloc::Global;

/// The expression after this token, if the tokens begin with it, and the tokens after the semicolon that ends the line.
pub fn optional<'a>(
    alloc: Global,
    tokens: &'a [Token],
    lead: &Kind,
) -> Result<(Option<Expr>, &'a [Token]), Mismatch>
    requires { lead.now ≡ k.Semicolon → ⊥ }
    ensures { Answers
        (λ r. Parses (IsOptionalEnded lead.now) Anything tokens.now r.0 r.1.now (length r.1.now))
        (Fails (IsOptionalEnded lead.now) Anything tokens.now)
        result }
{
    match accept(tokens, lead) {
        Some(rest) => {
            let (value, rest) = expression_until(
                alloc,
                Labels::Refused,
                Precedence::Conditional,
                rest,
                &Kind::Semicolon,
            )?;
            Ok((Some(value), rest))
        }
        None => {
            let rest = expect(tokens, &Kind::Semicolon)?;
            Ok((None, rest))
        }
    }
}
