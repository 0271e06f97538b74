ghost use Rattle.std.specs.Prelude.{◌≡◌, ◌++◌, map, OnOk, IfOk};
ghost use Rattle.prism_names.specs.Names.{concatenated};
ghost use Rattle.typecheck.specs.Names.{quoted_of};

use prism_syntax::Expr;
use smc_num::Text;
use std::alloc::{AllocError, Global};

/// The names of labels that stand in an expression in text order.
pub fn quoted<'a>(alloc: Global, expr: &'a Expr) -> Result<Vec<&'a Text>, AllocError>
    ensures { IfOk result (λ names. map (λ name. name.now) names.items ≡ quoted_of expr.now) }
{
    let mut names = Vec::new(alloc);
    note_quoted(expr, &mut names)?;
    Ok(names)
}

/// Appends the names of labels that stand in an expression.
#[cycle(quoted)]
fn note_quoted<'a>(expr: &'a Expr, names: &mut Vec<&'a Text>) -> Result<(), AllocError>
    ensures { OnOk result (map (λ name. name.now) names.new.items ≡ map (λ name. name.now) names.old.items ++ quoted_of expr.now) }
{
    match expr {
        Expr::Whole(_) | Expr::Real(_) | Expr::Truth(_) | Expr::Name(_) => Ok(()),
        Expr::Quoted(text) => Ok(names.push(text)?),
        Expr::Paren(part) | Expr::Not(part) | Expr::Minus(part) => note_quoted(part.get(), names),
        Expr::Call(_, parts) | Expr::Level(parts, _) => note_all(parts.as_slice(), names),
        Expr::If(condition, first, second) => {
            note_quoted(condition.get(), names)?;
            note_quoted(first.get(), names)?;
            note_quoted(second.get(), names)
        }
    }
}

/// Appends the names of labels that stand in these expressions.
#[cycle(quoted)]
fn note_all<'a>(exprs: &'a [Expr], names: &mut Vec<&'a Text>) -> Result<(), AllocError>
    ensures { OnOk result (map (λ name. name.now) names.new.items ≡ map (λ name. name.now) names.old.items ++ concatenated (map quoted_of exprs.now)) }
{
    for expr in exprs {
        note_quoted(expr, names)?;
    }
    Ok(())
}
