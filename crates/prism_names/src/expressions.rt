ghost use Rattle.std.specs.Prelude.{◌≡◌, ◌++◌, map, OnOk, IfOk};
ghost use Rattle.prism_names.specs.Names.{names_of, concatenated};

use prism_syntax::Expr;
use smc_num::Text;
use std::alloc::{AllocError, Global};

/// The names that stand in an expression in text order, each as often as it stands there.
pub fn names<'a>(alloc: Global, expr: &'a Expr) -> Result<Vec<&'a Text>, AllocError>
    ensures { IfOk result (λ names. map (λ name. name.now) names.items ≡ names_of expr.now) }
{
    let mut names = Vec::new(alloc);
    note_names(expr, &mut names)?;
    Ok(names)
}

/// Appends the names that stand in an expression.
#[cycle(names)]
fn note_names<'a>(expr: &'a Expr, names: &mut Vec<&'a Text>) -> Result<(), AllocError>
    ensures { OnOk result (map (λ name. name.now) names.new.items ≡ map (λ name. name.now) names.old.items ++ names_of expr.now) }
{
    match expr {
        Expr::Whole(_) | Expr::Real(_) | Expr::Truth(_) | Expr::Quoted(_) => Ok(()),
        Expr::Name(text) => Ok(names.push(text)?),
        Expr::Paren(part) | Expr::Not(part) | Expr::Minus(part) => note_names(part.get(), names),
        Expr::Call(_, parts) | Expr::Level(parts, _) => note_all(parts.as_slice(), names),
        Expr::If(condition, first, second) => {
            note_names(condition.get(), names)?;
            note_names(first.get(), names)?;
            note_names(second.get(), names)
        }
    }
}

/// Appends the names that stand in these expressions.
#[cycle(names)]
fn note_all<'a>(exprs: &'a [Expr], names: &mut Vec<&'a Text>) -> Result<(), AllocError>
    ensures { OnOk result (map (λ name. name.now) names.new.items ≡ map (λ name. name.now) names.old.items ++ concatenated (map names_of exprs.now)) }
{
    for expr in exprs {
        note_names(expr, names)?;
    }
    Ok(())
}
