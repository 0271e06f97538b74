ghost use Rattle.std.specs.Prelude.{◌≡◌, IfOk, map, bytes_eq, unwrap_or};
ghost use Rattle.indexmap.specs.IndexMap.{get};
ghost use Rattle.prism_syntax.specs.Replaced.{replaced};

use crate::expressions::Expr;
use indexmap::IndexMap;
use smc_num::Text;
use sqlite_items::{Boxed, Items};
use std::alloc::{AllocError, Global};

impl Expr {
    /// Another tree, in which each name that the table has is replaced by its tree there.
    #[cycle(replace)]
    pub fn replace(&self, alloc: Global, table: &IndexMap<Text, Expr>) -> Result<Expr, AllocError>
        ensures { IfOk result (λ tree. tree ≡ replaced (get bytes_eq table.now) self.now) }
    {
        match self {
            Expr::Whole(value) => Ok(Expr::Whole(*value)),
            Expr::Real(value) => Ok(Expr::Real(*value)),
            Expr::Truth(value) => Ok(Expr::Truth(*value)),
            Expr::Name(text) => replace_name(alloc, text, table),
            Expr::Quoted(text) => Ok(Expr::Quoted(text.copy(alloc)?)),
            Expr::Paren(inner) => Ok(Expr::Paren(replace_part(alloc, inner, table)?)),
            Expr::Call(function, parts) => Ok(Expr::Call(
                *function,
                replace_all(alloc, parts.as_slice(), table)?,
            )),
            Expr::Not(operand) => Ok(Expr::Not(replace_part(alloc, operand, table)?)),
            Expr::Minus(operand) => Ok(Expr::Minus(replace_part(alloc, operand, table)?)),
            Expr::Level(operands, operators) => Ok(Expr::Level(
                replace_all(alloc, operands.as_slice(), table)?,
                Items::from_slice(alloc, operators.as_slice())?,
            )),
            Expr::If(condition, first, second) => Ok(Expr::If(
                replace_part(alloc, condition, table)?,
                replace_part(alloc, first, table)?,
                replace_part(alloc, second, table)?,
            )),
        }
    }
}

/// The tree of a name, or else the name.
fn replace_name(
    alloc: Global,
    text: &Text,
    table: &IndexMap<Text, Expr>,
) -> Result<Expr, AllocError>
    ensures { IfOk result (λ tree. tree ≡ unwrap_or (get bytes_eq table.now text.now) (Expr.Name text.now)) }
{
    match table.get(text) {
        Some(tree) => tree.copy(alloc),
        None => Ok(Expr::Name(text.copy(alloc)?)),
    }
}

/// Another part, in which names are replaced.
#[cycle(replace)]
fn replace_part(
    alloc: Global,
    part: &Boxed<Expr>,
    table: &IndexMap<Text, Expr>,
) -> Result<Boxed<Expr>, AllocError>
    ensures { IfOk result (λ tree. tree ≡ replaced (get bytes_eq table.now) part.now) }
{
    Boxed::new(alloc, part.get().replace(alloc, table)?)
}

/// Other trees, in which names are replaced.
#[cycle(replace)]
fn replace_all(
    alloc: Global,
    exprs: &[Expr],
    table: &IndexMap<Text, Expr>,
) -> Result<Items<Expr>, AllocError>
    ensures { IfOk result (λ trees. trees ≡ map (replaced (get bytes_eq table.now)) exprs.now) }
{
    let mut trees = Items::new(alloc);
    for expr in exprs {
        trees.push(expr.replace(alloc, table)?)?;
    }
    Ok(trees)
}
