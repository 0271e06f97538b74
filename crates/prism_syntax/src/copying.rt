mod commands;
mod models;

ghost use Rattle.std.specs.Prelude.{◌≡◌, IfOk};

use crate::expressions::Expr;
use sqlite_items::{Boxed, Items};
use std::alloc::{AllocError, Global};

impl Expr {
    /// Another tree that is the same.
    #[cycle(copy)]
    pub fn copy(&self, alloc: Global) -> Result<Expr, AllocError>
        ensures { IfOk result (λ tree. tree ≡ self.now) }
    {
        match self {
            Expr::Whole(value) => Ok(Expr::Whole(*value)),
            Expr::Real(value) => Ok(Expr::Real(*value)),
            Expr::Truth(value) => Ok(Expr::Truth(*value)),
            Expr::Name(text) => Ok(Expr::Name(text.copy(alloc)?)),
            Expr::Quoted(text) => Ok(Expr::Quoted(text.copy(alloc)?)),
            Expr::Paren(inner) => Ok(Expr::Paren(copy_part(alloc, inner)?)),
            Expr::Call(function, parts) => Ok(Expr::Call(
                *function,
                copy_all(alloc, parts.as_slice())?,
            )),
            Expr::Not(operand) => Ok(Expr::Not(copy_part(alloc, operand)?)),
            Expr::Minus(operand) => Ok(Expr::Minus(copy_part(alloc, operand)?)),
            Expr::Level(operands, operators) => Ok(Expr::Level(
                copy_all(alloc, operands.as_slice())?,
                Items::from_slice(alloc, operators.as_slice())?,
            )),
            Expr::If(condition, first, second) => Ok(Expr::If(
                copy_part(alloc, condition)?,
                copy_part(alloc, first)?,
                copy_part(alloc, second)?,
            )),
        }
    }
}

/// Another part that is the same.
#[cycle(copy)]
fn copy_part(alloc: Global, part: &Boxed<Expr>) -> Result<Boxed<Expr>, AllocError>
    ensures { IfOk result (λ tree. tree ≡ part.now) }
{
    Boxed::new(alloc, part.get().copy(alloc)?)
}

/// The same trees once more.
#[cycle(copy)]
fn copy_all(alloc: Global, exprs: &[Expr]) -> Result<Items<Expr>, AllocError>
    ensures { IfOk result (λ trees. trees ≡ exprs.now) }
{
    let mut trees = Items::new(alloc);
    for expr in exprs {
        trees.push(expr.copy(alloc)?)?;
    }
    Ok(trees)
}

/// The same expression once more, where there is one.
fn copy_optional(alloc: Global, expr: &Option<Expr>) -> Result<Option<Expr>, AllocError>
    ensures { IfOk result (λ tree. tree ≡ expr.now) }
{
    match expr {
        Some(tree) => Ok(Some(tree.copy(alloc)?)),
        None => Ok(None),
    }
}
