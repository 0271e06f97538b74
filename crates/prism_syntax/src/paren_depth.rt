ghost use Rattle.std.specs.Prelude.{◌≡◌, ◌-◌, ◌^◌, min, map};
ghost use Rattle.prism_syntax.specs.ParenDepth.{paren_depth, deepest};

use crate::expressions::Expr;

/// How many pairs of parentheses stand one within another, at most, up to 2^64 - 1.
#[cycle(depth)]
pub fn depth_of_parens(expr: &Expr) -> u64
    ensures { result ≡ min (paren_depth expr.now) (2 ^ 64 - 1) }
{
    match expr {
        Expr::Whole(_) | Expr::Real(_) | Expr::Truth(_) | Expr::Name(_) | Expr::Quoted(_) => 0,
        Expr::Paren(inner) => depth_of_parens(inner.get()).saturating_add(1),
        Expr::Not(operand) | Expr::Minus(operand) => depth_of_parens(operand.get()),
        Expr::Call(_, parts) => deepest(parts.as_slice()),
        Expr::Level(operands, _) => deepest(operands.as_slice()),
        Expr::If(condition, first, second) => depth_of_parens(condition.get())
            .max(depth_of_parens(first.get()))
            .max(depth_of_parens(second.get())),
    }
}

/// The greatest of the depths of these trees, up to 2^64 - 1.
#[cycle(depth)]
fn deepest(exprs: &[Expr]) -> u64
    ensures { result ≡ min (deepest (map paren_depth exprs.now)) (2 ^ 64 - 1) }
{
    let mut most: u64 = 0;
    for expr in exprs {
        most = most.max(depth_of_parens(expr));
    }
    most
}
