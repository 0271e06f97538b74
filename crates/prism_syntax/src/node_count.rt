ghost use Rattle.std.specs.Prelude.{◌≡◌, ◌-◌, ◌^◌, min, map, sum};
ghost use Rattle.prism_syntax.specs.NodeCount.{node_count};

use crate::expressions::Expr;

/// How many nodes a tree has, up to 2^64 - 1.
#[cycle(nodes)]
pub fn nodes(expr: &Expr) -> u64
    ensures { result ≡ min (node_count expr.now) (2 ^ 64 - 1) }
{
    match expr {
        Expr::Whole(_) | Expr::Real(_) | Expr::Truth(_) | Expr::Name(_) | Expr::Quoted(_) => 1,
        Expr::Paren(inner) | Expr::Not(inner) | Expr::Minus(inner) => nodes(
            inner.get(),
        ).saturating_add(1),
        Expr::Call(_, parts) => nodes_of_all(parts.as_slice()).saturating_add(1),
        Expr::Level(operands, _) => nodes_of_all(operands.as_slice()).saturating_add(1),
        Expr::If(condition, first, second) => nodes(condition.get())
            .saturating_add(nodes(first.get()))
            .saturating_add(nodes(second.get()))
            .saturating_add(1),
    }
}

/// How many nodes these trees have together, up to 2^64 - 1.
#[cycle(nodes)]
fn nodes_of_all(exprs: &[Expr]) -> u64
    ensures { result ≡ min (sum (map node_count exprs.now)) (2 ^ 64 - 1) }
{
    let mut total: u64 = 0;
    for expr in exprs {
        total = total.saturating_add(nodes(expr));
    }
    total
}
