ghost use Rattle.std.specs.Prelude.{◌≡◌, ◌+◌, ◌-◌, ◌^◌, ◌<◌, ◌⊎◌, ◌↔◌, ◌∷◌, [], List, ℕ, Option, IsTrue, map, min, max, bytes_eq};
ghost use Rattle.indexmap.specs.IndexMap.{get};
ghost use Rattle.prism_syntax.specs.Replaced.{replaced};
ghost use Rattle.prism_syntax.specs.declared.expressions.Expr.{Expr as Tree};
ghost use Rattle.module_expand.specs.Sizes.{IsSize, AreSizes};

use indexmap::IndexMap;
use prism_syntax::{Expr, depth_of_parens, nodes};
use smc_num::Text;

/// How many nodes expressions have together and how deep the parentheses of the deepest are nested, each up to
/// 2^64 - 1.
#[derive(Clone, Copy, Debug)]
pub struct Size {
    nodes: u64,
    depth: u64,
}

/// Names with the sizes of the trees that they stand for.
pub type Sizes = IndexMap<Text, Size>;

impl Size {
    /// The size of no expression.
    pub fn none() -> Size
        ensures { IsSize result [] }
    {
        Size { nodes: 0, depth: 0 }
    }

    /// The size of an expression without parts.
    pub fn leaf() -> Size
        ensures nodes { result.nodes ≡ 1 }
        ensures depth { result.depth ≡ 0 }
    {
        Size { nodes: 1, depth: 0 }
    }

    /// The size of these expressions and others together.
    pub fn plus(self, other: Size) -> Size
        ensures nodes { result.nodes ≡ min (self.nodes + other.nodes) (2 ^ 64 - 1) }
        ensures depth { result.depth ≡ max self.depth other.depth }
    {
        Size {
            nodes: self.nodes.saturating_add(other.nodes),
            depth: self.depth.max(other.depth),
        }
    }

    /// The size of an expression whose parts these are.
    pub fn in_node(self) -> Size
        ensures nodes { result.nodes ≡ min (self.nodes + 1) (2 ^ 64 - 1) }
        ensures depth { result.depth ≡ self.depth }
    {
        Size {
            nodes: self.nodes.saturating_add(1),
            depth: self.depth,
        }
    }

    /// The size of an expression in parentheses.
    pub fn in_parens(self) -> Size
        ensures nodes { result.nodes ≡ min (self.nodes + 1) (2 ^ 64 - 1) }
        ensures depth { result.depth ≡ min (self.depth + 1) (2 ^ 64 - 1) }
    {
        Size {
            nodes: self.nodes.saturating_add(1),
            depth: self.depth.saturating_add(1),
        }
    }

    /// Whether there are more than 65,536 nodes, or more than 64 pairs of parentheses one within another.
    pub fn is_too_large(&self) -> bool
        ensures { IsTrue result ↔ ((65536 < self.now.nodes) ⊎ (64 < self.now.depth)) }
    {
        self.nodes > 65_536 || self.depth > 64
    }
}

/// The size of an expression as it is.
pub fn own_size(expr: &Expr) -> Size
    ensures { IsSize result (expr.now ∷ []) }
{
    Size {
        nodes: nodes(expr),
        depth: depth_of_parens(expr),
    }
}

/// The size that an expression has once its names are replaced. No tree is built.
#[cycle(measure)]
pub fn measure(expr: &Expr, sizes: &Sizes) -> Size
    ensures { (by : List ℕ → Option Tree) → AreSizes (get bytes_eq sizes.now) by
        → IsSize result (replaced by expr.now ∷ []) }
{
    match expr {
        Expr::Whole(_) | Expr::Real(_) | Expr::Truth(_) | Expr::Quoted(_) => Size::leaf(),
        Expr::Name(name) => sizes.get(name).copied().unwrap_or(Size::leaf()),
        Expr::Paren(part) => measure(part.get(), sizes).in_parens(),
        Expr::Not(part) => measure(part.get(), sizes).in_node(),
        Expr::Minus(part) => measure(part.get(), sizes).in_node(),
        Expr::Call(_, parts) => measure_all(parts.as_slice(), sizes).in_node(),
        Expr::Level(parts, _) => measure_all(parts.as_slice(), sizes).in_node(),
        Expr::If(condition, first, second) => measure(condition.get(), sizes)
            .plus(measure(first.get(), sizes))
            .plus(measure(second.get(), sizes))
            .in_node(),
    }
}

/// The size that expressions have together once their names are replaced.
#[cycle(measure)]
pub fn measure_all(exprs: &[Expr], sizes: &Sizes) -> Size
    ensures { (by : List ℕ → Option Tree) → AreSizes (get bytes_eq sizes.now) by
        → IsSize result (map (replaced by) exprs.now) }
{
    let mut total = Size::none();
    for expr in exprs {
        total = total.plus(measure(expr, sizes));
    }
    total
}
