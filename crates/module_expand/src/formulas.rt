ghost use Rattle.std.specs.Prelude.{◌≡◌, IfOk, OnOk, List, ℕ, Some, cond, bytes_eq, map};
ghost use Rattle.indexmap.specs.IndexMap.{get};
ghost use Rattle.prism_syntax.specs.declared.expressions.Expr.TheVariants as e;
ghost use Rattle.prism_syntax.specs.declared.models.Named.{Named as Formula};
ghost use Rattle.prism_syntax.specs.Replaced.{replaced};
ghost use Rattle.prism_names.specs.First.{AreDistinct};
ghost use Rattle.name_graph.specs.Graph.{IsOrder};
ghost use Rattle.module_expand.specs.Expanded.{AreExpanded, stands_for};
ghost use Rattle.module_expand.specs.Refusals.{uses_of};
ghost use Rattle.module_expand.specs.Sizes.{AreSizes};

use crate::sizes::{Sizes, measure};
use crate::tables::put;
use indexmap::IndexMap;
use prism_syntax::{Expr, Named};
use smc_num::Text;
use sqlite_items::Boxed;
use std::alloc::{AllocError, Global};

/// The sizes of the trees that formulas' names stand for, by an order in which each formula stands after those that
/// it names.
pub fn formula_sizes(alloc: Global, formulas: &[Named], order: &[u32]) -> Result<Sizes, AllocError>
    requires distinct { AreDistinct (map (λ f. f.name) formulas.now) }
    requires order { IsOrder (uses_of formulas.now) order.now }
    ensures { IfOk result (λ sizes. (trees : List Formula) → AreExpanded formulas.now trees
        → AreSizes (get bytes_eq sizes) (stands_for trees)) }
{
    let mut sizes = IndexMap::new(alloc);
    for place in order {
        let formula = &formulas[*place as usize];
        let size = measure(&formula.body, &sizes).in_parens();
        put(alloc, &mut sizes, &formula.name, size)?;
    }
    Ok(sizes)
}

/// The trees that formulas' names stand for, by such an order.
pub fn formula_trees(
    alloc: Global,
    formulas: &[Named],
    order: &[u32],
) -> Result<IndexMap<Text, Expr>, AllocError>
    requires distinct { AreDistinct (map (λ f. f.name) formulas.now) }
    requires order { IsOrder (uses_of formulas.now) order.now }
    ensures { IfOk result (λ table. (trees : List Formula) → AreExpanded formulas.now trees
        → (name : List ℕ) → get bytes_eq table name ≡ stands_for trees name) }
{
    let mut trees = IndexMap::new(alloc);
    for place in order {
        let formula = &formulas[*place as usize];
        put_tree(alloc, &mut trees, formula)?;
    }
    Ok(trees)
}

/// Puts a formula's body, its names replaced, in parentheses under the formula's name.
fn put_tree(
    alloc: Global,
    trees: &mut IndexMap<Text, Expr>,
    formula: &Named,
) -> Result<(), AllocError>
    ensures { OnOk result ((n : List ℕ) → get bytes_eq trees.new n ≡ cond (bytes_eq formula.now.name n)
        (Some (e.Paren (replaced (get bytes_eq trees.old) formula.now.body))) (get bytes_eq trees.old n)) }
{
    let tree = in_parens(alloc, &formula.body, trees)?;
    put(alloc, trees, &formula.name, tree)
}

/// A formula's body with its names replaced, in parentheses.
fn in_parens(alloc: Global, body: &Expr, trees: &IndexMap<Text, Expr>) -> Result<Expr, AllocError>
    ensures { IfOk result (λ tree. tree ≡ e.Paren (replaced (get bytes_eq trees.now) body.now)) }
{
    let expanded = body.replace(alloc, trees)?;
    Ok(Expr::Paren(Boxed::new(alloc, expanded)?))
}
