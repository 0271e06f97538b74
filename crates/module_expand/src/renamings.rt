ghost use Rattle.std.specs.Prelude.{◌≡◌, IfOk, List, ℕ, bytes_eq};
ghost use Rattle.std.specs.Option.{option_copied};
ghost use Rattle.indexmap.specs.IndexMap.{get};
ghost use Rattle.module_expand.specs.Renamed.{right_of, as_tree};

use crate::tables::put_first;
use indexmap::IndexMap;
use prism_syntax::Expr;
use smc_num::Text;
use std::alloc::{AllocError, Global};

/// Names with their new names.
pub type NewNames<'a> = IndexMap<Text, &'a Text>;

/// The right side of the first pair with each left side.
pub fn new_names<'a>(alloc: Global, pairs: &'a [(Text, Text)]) -> Result<NewNames<'a>, AllocError>
    ensures { IfOk result (λ names. (name : List ℕ) → option_copied (get bytes_eq names name)
        ≡ right_of pairs.now name) }
{
    let mut names = IndexMap::new(alloc);
    for (left, right) in pairs {
        put_first(alloc, &mut names, left, right)?;
    }
    Ok(names)
}

/// The same names as trees.
pub fn new_trees(alloc: Global, pairs: &[(Text, Text)]) -> Result<IndexMap<Text, Expr>, AllocError>
    ensures { IfOk result (λ trees. (name : List ℕ) → get bytes_eq trees name ≡ as_tree (right_of pairs.now) name) }
{
    let mut trees = IndexMap::new(alloc);
    for (left, right) in pairs {
        put_first(alloc, &mut trees, left, Expr::Name(right.copy(alloc)?))?;
    }
    Ok(trees)
}
