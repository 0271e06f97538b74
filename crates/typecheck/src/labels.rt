//! The labels of the chain of a flat model.

ghost use Rattle.std.specs.Prelude.{◌≡◌, map, IfOk};
ghost use Rattle.typed_trees.specs.Scopes.{tree_in};
ghost use Rattle.typecheck.specs.Parts.{all_made, made_label};

use crate::pairs::both;
use chain_model::Typed;
use prism_syntax::Named;
use smc_num::Text;
use sqlite_items::Items;
use std::alloc::{AllocError, Global};
use typed_trees::{Scope, type_tree};

/// The labels of a chain, where each body has a tree.
pub fn made_labels(
    alloc: Global,
    scope: &Scope<'_>,
    labels: &[Named],
) -> Result<Option<Items<(Text, Typed)>>, AllocError>
    ensures { IfOk result (λ found. found ≡ all_made (map (made_label (tree_in scope.now)) labels.now)) }
{
    let mut made = Items::new(alloc);
    for label in labels {
        match made_label(alloc, scope, label)? {
            Some(one) => made.push(one)?,
            None => return Ok(None),
        }
    }
    Ok(Some(made))
}

/// A label of a chain.
fn made_label(
    alloc: Global,
    scope: &Scope<'_>,
    label: &Named,
) -> Result<Option<(Text, Typed)>, AllocError>
    ensures { IfOk result (λ found. found ≡ made_label (tree_in scope.now) label.now) }
{
    let (name, body) = both(label.name.copy(alloc), type_tree(alloc, scope, &label.body))?;
    match body {
        Some(body) => Ok(Some((name, body))),
        None => Ok(None),
    }
}
