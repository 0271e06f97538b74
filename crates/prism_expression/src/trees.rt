ghost use Rattle.std.specs.Prelude.{◌≡◌, ◌∷◌, IfOk};

use prism_syntax::Expr;
use sqlite_items::Items;
use std::alloc::{AllocError, Global};

/// A tree and then further ones.
pub fn preceded(alloc: Global, first: Expr, more: Items<Expr>) -> Result<Items<Expr>, AllocError>
    ensures { IfOk result (λ all. all ≡ first ∷ more) }
{
    let mut all = Items::new(alloc);
    all.push(first)?;
    all.append(more)?;
    Ok(all)
}
