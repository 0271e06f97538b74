ghost use Rattle.std.specs.Prelude.{◌≡◌, OnOk, List, ℕ, Some, None, cond, bytes_eq};
ghost use Rattle.std.specs.Option.{option_or};
ghost use Rattle.indexmap.specs.IndexMap.{get};

use indexmap::IndexMap;
use smc_num::Text;
use std::alloc::{AllocError, Global};

/// Puts a value under a name, in place of one that it may have.
pub fn put<V: Drop>(
    alloc: Global,
    table: &mut IndexMap<Text, V>,
    name: &Text,
    value: V,
) -> Result<(), AllocError>
    ensures { OnOk result ((n : List ℕ) → get bytes_eq table.new n
        ≡ cond (bytes_eq name.now n) (Some value) (get bytes_eq table.old n)) }
{
    table.insert(name.copy(alloc)?, value)?;
    Ok(())
}

/// Puts a value under a name that has none; a name that has one keeps it.
pub fn put_first<V: Drop>(
    alloc: Global,
    table: &mut IndexMap<Text, V>,
    name: &Text,
    value: V,
) -> Result<(), AllocError>
    ensures { OnOk result ((n : List ℕ) → get bytes_eq table.new n ≡ option_or (get bytes_eq table.old n)
        (cond (bytes_eq name.now n) (Some value) None)) }
{
    match table.get(name) {
        Some(_) => Ok(()),
        None => {
            table.insert(name.copy(alloc)?, value)?;
            Ok(())
        }
    }
}
