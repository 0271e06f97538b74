ghost use Rattle.std.specs.Prelude.{◌≡◌, IfOk, List, ℕ, unwrap_or, count_by, bytes_eq, map, option_map};
ghost use Rattle.indexmap.specs.IndexMap.{get};
ghost use Rattle.prism_names.specs.First.{first_repeated};

use indexmap::IndexMap;
use smc_num::Text;
use std::alloc::{AllocError, Global};

/// The first of these names that stands among all the names more than once.
pub fn first_repeated<'a>(
    alloc: Global,
    all: &[&Text],
    names: &[&'a Text],
) -> Result<Option<&'a Text>, AllocError>
    ensures { IfOk result (λ found. option_map (λ name. name.now) found ≡ first_repeated (map (λ name. name.now) all.now) (map (λ name. name.now) names.now)) }
{
    let counts = count_names(alloc, all)?;
    for name in names {
        if counts.get(*name).copied().unwrap_or(0) > 1 {
            return Ok(Some(*name));
        }
    }
    Ok(None)
}

/// How often each name stands among these.
fn count_names(alloc: Global, names: &[&Text]) -> Result<IndexMap<Text, usize>, AllocError>
    ensures { IfOk result (λ counts. (n : List ℕ) → unwrap_or (get bytes_eq counts n) 0 ≡ count_by (λ other. bytes_eq other n) (map (λ name. name.now) names.now)) }
{
    let mut counts: IndexMap<Text, usize> = IndexMap::new(alloc);
    for name in names {
        let before = counts.get(*name).copied().unwrap_or(0);
        counts.insert(name.copy(alloc)?, before + 1)?;
    }
    Ok(counts)
}
