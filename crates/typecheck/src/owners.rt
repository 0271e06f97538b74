//! The owners of variables by name.

ghost use Rattle.std.specs.Prelude.{◌≡◌, IfOk, OnOk, List, Option, ℕ, [], ◌∷◌, ◌++◌, map};
ghost use Rattle.prism_names.specs.First.{Name};
ghost use Rattle.typecheck.specs.Owners.{AreOwners};

use indexmap::IndexMap;
use prism_syntax::Variable;
use smc_num::Text;
use std::alloc::{AllocError, Global};

/// The owners of variables by name: a module, or none for a global. Of a name that is declared twice the first counts.
pub fn owner_table(
    alloc: Global,
    variables: &[(Option<usize>, &Variable)],
) -> Result<IndexMap<Text, Option<usize>>, AllocError>
    ensures { IfOk result (λ table. AreOwners table (map (λ v. (v.1.now.name, v.0)) variables.now)) }
{
    let mut table = IndexMap::new(alloc);
    for variable in variables {
        add_owner(&mut table, variable.1.name.copy(alloc)?, variable.0)?;
    }
    Ok(table)
}

/// Lists one owner more under a name; a table keeps the first of each name.
fn add_owner(
    table: &mut IndexMap<Text, Option<usize>>,
    name: Text,
    owner: Option<usize>,
) -> Result<(), AllocError>
    ensures { OnOk result ((owners : List (Name × Option ℕ)) → AreOwners table.old owners → AreOwners table.new (owners ++ (name, owner) ∷ [])) }
{
    if table.get(&name).is_none() {
        table.insert(name, owner)?;
    }
    Ok(())
}
