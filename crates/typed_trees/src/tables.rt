ghost use Rattle.std.specs.Prelude.{◌≡◌, OnOk, List, [], ◌∷◌, ◌++◌};
ghost use Rattle.chain_model.specs.declared.expressions.Typed.{Typed};
ghost use Rattle.prism_names.specs.First.{Name};
ghost use Rattle.typed_trees.specs.Scopes.{IsTable};

use chain_model::Typed;
use indexmap::IndexMap;
use smc_num::Text;
use std::alloc::AllocError;

/// Lists one tree more under a name; a table keeps the first of each name.
pub fn add_tree(
    table: &mut IndexMap<Text, Typed>,
    name: Text,
    tree: Typed,
) -> Result<(), AllocError>
    ensures { OnOk result ((trees : List (Name × Typed)) → IsTable table.old trees → IsTable table.new (trees ++ (name, tree) ∷ [])) }
{
    if table.get(&name).is_none() {
        table.insert(name, tree)?;
    }
    Ok(())
}
