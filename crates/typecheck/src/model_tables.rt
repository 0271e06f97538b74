//! The tables of a flat model.

ghost use Rattle.std.specs.Prelude.{IfOk};
ghost use Rattle.typecheck.specs.ModelTables.{AreTables};

use crate::listing::{declared_commands, declared_variables};
use crate::owners::owner_table;
use crate::pairs::both;
use crate::tables::declared_table;
use chain_model::Typed;
use indexmap::IndexMap;
use prism_syntax::{Command, FlatText, Variable};
use smc_num::Text;
use std::alloc::{AllocError, Global};

/// The variables and commands of a flat model, and by name its variables' trees and owners. The last table has no name.
#[derive(Drop)]
pub struct Tables<'a> {
    pub variables: Vec<(Option<usize>, &'a Variable)>,
    pub commands: Vec<(usize, &'a Command)>,
    pub trees: IndexMap<Text, Typed>,
    pub owners: IndexMap<Text, Option<usize>>,
    pub nothing: IndexMap<Text, Typed>,
}

/// The tables of a flat model.
pub fn model_tables<'a>(alloc: Global, flat: &'a FlatText) -> Result<Tables<'a>, AllocError>
    ensures { IfOk result (λ tables. AreTables tables flat.now) }
{
    let (variables, commands) = both(
        declared_variables(alloc, flat),
        declared_commands(alloc, flat),
    )?;
    let (trees, owners) = both(
        declared_table(alloc, variables.as_slice()),
        owner_table(alloc, variables.as_slice()),
    )?;
    Ok(Tables {
        variables,
        commands,
        trees,
        owners,
        nothing: IndexMap::new(alloc),
    })
}
