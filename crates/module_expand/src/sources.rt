ghost use Rattle.std.specs.Prelude.{◌≡◌, IfOk, OnOk, List, ℕ, Some, None, cond, bytes_eq, find, position};
ghost use Rattle.std.specs.Option.{option_copied, option_or};
ghost use Rattle.indexmap.specs.IndexMap.{get};
ghost use Rattle.module_expand.specs.Renamed.{variables_of};
ghost use Rattle.module_expand.specs.Flat.{is_written_as};

use crate::tables::put_first;
use indexmap::IndexMap;
use prism_syntax::{Module, Variable};
use smc_num::Text;
use std::alloc::{AllocError, Global};

/// The places of the modules that are written out, by their names.
pub type Sources = IndexMap<Text, usize>;

/// The place of the first module that is written out under each name.
pub fn sources(alloc: Global, modules: &[Module]) -> Result<Sources, AllocError>
    ensures { IfOk result (λ sources. (name : List ℕ)
        → get bytes_eq sources name ≡ position (is_written_as name) modules.now) }
{
    let mut sources = IndexMap::new(alloc);
    for (place, item) in modules.iter().enumerate() {
        note_source(alloc, &mut sources, item, place)?;
    }
    Ok(sources)
}

/// Notes the place of a module under its name, if it is written out and no module before it has the name.
fn note_source(
    alloc: Global,
    sources: &mut Sources,
    item: &Module,
    place: usize,
) -> Result<(), AllocError>
    ensures { OnOk result ((n : List ℕ) → get bytes_eq sources.new n ≡ option_or (get bytes_eq sources.old n)
        (cond (is_written_as n item.now) (Some place) None)) }
{
    match item {
        Module::Written { name, .. } => put_first(alloc, sources, name, place),
        Module::Renamed { .. } => Ok(()),
    }
}

/// The first module that is written out under a name.
pub fn source<'a>(modules: &'a [Module], sources: &Sources, name: &Text) -> Option<&'a Module>
    requires { (other : List ℕ) → get bytes_eq sources.now other ≡ position (is_written_as other) modules.now }
    ensures { option_copied result ≡ find (is_written_as name.now) modules.now }
{
    match sources.get(name) {
        Some(place) => modules.get(*place),
        None => None,
    }
}

/// The variables of a module that is written out.
pub fn variables(item: &Module) -> &[Variable]
    ensures { result.now ≡ variables_of item.now }
{
    match item {
        Module::Written { vars, .. } => vars.as_slice(),
        Module::Renamed { .. } => &[],
    }
}
