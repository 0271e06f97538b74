ghost use Rattle.std.specs.Prelude.{◌≡◌, IfOk, List, ℕ, bytes_eq, map, find, is_some, position};
ghost use Rattle.std.specs.Option.{option_copied};
ghost use Rattle.indexmap.specs.IndexMap.{get};
ghost use Rattle.prism_syntax.specs.declared.models.Module.{Module as Part};
ghost use Rattle.prism_names.specs.First.{first_some};
ghost use Rattle.module_expand.specs.Flat.{is_written_as};
ghost use Rattle.module_expand.specs.Refusals.{missing_source, renamed_twice, renamed_to_formula, Looks};

use crate::cycles::Places;
use crate::fault::ExpandFault;
use crate::sources::Sources;
use prism_names::first_repeated;
use prism_syntax::Module;
use smc_num::Text;
use std::alloc::{AllocError, Global};

/// Refuses modules of which one is a renaming of a source that isn't written out.
pub fn refuse_missing_source(
    alloc: Global,
    modules: &[Module],
    sources: &Sources,
) -> Result<(), ExpandFault>
    requires { (name : List ℕ) → get bytes_eq sources.now name ≡ position (is_written_as name) modules.now }
    ensures { Looks (first_some (missing_source modules.now) modules.now) ExpandFault.NoSuchModule result }
{
    for item in modules {
        if let Some(name) = find_missing_source(item, sources) {
            let name = name.copy(alloc).map_err(ExpandFault::OutOfMemory)?;
            return Err(ExpandFault::NoSuchModule { name });
        }
    }
    Ok(())
}

/// The source of a renaming that isn't written out.
fn find_missing_source<'a>(item: &'a Module, sources: &Sources) -> Option<&'a Text>
    ensures { (modules : List Part)
        → ((name : List ℕ) → get bytes_eq sources.now name ≡ position (is_written_as name) modules)
        → option_copied result ≡ missing_source modules item.now }
{
    match item {
        Module::Written { .. } => None,
        Module::Renamed { source, .. } => match sources.get(source) {
            Some(_) => None,
            None => Some(source),
        },
    }
}

/// Refuses modules of which one is a renaming with a left name twice.
pub fn refuse_renamed_twice(alloc: Global, modules: &[Module]) -> Result<(), ExpandFault>
    ensures { Looks (first_some renamed_twice modules.now) ExpandFault.RenameTwice result }
{
    for item in modules {
        if let Some(name) = find_renamed_twice(alloc, item).map_err(ExpandFault::OutOfMemory)? {
            return Err(ExpandFault::RenameTwice { name });
        }
    }
    Ok(())
}

/// The first left name of a renaming that stands there twice.
fn find_renamed_twice(alloc: Global, item: &Module) -> Result<Option<Text>, AllocError>
    ensures { IfOk result (λ found. found ≡ renamed_twice item.now) }
{
    match item {
        Module::Written { .. } => Ok(None),
        Module::Renamed { pairs, .. } => {
            let lefts = lefts(alloc, pairs.as_slice())?;
            match first_repeated(alloc, lefts.as_slice(), lefts.as_slice())? {
                Some(name) => Ok(Some(name.copy(alloc)?)),
                None => Ok(None),
            }
        }
    }
}

/// The left names of pairs.
fn lefts<'a>(alloc: Global, pairs: &'a [(Text, Text)]) -> Result<Vec<&'a Text>, AllocError>
    ensures { IfOk result (λ names. map (λ name. name.now) names.items ≡ map (λ p. p.0) pairs.now) }
{
    let mut names = Vec::new(alloc);
    for pair in pairs {
        names.push(&pair.0)?;
    }
    Ok(names)
}

/// Refuses modules of which one is a renaming with a right name that is a formula.
pub fn refuse_renamed_to_formula(
    alloc: Global,
    modules: &[Module],
    formulas: &Places,
) -> Result<(), ExpandFault>
    ensures { Looks (first_some (renamed_to_formula (get bytes_eq formulas.now)) modules.now)
        ExpandFault.RenameToFormula result }
{
    for item in modules {
        if let Some(name) = find_renamed_to_formula(item, formulas) {
            let name = name.copy(alloc).map_err(ExpandFault::OutOfMemory)?;
            return Err(ExpandFault::RenameToFormula { name });
        }
    }
    Ok(())
}

/// The first right name of a renaming that is a formula.
fn find_renamed_to_formula<'a>(item: &'a Module, formulas: &Places) -> Option<&'a Text>
    ensures { option_copied result ≡ renamed_to_formula (get bytes_eq formulas.now) item.now }
{
    match item {
        Module::Written { .. } => None,
        Module::Renamed { pairs, .. } => find_formula(pairs.as_slice(), formulas),
    }
}

/// The first right name of these pairs that is a formula.
fn find_formula<'a>(pairs: &'a [(Text, Text)], formulas: &Places) -> Option<&'a Text>
    ensures { option_copied result ≡ find (λ name. is_some (get bytes_eq formulas.now name))
        (map (λ p. p.1) pairs.now) }
{
    for pair in pairs {
        if formulas.get(&pair.1).is_some() {
            return Some(&pair.1);
        }
    }
    None
}
