ghost use Rattle.std.specs.Prelude.{◌≡◌, IfOk, List, ℕ, bytes_eq, position};
ghost use Rattle.std.specs.Option.{option_map, option_copied};
ghost use Rattle.indexmap.specs.IndexMap.{get};
ghost use Rattle.module_expand.specs.Flat.{is_written_as};
ghost use Rattle.module_expand.specs.Renamed.{right_of};
ghost use Rattle.module_expand.specs.Refusals.{LooksForLeftOut};
ghost use Rattle.module_expand.specs.LeftOut.{IsFirstOf, IsFirstOfAll, IsFirstVariable, IsEarlier};

use crate::fault::ExpandFault;
use crate::renamings::{NewNames, new_names};
use crate::sources::{Sources, variables};
use prism_syntax::{Module, Variable};
use smc_num::Text;
use std::alloc::{AllocError, Global};

/// A variable that a renaming leaves out: the place of its module, its own place there, and its name.
#[derive(Clone, Copy, Debug)]
pub struct LeftOut<'a> {
    module: usize,
    variable: usize,
    name: &'a Text,
}

/// Refuses modules of which some renaming leaves out a variable of its source.
pub fn refuse_left_out(
    alloc: Global,
    modules: &[Module],
    sources: &Sources,
) -> Result<(), ExpandFault>
    requires { (name : List ℕ) → get bytes_eq sources.now name ≡ position (is_written_as name) modules.now }
    ensures { LooksForLeftOut modules.now result }
{
    match find_left_out(alloc, modules, sources).map_err(ExpandFault::OutOfMemory)? {
        Some(left_out) => {
            let name = left_out.name.copy(alloc).map_err(ExpandFault::OutOfMemory)?;
            Err(ExpandFault::RenameLeavesVariable { name })
        }
        None => Ok(()),
    }
}

/// The first variable in text order that some renaming leaves out.
fn find_left_out<'a>(
    alloc: Global,
    modules: &'a [Module],
    sources: &Sources,
) -> Result<Option<LeftOut<'a>>, AllocError>
    requires { (name : List ℕ) → get bytes_eq sources.now name ≡ position (is_written_as name) modules.now }
    ensures { IfOk result (λ found. IsFirstOfAll modules.now
        (option_map (λ v. (v.module, v.variable, v.name.now)) found)) }
{
    let mut first = None;
    for item in modules {
        first = earlier(first, left_out_by(alloc, modules, sources, item)?);
    }
    Ok(first)
}

/// The earlier of two variables, as far as they are there.
fn earlier<'a>(a: Option<LeftOut<'a>>, b: Option<LeftOut<'a>>) -> Option<LeftOut<'a>>
    ensures { IsEarlier (option_map (λ v. (v.module, v.variable, v.name.now)) a.entry)
        (option_map (λ v. (v.module, v.variable, v.name.now)) b.entry)
        (option_map (λ v. (v.module, v.variable, v.name.now)) result) }
{
    match (a, b) {
        (Some(a), Some(b)) => {
            if b.module < a.module || (b.module == a.module && b.variable < a.variable) {
                Some(b)
            } else {
                Some(a)
            }
        }
        (Some(a), None) => Some(a),
        (None, b) => b,
    }
}

/// The first variable of its source that a renaming leaves out.
fn left_out_by<'a>(
    alloc: Global,
    modules: &'a [Module],
    sources: &Sources,
    item: &Module,
) -> Result<Option<LeftOut<'a>>, AllocError>
    requires { (name : List ℕ) → get bytes_eq sources.now name ≡ position (is_written_as name) modules.now }
    ensures { IfOk result (λ found. IsFirstOf modules.now item.now
        (option_map (λ v. (v.module, v.variable, v.name.now)) found)) }
{
    match item {
        Module::Written { .. } => Ok(None),
        Module::Renamed { source, pairs, .. } => match sources.get(source) {
            Some(place) => first_without_pair(
                alloc,
                *place,
                variables(&modules[*place]),
                pairs.as_slice(),
            ),
            None => Ok(None),
        },
    }
}

/// The first of the variables of the module at this place that has no pair.
fn first_without_pair<'a>(
    alloc: Global,
    place: usize,
    variables: &'a [Variable],
    pairs: &[(Text, Text)],
) -> Result<Option<LeftOut<'a>>, AllocError>
    ensures { IfOk result (λ found. IsFirstVariable variables.now pairs.now place
        (option_map (λ v. (v.module, v.variable, v.name.now)) found)) }
{
    let names = new_names(alloc, pairs)?;
    Ok(first_unnamed(&names, place, variables))
}

/// The first of the variables of the module at this place that has no new name.
fn first_unnamed<'a>(
    names: &NewNames,
    place: usize,
    variables: &'a [Variable],
) -> Option<LeftOut<'a>>
    ensures { (pairs : List (List ℕ × List ℕ))
        → ((name : List ℕ) → option_copied (get bytes_eq names.now name) ≡ right_of pairs name)
        → IsFirstVariable variables.now pairs place (option_map (λ v. (v.module, v.variable, v.name.now)) result) }
{
    for (variable, declared) in variables.iter().enumerate() {
        if names.get(&declared.name).is_none() {
            return Some(LeftOut {
                module: place,
                variable,
                name: &declared.name,
            });
        }
    }
    None
}
