ghost use Rattle.std.specs.Prelude.{◌≡◌, ◌⊎◌, ◌↔◌, ◌<◌, ◌^◌, IfOk, IfErr, IsTrue, List, ℕ, Option, None, bytes_eq, length, map, position};
ghost use Rattle.indexmap.specs.IndexMap.{get};
ghost use Rattle.prism_syntax.specs.WellFormed.{IsFormedModel, IsFormedFlat};
ghost use Rattle.prism_syntax.specs.declared.models.Named.{Named as Formula};
ghost use Rattle.prism_names.specs.First.{AreDistinct};
ghost use Rattle.name_graph.specs.Graph.{IsOrder};
ghost use Rattle.module_expand.specs.declared.fault.ExpandFault.{ExpandFault as Fault};
ghost use Rattle.module_expand.specs.Duplicates.{duplicate_of, AreNamedApart};
ghost use Rattle.module_expand.specs.Expanded.{AreExpanded};
ghost use Rattle.module_expand.specs.Flat.{is_written_as, IsFlat, flat_of};
ghost use Rattle.module_expand.specs.Listed.{IsTooLarge};
ghost use Rattle.module_expand.specs.Refusals.{IsRefused, IsRefusedAtModules, TellsSize, LeavesOutNone, IsOutOfMemory, Decides, uses_of, place_of};

use crate::cycles::{Places, order_formulas, places};
use crate::fault::ExpandFault;
use crate::flattening::flatten;
use crate::formulas::{formula_sizes, formula_trees};
use crate::left_out::refuse_left_out;
use crate::modules::{refuse_missing_source, refuse_renamed_to_formula, refuse_renamed_twice};
use crate::repeated::refuse_duplicate;
use crate::sources::{Sources, sources};
use crate::totals::is_too_large;
use name_graph::order_law;
use prism_syntax::{FlatText, ModelText};
use std::alloc::{AllocError, Global};

/// The flat text of a model: formulas replaced by their trees, and renamed modules by copies of their sources.
pub fn expand(alloc: Global, model: &ModelText) -> Result<FlatText, ExpandFault>
    ensures flat { IfOk result (λ flat. IsFlat model.now flat) }
    ensures accepted { IfOk result (λ flat. (fault : Fault) → ¬ IsRefused model.now fault) }
    ensures refused { IfErr result (λ fault. IsOutOfMemory fault ⊎ IsRefused model.now fault) }
    ensures formed { IfOk result (λ flat. IsFormedModel model.now → IsFormedFlat flat) }
    ensures distinct { IfOk result AreNamedApart }
{
    match sources(alloc, model.modules.as_slice()) {
        Ok(sources) => expand_with(alloc, model, &sources),
        Err(error) => Err(ExpandFault::OutOfMemory(error)),
    }
}

/// The flat text of a model whose modules that are written out have these places.
fn expand_with(alloc: Global, model: &ModelText, sources: &Sources) -> Result<FlatText, ExpandFault>
    requires { (name : List ℕ) → get bytes_eq sources.now name ≡ position (is_written_as name) model.now.modules }
    ensures flat { IfOk result (λ flat. IsFlat model.now flat) }
    ensures accepted { IfOk result (λ flat. (fault : Fault) → ¬ IsRefused model.now fault) }
    ensures refused { IfErr result (λ fault. IsOutOfMemory fault ⊎ IsRefused model.now fault) }
    ensures formed { IfOk result (λ flat. IsFormedModel model.now → IsFormedFlat flat) }
    ensures distinct { IfOk result AreNamedApart }
{
    let order = accept(alloc, model, sources)?;
    match written_out(alloc, model, sources, order.as_slice()) {
        Ok(flat) => Ok(flat),
        Err(error) => Err(ExpandFault::OutOfMemory(error)),
    }
}

/// The flat text of a model of which nothing is refused, by an order of its formulas.
fn written_out(
    alloc: Global,
    model: &ModelText,
    sources: &Sources,
    order: &[u32],
) -> Result<FlatText, AllocError>
    requires sources { (name : List ℕ) → get bytes_eq sources.now name
        ≡ position (is_written_as name) model.now.modules }
    requires distinct { AreDistinct (map (λ f. f.name) model.now.formulas) }
    requires order { IsOrder (uses_of model.now.formulas) order.now }
    ensures { IfOk result (IsFlat model.now) }
{
    let trees = formula_trees(alloc, model.formulas.as_slice(), order)?;
    flatten(alloc, model, sources, &trees)
}

/// An order of the formulas, where nothing refuses the model.
fn accept(alloc: Global, model: &ModelText, sources: &Sources) -> Result<Vec<u32>, ExpandFault>
    requires { (name : List ℕ) → get bytes_eq sources.now name ≡ position (is_written_as name) model.now.modules }
    ensures decides { Decides (IsRefused model.now) result }
    ensures apart { IfOk result (λ order. duplicate_of model.now ≡ None) }
    ensures kept { IfOk result (λ order. LeavesOutNone model.now.modules) }
    ensures order { IfOk result (λ order. IsOrder (uses_of model.now.formulas) order.items) }
{
    let formulas = model.formulas.as_slice();
    if formulas.len() >= u32::MAX as usize {
        return Err(ExpandFault::OutOfMemory(AllocError));
    }
    match places(alloc, formulas) {
        Ok(places) => accept_with(alloc, model, sources, &places),
        Err(error) => Err(ExpandFault::OutOfMemory(error)),
    }
}

/// An order of the formulas, which have these places, where nothing refuses the model.
fn accept_with(
    alloc: Global,
    model: &ModelText,
    sources: &Sources,
    places: &Places,
) -> Result<Vec<u32>, ExpandFault>
    requires sources { (name : List ℕ) → get bytes_eq sources.now name
        ≡ position (is_written_as name) model.now.modules }
    requires places { (name : List ℕ) → get bytes_eq places.now name ≡ place_of model.now.formulas name }
    requires few { length model.now.formulas < 2 ^ 32 }
    ensures decides { Decides (IsRefused model.now) result }
    ensures apart { IfOk result (λ order. duplicate_of model.now ≡ None) }
    ensures kept { IfOk result (λ order. LeavesOutNone model.now.modules) }
    ensures order { IfOk result (λ order. IsOrder (uses_of model.now.formulas) order.items) }
{
    refuse_duplicate(alloc, model, sources)?;
    let order = order_formulas(alloc, model.formulas.as_slice(), places)?;
    order_law();
    accept_modules(alloc, model, sources, places, order.as_slice())?;
    Ok(order)
}

/// Refuses a model with a wrong renaming or one whose flat text is past the limits, once its names and formulas are
/// right.
fn accept_modules(
    alloc: Global,
    model: &ModelText,
    sources: &Sources,
    places: &Places,
    order: &[u32],
) -> Result<(), ExpandFault>
    requires sources { (name : List ℕ) → get bytes_eq sources.now name
        ≡ position (is_written_as name) model.now.modules }
    requires places { (name : List ℕ) → get bytes_eq places.now name ≡ place_of model.now.formulas name }
    requires distinct { AreDistinct (map (λ f. f.name) model.now.formulas) }
    requires order { IsOrder (uses_of model.now.formulas) order.now }
    ensures decides { Decides (IsRefusedAtModules model.now) result }
    ensures kept { IfOk result (λ done. LeavesOutNone model.now.modules) }
{
    let modules = model.modules.as_slice();
    refuse_missing_source(alloc, modules, sources)?;
    refuse_left_out(alloc, modules, sources)?;
    refuse_renamed_twice(alloc, modules)?;
    refuse_renamed_to_formula(alloc, modules, places)?;
    refuse_size(alloc, model, sources, order)
}

/// Refuses a model whose flat text is past the limits.
fn refuse_size(
    alloc: Global,
    model: &ModelText,
    sources: &Sources,
    order: &[u32],
) -> Result<(), ExpandFault>
    requires sources { (name : List ℕ) → get bytes_eq sources.now name
        ≡ position (is_written_as name) model.now.modules }
    requires distinct { AreDistinct (map (λ f. f.name) model.now.formulas) }
    requires order { IsOrder (uses_of model.now.formulas) order.now }
    ensures { Decides (TellsSize model.now) result }
{
    match flat_is_too_large(alloc, model, sources, order) {
        Ok(true) => Err(ExpandFault::TooLarge),
        Ok(false) => Ok(()),
        Err(error) => Err(ExpandFault::OutOfMemory(error)),
    }
}

/// Whether the flat text of a model is past the limits, by an order of its formulas. No tree is built.
fn flat_is_too_large(
    alloc: Global,
    model: &ModelText,
    sources: &Sources,
    order: &[u32],
) -> Result<bool, AllocError>
    requires sources { (name : List ℕ) → get bytes_eq sources.now name
        ≡ position (is_written_as name) model.now.modules }
    requires distinct { AreDistinct (map (λ f. f.name) model.now.formulas) }
    requires order { IsOrder (uses_of model.now.formulas) order.now }
    ensures { IfOk result (λ large. (trees : List Formula) → AreExpanded model.now.formulas trees
        → (IsTrue large ↔ IsTooLarge (flat_of model.now trees))) }
{
    let sizes = formula_sizes(alloc, model.formulas.as_slice(), order)?;
    is_too_large(alloc, model, sources, &sizes)
}
