ghost use Rattle.std.specs.Prelude.{◌≡◌, ◌<◌, ◌^◌, ◌++◌, IfOk, OnOk, List, ℕ, bytes_eq, length, map};
ghost use Rattle.std.specs.List.{filter_map};
ghost use Rattle.std.specs.Option.{option_to_list};
ghost use Rattle.indexmap.specs.IndexMap.{get};
ghost use Rattle.prism_names.specs.Names.{names_of};
ghost use Rattle.name_graph.specs.Told.{IsToldOf};
ghost use Rattle.module_expand.specs.Refusals.{place_of, uses_of, LooksForCycle};

use crate::fault::ExpandFault;
use crate::tables::put_first;
use indexmap::IndexMap;
use name_graph::{Order, order};
use prism_names::names;
use prism_syntax::{Expr, Named};
use smc_num::Text;
use sqlite_items::Items;
use std::alloc::{AllocError, Global};

/// The places of formulas by their names.
pub type Places = IndexMap<Text, u32>;

/// The place of the first formula of each name.
pub fn places(alloc: Global, formulas: &[Named]) -> Result<Places, AllocError>
    requires { length formulas.now < 2 ^ 32 }
    ensures { IfOk result (λ places. (name : List ℕ) → get bytes_eq places name ≡ place_of formulas.now name) }
{
    let mut places = IndexMap::new(alloc);
    for (place, formula) in formulas.iter().enumerate() {
        put_first(alloc, &mut places, &formula.name, place as u32)?;
    }
    Ok(places)
}

/// An order in which each formula stands after those that it names, unless one reaches itself.
pub fn order_formulas(
    alloc: Global,
    formulas: &[Named],
    places: &Places,
) -> Result<Vec<u32>, ExpandFault>
    requires few { length formulas.now < 2 ^ 32 }
    requires places { (name : List ℕ) → get bytes_eq places.now name ≡ place_of formulas.now name }
    ensures { LooksForCycle (λ order. order.items) formulas.now result }
{
    match find_order(alloc, formulas, places).map_err(ExpandFault::OutOfMemory)? {
        Order::Whole(order) => Ok(order),
        Order::Cyclic(place) => {
            let name = formulas[place as usize]
                .name
                .copy(alloc)
                .map_err(ExpandFault::OutOfMemory)?;
            Err(ExpandFault::FormulaCycle { name })
        }
    }
}

/// Such an order, or the first formula that reaches itself.
fn find_order(alloc: Global, formulas: &[Named], places: &Places) -> Result<Order, AllocError>
    requires few { length formulas.now < 2 ^ 32 }
    requires places { (name : List ℕ) → get bytes_eq places.now name ≡ place_of formulas.now name }
    ensures { IfOk result (λ told. IsToldOf (uses_of formulas.now) told) }
{
    let graph = graph(alloc, formulas, places)?;
    order(alloc, graph.as_slice())
}

/// The places of the formulas that each body names.
fn graph(alloc: Global, formulas: &[Named], places: &Places) -> Result<Vec<Items<u32>>, AllocError>
    requires { (name : List ℕ) → get bytes_eq places.now name ≡ place_of formulas.now name }
    ensures { IfOk result (λ graph. graph.items ≡ uses_of formulas.now) }
{
    let mut graph = Vec::new(alloc);
    for formula in formulas {
        graph.push(places_in(alloc, &formula.body, places)?)?;
    }
    Ok(graph)
}

/// The places of the formulas that stand in an expression.
fn places_in(alloc: Global, expr: &Expr, places: &Places) -> Result<Items<u32>, AllocError>
    ensures { IfOk result (λ uses. uses ≡ filter_map (get bytes_eq places.now) (names_of expr.now)) }
{
    places_of(alloc, names(alloc, expr)?.as_slice(), places)
}

/// The places of the formulas of these names, as far as there are any.
fn places_of(alloc: Global, names: &[&Text], places: &Places) -> Result<Items<u32>, AllocError>
    ensures { IfOk result (λ uses. uses ≡ filter_map (get bytes_eq places.now) (map (λ name. name.now) names.now)) }
{
    let mut uses = Items::new(alloc);
    for name in names {
        note_place(&mut uses, places.get(*name).copied())?;
    }
    Ok(uses)
}

/// Appends a place, if there is one.
fn note_place(uses: &mut Items<u32>, place: Option<u32>) -> Result<(), AllocError>
    ensures { OnOk result (uses.new ≡ uses.old ++ option_to_list place) }
{
    match place {
        Some(place) => uses.push(place),
        None => Ok(()),
    }
}
