//! What the definitions of constants read, and an order in which each constant stands after what its definition reads.

ghost use Rattle.std.specs.Prelude.{◌≡◌, ◌⊎◌, ◌++◌, ◌<◌, ◌^◌, length, map, position, bytes_eq, IfOk, OnOk, IfErr};
ghost use Rattle.std.specs.Option.{option_to_list, ForSome};
ghost use Rattle.std.specs.List.{filter_map};
ghost use Rattle.indexmap.specs.IndexMap.{keys, index_map_len};
ghost use Rattle.name_graph.specs.Graph.{IsOrder};
ghost use Rattle.const_eval.specs.Constants.{uses_of};
ghost use Rattle.const_eval.specs.Refusals.{IsOutOfMemory, TellsFirstCycle};
ghost use Rattle.const_eval.specs.Listing.{declared_sorts};

use crate::fault::ConstFault;
use crate::unknown::definition_names;
use chain_model::Sort;
use indexmap::IndexMap;
use name_graph::{Order, order};
use prism_syntax::ConstText;
use smc_num::Text;
use sqlite_items::Items;
use std::alloc::{AllocError, Global};

/// An order in which each constant stands after those that its definition reads. The first constant that reaches
/// itself is refused.
pub fn definition_order(
    alloc: Global,
    consts: &[ConstText],
    sorts: &IndexMap<Text, Sort>,
) -> Result<Vec<u32>, ConstFault>
    requires { sorts.now.entries ≡ declared_sorts consts.now }
    ensures order { IfOk result (λ order. IsOrder (uses_of consts.now) order.items) }
    ensures told { IfErr result (λ told. IsOutOfMemory told ⊎ TellsFirstCycle consts.now told) }
{
    if consts.len() > u32::MAX as usize {
        return Err(ConstFault::OutOfMemory(AllocError));
    }
    let graph = uses(alloc, consts, sorts).map_err(ConstFault::OutOfMemory)?;
    match order(alloc, graph.as_slice()).map_err(ConstFault::OutOfMemory)? {
        Order::Whole(order) => Ok(order),
        Order::Cyclic(place) => {
            let name = &consts[place as usize].name;
            Err(ConstFault::Cycle {
                name: name.copy(alloc).map_err(ConstFault::OutOfMemory)?,
            })
        }
    }
}

/// For each constant the places of the constants that its definition reads.
fn uses(
    alloc: Global,
    consts: &[ConstText],
    sorts: &IndexMap<Text, Sort>,
) -> Result<Vec<Items<u32>>, AllocError>
    requires few { length consts.now < 2 ^ 32 }
    requires sorts { sorts.now.entries ≡ declared_sorts consts.now }
    ensures { IfOk result (λ graph. graph.items ≡ uses_of consts.now) }
{
    let mut graph: Vec<Items<u32>> = Vec::new(alloc);
    for constant in consts {
        let read = definition_names(alloc, constant)?;
        graph.push(places(alloc, read.as_slice(), sorts)?)?;
    }
    Ok(graph)
}

/// The places of those of these names that are constants.
fn places(
    alloc: Global,
    names: &[&Text],
    sorts: &IndexMap<Text, Sort>,
) -> Result<Items<u32>, AllocError>
    requires { index_map_len sorts.now < 2 ^ 32 }
    ensures { IfOk result (λ places. places ≡ filter_map (λ name. position (bytes_eq name) (keys sorts.now)) (map (λ name. name.now) names.now)) }
{
    let mut places: Items<u32> = Items::new(alloc);
    for name in names {
        note_place(sorts.get_index_of(*name), &mut places)?;
    }
    Ok(places)
}

/// Appends a place, where there is one.
fn note_place(place: Option<usize>, places: &mut Items<u32>) -> Result<(), AllocError>
    requires { ForSome place (λ number. number < 2 ^ 32) }
    ensures { OnOk result (places.new ≡ places.old ++ option_to_list place) }
{
    match place {
        Some(number) => places.push(number as u32),
        None => Ok(()),
    }
}
