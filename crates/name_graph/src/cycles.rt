ghost use Rattle.std.specs.Prelude.{◌<◌, ◌^◌, ◌↔◌, length, IsTrue, IfOk};
ghost use Rattle.name_graph.specs.Graph.{Reaches, IsGraph, IsFirstCycle, HasNoCycle};
ghost use Rattle.name_graph.specs.Ranks.{AreRanks};

use crate::ranks::{are_below, rank};
use crate::searching::reaches_itself;
use sqlite_items::Items;
use std::alloc::{AllocError, Global};

/// Whether a place reaches itself. One that is ranked above all that it uses does not, and needs no search.
fn is_on_cycle(
    alloc: Global,
    graph: &[Items<u32>],
    ranks: &[u32],
    place: u32,
) -> Result<bool, AllocError>
    requires graph { IsGraph graph.now }
    requires inside { place < length graph.now }
    requires ranked { AreRanks graph.now ranks.now }
    ensures { IfOk result (λ found. IsTrue found ↔ Reaches graph.now place place) }
{
    if are_below(ranks, graph[place as usize].as_slice(), rank(ranks, place)) {
        return Ok(false);
    }
    reaches_itself(alloc, graph, place)
}

/// The first place that reaches itself.
pub fn first_cycle(alloc: Global, graph: &[Items<u32>], ranks: &[u32]) -> Result<u32, AllocError>
    requires graph { IsGraph graph.now }
    requires few { length graph.now < 2 ^ 32 }
    requires ranked { AreRanks graph.now ranks.now }
    requires cyclic { ¬ HasNoCycle graph.now }
    ensures { IfOk result (λ place. IsFirstCycle graph.now place) }
{
    for place in 0..graph.len() as u32 {
        if is_on_cycle(alloc, graph, ranks, place)? {
            return Ok(place);
        }
    }
    unreachable!()
}
