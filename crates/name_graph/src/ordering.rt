ghost use Rattle.std.specs.Prelude.{◌<◌, ◌^◌, length, IfOk, OnOk};
ghost use Rattle.name_graph.specs.Graph.{IsGraph};
ghost use Rattle.name_graph.specs.PartOrder.{IsPartOrder};
ghost use Rattle.name_graph.specs.Told.{IsToldOf};

use crate::cycles::first_cycle;
use crate::orders::Order;
use crate::ranks::sound_ranks;
use crate::visiting::{fill, visit};
use crate::walk::Walk;
use sqlite_items::Items;
use std::alloc::{AllocError, Global};

/// An order of the places of a graph, each after what it uses, or else the first place that reaches itself. The graph
/// has for each place the places that it uses.
pub fn order(alloc: Global, graph: &[Items<u32>]) -> Result<Order, AllocError>
    requires graph { IsGraph graph.now }
    requires few { length graph.now < 2 ^ 32 }
    ensures { IfOk result (λ told. IsToldOf graph.now told) }
{
    let mut done = vec![in alloc; false; graph.len()]?;
    let mut order = Vec::with_capacity(alloc, graph.len())?;
    let ranks = walk_through(alloc, graph, &mut done, &mut order)?;
    let whole = fill(graph, &mut done, &mut order)?;
    if whole {
        return Ok(Order::Whole(order));
    }
    let place = first_cycle(alloc, graph, sound_ranks(graph, &ranks))?;
    Ok(Order::Cyclic(place))
}

/// Walks through a graph and visits each place once its uses have been looked at. The rank of a place is the number of
/// its strongly connected component, where those that it uses come first.
fn walk_through(
    alloc: Global,
    graph: &[Items<u32>],
    done: &mut [bool],
    order: &mut Vec<u32>,
) -> Result<Vec<u32>, AllocError>
    requires graph { IsGraph graph.now }
    requires ordered { IsPartOrder graph.now done.old order.old.items }
    ensures ordered { OnOk result (IsPartOrder graph.now done.new order.new.items) }
{
    let mut walk = Walk::new(alloc, graph.len())?;
    for _ in 0..steps_through(graph) {
        let left = walk.step(graph)?;
        visit_left(graph, left, done, order)?;
    }
    Ok(walk.into_ranks())
}

/// Visits the place that a walk has left, if it has left one.
fn visit_left(
    graph: &[Items<u32>],
    left: Option<u32>,
    done: &mut [bool],
    order: &mut Vec<u32>,
) -> Result<(), AllocError>
    requires graph { IsGraph graph.now }
    requires ordered { IsPartOrder graph.now done.old order.old.items }
    ensures ordered { OnOk result (IsPartOrder graph.now done.new order.new.items) }
{
    match left {
        Some(place) if (place as usize) < graph.len() => visit(graph, place, done, order),
        _ => Ok(()),
    }
}

/// How many steps a walk takes: two for each place, and one for each use.
fn steps_through(graph: &[Items<u32>]) -> usize {
    let mut steps: usize = 0;
    for uses in graph {
        steps = steps.saturating_add(uses.len()).saturating_add(2);
    }
    steps
}
