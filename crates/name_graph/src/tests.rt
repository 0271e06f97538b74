ghost use Rattle.std.specs.Prelude.{IsTrue};
ghost use Rattle.name_graph.specs.Graph.{IsGraph};

use super::*;
use sqlite_items::Items;
use std::alloc::{AllocError, Global};
use std::test::Fail;

/// Whether each use is of a place that is there.
fn is_graph(graph: &[Items<u32>]) -> bool
    ensures { IsTrue result → IsGraph graph.now }
{
    graph.iter().all(|uses| uses
        .as_slice()
        .iter()
        .all(|&used| (used as usize) < graph.len()))
}

/// Whether of a graph it is told that this place is the first that reaches itself, or that all places have an order.
fn tells(alloc: Global, graph: &[Items<u32>], expected: Option<u32>) -> Result<bool, AllocError> {
    if !is_graph(graph) || graph.len() > u32::MAX as usize {
        return Ok(false);
    }
    match order(alloc, graph)? {
        Order::Whole(places) => Ok(expected.is_none() && places.len() == graph.len()),
        Order::Cyclic(place) => Ok(expected == Some(place)),
    }
}

/// A graph of so many places, by pairs of one that uses and one that is used.
fn graph_of(
    alloc: Global,
    places: u32,
    pairs: &[(u32, u32)],
) -> Result<Vec<Items<u32>>, AllocError> {
    let mut graph = Vec::new(alloc);
    for place in 0..places {
        let mut uses = Items::new(alloc);
        for &(user, used) in pairs {
            if user == place {
                uses.push(used)?;
            }
        }
        graph.push(uses)?;
    }
    Ok(graph)
}

#[test]
fn the_first_cycle_or_an_order_is_told(rt: HostRuntime) -> Result<(), Fail> {
    let cases: [(u32, &[(u32, u32)], Option<u32>); 13] = [
        (0, &[], None),
        (1, &[], None),
        (1, &[(0, 0)], Some(0)),
        (3, &[(2, 2)], Some(2)),
        (2, &[(0, 1), (1, 0)], Some(0)),
        (2, &[(0, 1), (0, 1)], None),
        (4, &[(0, 1), (1, 2), (2, 3)], None),
        (4, &[(1, 0), (2, 1), (3, 2)], None),
        (4, &[(0, 1), (0, 2), (1, 3), (2, 3)], None),
        (4, &[(0, 1), (1, 2), (2, 3), (3, 2)], Some(2)),
        (5, &[(0, 3), (3, 4), (4, 3), (1, 2), (2, 1)], Some(1)),
        (
            5,
            &[(3, 4), (4, 3), (3, 0), (0, 1), (1, 2), (2, 1)],
            Some(1),
        ),
        (
            5,
            &[(0, 1), (1, 2), (2, 3), (3, 1), (3, 4), (4, 4)],
            Some(1),
        ),
    ];
    for (places, pairs, expected) in cases {
        let graph = graph_of(rt.alloc(), places, pairs)?;
        assert!(rt; tells(rt.alloc(), &graph, expected)?);
    }
    Ok(())
}

/// A graph of 52,000 places, each of which uses its neighbour on the way to the last of the chain.
fn chain(alloc: Global, last: u32, is_loop: bool) -> Result<Vec<Items<u32>>, AllocError> {
    let mut graph = Vec::new(alloc);
    for place in 0..52_000 {
        let mut uses = Items::new(alloc);
        if place < last {
            uses.push(place + 1)?;
        } else if place > last {
            uses.push(place - 1)?;
        } else if is_loop {
            uses.push(place)?;
        }
        graph.push(uses)?;
    }
    Ok(graph)
}

#[test]
fn long_chains_are_told_at_once(rt: HostRuntime) -> Result<(), Fail> {
    let cases = [
        (51_999, false, None),
        (0, false, None),
        (51_999, true, Some(51_999)),
        (0, true, Some(0)),
        (30_000, true, Some(30_000)),
    ];
    for (last, is_loop, expected) in cases {
        let graph = chain(rt.alloc(), last, is_loop)?;
        assert!(rt; tells(rt.alloc(), &graph, expected)?);
    }
    Ok(())
}
