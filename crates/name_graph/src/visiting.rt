ghost use Rattle.std.specs.Prelude.{◌≡◌, ◌<◌, ◌≤◌, ◌^◌, length, Contains, All, IsTrue, IfOk, OnOk, MatchOption};
ghost use Rattle.name_graph.specs.Graph.{IsGraph};
ghost use Rattle.name_graph.specs.PartOrder.{IsMarked, IsPartOrder, IsStuck, Moves};

use sqlite_items::Items;
use std::alloc::AllocError;

/// The first of these places that is not done.
fn undone(uses: &[u32], done: &[bool]) -> Option<u32>
    requires { All (λ j. j < length done.now) uses.now }
    ensures { MatchOption result (All (λ j. IsMarked done.now j) uses.now) (λ j. Contains uses.now j × ¬ IsMarked done.now j) }
{
    for &place in uses {
        if !done[place as usize] {
            return Some(place);
        }
    }
    None
}

/// Appends a place all of whose uses are done, if it is not done itself.
pub fn visit(
    graph: &[Items<u32>],
    place: u32,
    done: &mut [bool],
    order: &mut Vec<u32>,
) -> Result<(), AllocError>
    requires graph { IsGraph graph.now }
    requires inside { place < length graph.now }
    requires ordered { IsPartOrder graph.now done.old order.old.items }
    ensures ordered { OnOk result (IsPartOrder graph.now done.new order.new.items) }
    ensures moved { OnOk result (Moves graph.now place done.old done.new order.old.items order.new.items) }
{
    if done[place as usize] {
        return Ok(());
    }
    match undone(graph[place as usize].as_slice(), done) {
        Some(_) => Ok(()),
        None => {
            done[place as usize] = true;
            order.push(place)?;
            Ok(())
        }
    }
}

/// Visits each place once.
fn pass(graph: &[Items<u32>], done: &mut [bool], order: &mut Vec<u32>) -> Result<(), AllocError>
    requires graph { IsGraph graph.now }
    requires few { length graph.now < 2 ^ 32 }
    requires ordered { IsPartOrder graph.now done.old order.old.items }
    ensures ordered { OnOk result (IsPartOrder graph.now done.new order.new.items) }
    ensures grown { OnOk result (length order.old.items ≤ length order.new.items) }
    ensures stuck { OnOk result (length order.new.items ≡ length order.old.items → IsStuck graph.now done.new) }
{
    for place in 0..graph.len() as u32 {
        visit(graph, place, done, order)?;
    }
    Ok(())
}

/// Visits all places until all are ordered, or none of the others can be. Tells whether all are.
pub fn fill(
    graph: &[Items<u32>],
    done: &mut [bool],
    order: &mut Vec<u32>,
) -> Result<bool, AllocError>
    requires graph { IsGraph graph.now }
    requires few { length graph.now < 2 ^ 32 }
    requires ordered { IsPartOrder graph.now done.old order.old.items }
    ensures ordered { OnOk result (IsPartOrder graph.now done.new order.new.items) }
    ensures whole { IfOk result (λ whole. IsTrue whole → length graph.now ≤ length order.new.items) }
    ensures stuck { IfOk result (λ whole. ¬ IsTrue whole → (length order.new.items < length graph.now) × IsStuck graph.now done.new) }
{
    while order.len() < graph.len() {
        let before = order.len();
        pass(graph, done, order)?;
        if order.len() == before {
            return Ok(false);
        }
    }
    Ok(true)
}
