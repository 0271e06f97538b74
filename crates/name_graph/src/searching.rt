ghost use Rattle.std.specs.Prelude.{◌≡◌, ◌<◌, ◌↔◌, length, All, IsTrue, IfOk, OnOk, replicate, false};
ghost use Rattle.name_graph.specs.Graph.{Reaches, IsGraph};
ghost use Rattle.name_graph.specs.Search.{Adds};

use sqlite_items::Items;
use std::alloc::{AllocError, Global};

/// Whether a place reaches itself by one use or more.
pub fn reaches_itself(alloc: Global, graph: &[Items<u32>], start: u32) -> Result<bool, AllocError>
    requires graph { IsGraph graph.now }
    requires inside { start < length graph.now }
    ensures { IfOk result (λ found. IsTrue found ↔ Reaches graph.now start start) }
{
    let mut seen = vec![in alloc; false; graph.len()]?;
    search(alloc, graph, start, &mut seen)
}

/// Marks all that a place reaches, and tells whether it is among them.
fn search(
    alloc: Global,
    graph: &[Items<u32>],
    start: u32,
    seen: &mut [bool],
) -> Result<bool, AllocError>
    requires graph { IsGraph graph.now }
    requires inside { start < length graph.now }
    requires none { seen.old ≡ replicate (length graph.now) false }
    ensures { IfOk result (λ found. IsTrue found ↔ Reaches graph.now start start) }
{
    let mut rest: Vec<u32> = Vec::new(alloc);
    note_uses(graph[start as usize].as_slice(), seen, &mut rest)?;
    while let Some(place) = rest.pop() {
        note_uses(graph[place as usize].as_slice(), seen, &mut rest)?;
    }
    Ok(seen[start as usize])
}

/// Marks these places, and appends those that were not marked before.
fn note_uses(uses: &[u32], seen: &mut [bool], rest: &mut Vec<u32>) -> Result<(), AllocError>
    requires { All (λ j. j < length seen.old) uses.now }
    ensures { OnOk result (Adds uses.now seen.old seen.new rest.old.items rest.new.items) }
{
    for &place in uses {
        if !seen[place as usize] {
            seen[place as usize] = true;
            rest.push(place)?;
        }
    }
    Ok(())
}
