ghost use Rattle.std.specs.Prelude.{◌≡◌, ◌<◌, ◌≤◌, ◌^◌, ◌↔◌, length, All, IsTrue};
ghost use Rattle.name_graph.specs.Ranks.{rank_of, AreRanks};

use sqlite_items::Items;

/// The rank of a place, 0 where none is known.
pub fn rank(ranks: &[u32], place: u32) -> u32
    ensures { result ≡ rank_of ranks.now place }
{
    ranks.get(place as usize).copied().unwrap_or(0)
}

/// Whether all these places are ranked below this.
pub fn are_below(ranks: &[u32], uses: &[u32], limit: u32) -> bool
    ensures { IsTrue result ↔ All (λ j. rank_of ranks.now j < limit) uses.now }
{
    uses.iter().all(|&used| rank(ranks, used) < limit)
}

/// Whether all these places are ranked at most so.
fn are_at_most(ranks: &[u32], uses: &[u32], most: u32) -> bool
    ensures { IsTrue result ↔ All (λ j. rank_of ranks.now j ≤ most) uses.now }
{
    uses.iter().all(|&used| rank(ranks, used) <= most)
}

/// Whether no place is ranked below one that it uses.
fn are_ranks(graph: &[Items<u32>], ranks: &[u32]) -> bool
    requires few { length graph.now < 2 ^ 32 }
    ensures { IsTrue result → AreRanks graph.now ranks.now }
{
    for place in 0..graph.len() as u32 {
        if !are_at_most(ranks, graph[place as usize].as_slice(), rank(ranks, place)) {
            return false;
        }
    }
    true
}

/// These ranks, or none where a place is ranked below one that it uses.
pub fn sound_ranks<'a>(graph: &[Items<u32>], ranks: &'a [u32]) -> &'a [u32]
    requires few { length graph.now < 2 ^ 32 }
    ensures { AreRanks graph.now result.now }
{
    if are_ranks(graph, ranks) { ranks } else { &[] }
}
