ghost use Rattle.std.specs.Prelude.{◌≡◌};

use sqlite_items::Items;
use std::alloc::{AllocError, Global};

/// How far a walk has come with a place.
#[derive(Clone, Copy, Debug)]
enum Progress {
    Ahead,
    /// The place was found with this number, and reaches an open place that was found with the other.
    Open { number: u32, lowest: u32 },
    Closed,
}

/// A place on the path of a walk, and how many of its uses were looked at.
#[derive(Clone, Copy, Debug)]
struct Turn {
    place: u32,
    looked: usize,
}

/// A depth-first walk through a graph that numbers its strongly connected components, each after those that it reaches.
#[derive(Debug, Drop)]
pub struct Walk {
    /// The next place at which the walk may begin anew.
    next: u32,
    path: Vec<Turn>,
    progress: Vec<Progress>,
    /// How many places were found.
    found: u32,
    /// The places that were found and whose components are not complete.
    pending: Vec<u32>,
    /// The number of each place's component.
    ranks: Vec<u32>,
    /// How many components are complete.
    complete: u32,
}

impl Walk {
    /// A walk through a graph of so many places.
    pub fn new(alloc: Global, places: usize) -> Result<Walk, AllocError> {
        Ok(Walk {
            next: 0,
            path: Vec::with_capacity(alloc, places)?,
            progress: vec![in alloc; Progress::Ahead; places]?,
            found: 0,
            pending: Vec::with_capacity(alloc, places)?,
            ranks: vec![in alloc; 0; places]?,
            complete: 0,
        })
    }

    /// One step: looks at the next use of the last place on the path, or leaves that place, or begins anew. The place
    /// that it leaves is told.
    pub fn step(&mut self, graph: &[Items<u32>]) -> Result<Option<u32>, AllocError> {
        let Some(turn) = self.path.pop() else {
            let place = self.next;
            self.next = place.saturating_add(1);
            self.begin(place)?;
            return Ok(None);
        };
        match use_at(graph, turn) {
            Some(used) => {
                let looked = turn.looked.saturating_add(1);
                self.path.push(Turn {
                    place: turn.place,
                    looked,
                })?;
                self.look(turn.place, used)?;
                Ok(None)
            }
            None => {
                self.leave(turn.place);
                Ok(Some(turn.place))
            }
        }
    }

    /// Begins at a place, unless it was found before.
    fn begin(&mut self, place: u32) -> Result<(), AllocError> {
        match self.progress.get(place as usize) {
            Some(Progress::Ahead) => self.enter(place),
            _ => Ok(()),
        }
    }

    /// Looks at what a place uses.
    fn look(&mut self, place: u32, used: u32) -> Result<(), AllocError> {
        match self.progress.get(used as usize).copied() {
            Some(Progress::Ahead) => self.enter(used),
            Some(Progress::Open { number, .. }) => {
                self.lower(place, number);
                Ok(())
            }
            _ => Ok(()),
        }
    }

    fn enter(&mut self, place: u32) -> Result<(), AllocError> {
        let number = self.found;
        self.found = number.saturating_add(1);
        let lowest = number;
        self.set_progress(place, Progress::Open { number, lowest });
        self.pending.push(place)?;
        self.path.push(Turn { place, looked: 0 })?;
        Ok(())
    }

    /// Leaves a place, which completes its component or reaches an open place that was found before.
    fn leave(&mut self, place: u32) {
        let Some(Progress::Open { number, lowest }) = self.progress.get(place as usize).copied()
        else {
            return;
        };
        if lowest == number {
            self.complete_component(place);
        } else if let Some(turn) = self.path.last().copied() {
            self.lower(turn.place, lowest);
        }
    }

    /// Notes that a place reaches an open place that was found with this number.
    fn lower(&mut self, place: u32, other: u32) {
        if let Some(Progress::Open { number, lowest }) = self
            .progress
            .get(place as usize)
            .copied()
        {
            let lowest = lowest.min(other);
            self.set_progress(place, Progress::Open { number, lowest });
        }
    }

    /// Closes the open places from this one on.
    fn complete_component(&mut self, first: u32) {
        while let Some(place) = self.pending.pop() {
            self.set_progress(place, Progress::Closed);
            self.set_rank(place);
            if place == first {
                break;
            }
        }
        self.complete = self.complete.saturating_add(1);
    }

    fn set_progress(&mut self, place: u32, progress: Progress)
        ensures { self.new.pending ≡ self.old.pending }
    {
        if let Some(slot) = self.progress.get_mut(place as usize) {
            *slot = progress;
        }
    }

    fn set_rank(&mut self, place: u32)
        ensures { self.new.pending ≡ self.old.pending }
    {
        if let Some(rank) = self.ranks.get_mut(place as usize) {
            *rank = self.complete;
        }
    }

    /// The number of each place's component.
    pub fn into_ranks(self) -> Vec<u32> {
        self.ranks
    }
}

/// The next use of a place to look at.
fn use_at(graph: &[Items<u32>], turn: Turn) -> Option<u32> {
    graph.get(turn.place as usize)?.get(turn.looked).copied()
}
