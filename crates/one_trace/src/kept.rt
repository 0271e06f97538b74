//! The choices that are kept for states.

ghost use Rattle.std.specs.Prelude.{◌≡◌, ◌*◌, ◌≤◌, IfOk, IfSome, List, Some, length, slice_get, take, vec_capacity};
ghost use Rattle.chain_model.specs.declared.job.Job.{Job};
ghost use Rattle.chain_model.specs.States.{State};
ghost use Rattle.successors.specs.Choosing.{AreKnownChoices};

use std::alloc::{AllocError, Global};
use successors::Listed;

/// Where the commands of a state's choices stand, how many choices it has, and how many commands each of them: none, where
/// they aren't known.
#[derive(Clone, Copy, Debug, PartialEq, Eq)]
pub(crate) struct Span {
    from: u32,
    count: u32,
    size: u32,
}

/// For how many commands there is room.
const MOST_COMMANDS: usize = 65_536;

/// The commands of all choices of each state whose choices are known. All memory is taken by `new`.
#[derive(Debug, Drop)]
pub(crate) struct KeptChoices {
    spans: Vec<Span>,
    commands: Vec<u32>,
    ghost few: { length commands.items ≤ 65536 },
    ghost room: { 65536 ≤ vec_capacity commands },
}

impl KeptChoices {
    ghost use Rattle.one_trace.specs.Kept.{AreKept};

    /// Nothing is known yet, of so many states.
    pub(crate) fn new(alloc: Global, states: usize) -> Result<KeptChoices, AllocError>
        ensures { IfOk result (λ kept. (job : Job) (known : List State) → AreKept job known kept) }
    {
        let unknown = Span {
            from: 0,
            count: 0,
            size: 0,
        };
        let spans = vec![in alloc; unknown; states]?;
        let commands = Vec::with_capacity(alloc, MOST_COMMANDS)?;
        Ok(KeptChoices { spans, commands })
    }

    /// The choices of the state of a number, where they are known.
    pub(crate) fn choices_of(&self, number: Option<u32>) -> Option<(Listed, &[u32])>
        ensures { (job : Job) (states : List State) (state : State) → AreKept job states self.now
            → IfSome number (λ n. slice_get states n ≡ Some state)
            → IfSome result (λ known. AreKnownChoices job.chain state known.0.count known.0.size known.1.now) }
    {
        let Some(number) = number else {
            return None;
        };
        if number as usize >= self.spans.len() {
            return None;
        }
        let span = self.spans[number as usize];
        let listed = Listed {
            count: span.count as usize,
            size: span.size as usize,
        };
        let from = span.from as usize;
        let long = listed.count * listed.size;
        if listed.count == 0 || from > self.commands.len() || long > self.commands.len() - from {
            return None;
        }
        Some((listed, &self.commands[from..from + long]))
    }

    /// Keeps the choices of the state of a number, if there is room for them.
    pub(crate) fn keep(&mut self, number: u32, listed: Listed, chosen: &[u32])
        ensures { (job : Job) (states : List State) (state : State) → AreKept job states self.old
            → slice_get states number ≡ Some state
            → AreKnownChoices job.chain state listed.count listed.size chosen.now → AreKept job states self.new }
    {
        let from = self.commands.len();
        if number as usize >= self.spans.len()
            || listed.count > MOST_COMMANDS
            || listed.size > MOST_COMMANDS
            || chosen.len() > MOST_COMMANDS - from
        {
            return;
        }
        self.commands.extend_from_slice(chosen).unwrap();
        self.spans[number as usize] = Span {
            from: from as u32,
            count: listed.count as u32,
            size: listed.size as u32,
        };
    }
}
