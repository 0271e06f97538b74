//! When a run of traces ends. The outcomes of the traces are admitted one by one, in the order of the
//! traces' numbers, and observers see each that was admitted.
#![tactic(auto)]

mod admit;
mod batches;
mod code;
mod end;
mod goal;
mod laws;
mod line;
mod longest_run;
mod observer;
mod recorder;
mod seat;
mod tally;

pub use admit::Admit;
pub use batches::Batches;
pub use end::{Cause, End};
pub use goal::{Goal, Rule};
pub use laws::{
    Outcomes, block_law, block_law_of, code_law, one_end, one_end_of, one_observation, one_run,
    one_run_of, seat_law,
};
pub use line::Line;
pub use longest_run::LongestRun;
pub use observer::{Observer, Stay};
pub use recorder::Recorder;
pub use tally::Tally;

#[cfg(test)]
mod tests;
