//! Single traces: what one trace of a job says of its path formula.
#![tactic(auto)]

mod judging;
mod kept;
mod known;
mod meeting;
mod pairs;
mod rows;
mod standing;
mod trace;
mod visits;
mod work;

pub use chain_model::Outcome;
pub use trace::outcome;
pub use work::TraceWork;

#[cfg(test)]
mod fixtures;
#[cfg(test)]
mod tests;
