//! The report of one trace: its states, what each may do next, and what it takes.
#![tactic(auto)]

mod choice_lines;
mod ended;
mod laws;
mod numbers;
mod state_line;
mod step_lines;
mod taken_line;
mod tracing;

pub use ended::Ended;
pub use laws::states_are_those_of_a_job;
pub use tracing::trace_report;

#[cfg(test)]
mod fixtures;
#[cfg(test)]
mod tests;
