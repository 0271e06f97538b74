//! The texts that the program writes: reports of runs, lines of refusals, causes of faults, and the list of commands.
#![tactic(auto)]

mod asked;
mod causes;
mod commands;
mod family_numbers;
mod family_texts;
mod laws;
mod numbers;
mod parts;
mod reason;
mod refusal_line;
mod refused;
mod row_numbers;
mod run_report;
mod settings_texts;
mod statuses;
mod type_texts;

pub use causes::cause;
pub use commands::help_line;
pub use laws::status_law;
pub use reason::{Reason, Subject};
pub use refusal_line::refusal;
pub use refused::Refusal;
pub use run_report::report;
pub use stop_rules::Line;

#[cfg(test)]
mod tests;
