//! The top call: it does all that the program does, from words and files to what is written.
#![tactic(auto)]

mod answering;
mod asking;
mod checking;
mod expanding;
mod gate;
mod laws;
mod making;
mod prepare;
mod report;
mod status;
mod stopping;
mod top;
mod tracing;

pub use gate::{Gate, NoGate};
pub use laws::one_report;
pub use report::Report;
pub use status::Status;
pub use top::run;

#[cfg(test)]
mod tests;
