//! Reads the words of the command line.
#![tactic(auto)]

mod argument;
mod check;
mod commands;
mod constants;
mod expand;
mod laws;
mod make;
mod numbers;
mod options;
mod parsing;
mod reading;
mod trace;
mod usage;

pub use argument::Argument;
pub use commands::{Settings, TestWords};
pub use laws::one_settings;
pub use reading::settings;
pub use usage::Usage;

#[cfg(test)]
mod tests;
