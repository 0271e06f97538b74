//! The printed form of flat texts.
#![tactic(auto)]

mod commands;
mod expressions;
mod laws;
mod lines;
mod numbers;
mod printing;

pub use laws::{reading_back, short_chains};
pub use printing::print;

#[cfg(test)]
mod tests;
