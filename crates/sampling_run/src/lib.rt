//! Whole runs: the traces of a job are drawn one by one, in numeric order, up to the one that ends the run, and
//! observers see those that are admitted.
#![tactic(auto)]

mod codes;
mod drawing;

pub use drawing::{Drawn, draw};
pub use stop_rules::Line;

#[cfg(test)]
mod tests;
