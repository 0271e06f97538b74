//! Monitors of path formulas: they are shown the pairs of truth values of a trace's states, one after the other, and
//! tell as soon as the pairs settle the formula.
#![tactic(auto)]

mod laws;
mod masks;
mod monitor;
mod step;

pub use laws::open_law;
pub use masks::MaskMonitor;
pub use monitor::Monitor;
pub use step::Step;

#[cfg(test)]
mod tests;
