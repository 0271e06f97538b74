//! Steps of a trace, fast: choices are counted and found by the commands' numbers, and no step takes memory.
#![tactic(auto)]

mod assigning;
mod branching;
mod choosing;
mod commands;
mod counting;
mod decoding;
mod first;
mod fixed;
mod found;
mod guards;
mod known;
mod lanes;
mod listing;
mod moving;
mod next;
mod partition;
mod plain;
mod plan;
mod sides;
mod stepper;
mod taking;
mod telling;
mod weighing;

pub use listing::Listed;
pub use moving::Moved;
pub use next::Next;
pub use stepper::Stepper;

#[cfg(test)]
mod choice_tests;
#[cfg(test)]
mod fixtures;
#[cfg(test)]
mod telling_tests;
#[cfg(test)]
mod tests;
