//! The random draws of simulated traces, and how a draw picks one of several parts.
//!
//! Each trace has a numbered stream of its own, so its draws depend on the seed and its number alone, and not on which
//! traces were drawn before it nor on which thread draws it.
#![tactic(auto)]

mod bounds;
mod branch;
mod stream;

pub use bounds::draws_are_words;
pub use branch::{branch_interval_law, pick};
pub use stream::Draws;
