//! Graphs of what uses what: the first place that reaches itself, or an order in which each place stands after what it
//! uses.
#![tactic(auto)]

mod cycles;
mod laws;
mod ordering;
mod orders;
mod ranks;
mod searching;
#[cfg(test)]
mod tests;
mod visiting;
mod walk;

pub use laws::{first_cycle_law, order_law};
pub use ordering::order;
pub use orders::Order;
