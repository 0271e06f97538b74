//! The board that racing workers share: numbers to claim, codes to publish, and a stop that only falls.
#![tactic(auto)]

mod board;
mod laws;
mod seat;
mod steps;
mod view;

pub use board::Board;
pub use laws::{rule_law, seat_law};
pub use seat::Seat;
pub use view::View;

#[cfg(test)]
mod tests;
