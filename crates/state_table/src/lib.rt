//! States that were met, each by its number.
#![tactic(auto)]

mod room;
mod slots;
mod table;
mod words;

pub use table::StateTable;

#[cfg(test)]
mod tests;
