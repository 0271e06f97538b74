//! The names that stand in trees of the modelling language, and the first of a list with something to be told.
#![tactic(auto)]

mod expressions;
mod repeated;
#[cfg(test)]
mod tests;

pub use expressions::names;
pub use repeated::first_repeated;
