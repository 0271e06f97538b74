//! Parses properties, and says why tokens are refused.
#![tactic(auto)]

mod grammar;
mod laws;
mod paths;
mod properties;
mod times;

pub use laws::{begins_property, one_answer, one_property, property_arrow_law};
pub use properties::property;

#[cfg(test)]
mod tests;
