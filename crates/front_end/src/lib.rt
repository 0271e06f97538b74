//! What the texts of a model and of a property say, from bytes to a chain and to a path formula over it; or the reason to
//! refuse them, which is that of the first stage that does.
#![tactic(auto)]

mod laws;
mod models;
mod properties;
mod stages;
mod stop;

pub use laws::{one_flat_law, one_model_law, one_property_law};
pub use models::{Model, read_flat, read_model};
pub use properties::read_property;
pub use stop::Stop;

#[cfg(test)]
mod tests;
