//! What the texts of models and properties say, typed: the chain of a flat model, and the path formula of a property
//! with its claim. Or why a text is refused.
#![tactic(auto)]

mod actions;
mod checks;
mod commands;
mod declarations;
mod fault;
mod fitting;
mod formulas;
mod horizons;
mod known;
mod labels;
mod laws;
mod listing;
mod model_tables;
mod numbers;
mod owners;
mod pairs;
mod parts;
mod paths;
mod quoted;
mod ranges;
mod refusals;
mod sizes;
mod tables;
mod unfit;
mod unfit_model;
mod uses;
mod variables;
mod writes;

pub use checks::check;
pub use fault::{Item, TypeFault};
pub use laws::{one_chain, one_model_refusal, one_path, one_property_refusal};
pub use paths::path;

#[cfg(test)]
mod tests;
