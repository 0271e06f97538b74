//! Parses models and expressions, and says why tokens are refused.
#![tactic(auto)]

mod expressions;
mod fault;
mod laws;
mod models;
mod places;
mod refusals;

pub use expressions::expression;
pub use fault::ParseFault;
pub use laws::{model_arrow_law, one_answer};
pub use models::model;
pub use places::place_of;
pub use refusals::{allow, refuse_chains};

#[cfg(test)]
mod tests;
