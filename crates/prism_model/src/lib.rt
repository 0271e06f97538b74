//! Parses models: their items, down to the assignments of a command's branch.
#![tactic(auto)]

mod branches;
mod commands;
mod constants;
mod formulas;
mod items;
mod laws;
mod modules;
mod optional;
mod parsing;
mod renamings;
mod rewards;
mod updates;
mod variables;

pub use laws::{begins_model, one_model};
pub use parsing::parse;
