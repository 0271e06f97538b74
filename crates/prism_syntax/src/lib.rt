//! Tokens and trees of the modelling language, and its grammar.
#![tactic(auto)]

mod calls;
mod commands;
mod copying;
mod expressions;
mod labels;
mod laws;
mod models;
mod node_count;
mod operators;
mod paren_depth;
mod precedence;
mod properties;
mod replacing;
mod spellings;
mod symbols;
mod tokens;
mod words;

pub use calls::{function, takes};
pub use commands::{Branch, Command};
pub use expressions::{Expr, Func, Op};
pub use labels::Labels;
pub use laws::{function_law, operator_law};
pub use models::{ConstText, FlatText, Item, ModelText, Module, Named, SortWord, Variable};
pub use node_count::nodes;
pub use paren_depth::depth_of_parens;
pub use precedence::Precedence;
pub use properties::{Cmp, PathText, Property, Time};
pub use spellings::{is_refused, spelling};
pub use symbols::symbol;
pub use tokens::{Kind, Token};
pub use words::word;

#[cfg(test)]
mod tests;
