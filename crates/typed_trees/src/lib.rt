//! Typed trees of expressions: what their names stand for, and each node's sort by the table of forms.
#![tactic(auto)]

mod copying;
mod laws;
mod nodes;
mod numbers;
mod scopes;
mod sorts;
mod tables;
#[cfg(test)]
mod tests;
mod trees;

pub use copying::copy_tree;
pub use laws::trees_are_well_typed;
pub use numbers::constant_value;
pub use scopes::{Scope, literal, stands};
pub use tables::add_tree;
pub use trees::type_tree;
