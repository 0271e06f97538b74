//! Parses expressions: the longest text of a level of their grammar, with its tree, or a text up to a token that ends it.
#![tactic(auto)]

mod calls;
mod chains;
mod conditionals;
mod laws;
mod longest;
mod parsing;
mod primaries;
mod signs;
mod trees;

pub use laws::{begins_exactly, one_tree};
pub use longest::Longest;
pub use parsing::{expression_until, parse_longest};

#[cfg(test)]
mod tests;
