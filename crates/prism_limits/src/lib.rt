//! What a list of tokens may not have: words that are refused by name, nesting that is too deep, and chains of
//! arrows.
#![tactic(auto)]

mod arrows;
mod chains;
mod kinds;
mod laws;
mod nesting;
mod rewards;
mod spellings;
mod words;

pub use arrows::later_arrow;
pub use kinds::TextKind;
pub use laws::{arrow_law, one_first};
pub use nesting::too_deep;
pub use spellings::spelled;
pub use words::refused_word;

#[cfg(test)]
mod tests;
