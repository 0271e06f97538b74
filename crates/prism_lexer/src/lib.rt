//! Cuts texts into tokens.
#![tactic(auto)]

mod blanks;
mod cut;
mod fault;
mod kinds;
mod laws;
mod lexeme;
mod numbers;
mod scanning;

pub use cut::tokens;
pub use fault::LexFault;
pub use laws::{one_cut, one_outcome};

#[cfg(test)]
mod tests;
