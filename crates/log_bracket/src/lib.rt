//! Whole-number brackets of logarithms to base 2, certified by powers of whole numbers.
#![tactic(auto)]

mod bounds;
mod scaled;

pub use bounds::bracket;

#[cfg(test)]
mod tests;
