//! What the operators and functions of the language give for values.
//!
//! Each call is the definition of its name in `chain_model`'s `specs/Values`.
#![tactic(auto)]

mod comparisons;
mod numbers;
mod operators;

pub use comparisons::{are_same, greater, is_above, is_below, lesser, truth};
pub use numbers::{
    arithmetic, as_fault, as_value, ceil_value, floor_value, opposite, power, remainder,
    variable_value, whole_value,
};
pub use operators::{both_result, left_result};

#[cfg(test)]
mod tests;
