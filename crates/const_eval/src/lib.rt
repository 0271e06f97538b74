//! The constants of a model: what each stands for, or why the model is refused; sorts and values of trees whose names
//! stand for something.
#![tactic(auto)]

mod consts;
mod cycles;
mod evaluating;
mod fault;
mod givens;
mod laws;
mod listing;
mod refusals;
mod results;
mod sorting;
mod tables;
mod undefined;
mod unknown;
mod wrong_types;

pub use consts::{Constant, Consts};
pub use evaluating::value;
pub use fault::ConstFault;
pub use laws::{one_refusal, one_result, one_values, value_of_sort};
pub use refusals::constants;
pub use sorting::sort;
pub use tables::{declared_sort, function, operator};

#[cfg(test)]
mod tests;
