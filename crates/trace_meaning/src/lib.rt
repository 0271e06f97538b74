//! The plain meaning of a chain: values, choices and steps, computed from its trees.
#![tactic(auto)]

mod assignments;
mod branches;
mod combinations;
mod deadlock;
mod enabled;
mod fault;
mod groups;
mod guards;
mod labels;
mod listing;
mod step;
mod values;
mod weights;

pub use branches::drawn_branch;
pub use chain_model::{Choice, Taken};
pub use deadlock::eval;
pub use fault::StepFault;
pub use groups::{has_no_action, parts};
pub use listing::choices;
pub use step::{drawn_number, plain_step};
pub use weights::{add_up, as_weight, denominator, numerator};

#[cfg(test)]
mod depth_tests;
#[cfg(test)]
mod expected;
#[cfg(test)]
mod fixtures;
#[cfg(test)]
mod module_tests;
#[cfg(test)]
mod reading_tests;
#[cfg(test)]
mod step_tests;
#[cfg(test)]
mod value_tests;
