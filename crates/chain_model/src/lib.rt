//! The typed chain that traces are drawn of, and what its values, choices, steps, traces and outcomes are.
//!
//! The types are plain data. What they mean stands in `specs/`, in reading order in `specs/Lib.antt`; the laws of
//! those definitions are the public functions of `laws`.
#![tactic(auto)]

mod building;
mod chain;
mod constants;
mod expressions;
mod job;
mod laws;
pub mod limits;
mod outcome;
mod sorts;
mod starting;
mod steps;
mod typing;
mod values;

pub use chain::{Act, Action, Arm, Chain, Var};
pub use constants::Given;
pub use expressions::{Form, Func, Labels, Op, Typed};
pub use job::{Claim, Job, Path, PathKind};
pub use laws::{
    branch_holds_the_pick, choices_are_all_in_order, one_outcome, stays_without_choice,
    step_keeps_ranges, steps_draw_few, traces_keep_ranges,
};
pub use outcome::{Outcome, TraceFault};
pub use sorts::{
    common_sort, conditional_sort, is_number, is_of_sort, may_follow, negation_sort, number_sort,
    opposite_sort, power_sort, remainder_sort, result_sort, rounded_sort,
};
pub use starting::initial;
pub use steps::{Choice, Taken};
pub use typing::sort_of;
pub use values::{LabelValues, Sort, Value};

#[cfg(test)]
mod chain_tests;
#[cfg(test)]
mod job_tests;
#[cfg(test)]
mod parts;
#[cfg(test)]
mod tests;
