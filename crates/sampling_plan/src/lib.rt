//! Single sampling plans: how many traces are drawn at most, how many of them have to succeed, and
//! what the counts of successes and failures decide as the traces come in.
#![tactic(auto)]

mod class;
mod fault;
mod plan;

pub use class::Class;
pub use fault::PlanFault;
pub use plan::Plan;

#[cfg(test)]
mod tests;
