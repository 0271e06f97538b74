//! Wald's sequential probability ratio test: whether the probability of success is at least `theta`,
//! decided from the counts of successes and failures as they come in.
#![tactic(auto)]

mod factor;
mod laws;
mod likelihood;
mod settings;
mod sums;
mod terms;
mod wald;

pub use laws::{least_terms_law, one_boundary_law};
pub use wald::Wald;

#[cfg(test)]
mod tests;
