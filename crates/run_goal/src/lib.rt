//! The goal of a run: what the claim of a property and the settings of a test make together, or the first of their
//! faults.
#![tactic(auto)]

mod fault;
mod making;
mod probability;
mod wald;

pub use fault::SettingsFault;
pub use making::goal;

#[cfg(test)]
mod tests;
