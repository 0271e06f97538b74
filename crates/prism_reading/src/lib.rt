//! What every reader of the language stands on: single tokens, and what parsing by a rule tells.
#![tactic(auto)]

mod kinds;
mod mismatch;
mod terminals;

pub use mismatch::Mismatch;
pub use terminals::{accept, expect, name, quoted};
