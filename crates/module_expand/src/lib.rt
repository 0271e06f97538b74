//! Models in which formulas and renamed modules are written out.
#![tactic(auto)]

mod copies;
mod cycles;
mod declarations;
mod expanding;
mod fault;
mod flattening;
mod formulas;
mod laws;
mod left_out;
mod modules;
mod pairs;
mod properties;
mod renamings;
mod repeated;
mod sizes;
mod sources;
mod tables;
mod totals;
mod variable_names;

pub use expanding::expand;
pub use fault::ExpandFault;
pub use laws::{one_expansion, one_flat, one_refusal};
pub use properties::in_property;

#[cfg(test)]
mod tests;
