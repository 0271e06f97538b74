//! Fast evaluation of a job's expressions.
#![tactic(auto)]

mod calculations;
mod calling;
mod calls;
mod chains;
mod code;
mod compiling;
mod counts;
mod evaluation;
mod fronts;
mod guards;
mod joining;
mod kinds;
mod labels;
mod nodes;
mod plain_tests;
mod results;
mod running;
mod shapes;
mod signs;
mod state_labels;
mod steps;
mod wholes;

pub use code::{Code, Command, compile};
pub use compiling::node_of;
pub use nodes::Node;
pub use plain_tests::Test;
pub use running::{Formula, Stack, formula_holds, run};
pub use steps::{assigned_number, guard_holds, weight_value};

#[cfg(test)]
mod agreement;
#[cfg(test)]
mod code_tests;
#[cfg(test)]
mod fixtures;
#[cfg(test)]
mod number_tests;
#[cfg(test)]
mod truth_tests;
