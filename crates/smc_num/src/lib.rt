//! Exact numbers: fractions in lowest terms within fixed limits, and short byte texts.
#![tactic(auto)]

mod euclid;
mod fault;
mod fraction;
mod laws;
mod remainders;
mod texts;

pub use euclid::gcd;
pub use fault::{NumFault, ReadNum};
pub use fraction::{Frac, ceil, common, floor, read};
pub use laws::{gcd_law, lcm_law, lowest_law, wide_law};
pub use remainders::modulo;
pub use texts::Text;

#[cfg(test)]
mod tests;
