use crate::outcome::TraceFault;
use smc_num::Frac;

/// A sort of the language.
#[derive(Clone, Copy, Debug, PartialEq, Eq)]
pub enum Sort {
    Int,
    Double,
    Bool,
}

/// A value: a truth value or an exact number.
#[derive(Clone, Copy, Debug, PartialEq, Eq)]
pub enum Value {
    Bool(bool),
    Num(Frac),
}

/// What the two built-in labels say of a state: `"init"`, whether it is the initial one, and `"deadlock"`, whether it
/// has no choice, or the fault of the first guard that faults in it.
#[derive(Clone, Copy, Debug, PartialEq, Eq)]
pub struct LabelValues {
    pub init: bool,
    pub deadlock: Result<bool, TraceFault>,
}
