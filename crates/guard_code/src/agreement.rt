//! Values that compiled expressions are to have.

use crate::compiling::node_of;
use crate::evaluation::value;
use crate::fixtures::{Piece, tree};
use crate::fronts::{stored_in, truth_in};
use crate::labels::NoLabels;
use chain_model::{TraceFault, Value};
use smc_num::Frac;
use std::alloc::{AllocError, Global};

/// A value or a fault.
#[derive(Clone, Copy)]
pub enum Gives {
    Truth(bool),
    Number(i64, i64),
    Fault(TraceFault),
}

pub const ZERO_DIVISOR: Gives = Gives::Fault(TraceFault::ZeroDivisor);

pub const OUT_OF_LIMIT: Gives = Gives::Fault(TraceFault::OutOfLimit);

pub const OUTSIDE: Gives = Gives::Fault(TraceFault::OutsideDomain);

/// The greatest whole number.
pub const MOST: i64 = 4_611_686_018_427_387_903;

/// An expression of two whole numbers and a truth value, their values, and what the expression gives.
pub type Row = (&'static [Piece], [i64; 3], Gives);

/// Whether a value is the one given.
pub fn is_given(found: Result<Value, TraceFault>, gives: Gives) -> bool {
    match gives {
        Gives::Truth(holds) => found == Ok(Value::Bool(holds)),
        Gives::Number(num, den) => match Frac::new(num, den) {
            Ok(number) => found == Ok(Value::Num(number)),
            Err(_) => false,
        },
        Gives::Fault(fault) => found == Err(fault),
    }
}

/// Whether all three ways to evaluate an expression agree with what it gives.
pub fn agrees(
    alloc: Global,
    pieces: &[Piece],
    state: &[i64],
    gives: Gives,
) -> Result<bool, AllocError> {
    let node = node_of(alloc, &tree(alloc, pieces)?)?;
    let truth = truth_in(&NoLabels, state, &node);
    let stored = stored_in(&NoLabels, state, &node);
    let agree = match gives {
        Gives::Truth(holds) => truth == Ok(holds) && stored == Ok(i64::from(holds)),
        Gives::Number(num, _) => stored == Ok(num),
        Gives::Fault(fault) => truth == Err(fault) && stored == Err(fault),
    };
    Ok(agree && is_given(value(&NoLabels, state, &node), gives))
}
