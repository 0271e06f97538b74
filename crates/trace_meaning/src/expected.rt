//! What the tables of the tests say that expressions give.

use super::*;
use crate::fixtures::chain;
use chain_model::{TraceFault, Typed, Value};
use smc_num::Frac;
use std::alloc::{AllocError, Global};

/// A value or a fault.
#[derive(Clone, Copy)]
pub enum Gives {
    Truth(bool),
    Number(i64, i64),
    Fault(TraceFault),
}

/// The value or the fault of a row.
pub fn given(gives: &Gives) -> Result<Value, TraceFault> {
    match gives {
        Gives::Truth(holds) => Ok(Value::Bool(*holds)),
        Gives::Number(num, den) => match Frac::new(*num, *den) {
            Ok(number) => Ok(Value::Num(number)),
            Err(_) => Err(TraceFault::Choices),
        },
        Gives::Fault(fault) => Err(*fault),
    }
}

pub const ZERO_DIVISOR: Gives = Gives::Fault(TraceFault::ZeroDivisor);

/// What an expression gives in a state of the chain of two variables without a command.
pub fn value_in(
    alloc: Global,
    tree: &Typed,
    state: [i64; 2],
) -> Result<Option<Result<Value, TraceFault>>, AllocError> {
    match chain(alloc, 2, &[], &[])? {
        Some(chain) => Ok(Some(eval(tree, &chain, state.as_slice()))),
        None => Ok(None),
    }
}
