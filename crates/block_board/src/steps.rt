//! The rule of the board's table, and what each kind of step tells the seat that makes it.
ghost use Rattle.std.specs.Prelude.{ℕ};
ghost use Rattle.block_board.specs.Steps.{opened, cut, given, merged, spent};
ghost use Rattle.block_board.specs.Told.{IsRaceOf, claim_tells, publish_tells, look_tells, lower_tells, stop_tells, next_tells};

use crate::view::{Size, View};
use atomic_table::{Join, Play, Split, TableRule};
use std::marker::{Brand, PhantomData};

/// The words and views of the table are those of a race.
pub struct BoardRule;

impl TableRule<(), View, Size> for BoardRule {
    ghost holds = { IsRaceOf };

    ghost first = { λ size. opened size.blocks size.workers };
}

/// The next number is taken and raised.
pub struct Claim;

impl Play<(), View> for Claim {
    ghost then = { claim_tells };
}

/// The code of a block is written.
pub struct Publish;

impl Play<(), View> for Publish {
    ghost then = { publish_tells };
}

/// The code of a block is read.
pub struct Look;

impl Play<(), View> for Look {
    ghost then = { look_tells };
}

/// The stop becomes the lesser of itself and a number.
pub struct Lower;

impl Play<(), View> for Lower {
    ghost then = { lower_tells };
}

/// The stop is read.
pub struct Stop;

impl Play<(), View> for Stop {
    ghost then = { stop_tells };
}

/// The next number is read.
pub struct Next;

impl Play<(), View> for Next {
    ghost then = { next_tells };
}

/// How many tickets are handed over.
pub trait Amount {
    ghost amount: { ℕ };
}

impl Amount for Brand {
    ghost amount = { 1 };
}

/// A seat hands over tickets to a new one.
pub struct Give<A: Amount> {
    of: PhantomData<A>,
}

impl<A: Amount> Split<View> for Give<A> {
    ghost left = { λ v. cut v A.amount };

    ghost right = { λ v. given v A.amount };
}

/// A seat takes another one in.
pub struct Unite;

impl Join<View> for Unite {
    ghost both = { merged };

    ghost spent = { spent };
}
