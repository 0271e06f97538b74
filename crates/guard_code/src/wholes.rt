//! Whole numbers within the limits.

ghost use Rattle.std.specs.Prelude.{◌≡◌, ◌+ℤ◌, ◌-ℤ◌, ◌*ℤ◌};
ghost use Rattle.guard_code.specs.Wholes.{limited, whole_result, chosen_whole, whole_remainder, compares};

use chain_model::{Func, Op, TraceFault};
use chain_values::as_fault;
use smc_num::modulo;

/// One more than the greatest whole number.
const LIMIT: i64 = 1 << 62;

/// A whole number, unless it is outside the limits.
#[inline(always)]
pub fn limited(number: i64) -> Result<i64, TraceFault>
    ensures { result ≡ limited number }
{
    if -LIMIT < number && number < LIMIT {
        Ok(number)
    } else {
        Err(TraceFault::OutOfLimit)
    }
}

/// A sum.
#[inline(always)]
pub fn sum(a: i64, b: i64) -> Result<i64, TraceFault>
    ensures { result ≡ limited (a +ℤ b) }
{
    match a.checked_add(b) {
        Some(number) => limited(number),
        None => Err(TraceFault::OutOfLimit),
    }
}

/// A difference.
#[inline(always)]
fn difference(a: i64, b: i64) -> Result<i64, TraceFault>
    ensures { result ≡ limited (a -ℤ b) }
{
    match a.checked_sub(b) {
        Some(number) => limited(number),
        None => Err(TraceFault::OutOfLimit),
    }
}

/// A product.
#[inline(always)]
fn product(a: i64, b: i64) -> Result<i64, TraceFault>
    ensures { result ≡ limited (a *ℤ b) }
{
    match a.checked_mul(b) {
        Some(number) => limited(number),
        None => Err(TraceFault::OutOfLimit),
    }
}

/// The sum, difference or product of two whole numbers.
#[inline(always)]
pub fn whole_result(op: Op, a: i64, b: i64) -> Result<i64, TraceFault>
    ensures { result ≡ whole_result op a b }
{
    match op {
        Op::Sub => difference(a, b),
        Op::Mul => product(a, b),
        _ => sum(a, b),
    }
}

/// The one of two whole numbers that `max` chooses, or `min`.
#[inline(always)]
pub fn chosen_whole(func: Func, a: i64, b: i64) -> i64
    ensures { result ≡ chosen_whole func a b }
{
    match func {
        Func::Max => { if a < b { b } else { a } }
        _ => { if b < a { b } else { a } }
    }
}

/// The remainder of two whole numbers.
#[inline(always)]
pub fn whole_remainder(number: i64, divisor: i64) -> Result<i64, TraceFault>
    ensures { result ≡ whole_remainder number divisor }
{
    match modulo(number, divisor) {
        Ok(rest) => Ok(rest),
        Err(fault) => Err(as_fault(fault)),
    }
}

/// How two whole numbers compare.
#[inline(always)]
pub fn compares(op: Op, a: i64, b: i64) -> bool
    ensures { result ≡ compares op a b }
{
    match op {
        Op::Eq => a == b,
        Op::Ne => a != b,
        Op::Lt => a < b,
        Op::Le => a <= b,
        Op::Gt => a > b,
        Op::Ge => a >= b,
        _ => false,
    }
}
