//! The values of a property's bound and time.

ghost use Rattle.std.specs.Prelude.{◌≡◌, ◌≤◌, ◌⊎◌, ◌-ℤ◌, ℕ, pos, if◌then◌else◌, IfOk, IfErr, OnOk, IfSome, IfNone, Ok, None};
ghost use Rattle.chain_model.specs.Limits.{most_horizon};
ghost use Rattle.typed_trees.specs.Numbers.{constant_value};
ghost use Rattle.typecheck.specs.declared.fault.TypeFault.{TypeFault};
ghost use Rattle.typecheck.specs.Refusals.{Tells, IsTold, IsOutOfMemory};
ghost use Rattle.typecheck.specs.Formulas.{last_of};
ghost use Rattle.typecheck.specs.Numbers.{fault_of, number_fault};
ghost use Rattle.typecheck.specs.Paths.{HasHorizon, HasKind};
ghost use Rattle.typecheck.specs.PathRefusals.{time_fault, HasNoHorizon};

use crate::fault::{Item, TypeFault};
use crate::numbers::{number_fault, stored};
use chain_model::limits::MOST_HORIZON;
use chain_model::{PathKind, Value};
use const_eval::Consts;
use prism_syntax::{Expr, PathText, Time};
use std::alloc::Global;
use typed_trees::constant_value;

/// The value of an expression of constants in a property.
pub fn number_in(alloc: Global, consts: &Consts, expr: &Expr) -> Result<Value, TypeFault>
    ensures value { IfOk result (λ value. constant_value consts.now expr.now ≡ Ok value) }
    ensures told { IfErr result (λ fault. IsOutOfMemory fault
        ⊎ IsTold (fault_of (constant_value consts.now expr.now)) (λ found f. f ≡ TypeFault.BadNumber Item.Property (number_fault found)) fault) }
{
    match constant_value(alloc, consts, expr).map_err(TypeFault::OutOfMemory)? {
        Ok(value) => Ok(value),
        Err(fault) => Err(TypeFault::BadNumber {
            item: Item::Property,
            fault: number_fault(fault),
        }),
    }
}

/// The kind of a path formula with its horizon.
pub fn path_kind(alloc: Global, consts: &Consts, path: &PathText) -> Result<PathKind, TypeFault>
    ensures kind { IfOk result (λ kind. HasKind (constant_value consts.now) path.now kind) }
    ensures valued { OnOk result (time_fault (constant_value consts.now) path.now ≡ None) }
    ensures told { IfErr result (λ fault. IsOutOfMemory fault
        ⊎ Tells (time_fault (constant_value consts.now) path.now) (λ found f. f ≡ TypeFault.BadNumber Item.Property (number_fault found))
        (λ f. (f ≡ TypeFault.BadHorizon) × HasNoHorizon (constant_value consts.now) path.now) fault) }
{
    match path {
        PathText::Next(_) => Ok(PathKind::Next),
        PathText::Finally(time, _) => Ok(PathKind::Finally(horizon(alloc, consts, time)?)),
        PathText::Globally(time, _) => Ok(PathKind::Globally(horizon(alloc, consts, time)?)),
        PathText::Until(_, time, _) => Ok(PathKind::Until(horizon(alloc, consts, time)?)),
    }
}

/// The number of the last state that a time allows.
fn horizon(alloc: Global, consts: &Consts, time: &Time) -> Result<u32, TypeFault>
    ensures last { IfOk result (λ last. HasHorizon (constant_value consts.now) time.now last) }
    ensures valued { OnOk result (fault_of (constant_value consts.now (last_of time.now)) ≡ None) }
    ensures told { IfErr result (λ fault. IsOutOfMemory fault
        ⊎ Tells (fault_of (constant_value consts.now (last_of time.now))) (λ found f. f ≡ TypeFault.BadNumber Item.Property (number_fault found))
        (λ f. (f ≡ TypeFault.BadHorizon) × ((last : ℕ) → ¬ HasHorizon (constant_value consts.now) time.now last)) fault) }
{
    let Time::Upto { strict, last } = time;
    let value = number_in(alloc, consts, last)?;
    match last_state(stored(&value), *strict) {
        Some(state) => Ok(state),
        None => Err(TypeFault::BadHorizon),
    }
}

/// The number of the last state up to an end, which a strict bound lowers by one.
fn last_state(end: i64, strict: bool) -> Option<u32>
    ensures some { IfSome result (λ last. (end -ℤ pos (if strict then 1 else 0) ≡ pos last) × (last ≤ most_horizon)) }
    ensures none { IfNone result ((last : ℕ) → ¬ ((end -ℤ pos (if strict then 1 else 0) ≡ pos last) × (last ≤ most_horizon))) }
{
    let lowered: i64 = if strict { 1 } else { 0 };
    if end < lowered || end - lowered > i64::from(MOST_HORIZON) {
        None
    } else {
        Some((end - lowered) as u32)
    }
}
