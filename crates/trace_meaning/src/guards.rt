//! Which commands are enabled, without writing them.

ghost use Rattle.std.specs.Prelude.{◌≡◌, ◌&&◌, not};
ghost use Rattle.std.specs.List.{list_any, list_all};
ghost use Rattle.chain_model.specs.Chain.{is_part, is_unlabelled};
ghost use Rattle.chain_model.specs.Choices.{value_in};
ghost use Rattle.trace_meaning.specs.Guards.{is_enabled, guards_fault, some_enabled};

use crate::labels::NoLabels;
use crate::values::value_with;
use chain_model::{Act, TraceFault, Typed, Value};
use chain_values::truth;

/// The value of a guard, a weight or a right side.
pub fn value_in(state: &[i64], expr: &Typed) -> Result<Value, TraceFault>
    ensures { result ≡ value_in state.now expr.now }
{
    value_with(&NoLabels, state, expr)
}

/// Whether a command's guard holds; one that faults does not.
pub fn is_enabled(state: &[i64], act: &Act) -> bool
    ensures { result ≡ is_enabled state.now act.now }
{
    match value_in(state, &act.guard) {
        Ok(value) => truth(&value),
        Err(_) => false,
    }
}

/// The fault of the first guard that faults.
pub fn guards_fault(state: &[i64], acts: &[Act]) -> Result<(), TraceFault>
    ensures { result ≡ guards_fault state.now acts.now }
{
    for act in acts {
        match value_in(state, &act.guard) {
            Ok(_) => {}
            Err(fault) => return Err(fault),
        }
    }
    Ok(())
}

/// Whether a command has no action.
pub fn is_unlabelled(act: &Act) -> bool
    ensures { result ≡ is_unlabelled act.now }
{
    act.action.is_none()
}

/// Whether a command is one of its module with an action.
pub fn is_part(action: usize, owner: u32, act: &Act) -> bool
    ensures { result ≡ is_part action owner act.now }
{
    match act.action {
        Some(number) => number as usize == action && act.module == owner,
        None => false,
    }
}

/// Whether a command without an action is enabled.
pub fn some_single(state: &[i64], acts: &[Act]) -> bool
    ensures { result ≡ some_enabled is_unlabelled state.now acts.now }
{
    for act in acts {
        if is_unlabelled(act) && is_enabled(state, act) {
            return true;
        }
    }
    false
}

/// Whether a module has an enabled command with an action.
pub fn some_part(action: usize, owner: u32, state: &[i64], acts: &[Act]) -> bool
    ensures { result ≡ some_enabled (is_part action owner) state.now acts.now }
{
    for act in acts {
        if is_part(action, owner, act) && is_enabled(state, act) {
            return true;
        }
    }
    false
}
