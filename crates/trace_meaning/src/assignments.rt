//! The assignments of the branches that are taken. All right sides are evaluated in the old state.

ghost use Rattle.std.specs.Prelude.{◌≡◌, slice_get, slice_set};
ghost use Rattle.chain_model.specs.Step.{stored, is_within, assignment_of, sets_of, all_sets};
ghost use Rattle.trace_meaning.specs.Assigning.{assigned_to, Writes};

use crate::branches::arms_of;
use crate::guards::value_in;
use chain_model::{Chain, TraceFault, Typed, Value, Var};

/// How a value stands in a state.
fn stored(value: &Value) -> i64
    ensures { result ≡ stored value.now }
{
    match value {
        Value::Bool(holds) => i64::from(*holds),
        Value::Num(number) => number.num(),
    }
}

/// Whether a value is within the range of the variable of a number.
fn is_within(vars: &[Var], number: u32, value: i64) -> bool
    ensures { result ≡ is_within (slice_get vars.now number) value }
{
    match vars.get(number as usize) {
        Some(var) => var.lo <= value && value <= var.hi,
        None => false,
    }
}

/// What an assignment assigns: a variable's number and a value within its range.
#[tactic(auto, unfolding(chain_model::specs::Step::assignment_of))]
fn assignment(chain: &Chain, state: &[i64], set: &(u32, Typed)) -> Result<(u32, i64), TraceFault>
    ensures { result ≡ assignment_of chain.now state.now set.now }
{
    let value = match value_in(state, &set.1) {
        Ok(value) => stored(&value),
        Err(fault) => return Err(fault),
    };
    if is_within(chain.vars.as_slice(), set.0, value) {
        Ok((set.0, value))
    } else {
        Err(TraceFault::Range { var: set.0 })
    }
}

/// Writes a value of a variable.
fn write(copy: &mut [i64], number: u32, value: i64)
    ensures { copy.new ≡ slice_set copy.old number value }
{
    if (number as usize) < copy.len() {
        copy[number as usize] = value;
    }
}

/// Makes assignments in a copy of the old state.
fn assign(
    chain: &Chain,
    state: &[i64],
    sets: &[(u32, Typed)],
    copy: &mut [i64],
) -> Result<(), TraceFault>
    ensures { Writes result copy.new (assigned_to chain.now state.now copy.old sets.now) }
{
    for set in sets {
        match assignment(chain, state, set) {
            Ok((number, value)) => write(copy, number, value),
            Err(fault) => return Err(fault),
        }
    }
    Ok(())
}

/// The assignments of a command's branch.
fn sets_of(chain: &Chain, command: u32, branch: u32) -> &[(u32, Typed)]
    ensures { result.now ≡ sets_of chain.now command branch }
{
    match arms_of(chain, command).get(branch as usize) {
        Some(arm) => arm.sets.as_slice(),
        None => &[],
    }
}

/// Makes the assignments of the commands' branches in a copy of the old state.
pub fn assign_all(
    chain: &Chain,
    state: &[i64],
    commands: &[u32],
    branches: &[u32],
    copy: &mut [i64],
) -> Result<(), TraceFault>
    ensures { Writes result copy.new (assigned_to chain.now state.now copy.old (all_sets chain.now commands.now branches.now)) }
{
    for (index, command) in commands.iter().enumerate() {
        if index < branches.len() {
            match assign(
                chain,
                state,
                sets_of(chain, *command, branches[index]),
                copy,
            ) {
                Ok(()) => {}
                Err(fault) => return Err(fault),
            }
        }
    }
    Ok(())
}
