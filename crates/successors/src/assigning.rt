//! The assignments of a choice's branches, made in a state. Where one faults, the state stays as it is.

ghost use Rattle.std.specs.Prelude.{◌≡◌, [], ◌∷◌, OnErr, length};
ghost use Rattle.chain_model.specs.Step.{all_sets};
ghost use Rattle.guard_code.specs.Tests.{IsSmall};
ghost use Rattle.trace_meaning.specs.Assigning.{assigned_to, Writes};
ghost use Rattle.successors.specs.Sides.{assigned_sides};
ghost use Rattle.successors.specs.Commands.{AreCommands};

use crate::commands::Command;
use crate::sides::{Side, assign, assigned, write};
use crate::taking::{assign_all, sides_taken};
use chain_model::{Chain, TraceFault};

/// Makes the assignment of one right side.
#[inline(always)]
fn assign_one(side: &Side, state: &mut [i64]) -> Result<(), TraceFault>
    ensures value { Writes result state.new (assigned_sides state.old state.old (side.now ∷ [])) }
    ensures stays { OnErr result (state.new ≡ state.old) }
{
    match assigned(side, state) {
        Ok((variable, value)) => {
            write(state, variable, value);
            Ok(())
        }
        Err(fault) => Err(fault),
    }
}

/// Makes the assignments of right sides.
#[inline(always)]
fn assign_each(sides: &[Side], copy: &mut [i64], state: &mut [i64]) -> Result<(), TraceFault>
    requires { length copy.old ≡ length state.old }
    ensures value { Writes result state.new (assigned_sides state.old state.old sides.now) }
    ensures stays { OnErr result (state.new ≡ state.old) }
{
    match sides {
        [] => Ok(()),
        [side] => assign_one(side, state),
        _ => {
            copy.copy_from_slice(state);
            match assign(sides, state, copy) {
                Ok(()) => {}
                Err(fault) => return Err(fault),
            }
            state.copy_from_slice(copy);
            Ok(())
        }
    }
}

/// Makes the assignments of the commands' branches.
#[inline(always)]
pub fn assign_choice(
    chain: &Chain,
    commands: &[Command],
    chosen: &[u32],
    branches: &[usize],
    next: &mut [i64],
    state: &mut [i64],
) -> Result<(), TraceFault>
    requires commands { AreCommands chain.now commands.now }
    requires small { IsSmall state.old }
    requires long { length branches.now ≡ length chosen.now }
    requires next { length next.old ≡ length state.old }
    ensures value { Writes result state.new
        (assigned_to chain.now state.old state.old (all_sets chain.now chosen.now branches.now)) }
    ensures stays { OnErr result (state.new ≡ state.old) }
{
    if let [command] = chosen {
        let sides = sides_taken(chain, commands, *command, branches[0]);
        return assign_each(sides, next, state);
    }
    next.copy_from_slice(state);
    match assign_all(chain, commands, chosen, branches, state, next) {
        Ok(()) => {}
        Err(fault) => return Err(fault),
    }
    state.copy_from_slice(next);
    Ok(())
}
