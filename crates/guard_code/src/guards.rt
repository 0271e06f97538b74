//! Whether a state has a choice, by the guards of all commands.

ghost use Rattle.std.specs.Prelude.{◌≡◌, ◌&&◌, ◌==◌, true, false, map};
ghost use Rattle.std.specs.List.{list_any, list_all, enumerate_from};
ghost use Rattle.std.specs.Option.{option_map_or};
ghost use Rattle.guard_code.specs.Guards.{told_command, holds, guards_fault, is_single, is_part_of, some_enabled, is_possible, is_stuck, stuck_result};

use crate::code::Command;
use crate::fronts::truth_in;
use crate::labels::NoLabels;
use chain_model::TraceFault;
use sqlite_items::Items;

/// Whether a command's guard holds; one that faults does not.
fn is_enabled(state: &[i64], command: &Command) -> bool
    ensures { result ≡ holds (told_command state.now command.now).guard }
{
    match truth_in(&NoLabels, state, &command.guard) {
        Ok(holds) => holds,
        Err(_) => false,
    }
}

/// The fault of the first guard that faults.
fn guards_fault(state: &[i64], commands: &[Command]) -> Result<(), TraceFault>
    ensures { result ≡ guards_fault (map (told_command state.now) commands.now) }
{
    for command in commands {
        match truth_in(&NoLabels, state, &command.guard) {
            Ok(_) => {}
            Err(fault) => return Err(fault),
        }
    }
    Ok(())
}

/// Whether a command has no action.
fn is_single(command: &Command) -> bool
    ensures { result ≡ option_map_or (λ action. false) command.now.action true }
{
    command.action.is_none()
}

/// Whether a command is one of its module with an action.
fn is_part_of(action: usize, owner: u32, command: &Command) -> bool
    ensures { result ≡ (option_map_or (λ a. a == action) command.now.action false && command.now.module == owner) }
{
    match command.action {
        Some(number) => number as usize == action && command.module == owner,
        None => false,
    }
}

/// Whether a command has no action and is enabled.
fn is_enabled_single(state: &[i64], command: &Command) -> bool
    ensures { result ≡ (is_single (told_command state.now command.now) && holds (told_command state.now command.now).guard) }
{
    is_single(command) && is_enabled(state, command)
}

/// Whether a command is one of its module with an action, and is enabled.
fn is_enabled_part(action: usize, owner: u32, state: &[i64], command: &Command) -> bool
    ensures { result ≡ (is_part_of action owner (told_command state.now command.now) && holds (told_command state.now command.now).guard) }
{
    is_part_of(action, owner, command) && is_enabled(state, command)
}

/// Whether some command without an action is enabled.
fn some_single(state: &[i64], commands: &[Command]) -> bool
    ensures { result ≡ some_enabled is_single (map (told_command state.now) commands.now) }
{
    for command in commands {
        if is_enabled_single(state, command) {
            return true;
        }
    }
    false
}

/// Whether a module has an enabled command with an action.
fn some_part(action: usize, owner: u32, state: &[i64], commands: &[Command]) -> bool
    ensures { result ≡ some_enabled (is_part_of action owner) (map (told_command state.now) commands.now) }
{
    for command in commands {
        if is_enabled_part(action, owner, state, command) {
            return true;
        }
    }
    false
}

/// Whether each of the modules has an enabled command with an action.
fn all_parts(action: usize, modules: &[u32], state: &[i64], commands: &[Command]) -> bool
    ensures { result ≡ list_all (λ owner. some_enabled (is_part_of action owner) (map (told_command state.now) commands.now)) modules.now }
{
    for owner in modules {
        let there = some_part(action, *owner, state, commands);
        if !there {
            return false;
        }
    }
    true
}

/// Whether some action is possible.
fn some_action(takes: &[Items<u32>], state: &[i64], commands: &[Command]) -> bool
    ensures { result ≡ list_any (is_possible (map (told_command state.now) commands.now)) (enumerate_from 0 takes.now) }
{
    for (number, modules) in takes.iter().enumerate() {
        if all_parts(number, modules.as_slice(), state, commands) {
            return true;
        }
    }
    false
}

/// Whether a state has no choice, or the fault of the first guard that faults.
pub fn is_stuck(
    takes: &[Items<u32>],
    state: &[i64],
    commands: &[Command],
) -> Result<bool, TraceFault>
    ensures { result ≡ stuck_result (map (told_command state.now) commands.now) takes.now }
{
    match guards_fault(state, commands) {
        Ok(()) => Ok(!some_single(state, commands) && !some_action(takes, state, commands)),
        Err(fault) => Err(fault),
    }
}
