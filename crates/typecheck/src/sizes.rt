//! Whether a flat model is within the limits.

ghost use Rattle.std.specs.Prelude.{◌≡◌, ◌||◌, length, nat_lt};
ghost use Rattle.std.specs.List.{list_any};
ghost use Rattle.chain_model.specs.Limits.{most_modules, most_variables, most_commands, most_branches};

use chain_model::limits::{MOST_BRANCHES, MOST_COMMANDS, MOST_MODULES, MOST_VARIABLES};
use prism_syntax::Command;

/// Whether there are more modules, variables, commands, or branches of a command than the limits allow.
pub fn are_too_many(modules: usize, variables: usize, commands: &[(usize, &Command)]) -> bool
    ensures { result ≡ (nat_lt most_modules modules || (nat_lt most_variables variables || (nat_lt most_commands (length commands.now)
        || list_any (λ c. nat_lt most_branches (length c.1.now.branches)) commands.now))) }
{
    modules > MOST_MODULES
        || variables > MOST_VARIABLES
        || commands.len() > MOST_COMMANDS
        || has_wide_command(commands)
}

/// Whether a command has more branches than the limits allow.
fn has_wide_command(commands: &[(usize, &Command)]) -> bool
    ensures { result ≡ list_any (λ c. nat_lt most_branches (length c.1.now.branches)) commands.now }
{
    for command in commands {
        if is_wide(command.1) {
            return true;
        }
    }
    false
}

/// Whether a command has more branches than the limits allow.
fn is_wide(command: &Command) -> bool
    ensures { result ≡ nat_lt most_branches (length command.now.branches) }
{
    command.branches.len() > MOST_BRANCHES
}
