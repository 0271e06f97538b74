ghost use Rattle.std.specs.Prelude.{◌≡◌, ◌++◌, OnOk};
ghost use Rattle.std.specs.List.{flat_map, zip};
ghost use Rattle.trace_report.specs.Lines.{branch_text, taken_line};

use crate::choice_lines::append_action;
use crate::numbers::append_number;
use chain_model::Chain;
use std::alloc::AllocError;
use trace_meaning::Taken;

/// Appends the line of what is taken.
#[tactic(auto, unfolding(crate::specs::Lines::taken_line))]
pub(crate) fn append_taken(
    text: &mut Vec<u8>,
    chain: &Chain,
    taken: &Taken,
) -> Result<(), AllocError>
    ensures { OnOk result (text.new.items ≡ text.old.items ++ taken_line chain.now taken.now) }
{
    let commands = taken.choice.commands.as_slice();
    match commands {
        [] => text.extend_from_slice(b"took nothing\n"),
        [_, ..] => {
            text.extend_from_slice(b"took ")?;
            append_action(text, chain, taken.choice.action)?;
            append_branches(text, commands, taken.branches.as_slice())?;
            text.extend_from_slice(b"\n")
        }
    }
}

/// Appends commands, each with the number of its branch.
fn append_branches(text: &mut Vec<u8>, commands: &[u32], branches: &[u32]) -> Result<(), AllocError>
    ensures { OnOk result (text.new.items ≡ text.old.items
        ++ flat_map (λ pair. branch_text pair.0 pair.1) (zip commands.now branches.now)) }
{
    for place in 0..commands.len().min(branches.len()) {
        append_branch(text, commands[place], branches[place])?;
    }
    Ok(())
}

/// Appends a command with the number of its branch.
fn append_branch(text: &mut Vec<u8>, command: u32, branch: u32) -> Result<(), AllocError>
    ensures { OnOk result (text.new.items ≡ text.old.items
        ++ branch_text command branch) }
{
    text.extend_from_slice(b" #")?;
    append_number(text, u64::from(command))?;
    text.extend_from_slice(b".")?;
    append_number(text, u64::from(branch))
}
