ghost use Rattle.std.specs.Prelude.{◌≡◌, ◌∷◌, ◌++◌, codes, OnOk};
ghost use Rattle.std.specs.List.{flat_map};
ghost use Rattle.trace_meaning.specs.Counted.{limited_choices};
ghost use Rattle.trace_report.specs.Lines.{action_name, command_text, choice_text, more_text, listed_line, choices_line};

use crate::numbers::append_number;
use chain_model::Chain;
use std::alloc::{AllocError, Global};
use trace_meaning::{Choice, StepFault, choices};

/// How many choices are listed at most.
const MOST_LISTED: u32 = 16;

/// Appends the line of the choices of a state. There is none where a guard faults, or where they are too many.
#[tactic(auto, unfolding(crate::specs::Lines::choices_line))]
pub(crate) fn append_choices(
    alloc: Global,
    text: &mut Vec<u8>,
    chain: &Chain,
    state: &[i64],
) -> Result<(), AllocError>
    ensures { OnOk result (text.new.items ≡ text.old.items
        ++ choices_line chain.now (limited_choices chain.now state.now)) }
{
    match choices(alloc, chain, state, MOST_LISTED) {
        Ok((count, listed)) => append_listed(text, chain, count, listed.as_slice()),
        Err(StepFault::Trace(_)) => Ok(()),
        Err(StepFault::OutOfMemory(error)) => Err(error),
    }
}

/// Appends the line of so many choices, of which these are listed.
fn append_listed(
    text: &mut Vec<u8>,
    chain: &Chain,
    count: u64,
    listed: &[Choice],
) -> Result<(), AllocError>
    ensures { OnOk result (text.new.items ≡ text.old.items ++ listed_line chain.now count listed.now) }
{
    match listed {
        [] => text.extend_from_slice(b"choices 0: stays\n"),
        [first, others @ ..] => append_first(text, chain, count, first, others),
    }
}

/// Appends the line of so many choices, of which the first and these others are listed.
fn append_first(
    text: &mut Vec<u8>,
    chain: &Chain,
    count: u64,
    first: &Choice,
    others: &[Choice],
) -> Result<(), AllocError>
    ensures { OnOk result (text.new.items ≡ text.old.items
        ++ listed_line chain.now count (first.now ∷ others.now)) }
{
    text.extend_from_slice(b"choices ")?;
    append_number(text, count)?;
    text.extend_from_slice(b": ")?;
    append_choice(text, chain, first)?;
    append_others(text, chain, others)?;
    append_more(text, count)?;
    text.extend_from_slice(b"\n")
}

/// Appends choices after the first one.
fn append_others(text: &mut Vec<u8>, chain: &Chain, others: &[Choice]) -> Result<(), AllocError>
    ensures { OnOk result (text.new.items ≡ text.old.items
        ++ flat_map (λ other. codes "; " ++ choice_text chain.now other) others.now) }
{
    for other in others {
        text.extend_from_slice(b"; ")?;
        append_choice(text, chain, other)?;
    }
    Ok(())
}

/// Appends how many choices are not listed, if some are not.
fn append_more(text: &mut Vec<u8>, count: u64) -> Result<(), AllocError>
    ensures { OnOk result (text.new.items ≡ text.old.items ++ more_text count) }
{
    let most = u64::from(MOST_LISTED);
    if count <= most {
        return Ok(());
    }
    text.extend_from_slice(b"; and ")?;
    append_number(text, count - most)?;
    text.extend_from_slice(b" more")
}

/// Appends a choice: its action in brackets, and its commands by their numbers.
fn append_choice(text: &mut Vec<u8>, chain: &Chain, choice: &Choice) -> Result<(), AllocError>
    ensures { OnOk result (text.new.items ≡ text.old.items ++ choice_text chain.now choice.now) }
{
    append_action(text, chain, choice.action)?;
    append_commands(text, choice.commands.as_slice())
}

/// Appends the name of an action, if there is one, in brackets.
pub(crate) fn append_action(
    text: &mut Vec<u8>,
    chain: &Chain,
    action: Option<u32>,
) -> Result<(), AllocError>
    ensures { OnOk result (text.new.items ≡ text.old.items
        ++ (codes "[" ++ (action_name chain.now action ++ codes "]"))) }
{
    text.extend_from_slice(b"[")?;
    text.extend_from_slice(name(chain, action))?;
    text.extend_from_slice(b"]")
}

/// The name of an action, if there is one.
fn name(chain: &Chain, action: Option<u32>) -> &[u8]
    ensures { result.now ≡ action_name chain.now action }
{
    let Some(number) = action else {
        return b"";
    };
    match chain.actions.as_slice().get(number as usize) {
        Some(action) => action.name.bytes(),
        None => b"",
    }
}

/// Appends commands by their numbers.
fn append_commands(text: &mut Vec<u8>, commands: &[u32]) -> Result<(), AllocError>
    ensures { OnOk result (text.new.items ≡ text.old.items
        ++ flat_map command_text commands.now) }
{
    for number in commands {
        text.extend_from_slice(b" #")?;
        append_number(text, u64::from(*number))?;
    }
    Ok(())
}
