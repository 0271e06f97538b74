ghost use Rattle.std.specs.Prelude.{◌≡◌, ◌++◌, if◌then◌else◌, codes, OnOk};
ghost use Rattle.std.specs.List.{flat_map, zip};
ghost use Rattle.trace_report.specs.Lines.{value_text, variable_text, state_line};

use crate::numbers::{append_number, append_signed};
use chain_model::{Chain, Sort, Var};
use std::alloc::AllocError;

/// Appends the line of the state of a number.
#[tactic(auto, unfolding(crate::specs::Lines::state_line))]
pub(crate) fn append_state(
    text: &mut Vec<u8>,
    chain: &Chain,
    number: u32,
    state: &[i64],
) -> Result<(), AllocError>
    ensures { OnOk result (text.new.items ≡ text.old.items ++ state_line chain.now number state.now) }
{
    text.extend_from_slice(b"state ")?;
    append_number(text, u64::from(number))?;
    text.extend_from_slice(b":")?;
    append_values(text, chain.vars.as_slice(), state)?;
    text.extend_from_slice(b"\n")
}

/// Appends variables and their values.
fn append_values(text: &mut Vec<u8>, vars: &[Var], state: &[i64]) -> Result<(), AllocError>
    ensures { OnOk result (text.new.items ≡ text.old.items
        ++ flat_map (λ pair. variable_text pair.0 pair.1) (zip vars.now state.now)) }
{
    for number in 0..vars.len().min(state.len()) {
        append_variable(text, &vars[number], state[number])?;
    }
    Ok(())
}

/// Appends a variable and its value.
fn append_variable(text: &mut Vec<u8>, var: &Var, value: i64) -> Result<(), AllocError>
    ensures { OnOk result (text.new.items ≡ text.old.items ++ variable_text var.now value) }
{
    text.extend_from_slice(b" ")?;
    text.extend_from_slice(var.name.bytes())?;
    text.extend_from_slice(b"=")?;
    append_value(text, var.sort, value)
}

/// Appends a value of this sort.
fn append_value(text: &mut Vec<u8>, sort: Sort, value: i64) -> Result<(), AllocError>
    ensures { OnOk result (text.new.items ≡ text.old.items ++ value_text sort value) }
{
    match sort {
        Sort::Bool => append_truth(text, 0 < value),
        Sort::Int => append_signed(text, value),
        Sort::Double => append_signed(text, value),
    }
}

/// Appends a truth value.
fn append_truth(text: &mut Vec<u8>, truth: bool) -> Result<(), AllocError>
    ensures { OnOk result (text.new.items ≡ text.old.items ++ (if truth then codes "true" else codes "false")) }
{
    if truth {
        text.extend_from_slice(b"true")
    } else {
        text.extend_from_slice(b"false")
    }
}
