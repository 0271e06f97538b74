ghost use Rattle.std.specs.Prelude.{◌≡◌, ◌++◌, [], map, unwrap_or, OnOk};
ghost use Rattle.std.specs.Option.{option_map_or};
ghost use Rattle.prism_syntax.specs.declared.tokens.Kind.TheVariants as k;
ghost use Rattle.prism_print.specs.Pieces.{text_of};
ghost use Rattle.prism_print.specs.Layout.{spaced, separated, expression};
ghost use Rattle.prism_print.specs.Printed.{assignment, update, branch, command_line};

use crate::expressions::{append_between, append_expression};
use prism_syntax::{Branch, Command, Expr};
use smc_num::Text;
use std::alloc::AllocError;

/// Appends the line of a command.
#[tactic(auto, unfolding(prism_syntax::specs::Spelling::spelling_of), using(crate::proofs::TextLemmas::text_append))]
pub(crate) fn append_command(text: &mut Vec<u8>, command: &Command) -> Result<(), AllocError>
    ensures { OnOk result (text.new.items ≡ text.old.items ++ text_of (command_line command.now)) }
{
    text.extend_from_slice(b"[")?;
    append_action(text, &command.action)?;
    text.extend_from_slice(b"] ")?;
    append_expression(text, &command.guard)?;
    text.extend_from_slice(b" -> ")?;
    append_branches(text, command.branches.as_slice())?;
    text.extend_from_slice(b";\n")
}

/// Appends the name of an action, where there is one.
fn append_action(text: &mut Vec<u8>, action: &Option<Text>) -> Result<(), AllocError>
    ensures { OnOk result (text.new.items ≡ text.old.items ++ unwrap_or action.now []) }
{
    match action {
        Some(name) => text.extend_from_slice(name.bytes()),
        None => Ok(()),
    }
}

/// Appends branches joined by `+`.
fn append_branches(text: &mut Vec<u8>, branches: &[Branch]) -> Result<(), AllocError>
    ensures { OnOk result (text.new.items ≡ text.old.items
        ++ text_of (separated (spaced k.Plus) (map branch branches.now))) }
{
    for index in 0..branches.len() {
        append_between(text, index, b" + ")?;
        append_branch(text, &branches[index])?;
    }
    Ok(())
}

/// Appends a branch: its weight, where it has one, and its update.
#[tactic(auto, unfolding(prism_syntax::specs::Spelling::spelling_of), using(crate::proofs::TextLemmas::text_append))]
fn append_branch(text: &mut Vec<u8>, one: &Branch) -> Result<(), AllocError>
    ensures { OnOk result (text.new.items ≡ text.old.items ++ text_of (branch one.now)) }
{
    append_weight(text, &one.weight)?;
    append_update(text, one.sets.as_slice())
}

/// Appends a weight, where there is one.
#[tactic(auto, unfolding(prism_syntax::specs::Spelling::spelling_of), using(crate::proofs::TextLemmas::text_append))]
fn append_weight(text: &mut Vec<u8>, weight: &Option<Expr>) -> Result<(), AllocError>
    ensures { OnOk result (text.new.items ≡ text.old.items
        ++ text_of (option_map_or (λ x. expression x ++ spaced k.Colon) weight.now [])) }
{
    let Some(weight) = weight else {
        return Ok(());
    };
    append_expression(text, weight)?;
    text.extend_from_slice(b" : ")
}

/// Appends an update: `true`, or assignments joined by `&`.
#[tactic(auto, unfolding(prism_syntax::specs::Spelling::spelling_of), using(crate::proofs::TextLemmas::text_append))]
fn append_update(text: &mut Vec<u8>, sets: &[(Text, Expr)]) -> Result<(), AllocError>
    ensures { OnOk result (text.new.items ≡ text.old.items ++ text_of (update sets.now)) }
{
    if sets.is_empty() {
        text.extend_from_slice(b"true")
    } else {
        append_assignments(text, sets)
    }
}

/// Appends assignments joined by `&`.
fn append_assignments(text: &mut Vec<u8>, sets: &[(Text, Expr)]) -> Result<(), AllocError>
    ensures { OnOk result (text.new.items ≡ text.old.items
        ++ text_of (separated (spaced k.Ampersand) (map assignment sets.now))) }
{
    for index in 0..sets.len() {
        append_between(text, index, b" & ")?;
        append_assignment(text, &sets[index])?;
    }
    Ok(())
}

/// Appends an assignment.
#[tactic(auto, unfolding(prism_syntax::specs::Spelling::spelling_of), using(crate::proofs::TextLemmas::text_append))]
fn append_assignment(text: &mut Vec<u8>, set: &(Text, Expr)) -> Result<(), AllocError>
    ensures { OnOk result (text.new.items ≡ text.old.items ++ text_of (assignment set.now)) }
{
    let (name, value) = set;
    text.extend_from_slice(b"(")?;
    text.extend_from_slice(name.bytes())?;
    text.extend_from_slice(b"'=")?;
    append_expression(text, value)?;
    text.extend_from_slice(b")")
}
