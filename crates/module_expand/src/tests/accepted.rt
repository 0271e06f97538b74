use super::models::{Item, model};
use crate::expand;
use prism_syntax::{Branch, Command, Expr, Module, Variable};
use smc_num::Text;
use std::alloc::{AllocError, Global};
use std::test::Fail;

/// A formula for the guard, a module, and a copy in which a variable, a constant, an action and a formula's name have
/// pairs.
static MODEL: [Item; 4] = [
    Item::Const("start"),
    Item::Formula("guard", &["x"]),
    Item::Renamed(
        "B",
        "M",
        &[
            ("x", "y"),
            ("y", "x"),
            ("start", "begin"),
            ("action", "step"),
            ("guard", "other"),
        ],
    ),
    Item::Written("M", &["x"]),
];

fn is_named(text: &Text, name: &str) -> bool {
    text.bytes() == name.as_bytes()
}

fn is_name(expr: &Expr, name: &str) -> bool {
    match expr {
        Expr::Name(text) => is_named(text, name),
        _ => false,
    }
}

/// Whether the expression is the sum of this name alone, in parentheses.
fn is_sum_in_parens(expr: &Expr, name: &str) -> bool {
    match expr {
        Expr::Paren(inner) => match inner.get() {
            Expr::Level(parts, _) => match parts.as_slice() {
                [part] => is_name(part, name),
                _ => false,
            },
            _ => false,
        },
        _ => false,
    }
}

/// Whether the variable has this name and this name as its initial value.
fn is_variable(variable: &Variable, name: &str, init: &str) -> bool {
    match &variable.init {
        Some(value) => is_named(&variable.name, name) && is_name(value, init),
        None => false,
    }
}

/// Whether the command has this action, this name as its guard's formula, and assigns to this variable.
fn is_command(command: &Command, action: &str, guard: &str, variable: &str) -> bool {
    match (&command.action, command.branches.as_slice()) {
        (Some(label), [Branch { sets, .. }]) => match sets.as_slice() {
            [set] => {
                is_named(label, action)
                    && is_sum_in_parens(&command.guard, guard)
                    && is_named(&set.0, variable)
                    && is_name(&set.1, "value")
            }
            _ => false,
        },
        _ => false,
    }
}

/// Whether the module has this name, this variable with this initial value, and a command with this action.
fn is_module(item: &Module, title: &str, variable: &str, init: &str, action: &str) -> bool {
    match item {
        Module::Written {
            name,
            vars,
            commands,
        } => match (vars.as_slice(), commands.as_slice()) {
            ([declared], [command]) => {
                is_named(name, title)
                    && is_variable(declared, variable, init)
                    && is_command(command, action, variable, variable)
            }
            _ => false,
        },
        Module::Renamed { .. } => false,
    }
}

/// Whether both modules are written out with their own names.
fn is_flat(alloc: Global) -> Result<bool, AllocError> {
    Ok(match expand(alloc, &model(alloc, &MODEL)?) {
        Ok(flat) => match flat.modules.as_slice() {
            [copy, source] => {
                is_module(copy, "B", "y", "begin", "step")
                    && is_module(source, "M", "x", "start", "action")
            }
            _ => false,
        },
        Err(_) => false,
    })
}

#[test]
fn a_copy_has_the_expanded_source_with_all_pairs_applied_at_once(
    rt: HostRuntime,
) -> Result<(), Fail> {
    assert!(rt; is_flat(rt.alloc())?);
    Ok(())
}
