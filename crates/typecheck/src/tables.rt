//! Tables of what names and labels stand for.

ghost use Rattle.std.specs.Prelude.{◌≡◌, ◌≤◌, ◌++◌, ◌∷◌, [], List, IfOk, OnOk, length, map};
ghost use Rattle.chain_model.specs.declared.expressions.Typed.{Typed};
ghost use Rattle.chain_model.specs.Limits.{most_variables};
ghost use Rattle.prism_names.specs.First.{Name};
ghost use Rattle.typed_trees.specs.Leaves.{numbered, variable};
ghost use Rattle.typed_trees.specs.Scopes.{IsTable};
ghost use Rattle.typecheck.specs.Declarations.{declared_sort};
ghost use Rattle.typecheck.specs.Paths.{built_in, sorts_of_variables};

use crate::fitting::declared_sort;
use crate::refusals::shown;
use chain_model::{Form, Sort, Typed, Var};
use indexmap::IndexMap;
use prism_syntax::Variable;
use smc_num::Text;
use std::alloc::{AllocError, Global};
use typed_trees::{add_tree, copy_tree};

/// What the names of a chain's variables stand for.
pub fn variable_table(alloc: Global, vars: &[Var]) -> Result<IndexMap<Text, Typed>, AllocError>
    requires { length vars.now ≤ most_variables }
    ensures { IfOk result (λ table. IsTable table (numbered (sorts_of_variables vars.now))) }
{
    let mut table = IndexMap::new(alloc);
    for (number, var) in vars.iter().enumerate() {
        add_variable(alloc, &mut table, &var.name, var.sort, number as u32)?;
    }
    Ok(table)
}

/// What the names of a flat model's variables stand for.
pub fn declared_table(
    alloc: Global,
    variables: &[(Option<usize>, &Variable)],
) -> Result<IndexMap<Text, Typed>, AllocError>
    ensures { IfOk result (λ table. IsTable table (numbered (map (λ v. (v.1.now.name, declared_sort v.1.now)) variables.now))) }
{
    let mut table = IndexMap::new(alloc);
    for (number, variable) in variables.iter().enumerate() {
        let sort = declared_sort(variable.1);
        add_variable(alloc, &mut table, &variable.1.name, sort, shown(number))?;
    }
    Ok(table)
}

/// Lists a variable more, of this sort and with this number.
fn add_variable(
    alloc: Global,
    table: &mut IndexMap<Text, Typed>,
    name: &Text,
    sort: Sort,
    number: u32,
) -> Result<(), AllocError>
    ensures { OnOk result ((trees : List (Name × Typed)) → IsTable table.old trees
        → IsTable table.new (trees ++ (name.now, variable sort number) ∷ [])) }
{
    let name = name.copy(alloc)?;
    add_tree(
        table,
        name,
        Typed {
            sort,
            form: Form::Var(number),
        },
    )
}

/// What the names of labels stand for: the built-in ones, and those of a chain.
pub fn label_table(
    alloc: Global,
    labels: &[(Text, Typed)],
) -> Result<IndexMap<Text, Typed>, AllocError>
    ensures { IfOk result (λ table. IsTable table (built_in ++ labels.now)) }
{
    let mut table = built_in_table(alloc)?;
    for label in labels {
        add_label(alloc, &mut table, label)?;
    }
    Ok(table)
}

/// What the names of the built-in labels stand for.
fn built_in_table(alloc: Global) -> Result<IndexMap<Text, Typed>, AllocError>
    ensures { IfOk result (λ table. IsTable table built_in) }
{
    let mut table = IndexMap::new(alloc);
    add_built_in(alloc, &mut table)?;
    Ok(table)
}

/// Lists the built-in labels in a table of none.
fn add_built_in(alloc: Global, table: &mut IndexMap<Text, Typed>) -> Result<(), AllocError>
    ensures { OnOk result (IsTable table.old [] → IsTable table.new built_in) }
{
    let init = Text::from_bytes(alloc, b"init")?;
    add_tree(table, init, truth_tree(Form::IsInit))?;
    let deadlock = Text::from_bytes(alloc, b"deadlock")?;
    add_tree(table, deadlock, truth_tree(Form::IsDeadlock))
}

/// Lists a label more.
fn add_label(
    alloc: Global,
    table: &mut IndexMap<Text, Typed>,
    label: &(Text, Typed),
) -> Result<(), AllocError>
    ensures { OnOk result ((trees : List (Name × Typed)) → IsTable table.old trees → IsTable table.new (trees ++ label.now ∷ [])) }
{
    let name = label.0.copy(alloc)?;
    let tree = copy_tree(alloc, &label.1)?;
    add_tree(table, name, tree)
}

/// The tree of a built-in label.
fn truth_tree(form: Form) -> Typed
    ensures { result ≡ record { sort = Sort.Bool; form = form } }
{
    Typed {
        sort: Sort::Bool,
        form,
    }
}
