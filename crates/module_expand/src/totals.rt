ghost use Rattle.std.specs.Prelude.{◌≡◌, ◌↔◌, IsTrue, IfOk, List, ℕ, Option, bytes_eq, map, position, Some, slice_get};
ghost use Rattle.std.specs.Option.{option_to_list};
ghost use Rattle.std.specs.List.{flat_map};
ghost use Rattle.indexmap.specs.IndexMap.{get};
ghost use Rattle.prism_syntax.specs.Replaced.{replaced};
ghost use Rattle.prism_syntax.specs.declared.expressions.Expr.{Expr as Tree};
ghost use Rattle.prism_syntax.specs.declared.models.Named.{Named as Formula};
ghost use Rattle.prism_syntax.specs.declared.models.Module.{Module as Part};
ghost use Rattle.module_expand.specs.declared.sizes.Size.{Size as Sized};
ghost use Rattle.module_expand.specs.Expanded.{AreExpanded, stands_for};
ghost use Rattle.module_expand.specs.Flat.{is_written_as, flat_of, flat_module};
ghost use Rattle.module_expand.specs.Listed.{const_exprs, variable_exprs, branch_exprs, command_exprs, module_exprs, bodies, IsTooLarge};
ghost use Rattle.module_expand.specs.Sizes.{IsSize, AreSizes, AreSizesOfEach};

use crate::sizes::{Size, Sizes, measure};
use crate::sources::Sources;
use prism_syntax::{Branch, Command, ConstText, Expr, ModelText, Module, Named, Variable};
use smc_num::Text;
use std::alloc::{AllocError, Global};

/// The size of an expression, where there is one.
fn measure_optional(expr: &Option<Expr>, sizes: &Sizes) -> Size
    ensures { (by : List ℕ → Option Tree) → AreSizes (get bytes_eq sizes.now) by
        → IsSize result (map (replaced by) (option_to_list expr.now)) }
{
    match expr {
        Some(tree) => measure(tree, sizes),
        None => Size::none(),
    }
}

/// The size of a variable's expressions.
fn measure_variable(variable: &Variable, sizes: &Sizes) -> Size
    ensures { (by : List ℕ → Option Tree) → AreSizes (get bytes_eq sizes.now) by
        → IsSize result (map (replaced by) (variable_exprs variable.now)) }
{
    let init = measure_optional(&variable.init, sizes);
    match &variable.range {
        Some((low, high)) => measure(low, sizes).plus(measure(high, sizes)).plus(init),
        None => init,
    }
}

/// The size of variables' expressions.
fn measure_variables(variables: &[Variable], sizes: &Sizes) -> Size
    ensures { (by : List ℕ → Option Tree) → AreSizes (get bytes_eq sizes.now) by
        → IsSize result (map (replaced by) (flat_map variable_exprs variables.now)) }
{
    let mut total = Size::none();
    for variable in variables {
        total = total.plus(measure_variable(variable, sizes));
    }
    total
}

/// The size of assigned values.
fn measure_sets(sets: &[(Text, Expr)], sizes: &Sizes) -> Size
    ensures { (by : List ℕ → Option Tree) → AreSizes (get bytes_eq sizes.now) by
        → IsSize result (map (replaced by) (map (λ s. s.1) sets.now)) }
{
    let mut total = Size::none();
    for set in sets {
        total = total.plus(measure(&set.1, sizes));
    }
    total
}

/// The size of a branch's expressions.
fn measure_branch(branch: &Branch, sizes: &Sizes) -> Size
    ensures { (by : List ℕ → Option Tree) → AreSizes (get bytes_eq sizes.now) by
        → IsSize result (map (replaced by) (branch_exprs branch.now)) }
{
    measure_optional(&branch.weight, sizes).plus(measure_sets(branch.sets.as_slice(), sizes))
}

/// The size of branches' expressions.
fn measure_branches(branches: &[Branch], sizes: &Sizes) -> Size
    ensures { (by : List ℕ → Option Tree) → AreSizes (get bytes_eq sizes.now) by
        → IsSize result (map (replaced by) (flat_map branch_exprs branches.now)) }
{
    let mut total = Size::none();
    for branch in branches {
        total = total.plus(measure_branch(branch, sizes));
    }
    total
}

/// The size of a command's expressions.
fn measure_command(command: &Command, sizes: &Sizes) -> Size
    ensures { (by : List ℕ → Option Tree) → AreSizes (get bytes_eq sizes.now) by
        → IsSize result (map (replaced by) (command_exprs command.now)) }
{
    measure(&command.guard, sizes).plus(measure_branches(command.branches.as_slice(), sizes))
}

/// The size of commands' expressions.
fn measure_commands(commands: &[Command], sizes: &Sizes) -> Size
    ensures { (by : List ℕ → Option Tree) → AreSizes (get bytes_eq sizes.now) by
        → IsSize result (map (replaced by) (flat_map command_exprs commands.now)) }
{
    let mut total = Size::none();
    for command in commands {
        total = total.plus(measure_command(command, sizes));
    }
    total
}

/// The size of the expressions of a module that is written out.
fn measure_module(item: &Module, sizes: &Sizes) -> Size
    ensures { (by : List ℕ → Option Tree) → AreSizes (get bytes_eq sizes.now) by
        → IsSize result (map (replaced by) (module_exprs item.now)) }
{
    match item {
        Module::Written { vars, commands, .. } => measure_variables(vars.as_slice(), sizes).plus(
            measure_commands(commands.as_slice(), sizes),
        ),
        Module::Renamed { .. } => Size::none(),
    }
}

/// The sizes of modules, each as far as it is written out.
fn measure_each(alloc: Global, modules: &[Module], sizes: &Sizes) -> Result<Vec<Size>, AllocError>
    ensures { IfOk result (λ each. (by : List ℕ → Option Tree) → AreSizes (get bytes_eq sizes.now) by
        → AreSizesOfEach by modules.now each.items) }
{
    let mut each = Vec::new(alloc);
    for item in modules {
        each.push(measure_module(item, sizes))?;
    }
    Ok(each)
}

/// The size of a module once it is written out, at this place.
fn size_of_module(modules: &[Module], place: usize, sources: &Sources, each: &[Size]) -> Size
    requires { (name : List ℕ) → get bytes_eq sources.now name ≡ position (is_written_as name) modules.now }
    ensures { (by : List ℕ → Option Tree) (m : Part) → AreSizesOfEach by modules.now each.now
        → slice_get modules.now place ≡ Some m
        → IsSize result (module_exprs (flat_module modules.now by m)) }
{
    match modules.get(place) {
        Some(Module::Written { .. }) => size_at(each, place),
        Some(Module::Renamed { source, .. }) => match sources.get(source) {
            Some(found) => size_at(each, *found),
            None => Size::none(),
        },
        None => Size::none(),
    }
}

/// The size at this place.
fn size_at(each: &[Size], place: usize) -> Size
    ensures { (size : Sized) → slice_get each.now place ≡ Some size → result ≡ size }
{
    match each.get(place) {
        Some(size) => *size,
        None => Size::none(),
    }
}

/// The size of all modules, the copies of renamed ones among them.
fn measure_modules(
    alloc: Global,
    modules: &[Module],
    sources: &Sources,
    sizes: &Sizes,
) -> Result<Size, AllocError>
    requires { (name : List ℕ) → get bytes_eq sources.now name ≡ position (is_written_as name) modules.now }
    ensures { IfOk result (λ size. (by : List ℕ → Option Tree) → AreSizes (get bytes_eq sizes.now) by
        → IsSize size (flat_map module_exprs (map (flat_module modules.now by) modules.now))) }
{
    let each = measure_each(alloc, modules, sizes)?;
    let mut total = Size::none();
    for place in 0..modules.len() {
        total = total.plus(size_of_module(modules, place, sources, each.as_slice()));
    }
    Ok(total)
}

/// The size of constants' values.
fn measure_consts(consts: &[ConstText], sizes: &Sizes) -> Size
    ensures { (by : List ℕ → Option Tree) → AreSizes (get bytes_eq sizes.now) by
        → IsSize result (map (replaced by) (flat_map const_exprs consts.now)) }
{
    let mut total = Size::none();
    for constant in consts {
        total = total.plus(measure_optional(&constant.value, sizes));
    }
    total
}

/// The size of the bodies of formulas or labels.
fn measure_bodies(all: &[Named], sizes: &Sizes) -> Size
    ensures { (by : List ℕ → Option Tree) → AreSizes (get bytes_eq sizes.now) by
        → IsSize result (map (replaced by) (bodies all.now)) }
{
    let mut total = Size::none();
    for named in all {
        total = total.plus(measure(&named.body, sizes));
    }
    total
}

/// Whether the flat text of a model is past the limits, by the sizes of its formulas. No tree is built.
pub fn is_too_large(
    alloc: Global,
    model: &ModelText,
    sources: &Sources,
    sizes: &Sizes,
) -> Result<bool, AllocError>
    requires { (name : List ℕ) → get bytes_eq sources.now name ≡ position (is_written_as name) model.now.modules }
    ensures { IfOk result (λ large. (trees : List Formula) → AreExpanded model.now.formulas trees
        → AreSizes (get bytes_eq sizes.now) (stands_for trees)
        → (IsTrue large ↔ IsTooLarge (flat_of model.now trees))) }
{
    let modules = measure_modules(alloc, model.modules.as_slice(), sources, sizes)?;
    let inner = modules.plus(measure_bodies(model.labels.as_slice(), sizes));
    let later = measure_bodies(model.formulas.as_slice(), sizes).plus(inner);
    let outer = measure_variables(model.globals.as_slice(), sizes).plus(later);
    let total = measure_consts(model.consts.as_slice(), sizes).plus(outer);
    Ok(total.is_too_large())
}
