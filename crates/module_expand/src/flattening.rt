ghost use Rattle.std.specs.Prelude.{◌≡◌, IfOk, List, ℕ, bytes_eq, map, position};
ghost use Rattle.indexmap.specs.IndexMap.{get};
ghost use Rattle.prism_syntax.specs.Replaced.{replaced};
ghost use Rattle.prism_syntax.specs.declared.models.Named.{Named as Formula};
ghost use Rattle.module_expand.specs.Expanded.{AreExpanded, stands_for, with_body};
ghost use Rattle.module_expand.specs.Renamed.{no_names, right_of, as_tree, copied_variable, copied_module};
ghost use Rattle.module_expand.specs.Flat.{is_written_as, flat_of, flat_module, flat_const};

use crate::copies::{copy_module, copy_optional, copy_variables};
use crate::pairs::both;
use crate::renamings::{NewNames, new_names, new_trees};
use crate::sources::{Sources, source};
use indexmap::IndexMap;
use prism_syntax::{ConstText, Expr, FlatText, ModelText, Module, Named, Variable};
use smc_num::Text;
use sqlite_items::Items;
use std::alloc::{AllocError, Global};

/// The flat text that the trees of formulas make of a model.
pub fn flatten(
    alloc: Global,
    model: &ModelText,
    sources: &Sources,
    trees: &IndexMap<Text, Expr>,
) -> Result<FlatText, AllocError>
    requires { (name : List ℕ) → get bytes_eq sources.now name ≡ position (is_written_as name) model.now.modules }
    ensures { IfOk result (λ flat. (formulas : List Formula) → AreExpanded model.now.formulas formulas
        → ((name : List ℕ) → get bytes_eq trees.now name ≡ stands_for formulas name)
        → flat ≡ flat_of model.now formulas) }
{
    let modules = flat_modules(alloc, model.modules.as_slice(), sources, trees)?;
    let (consts, globals) = flat_outside(alloc, model, trees)?;
    let (formulas, labels) = flat_named(alloc, model, trees)?;
    Ok(FlatText {
        consts,
        globals,
        formulas,
        modules,
        labels,
    })
}

/// The constants and the global variables of a model with the names in their expressions replaced.
fn flat_outside(
    alloc: Global,
    model: &ModelText,
    trees: &IndexMap<Text, Expr>,
) -> Result<(Items<ConstText>, Items<Variable>), AllocError>
    ensures consts { IfOk result (λ flat. flat.0 ≡ map (flat_const (get bytes_eq trees.now)) model.now.consts) }
    ensures globals { IfOk result (λ flat. flat.1
        ≡ map (copied_variable no_names (get bytes_eq trees.now)) model.now.globals) }
{
    both(
        flat_consts(alloc, model.consts.as_slice(), trees),
        flat_variables(alloc, model.globals.as_slice(), trees),
    )
}

/// Variables with the names in their expressions replaced.
fn flat_variables(
    alloc: Global,
    variables: &[Variable],
    trees: &IndexMap<Text, Expr>,
) -> Result<Items<Variable>, AllocError>
    ensures { IfOk result (λ flat. flat ≡ map (copied_variable no_names (get bytes_eq trees.now)) variables.now) }
{
    let none: NewNames = IndexMap::new(alloc);
    copy_variables(alloc, variables, &none, trees)
}

/// The formulas and the labels of a model with the names in their bodies replaced.
fn flat_named(
    alloc: Global,
    model: &ModelText,
    trees: &IndexMap<Text, Expr>,
) -> Result<(Items<Named>, Items<Named>), AllocError>
    ensures formulas { IfOk result (λ flat. flat.0
        ≡ map (with_body (replaced (get bytes_eq trees.now))) model.now.formulas) }
    ensures labels { IfOk result (λ flat. flat.1
        ≡ map (with_body (replaced (get bytes_eq trees.now))) model.now.labels) }
{
    both(
        flat_bodies(alloc, model.formulas.as_slice(), trees),
        flat_bodies(alloc, model.labels.as_slice(), trees),
    )
}

/// Constants with the names of their values replaced.
fn flat_consts(
    alloc: Global,
    consts: &[ConstText],
    trees: &IndexMap<Text, Expr>,
) -> Result<Items<ConstText>, AllocError>
    ensures { IfOk result (λ flat. flat ≡ map (flat_const (get bytes_eq trees.now)) consts.now) }
{
    let mut flat = Items::new(alloc);
    for constant in consts {
        flat.push(flat_const(alloc, constant, trees)?)?;
    }
    Ok(flat)
}

/// A constant with the names of its value replaced.
fn flat_const(
    alloc: Global,
    constant: &ConstText,
    trees: &IndexMap<Text, Expr>,
) -> Result<ConstText, AllocError>
    ensures { IfOk result (λ flat. flat ≡ flat_const (get bytes_eq trees.now) constant.now) }
{
    let name = constant.name.copy(alloc)?;
    Ok(ConstText {
        name,
        sort: constant.sort,
        value: copy_optional(alloc, &constant.value, trees)?,
    })
}

/// Formulas or labels with the names of their bodies replaced.
fn flat_bodies(
    alloc: Global,
    all: &[Named],
    trees: &IndexMap<Text, Expr>,
) -> Result<Items<Named>, AllocError>
    ensures { IfOk result (λ flat. flat ≡ map (with_body (replaced (get bytes_eq trees.now))) all.now) }
{
    let mut flat = Items::new(alloc);
    for named in all {
        flat.push(flat_body(alloc, named, trees)?)?;
    }
    Ok(flat)
}

/// A formula or a label with the names of its body replaced.
fn flat_body(
    alloc: Global,
    named: &Named,
    trees: &IndexMap<Text, Expr>,
) -> Result<Named, AllocError>
    ensures { IfOk result (λ flat. flat ≡ with_body (replaced (get bytes_eq trees.now)) named.now) }
{
    let name = named.name.copy(alloc)?;
    Ok(Named {
        name,
        body: named.body.replace(alloc, trees)?,
    })
}

/// Modules written out.
fn flat_modules(
    alloc: Global,
    modules: &[Module],
    sources: &Sources,
    trees: &IndexMap<Text, Expr>,
) -> Result<Items<Module>, AllocError>
    requires { (name : List ℕ) → get bytes_eq sources.now name ≡ position (is_written_as name) modules.now }
    ensures { IfOk result (λ flat. flat ≡ map (flat_module modules.now (get bytes_eq trees.now)) modules.now) }
{
    let mut flat = Items::new(alloc);
    for item in modules {
        flat.push(flat_module(alloc, modules, sources, trees, item)?)?;
    }
    Ok(flat)
}

/// A module written out.
fn flat_module(
    alloc: Global,
    modules: &[Module],
    sources: &Sources,
    trees: &IndexMap<Text, Expr>,
    item: &Module,
) -> Result<Module, AllocError>
    requires { (name : List ℕ) → get bytes_eq sources.now name ≡ position (is_written_as name) modules.now }
    ensures { IfOk result (λ flat. flat ≡ flat_module modules.now (get bytes_eq trees.now) item.now) }
{
    match item {
        Module::Written { name, .. } => expanded_module(alloc, name, item, trees),
        Module::Renamed {
            name,
            source: from,
            pairs,
        } => match source(modules, sources, from) {
            Some(written) => {
                let expanded = expanded_module(alloc, name, written, trees)?;
                rename_module(alloc, name, &expanded, pairs.as_slice())
            }
            None => Ok(Module::Written {
                name: name.copy(alloc)?,
                vars: Items::new(alloc),
                commands: Items::new(alloc),
            }),
        },
    }
}

/// A module of this name with the variables and the commands of another that is written out, formulas replaced.
fn expanded_module(
    alloc: Global,
    title: &Text,
    from: &Module,
    trees: &IndexMap<Text, Expr>,
) -> Result<Module, AllocError>
    ensures { IfOk result (λ copy. copy ≡ copied_module no_names (get bytes_eq trees.now) title.now from.now) }
{
    let none: NewNames = IndexMap::new(alloc);
    copy_module(alloc, title, from, &none, trees)
}

/// A module of this name with the variables and the commands of another, all pairs applied at once.
fn rename_module(
    alloc: Global,
    title: &Text,
    from: &Module,
    pairs: &[(Text, Text)],
) -> Result<Module, AllocError>
    ensures { IfOk result (λ copy. copy ≡ copied_module (right_of pairs.now) (as_tree (right_of pairs.now))
        title.now from.now) }
{
    let (names, trees) = both(new_names(alloc, pairs), new_trees(alloc, pairs))?;
    copy_module(alloc, title, from, &names, &trees)
}
