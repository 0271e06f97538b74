ghost use Rattle.std.specs.Prelude.{◌≡◌, ◌∷◌, ◌++◌, [], List, ℕ, OnOk, map, bytes_eq, find, position};
ghost use Rattle.std.specs.List.{flat_map, filter_map};
ghost use Rattle.std.specs.Option.{option_copied, option_map};
ghost use Rattle.indexmap.specs.IndexMap.{get};
ghost use Rattle.module_expand.specs.Flat.{is_written_as};
ghost use Rattle.prism_syntax.specs.declared.models.Module.{Module as Part};
ghost use Rattle.module_expand.specs.Renamed.{right_of, variable_names};
ghost use Rattle.module_expand.specs.Duplicates.{values, module_declarations, declarations_of, label_declarations};
ghost use Rattle.module_expand.specs.Groups.{stated};

use crate::sources::Sources;
use crate::variable_names::VariableNames;
use prism_syntax::{ConstText, ModelText, Module, Named, Variable};
use smc_num::Text;
use std::alloc::AllocError;

/// What a name is declared as. Declarations of one kind have different names.
#[derive(Clone, Copy, Debug, PartialEq, Eq)]
pub enum Kind {
    /// A constant, a variable or a formula.
    Value,
    Module,
    Label,
}

/// A declared name with its kind, or the new names that the pairs of a renaming give to the variables of its source.
#[derive(Debug, Drop)]
pub enum Group<'a, 'b> {
    One {
        kind: Kind,
        name: &'a Text,
    },
    Copies {
        source: &'a VariableNames<'b>,
        pairs: &'a [(Text, Text)],
    },
}

/// Appends all declarations of a model in text order.
pub fn note_model<'a, 'b>(
    all: &mut Vec<Group<'a, 'b>>,
    model: &'a ModelText,
    sources: &Sources,
    names: &'a [VariableNames<'b>],
) -> Result<(), AllocError>
    requires sources { (name : List ℕ) → get bytes_eq sources.now name
        ≡ position (is_written_as name) model.now.modules }
    requires names { names.now ≡ map variable_names model.now.modules }
    ensures { OnOk result (flat_map stated all.new.items ≡ flat_map stated all.old.items ++ declarations_of model.now) }
{
    note_consts(all, model.consts.as_slice())?;
    note_variables(all, model.globals.as_slice())?;
    note_formulas(all, model.formulas.as_slice())?;
    note_modules(all, model.modules.as_slice(), sources, names)?;
    note_labels(all, model.labels.as_slice())
}

/// Appends one declaration.
pub fn note<'a, 'b>(
    all: &mut Vec<Group<'a, 'b>>,
    kind: Kind,
    name: &'a Text,
) -> Result<(), AllocError>
    ensures { OnOk result (flat_map stated all.new.items ≡ flat_map stated all.old.items ++ ((kind, name.now) ∷ [])) }
{
    Ok(all.push(Group::One { kind, name })?)
}

fn note_consts<'a, 'b>(
    all: &mut Vec<Group<'a, 'b>>,
    consts: &'a [ConstText],
) -> Result<(), AllocError>
    ensures { OnOk result (flat_map stated all.new.items
        ≡ flat_map stated all.old.items ++ values (map (λ c. c.name) consts.now)) }
{
    for constant in consts {
        note(all, Kind::Value, &constant.name)?;
    }
    Ok(())
}

fn note_variables<'a, 'b>(
    all: &mut Vec<Group<'a, 'b>>,
    variables: &'a [Variable],
) -> Result<(), AllocError>
    ensures { OnOk result (flat_map stated all.new.items
        ≡ flat_map stated all.old.items ++ values (map (λ v. v.name) variables.now)) }
{
    for variable in variables {
        note(all, Kind::Value, &variable.name)?;
    }
    Ok(())
}

fn note_formulas<'a, 'b>(
    all: &mut Vec<Group<'a, 'b>>,
    formulas: &'a [Named],
) -> Result<(), AllocError>
    ensures { OnOk result (flat_map stated all.new.items
        ≡ flat_map stated all.old.items ++ values (map (λ f. f.name) formulas.now)) }
{
    for formula in formulas {
        note(all, Kind::Value, &formula.name)?;
    }
    Ok(())
}

fn note_labels<'a, 'b>(all: &mut Vec<Group<'a, 'b>>, labels: &'a [Named]) -> Result<(), AllocError>
    ensures { OnOk result (flat_map stated all.new.items
        ≡ flat_map stated all.old.items ++ label_declarations (map (λ f. f.name) labels.now)) }
{
    for label in labels {
        note(all, Kind::Label, &label.name)?;
    }
    Ok(())
}

/// Appends the names of modules, each with the variables that it declares.
fn note_modules<'a, 'b>(
    all: &mut Vec<Group<'a, 'b>>,
    modules: &'a [Module],
    sources: &Sources,
    names: &'a [VariableNames<'b>],
) -> Result<(), AllocError>
    requires sources { (name : List ℕ) → get bytes_eq sources.now name ≡ position (is_written_as name) modules.now }
    requires names { names.now ≡ map variable_names modules.now }
    ensures { OnOk result (flat_map stated all.new.items
        ≡ flat_map stated all.old.items ++ flat_map (module_declarations modules.now) modules.now) }
{
    for item in modules {
        note_module(all, modules, sources, names, item)?;
    }
    Ok(())
}

fn note_module<'a, 'b>(
    all: &mut Vec<Group<'a, 'b>>,
    modules: &'a [Module],
    sources: &Sources,
    names: &'a [VariableNames<'b>],
    item: &'a Module,
) -> Result<(), AllocError>
    requires sources { (name : List ℕ) → get bytes_eq sources.now name ≡ position (is_written_as name) modules.now }
    requires names { names.now ≡ map variable_names modules.now }
    ensures { OnOk result (flat_map stated all.new.items
        ≡ flat_map stated all.old.items ++ module_declarations modules.now item.now) }
{
    match item {
        Module::Written { name, vars, .. } => {
            note(all, Kind::Module, name)?;
            note_variables(all, vars.as_slice())
        }
        Module::Renamed {
            name,
            source: from,
            pairs,
        } => {
            note(all, Kind::Module, name)?;
            match source_names(sources, names, from) {
                Some(source) => note_copies(all, source, pairs.as_slice()),
                None => Ok(()),
            }
        }
    }
}

/// Appends the new names that pairs give to the variables of a source.
fn note_copies<'a, 'b>(
    all: &mut Vec<Group<'a, 'b>>,
    source: &'a VariableNames<'b>,
    pairs: &'a [(Text, Text)],
) -> Result<(), AllocError>
    ensures { OnOk result (flat_map stated all.new.items
        ≡ flat_map stated all.old.items ++ values (filter_map (right_of pairs.now) source.now)) }
{
    Ok(all.push(Group::Copies { source, pairs })?)
}

/// The variables of the first module that is written out under a name.
fn source_names<'a, 'b>(
    sources: &Sources,
    names: &'a [VariableNames<'b>],
    name: &Text,
) -> Option<&'a VariableNames<'b>>
    ensures { (modules : List Part)
        → ((other : List ℕ) → get bytes_eq sources.now other ≡ position (is_written_as other) modules)
        → names.now ≡ map variable_names modules
        → option_copied result ≡ option_map variable_names (find (is_written_as name.now) modules) }
{
    match sources.get(name) {
        Some(place) => names.get(*place),
        None => None,
    }
}
