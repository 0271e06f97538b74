ghost use Rattle.std.specs.Prelude.{◌≡◌, ◌∷◌, ◌++◌, ◌<◌, [], IfOk, OnOk, IsFalse, List, ℕ, Some, None, bytes_eq, cond, count_by, find, is_some, map, unwrap_or, position};
ghost use Rattle.std.specs.List.{flat_map, filter_map};
ghost use Rattle.std.specs.Option.{option_map, option_copied, option_or, option_to_list};
ghost use Rattle.indexmap.specs.IndexMap.{get};
ghost use Rattle.module_expand.specs.Flat.{is_written_as};
ghost use Rattle.module_expand.specs.Renamed.{right_of};
ghost use Rattle.module_expand.specs.Duplicates.{values, is_repeated, declarations_of, duplicate_of};
ghost use Rattle.module_expand.specs.Groups.{stated};
ghost use Rattle.module_expand.specs.Refusals.{Looks};
ghost use Rattle.module_expand.specs.Times.{times, never, more_times, first_twice, Adds, AddsTimes};

use crate::declarations::{Group, Kind, note, note_model};
use crate::fault::ExpandFault;
use crate::renamings::{NewNames, new_names};
use crate::sources::Sources;
use crate::tables::put_first;
use crate::variable_names::{VariableNames, names_of_modules};
use indexmap::IndexMap;
use prism_syntax::{ModelText, Variable};
use smc_num::Text;
use std::alloc::{AllocError, Global};

/// How often a name is declared as what; twice and more are the same.
#[derive(Clone, Copy, Debug)]
pub struct Times {
    values: usize,
    modules: usize,
    labels: usize,
}

/// Refuses a model in which a declaration repeats another one of its kind.
pub fn refuse_duplicate(
    alloc: Global,
    model: &ModelText,
    sources: &Sources,
) -> Result<(), ExpandFault>
    requires { (name : List ℕ) → get bytes_eq sources.now name ≡ position (is_written_as name) model.now.modules }
    ensures { Looks (duplicate_of model.now) ExpandFault.Duplicate result }
{
    match find_duplicate(alloc, model, sources).map_err(ExpandFault::OutOfMemory)? {
        Some(name) => Err(ExpandFault::Duplicate { name }),
        None => Ok(()),
    }
}

/// The name of the first declaration that another one of its kind, or a label that is built in, repeats.
fn find_duplicate(
    alloc: Global,
    model: &ModelText,
    sources: &Sources,
) -> Result<Option<Text>, AllocError>
    requires { (name : List ℕ) → get bytes_eq sources.now name ≡ position (is_written_as name) model.now.modules }
    ensures { IfOk result (λ found. found ≡ duplicate_of model.now) }
{
    let init = Text::from_bytes(alloc, b"init")?;
    let deadlock = Text::from_bytes(alloc, b"deadlock")?;
    find_repeated(alloc, model, sources, &init, &deadlock)
}

/// The name of the first declaration that another one of its kind, or one of these two labels, repeats.
fn find_repeated<'a>(
    alloc: Global,
    model: &ModelText,
    sources: &Sources,
    first: &'a Text,
    second: &'a Text,
) -> Result<Option<Text>, AllocError>
    requires { (name : List ℕ) → get bytes_eq sources.now name ≡ position (is_written_as name) model.now.modules }
    ensures { IfOk result (λ found. found ≡ option_map (λ d. d.1)
        (find (is_repeated ((Kind.Label, first.now) ∷ ((Kind.Label, second.now) ∷ declarations_of model.now)))
        (declarations_of model.now))) }
{
    let names = names_of_modules(alloc, model.modules.as_slice())?;
    let mut built_in = Vec::new(alloc);
    note(&mut built_in, Kind::Label, first)?;
    note(&mut built_in, Kind::Label, second)?;
    let mut declared = Vec::new(alloc);
    note_model(&mut declared, model, sources, names.as_slice())?;
    first_repeated(alloc, built_in.as_slice(), declared.as_slice())
}

/// The name of the first of these declarations that stands among them, and others before them, more than once.
fn first_repeated(
    alloc: Global,
    before: &[Group],
    declared: &[Group],
) -> Result<Option<Text>, AllocError>
    ensures { IfOk result (λ found. found ≡ option_map (λ d. d.1)
        (find (is_repeated (flat_map stated before.now ++ flat_map stated declared.now))
        (flat_map stated declared.now))) }
{
    let counts = count_all(alloc, before, declared)?;
    first_counted_twice(alloc, &counts, declared)
}

/// The name of the first of these declarations that was counted more than once.
fn first_counted_twice(
    alloc: Global,
    counts: &IndexMap<Text, Times>,
    declared: &[Group],
) -> Result<Option<Text>, AllocError>
    ensures { IfOk result (λ found. found ≡ first_twice (get bytes_eq counts.now) (flat_map stated declared.now)) }
{
    for group in declared {
        if let Some(name) = repeated_in(alloc, counts, group)? {
            return Ok(Some(name.copy(alloc)?));
        }
    }
    Ok(None)
}

/// The name of the first declaration of a group that was counted more than once.
fn repeated_in<'a>(
    alloc: Global,
    counts: &IndexMap<Text, Times>,
    group: &Group<'a, '_>,
) -> Result<Option<&'a Text>, AllocError>
    ensures { IfOk result (λ found. option_copied found
        ≡ first_twice (get bytes_eq counts.now) (stated group.now)) }
{
    match group {
        Group::One { kind, name } => Ok(repeated_name(counts, *kind, name)),
        Group::Copies { source, pairs } => repeated_copy(alloc, counts, source, pairs),
    }
}

/// The first new name that pairs give to a variable of a source and that was counted more than once.
fn repeated_copy<'a>(
    alloc: Global,
    counts: &IndexMap<Text, Times>,
    source: &VariableNames,
    pairs: &'a [(Text, Text)],
) -> Result<Option<&'a Text>, AllocError>
    ensures { IfOk result (λ found. option_copied found ≡ first_twice (get bytes_eq counts.now)
        (values (filter_map (right_of pairs.now) source.now))) }
{
    let names = new_names(alloc, pairs)?;
    Ok(repeated_new_name(counts, source, &names, pairs))
}

/// The same name, found by a table of the new names.
fn repeated_new_name<'a>(
    counts: &IndexMap<Text, Times>,
    source: &VariableNames,
    names: &NewNames<'a>,
    pairs: &[(Text, Text)],
) -> Option<&'a Text>
    requires { (name : List ℕ) → option_copied (get bytes_eq names.now name) ≡ right_of pairs.now name }
    ensures { option_copied result ≡ first_twice (get bytes_eq counts.now)
        (values (filter_map (right_of pairs.now) source.now)) }
{
    if has_repeated(counts, source, names, pairs) {
        first_new_name(counts, source.variables(), names)
    } else {
        None
    }
}

/// Whether a new name of one of a source's variables was counted more than once.
fn has_repeated(
    counts: &IndexMap<Text, Times>,
    source: &VariableNames,
    names: &NewNames,
    pairs: &[(Text, Text)],
) -> bool
    requires { (name : List ℕ) → option_copied (get bytes_eq names.now name) ≡ right_of pairs.now name }
    ensures { IsFalse result → first_twice (get bytes_eq counts.now)
        (values (filter_map (right_of pairs.now) source.now)) ≡ None }
{
    for (left, _) in pairs {
        if gives_repeated(counts, source, names, left) {
            return true;
        }
    }
    false
}

/// Whether a variable of a source has this name, and a new name that was counted more than once.
fn gives_repeated(
    counts: &IndexMap<Text, Times>,
    source: &VariableNames,
    names: &NewNames,
    name: &Text,
) -> bool
    ensures { IsFalse result → 0 < count_by (λ other. bytes_eq other name.now) source.now
        → first_twice (get bytes_eq counts.now)
        (values (option_to_list (option_copied (get bytes_eq names.now name.now)))) ≡ None }
{
    if source.times(name) > 0 {
        repeated_value(counts, names.get(name).copied()).is_some()
    } else {
        false
    }
}

/// The first new name of these variables that was counted more than once.
fn first_new_name<'a>(
    counts: &IndexMap<Text, Times>,
    variables: &[Variable],
    names: &NewNames<'a>,
) -> Option<&'a Text>
    ensures { (pairs : List (List ℕ × List ℕ))
        → ((name : List ℕ) → option_copied (get bytes_eq names.now name) ≡ right_of pairs name)
        → option_copied result ≡ first_twice (get bytes_eq counts.now)
        (values (filter_map (right_of pairs) (map (λ v. v.name) variables.now))) }
{
    for variable in variables {
        if let Some(name) = repeated_value(counts, names.get(&variable.name).copied()) {
            return Some(name);
        }
    }
    None
}

/// A name that was counted more than once as a value, if there is a name.
fn repeated_value<'a>(counts: &IndexMap<Text, Times>, name: Option<&'a Text>) -> Option<&'a Text>
    ensures { option_copied result ≡ first_twice (get bytes_eq counts.now)
        (values (option_to_list (option_copied name.entry))) }
{
    match name {
        Some(name) => repeated_name(counts, Kind::Value, name),
        None => None,
    }
}

/// A name that was counted more than once as this.
fn repeated_name<'a>(counts: &IndexMap<Text, Times>, kind: Kind, name: &'a Text) -> Option<&'a Text>
    ensures { option_copied result ≡ first_twice (get bytes_eq counts.now) ((kind, name.now) ∷ []) }
{
    if counted_times(counts, kind, name) > 1 {
        Some(name)
    } else {
        None
    }
}

/// How often a name was counted as this.
fn counted_times(counts: &IndexMap<Text, Times>, kind: Kind, name: &Text) -> usize
    ensures { result ≡ times kind (unwrap_or (get bytes_eq counts.now name.now) never) }
{
    match counts.get(name) {
        Some(counted) => match kind {
            Kind::Value => counted.values,
            Kind::Module => counted.modules,
            Kind::Label => counted.labels,
        },
        None => 0,
    }
}

/// How often each declaration stands among these and others before them.
fn count_all(
    alloc: Global,
    before: &[Group],
    declared: &[Group],
) -> Result<IndexMap<Text, Times>, AllocError>
    ensures { IfOk result (λ counts. Adds (λ _. None) (get bytes_eq counts)
        (flat_map stated before.now ++ flat_map stated declared.now)) }
{
    let mut counts: IndexMap<Text, Times> = IndexMap::new(alloc);
    count_groups(alloc, &mut counts, before)?;
    count_groups(alloc, &mut counts, declared)?;
    Ok(counts)
}

/// Counts the declarations of groups.
fn count_groups(
    alloc: Global,
    counts: &mut IndexMap<Text, Times>,
    groups: &[Group],
) -> Result<(), AllocError>
    ensures { OnOk result (Adds (get bytes_eq counts.old) (get bytes_eq counts.new) (flat_map stated groups.now)) }
{
    for group in groups {
        count_group(alloc, counts, group)?;
    }
    Ok(())
}

/// Counts the declarations of a group.
fn count_group(
    alloc: Global,
    counts: &mut IndexMap<Text, Times>,
    group: &Group,
) -> Result<(), AllocError>
    ensures { OnOk result (Adds (get bytes_eq counts.old) (get bytes_eq counts.new) (stated group.now)) }
{
    match group {
        Group::One { kind, name } => count(alloc, counts, *kind, name, 1),
        Group::Copies { source, pairs } => count_new_names(alloc, counts, source, pairs),
    }
}

/// Counts the new names that pairs give to the variables of a source: each right name as often as its left name stands
/// among them, where no pair before has the same left name.
fn count_new_names(
    alloc: Global,
    counts: &mut IndexMap<Text, Times>,
    source: &VariableNames,
    pairs: &[(Text, Text)],
) -> Result<(), AllocError>
    ensures { OnOk result (Adds (get bytes_eq counts.old) (get bytes_eq counts.new)
        (values (filter_map (right_of pairs.now) source.now))) }
{
    let mut names: NewNames = IndexMap::new(alloc);
    for (left, right) in pairs {
        count_new_name(alloc, counts, source, &mut names, left, right)?;
    }
    Ok(())
}

/// Counts a right name as often as its left name stands among the variables of a source, where that has no new name yet.
fn count_new_name<'a>(
    alloc: Global,
    counts: &mut IndexMap<Text, Times>,
    source: &VariableNames,
    names: &mut NewNames<'a>,
    left: &Text,
    right: &'a Text,
) -> Result<(), AllocError>
    ensures named { OnOk result ((n : List ℕ) → option_copied (get bytes_eq names.new n)
        ≡ option_or (option_copied (get bytes_eq names.old n)) (cond (bytes_eq left.now n) (Some right.entry.now) None)) }
    ensures counted { OnOk result (AddsTimes (get bytes_eq counts.old) (get bytes_eq counts.new)
        (Kind.Value, right.entry.now) (cond (is_some (get bytes_eq names.old left.now)) 0
        (count_by (λ other. bytes_eq other left.now) source.now))) }
{
    let more = times_unless_named(source, names, left);
    count(alloc, counts, Kind::Value, right, more)?;
    put_first(alloc, names, left, right)
}

/// How many of a source's variables have a name, or 0 where the name has a new one already.
fn times_unless_named(source: &VariableNames, names: &NewNames, name: &Text) -> usize
    ensures { result ≡ cond (is_some (get bytes_eq names.now name.now)) 0
        (count_by (λ other. bytes_eq other name.now) source.now) }
{
    match names.get(name) {
        Some(_) => 0,
        None => source.times(name),
    }
}

/// Counts a declaration so many times more.
fn count(
    alloc: Global,
    counts: &mut IndexMap<Text, Times>,
    kind: Kind,
    name: &Text,
    more: usize,
) -> Result<(), AllocError>
    ensures { OnOk result (AddsTimes (get bytes_eq counts.old) (get bytes_eq counts.new) (kind, name.now) more) }
{
    let before = counts.get(name).copied().unwrap_or(Times {
        values: 0,
        modules: 0,
        labels: 0,
    });
    counts.insert(name.copy(alloc)?, more_times(before, kind, more))?;
    Ok(())
}

/// So many declarations more of this kind.
fn more_times(before: Times, kind: Kind, more: usize) -> Times
    ensures { result ≡ more_times kind more before }
{
    match kind {
        Kind::Value => Times {
            values: before.values.saturating_add(more),
            ..before
        },
        Kind::Module => Times {
            modules: before.modules.saturating_add(more),
            ..before
        },
        Kind::Label => Times {
            labels: before.labels.saturating_add(more),
            ..before
        },
    }
}
