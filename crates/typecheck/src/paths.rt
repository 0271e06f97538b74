ghost use Rattle.std.specs.Prelude.{◌≡◌, ◌⊎◌, ◌++◌, List, ℕ, IfOk, IfErr, OnOk, Ok, None, Some, true, bytes_eq};
ghost use Rattle.indexmap.specs.IndexMap.{get};
ghost use Rattle.chain_model.specs.Paths.{IsPath};
ghost use Rattle.typed_trees.specs.Leaves.{numbered};
ghost use Rattle.typed_trees.specs.Scopes.{IsTable, name_in, label_in, tree_in};
ghost use Rattle.typed_trees.specs.Numbers.{constant_value};
ghost use Rattle.typecheck.specs.declared.fault.TypeFault.{TypeFault};
ghost use Rattle.typecheck.specs.Refusals.{IsTold, Tells, failing, IsOutOfMemory};
ghost use Rattle.typecheck.specs.Names.{unknown_in};
ghost use Rattle.typecheck.specs.Formulas.{formulas_of, last_of, is_at_most};
ghost use Rattle.typecheck.specs.Numbers.{number_fault};
ghost use Rattle.typecheck.specs.Paths.{built_in, sorts_of_variables, HasKind, IsTypedAs, IsPathOf};
ghost use Rattle.typecheck.specs.PathRefusals.{unknown_in_path, unknown_in_property, unknown_label_in_path, property_fits, time_fault, first_fault, HasNoHorizon, IsRefusedAs, IsRefusedProperty};

use crate::fault::{Item, TypeFault};
use crate::formulas::{formulas_of, numbers_fit};
use crate::horizons::{number_in, path_kind};
use crate::known::{unknown_in, unknown_label_in};
use crate::numbers::fraction;
use crate::pairs::both;
use crate::tables::{label_table, variable_table};
use chain_model::{Chain, Claim, Path, PathKind, Typed, Value};
use const_eval::Consts;
use indexmap::IndexMap;
use prism_syntax::{Cmp, PathText, Property, Time};
use smc_num::Text;
use std::alloc::{AllocError, Global};
use typed_trees::Scope;

/// The path formula of a property over a chain with its constants, and what the property claims of it.
pub fn path(
    alloc: Global,
    property: &Property,
    consts: &Consts,
    chain: &Chain,
) -> Result<(Path, Claim), TypeFault>
    ensures path { IfOk result (λ made. IsPathOf consts.now chain.now property.now made.0 made.1) }
    ensures formed { IfOk result (λ made. IsPath chain.now.vars made.0) }
    ensures accepted { IfOk result (λ made. (fault : TypeFault) → ¬ IsRefusedProperty consts.now chain.now property.now fault) }
    ensures refused { IfErr result (λ fault. IsOutOfMemory fault ⊎ IsRefusedProperty consts.now chain.now property.now fault) }
{
    match names_of(alloc, chain) {
        Ok(names) => path_over(alloc, property, consts, chain, &names),
        Err(error) => Err(TypeFault::OutOfMemory(error)),
    }
}

/// What the names of variables and of labels stand for. The last table has no name.
#[derive(Drop)]
struct Names {
    variables: IndexMap<Text, Typed>,
    labels: IndexMap<Text, Typed>,
    nothing: IndexMap<Text, Typed>,
}

/// What the names of a chain's variables and labels stand for.
fn names_of(alloc: Global, chain: &Chain) -> Result<Names, AllocError>
    ensures variables { IfOk result (λ names. IsTable names.variables (numbered (sorts_of_variables chain.now.vars))) }
    ensures labels { IfOk result (λ names. IsTable names.labels (built_in ++ chain.now.labels)) }
    ensures nothing { IfOk result (λ names. (name : List ℕ) → get bytes_eq names.nothing name ≡ None) }
{
    let variables = variable_table(alloc, chain.vars.as_slice())?;
    let labels = label_table(alloc, chain.labels.as_slice())?;
    Ok(Names {
        variables,
        labels,
        nothing: IndexMap::new(alloc),
    })
}

/// The path formula of a property over a chain whose names stand for this, and what the property claims of it.
fn path_over(
    alloc: Global,
    property: &Property,
    consts: &Consts,
    chain: &Chain,
    names: &Names,
) -> Result<(Path, Claim), TypeFault>
    requires variables { IsTable names.now.variables (numbered (sorts_of_variables chain.now.vars)) }
    requires labels { IsTable names.now.labels (built_in ++ chain.now.labels) }
    requires nothing { (name : List ℕ) → get bytes_eq names.now.nothing name ≡ None }
    ensures path { IfOk result (λ made. IsPathOf consts.now chain.now property.now made.0 made.1) }
    ensures formed { IfOk result (λ made. IsPath chain.now.vars made.0) }
    ensures accepted { IfOk result (λ made. (fault : TypeFault) → ¬ IsRefusedProperty consts.now chain.now property.now fault) }
    ensures refused { IfErr result (λ fault. IsOutOfMemory fault ⊎ IsRefusedProperty consts.now chain.now property.now fault) }
{
    let constants = Scope {
        consts,
        variables: &names.nothing,
        labels: &names.nothing,
    };
    let scope = Scope {
        consts,
        variables: &names.variables,
        labels: &names.labels,
    };
    typed_property(alloc, property, consts, &constants, &scope)
}

/// The path formula and the claim of a property, where names and labels stand for what scopes say.
fn typed_property(
    alloc: Global,
    property: &Property,
    consts: &Consts,
    constants: &Scope<'_>,
    scope: &Scope<'_>,
) -> Result<(Path, Claim), TypeFault>
    ensures typed { IfOk result (λ made. IsTypedAs (name_in scope.now) (label_in scope.now) (constant_value consts.now) property.now made.0 made.1) }
    ensures accepted { IfOk result (λ made. (fault : TypeFault) → ¬ IsRefusedAs (tree_in constants.now) (tree_in scope.now)
        (name_in constants.now) (name_in scope.now) (label_in scope.now) (constant_value consts.now) property.now fault) }
    ensures refused { IfErr result (λ fault. IsOutOfMemory fault ⊎ IsRefusedAs (tree_in constants.now) (tree_in scope.now)
        (name_in constants.now) (name_in scope.now) (label_in scope.now) (constant_value consts.now) property.now fault) }
{
    refuse_unknown_names(alloc, property, constants, scope)?;
    refuse_unknown_labels(alloc, &property.path, scope)?;
    let ((first, second), (bound, kind)) = both(
        typed_formulas(alloc, property, constants, scope),
        numbers_of(alloc, property, consts),
    )?;
    let path = Path {
        kind,
        first,
        second,
    };
    let claim = Claim {
        theta: fraction(&bound),
        at_most: is_at_most(property.cmp),
    };
    Ok((path, claim))
}

/// The value of a property's bound, and the kind of its path formula.
fn numbers_of(
    alloc: Global,
    property: &Property,
    consts: &Consts,
) -> Result<(Value, PathKind), TypeFault>
    ensures bound { IfOk result (λ numbers. constant_value consts.now property.now.bound ≡ Ok numbers.0) }
    ensures kind { IfOk result (λ numbers. HasKind (constant_value consts.now) property.now.path numbers.1) }
    ensures valued { OnOk result (time_fault (constant_value consts.now) property.now.path ≡ None) }
    ensures told { IfErr result (λ fault. IsOutOfMemory fault
        ⊎ Tells (first_fault (constant_value consts.now) property.now) (λ found f. f ≡ TypeFault.BadNumber Item.Property (number_fault found))
        (λ f. (f ≡ TypeFault.BadHorizon) × HasNoHorizon (constant_value consts.now) property.now.path) fault) }
{
    let bound = number_in(alloc, consts, &property.bound)?;
    let kind = path_kind(alloc, consts, &property.path)?;
    Ok((bound, kind))
}

/// Refuses a property in which a name stands for nothing.
fn refuse_unknown_names(
    alloc: Global,
    property: &Property,
    constants: &Scope<'_>,
    scope: &Scope<'_>,
) -> Result<(), TypeFault>
    ensures known { OnOk result (unknown_in_property (name_in constants.now) (name_in scope.now) property.now ≡ None) }
    ensures told { IfErr result (λ fault. IsOutOfMemory fault
        ⊎ IsTold (unknown_in_property (name_in constants.now) (name_in scope.now) property.now) (λ name f. f ≡ TypeFault.UnknownName name) fault) }
{
    match unknown_in_property(alloc, property, constants, scope).map_err(TypeFault::OutOfMemory)? {
        Some(name) => Err(TypeFault::UnknownName { name }),
        None => Ok(()),
    }
}

/// The first name of a property, in text order, that stands for nothing.
fn unknown_in_property(
    alloc: Global,
    property: &Property,
    constants: &Scope<'_>,
    scope: &Scope<'_>,
) -> Result<Option<Text>, AllocError>
    ensures { IfOk result (λ found. found ≡ unknown_in_property (name_in constants.now) (name_in scope.now) property.now) }
{
    match unknown_in(alloc, constants, &property.bound)? {
        Some(name) => Ok(Some(name)),
        None => unknown_in_path(alloc, &property.path, constants, scope),
    }
}

/// The first name of a path, in text order, that stands for nothing.
fn unknown_in_path(
    alloc: Global,
    path: &PathText,
    constants: &Scope<'_>,
    scope: &Scope<'_>,
) -> Result<Option<Text>, AllocError>
    ensures { IfOk result (λ found. found ≡ unknown_in_path (name_in constants.now) (name_in scope.now) path.now) }
{
    match path {
        PathText::Next(formula) => unknown_in(alloc, scope, formula),
        PathText::Finally(time, formula) => match unknown_in_time(alloc, constants, time)? {
            Some(name) => Ok(Some(name)),
            None => unknown_in(alloc, scope, formula),
        },
        PathText::Globally(time, formula) => match unknown_in_time(alloc, constants, time)? {
            Some(name) => Ok(Some(name)),
            None => unknown_in(alloc, scope, formula),
        },
        PathText::Until(first, time, second) => {
            if let Some(name) = unknown_in(alloc, scope, first)? {
                return Ok(Some(name));
            }
            match unknown_in_time(alloc, constants, time)? {
                Some(name) => Ok(Some(name)),
                None => unknown_in(alloc, scope, second),
            }
        }
    }
}

/// The first name of a time that stands for nothing.
fn unknown_in_time(
    alloc: Global,
    constants: &Scope<'_>,
    time: &Time,
) -> Result<Option<Text>, AllocError>
    ensures { IfOk result (λ found. found ≡ unknown_in (name_in constants.now) (last_of time.now)) }
{
    match time {
        Time::Upto { last, .. } => unknown_in(alloc, constants, last),
    }
}

/// Refuses a path that names a label that is not there.
fn refuse_unknown_labels(alloc: Global, path: &PathText, scope: &Scope<'_>) -> Result<(), TypeFault>
    ensures known { OnOk result (unknown_label_in_path (label_in scope.now) path.now ≡ None) }
    ensures told { IfErr result (λ fault. IsOutOfMemory fault
        ⊎ IsTold (unknown_label_in_path (label_in scope.now) path.now) (λ name f. f ≡ TypeFault.UnknownLabel name) fault) }
{
    match unknown_label_in_path(alloc, path, scope).map_err(TypeFault::OutOfMemory)? {
        Some(name) => Err(TypeFault::UnknownLabel { name }),
        None => Ok(()),
    }
}

/// The first label of a path, in text order, that is not there.
fn unknown_label_in_path(
    alloc: Global,
    path: &PathText,
    scope: &Scope<'_>,
) -> Result<Option<Text>, AllocError>
    ensures { IfOk result (λ found. found ≡ unknown_label_in_path (label_in scope.now) path.now) }
{
    match path {
        PathText::Next(formula) => unknown_label_in(alloc, scope, formula),
        PathText::Finally(_, formula) => unknown_label_in(alloc, scope, formula),
        PathText::Globally(_, formula) => unknown_label_in(alloc, scope, formula),
        PathText::Until(first, _, second) => match unknown_label_in(alloc, scope, first)? {
            Some(name) => Ok(Some(name)),
            None => unknown_label_in(alloc, scope, second),
        },
    }
}

/// The trees of a property's state formulas, or that its sorts do not fit.
fn typed_formulas(
    alloc: Global,
    property: &Property,
    constants: &Scope<'_>,
    scope: &Scope<'_>,
) -> Result<(Typed, Typed), TypeFault>
    ensures trees { IfOk result (λ trees. formulas_of (tree_in scope.now) property.now.path ≡ Some (trees.0, trees.1)) }
    ensures fit { OnOk result (property_fits (tree_in constants.now) (tree_in scope.now) property.now ≡ true) }
    ensures told { IfErr result (λ fault. IsOutOfMemory fault
        ⊎ IsTold (failing (property_fits (tree_in constants.now) (tree_in scope.now) property.now)) (λ _ f. f ≡ TypeFault.WrongType Item.Property) fault) }
{
    if !numbers_fit(alloc, constants, property).map_err(TypeFault::OutOfMemory)? {
        return Err(TypeFault::WrongType {
            item: Item::Property,
        });
    }
    match formulas_of(alloc, scope, &property.path).map_err(TypeFault::OutOfMemory)? {
        Some(trees) => Ok(trees),
        None => Err(TypeFault::WrongType {
            item: Item::Property,
        }),
    }
}

/// Whether a property claims that the probability is at most its bound.
fn is_at_most(cmp: Cmp) -> bool
    ensures { result ≡ is_at_most cmp }
{
    match cmp {
        Cmp::AtMost | Cmp::Below => true,
        Cmp::AtLeast | Cmp::Above => false,
    }
}
