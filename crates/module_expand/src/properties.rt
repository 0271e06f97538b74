ghost use Rattle.std.specs.Prelude.{◌≡◌, ◌⊎◌, ◌∷◌, [], IfOk, IfErr, OnOk, List, ℕ, Option, Some, None, cond, bytes_eq};
ghost use Rattle.std.specs.Option.{option_or};
ghost use Rattle.indexmap.specs.IndexMap.{get};
ghost use Rattle.prism_syntax.specs.WellFormed.{IsFormedProperty, IsFormedFlat};
ghost use Rattle.prism_syntax.specs.declared.expressions.Expr.{Expr as Tree};
ghost use Rattle.prism_syntax.specs.declared.expressions.Expr.TheVariants as e;
ghost use Rattle.prism_syntax.specs.Replaced.{replaced};
ghost use Rattle.module_expand.specs.Expanded.{stands_for};
ghost use Rattle.module_expand.specs.Listed.{AreTooLarge};
ghost use Rattle.module_expand.specs.Properties.{flat_property, flat_path, property_exprs, path_exprs, time_expr};
ghost use Rattle.module_expand.specs.Refusals.{IsOutOfMemory};
ghost use Rattle.module_expand.specs.Sizes.{IsSize, AreSizes};

use crate::fault::ExpandFault;
use crate::pairs::both;
use crate::sizes::{Size, Sizes, measure, own_size};
use crate::tables::put_first;
use indexmap::IndexMap;
use prism_syntax::{Expr, FlatText, Named, PathText, Property, Time};
use smc_num::Text;
use sqlite_items::Boxed;
use std::alloc::{AllocError, Global};

/// A property in whose state formulas the formulas of a flat text are replaced by their trees.
pub fn in_property(
    alloc: Global,
    property: &Property,
    flat: &FlatText,
) -> Result<Property, ExpandFault>
    ensures replaced { IfOk result (λ p. p ≡ flat_property (stands_for flat.now.formulas) property.now) }
    ensures within { IfOk result (λ p. ¬ AreTooLarge (property_exprs p)) }
    ensures refused { IfErr result (λ fault. IsOutOfMemory fault
        ⊎ ((fault ≡ ExpandFault.TooLarge)
        × AreTooLarge (property_exprs (flat_property (stands_for flat.now.formulas) property.now)))) }
    ensures formed { IfOk result (λ p. IsFormedFlat flat.now → IsFormedProperty property.now → IsFormedProperty p) }
{
    let formulas = flat.formulas.as_slice();
    match size_in_property(alloc, property, formulas) {
        Ok(size) => {
            if size.is_too_large() {
                Err(ExpandFault::TooLarge)
            } else {
                property_with(alloc, property, formulas)
            }
        }
        Err(error) => Err(ExpandFault::OutOfMemory(error)),
    }
}

/// The size that a property has once these formulas are replaced in it. No tree is built.
fn size_in_property(
    alloc: Global,
    property: &Property,
    formulas: &[Named],
) -> Result<Size, AllocError>
    ensures { IfOk result (λ size. IsSize size (property_exprs (flat_property (stands_for formulas.now) property.now))) }
{
    let sizes = body_sizes(alloc, formulas)?;
    Ok(measure_property(property, &sizes))
}

/// A property in which these formulas are replaced, where there is memory.
fn property_with(
    alloc: Global,
    property: &Property,
    formulas: &[Named],
) -> Result<Property, ExpandFault>
    ensures replaced { IfOk result (λ p. p ≡ flat_property (stands_for formulas.now) property.now) }
    ensures memory { IfErr result IsOutOfMemory }
{
    match body_trees(alloc, formulas) {
        Ok(trees) => match replace_in_property(alloc, property, &trees) {
            Ok(replaced) => Ok(replaced),
            Err(error) => Err(ExpandFault::OutOfMemory(error)),
        },
        Err(error) => Err(ExpandFault::OutOfMemory(error)),
    }
}

/// The sizes of the trees that expanded formulas' names stand for.
fn body_sizes(alloc: Global, formulas: &[Named]) -> Result<Sizes, AllocError>
    ensures { IfOk result (λ sizes. AreSizes (get bytes_eq sizes) (stands_for formulas.now)) }
{
    let mut sizes = IndexMap::new(alloc);
    for formula in formulas {
        let size = own_size(&formula.body).in_parens();
        put_first(alloc, &mut sizes, &formula.name, size)?;
    }
    Ok(sizes)
}

/// The trees that expanded formulas' names stand for.
fn body_trees(alloc: Global, formulas: &[Named]) -> Result<IndexMap<Text, Expr>, AllocError>
    ensures { IfOk result (λ trees. (name : List ℕ) → get bytes_eq trees name ≡ stands_for formulas.now name) }
{
    let mut trees = IndexMap::new(alloc);
    for formula in formulas {
        put_body(alloc, &mut trees, formula)?;
    }
    Ok(trees)
}

/// Puts the tree that an expanded formula's name stands for under its name, unless there is one already.
fn put_body(
    alloc: Global,
    trees: &mut IndexMap<Text, Expr>,
    formula: &Named,
) -> Result<(), AllocError>
    ensures { OnOk result ((n : List ℕ) → get bytes_eq trees.new n ≡ option_or (get bytes_eq trees.old n)
        (cond (bytes_eq formula.now.name n) (Some (e.Paren formula.now.body)) None)) }
{
    let body = Boxed::new(alloc, formula.body.copy(alloc)?)?;
    put_first(alloc, trees, &formula.name, Expr::Paren(body))
}

/// The size that the expressions of a property have once the names of its state formulas are replaced.
fn measure_property(property: &Property, sizes: &Sizes) -> Size
    ensures { (by : List ℕ → Option Tree) → AreSizes (get bytes_eq sizes.now) by
        → IsSize result (property_exprs (flat_property by property.now)) }
{
    own_size(&property.bound).plus(measure_path(&property.path, sizes))
}

/// The size of a path formula's expressions.
fn measure_path(path: &PathText, sizes: &Sizes) -> Size
    ensures { (by : List ℕ → Option Tree) → AreSizes (get bytes_eq sizes.now) by
        → IsSize result (path_exprs (flat_path by path.now)) }
{
    match path {
        PathText::Next(state) => measure(state, sizes),
        PathText::Finally(time, state) => measure_time(time).plus(measure(state, sizes)),
        PathText::Globally(time, state) => measure_time(time).plus(measure(state, sizes)),
        PathText::Until(first, time, second) => measure(first, sizes).plus(measure_time(time).plus(
            measure(second, sizes),
        )),
    }
}

/// The size of a time's expression.
fn measure_time(time: &Time) -> Size
    ensures { IsSize result (time_expr time.now ∷ []) }
{
    match time {
        Time::Upto { last, .. } => own_size(last),
    }
}

/// A property in whose state formulas names are replaced.
fn replace_in_property(
    alloc: Global,
    property: &Property,
    trees: &IndexMap<Text, Expr>,
) -> Result<Property, AllocError>
    ensures { IfOk result (λ p. p ≡ flat_property (get bytes_eq trees.now) property.now) }
{
    let (bound, path) = both(
        property.bound.copy(alloc),
        replace_in_path(alloc, &property.path, trees),
    )?;
    Ok(Property {
        cmp: property.cmp,
        bound,
        path,
    })
}

/// A path formula in whose state formulas names are replaced.
fn replace_in_path(
    alloc: Global,
    path: &PathText,
    trees: &IndexMap<Text, Expr>,
) -> Result<PathText, AllocError>
    ensures { IfOk result (λ p. p ≡ flat_path (get bytes_eq trees.now) path.now) }
{
    match path {
        PathText::Next(state) => Ok(PathText::Next(state.replace(alloc, trees)?)),
        PathText::Finally(time, state) => {
            let (time, state) = replace_timed(alloc, time, state, trees)?;
            Ok(PathText::Finally(time, state))
        }
        PathText::Globally(time, state) => {
            let (time, state) = replace_timed(alloc, time, state, trees)?;
            Ok(PathText::Globally(time, state))
        }
        PathText::Until(first, time, second) => {
            replace_in_until(alloc, first, time, second, trees)
        }
    }
}

/// An until formula in whose state formulas names are replaced.
fn replace_in_until(
    alloc: Global,
    first: &Expr,
    time: &Time,
    second: &Expr,
    trees: &IndexMap<Text, Expr>,
) -> Result<PathText, AllocError>
    ensures { IfOk result (λ p. p ≡ flat_path (get bytes_eq trees.now) (PathText.Until first.now time.now second.now)) }
{
    let (first, (time, second)) = both(
        first.replace(alloc, trees),
        replace_timed(alloc, time, second, trees),
    )?;
    Ok(PathText::Until(first, time, second))
}

/// A time once more, and a state formula in which names are replaced.
fn replace_timed(
    alloc: Global,
    time: &Time,
    state: &Expr,
    trees: &IndexMap<Text, Expr>,
) -> Result<(Time, Expr), AllocError>
    ensures { IfOk result (λ parts. parts ≡ (time.now, replaced (get bytes_eq trees.now) state.now)) }
{
    both(copy_time(alloc, time), state.replace(alloc, trees))
}

/// The same time once more.
fn copy_time(alloc: Global, time: &Time) -> Result<Time, AllocError>
    ensures { IfOk result (λ copy. copy ≡ time.now) }
{
    match time {
        Time::Upto { strict, last } => Ok(Time::Upto {
            strict: *strict,
            last: last.copy(alloc)?,
        }),
    }
}
