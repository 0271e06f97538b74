use super::models::{formula, name, sum};
use crate::{ExpandFault, expand, in_property};
use prism_syntax::{
    Cmp, Expr, FlatText, Func, ModelText, Named, Op, PathText, Property, depth_of_parens, nodes,
};
use sqlite_items::{Boxed, Items};
use std::alloc::{AllocError, Global};
use std::test::Fail;

/// A model of these formulas and labels alone.
fn model_of(alloc: Global, formulas: Items<Named>, labels: Items<Named>) -> ModelText {
    ModelText {
        consts: Items::new(alloc),
        globals: Items::new(alloc),
        formulas,
        modules: Items::new(alloc),
        labels,
    }
}

/// The name of the formula of this number.
fn numbered(alloc: Global, number: u32) -> Result<String, AllocError> {
    format!(in alloc; "f{number}")
}

/// `f0 = x + x`, and each later formula the one before twice.
fn doubled(alloc: Global, last: u32) -> Result<ModelText, AllocError> {
    let mut formulas = Items::new(alloc);
    formulas.push(formula(alloc, "f0", sum(alloc, &["x", "x"])?)?)?;
    for number in 0..last {
        let before = numbered(alloc, number)?;
        let declared = numbered(alloc, number.wrapping_add(1))?;
        let body = sum(alloc, &[before.as_str(), before.as_str()])?;
        formulas.push(formula(alloc, declared.as_str(), body)?)?;
    }
    Ok(model_of(alloc, formulas, Items::new(alloc)))
}

/// The sum of one name so many times.
fn repeated(alloc: Global, part: &str, times: u32) -> Result<Expr, AllocError> {
    let mut parts = Items::new(alloc);
    let mut operators = Items::new(alloc);
    for number in 0..times {
        if number > 0 {
            operators.push(Op::Add)?;
        }
        parts.push(name(alloc, part)?)?;
    }
    Ok(Expr::Level(parts, operators))
}

/// A model of one label that is such a sum.
fn wide(alloc: Global, times: u32) -> Result<ModelText, AllocError> {
    let mut labels = Items::new(alloc);
    labels.push(formula(alloc, "l", repeated(alloc, "x", times)?)?)?;
    Ok(model_of(alloc, Items::new(alloc), labels))
}

/// How many nodes the formulas and labels of a flat text have together.
fn count(flat: &FlatText) -> u64 {
    let mut total: u64 = 0;
    for named in flat.formulas.as_slice() {
        total = total.saturating_add(nodes(&named.body));
    }
    for named in flat.labels.as_slice() {
        total = total.saturating_add(nodes(&named.body));
    }
    total
}

/// The number of nodes of the flat text; 0 where it is too large, 1 where another fault is told.
fn size_of(alloc: Global, model: &ModelText) -> u64 {
    match expand(alloc, model) {
        Ok(flat) => count(&flat),
        Err(ExpandFault::TooLarge) => 0,
        Err(_) => 1,
    }
}

#[test]
fn doubled_formulas_are_too_large_from_the_thirteenth_on(rt: HostRuntime) -> Result<(), Fail> {
    for (last, size) in [(0, 3), (1, 12), (12, 49_107), (13, 0), (59, 0), (4_000, 0)] {
        assert_eq!(rt; size_of(rt.alloc(), &doubled(rt.alloc(), last)?), size);
    }
    Ok(())
}

#[test]
fn a_flat_text_has_at_most_65_536_nodes(rt: HostRuntime) -> Result<(), Fail> {
    for (times, size) in [(2, 3), (65_535, 65_536), (65_536, 0)] {
        assert_eq!(rt; size_of(rt.alloc(), &wide(rt.alloc(), times)?), size);
    }
    Ok(())
}

/// The expression in so many calls or pairs of parentheses, each behind 64 times `!` and 64 times `-`.
fn nested(alloc: Global, inner: Expr, pairs: u32, called: bool) -> Result<Expr, AllocError> {
    let mut tree = inner;
    for _ in 0..pairs {
        tree = if called {
            call(alloc, tree)?
        } else {
            Expr::Paren(Boxed::new(alloc, tree)?)
        };
        for _ in 0..64 {
            tree = Expr::Minus(Boxed::new(alloc, tree)?);
        }
        for _ in 0..64 {
            tree = Expr::Not(Boxed::new(alloc, tree)?);
        }
    }
    Ok(tree)
}

fn call(alloc: Global, part: Expr) -> Result<Expr, AllocError> {
    let mut parts = Items::new(alloc);
    parts.push(part)?;
    Ok(Expr::Call(Func::Floor, parts))
}

/// A formula in 32 calls with signs before them, and a label of this formula in so many pairs of parentheses with
/// signs.
fn deep(alloc: Global, pairs: u32) -> Result<ModelText, AllocError> {
    let mut formulas = Items::new(alloc);
    formulas.push(formula(alloc, "f0", nested(alloc, name(alloc, "x")?, 32, true)?)?)?;
    let mut labels = Items::new(alloc);
    labels.push(formula(alloc, "l", nested(alloc, name(alloc, "f0")?, pairs, false)?)?)?;
    Ok(model_of(alloc, formulas, labels))
}

/// How deep the parentheses of the last label of a flat text are nested.
fn depth(flat: &FlatText) -> u64 {
    match flat.labels.as_slice() {
        [.., label] => depth_of_parens(&label.body),
        [] => 0,
    }
}

/// The number of nodes of the flat text and how deep its label's parentheses are nested; 0 where it is too large.
fn size_of_deep(alloc: Global, model: &ModelText) -> (u64, u64) {
    match expand(alloc, model) {
        Ok(flat) => (count(&flat), depth(&flat)),
        Err(ExpandFault::TooLarge) => (0, 0),
        Err(_) => (1, 1),
    }
}

#[test]
fn a_flat_text_has_at_most_64_pairs_of_parentheses_within_one_another(
    rt: HostRuntime,
) -> Result<(), Fail> {
    for (pairs, size) in [(0, (8_259, 1)), (63, (16_386, 64)), (64, (0, 0))] {
        assert_eq!(rt; size_of_deep(rt.alloc(), &deep(rt.alloc(), pairs)?), size);
    }
    Ok(())
}

/// The property `P>=f [ X f+f+.. ]`, in which the formula's name stands in the bound and so often in the state formula.
fn property(alloc: Global, used: &str, times: u32) -> Result<Property, AllocError> {
    Ok(Property {
        cmp: Cmp::AtLeast,
        bound: name(alloc, used)?,
        path: PathText::Next(repeated(alloc, used, times)?),
    })
}

/// The number of nodes of the property's bound and of its state formula.
fn sizes(property: &Property) -> (u64, u64) {
    match &property.path {
        PathText::Next(state) => (nodes(&property.bound), nodes(state)),
        _ => (1, 1),
    }
}

/// The same of the property in which formulas are replaced; 0 where it is too large.
fn sizes_in(alloc: Global, property: &Property, flat: &FlatText) -> (u64, u64) {
    match in_property(alloc, property, flat) {
        Ok(replaced) => sizes(&replaced),
        Err(ExpandFault::TooLarge) => (0, 0),
        Err(_) => (0, 1),
    }
}

/// The same over a model in which formulas are doubled.
fn size_in_property(
    alloc: Global,
    last: u32,
    used: &str,
    times: u32,
) -> Result<(u64, u64), AllocError> {
    match expand(alloc, &doubled(alloc, last)?) {
        Ok(flat) => Ok(sizes_in(alloc, &property(alloc, used, times)?, &flat)),
        Err(_) => Ok((2, 2)),
    }
}

#[test]
fn formulas_are_replaced_in_the_state_formulas_alone(rt: HostRuntime) -> Result<(), Fail> {
    let cases = [
        (2, "f2", 2, (1, 45)),
        (2, "g", 3, (1, 4)),
        (12, "f12", 2, (1, 49_149)),
        (12, "f12", 3, (0, 0)),
        (0, "g", 65_534, (1, 65_535)),
        (0, "g", 65_535, (0, 0)),
    ];
    for (last, used, times, size) in cases {
        assert_eq!(rt; size_in_property(rt.alloc(), last, used, times)?, size);
    }
    Ok(())
}
