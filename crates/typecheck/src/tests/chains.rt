//! The parts of an accepted chain, and properties over it.

use super::expressions::{consts, read};
use super::models::{Told, flat_text, told_fault};
use crate::{Item, check, path};
use chain_model::{Chain, Claim, Path, PathKind};
use const_eval::Consts;
use prism_syntax::{Cmp, PathText, Property, Time};
use smc_num::NumFault;
use std::alloc::Global;
use std::test::Fail;

/// A global, and two modules that take an action together. The second takes another alone.
const MODEL: &str = "#g 0 k 1;@n;#x 0 1 0;$b T;[a] T H:x1 H:x0;[] b :g1;@o;[a] T :;[c] T :;\"l x1=";

/// How many variables, commands and actions a chain has.
fn counts(chain: &Chain) -> (usize, usize, usize) {
    (chain.vars.len(), chain.commands.len(), chain.actions.len())
}

/// The model's chain, where it is not refused.
fn model_chain(alloc: Global, known: &Consts) -> Result<Option<Chain>, Fail> {
    let flat = flat_text(alloc, MODEL)?;
    match check(alloc, &flat, known) {
        Ok(chain) => Ok(Some(chain)),
        Err(_) => Ok(None),
    }
}

fn model_counts(alloc: Global, known: &Consts) -> Result<Option<(usize, usize, usize)>, Fail> {
    match model_chain(alloc, known)? {
        Some(chain) => Ok(Some(counts(&chain))),
        None => Ok(None),
    }
}

#[test]
fn an_accepted_chain_has_each_part_of_the_text(rt: HostRuntime) -> Result<(), Fail> {
    let known = consts(rt.alloc())?;
    assert_eq!(rt; model_counts(rt.alloc(), &known)?, Some((3, 4, 2)));
    Ok(())
}

/// The bound, the last step, which is strict, and the formula of `P<bound [ F<last formula ]`.
type Row = (&'static str, &'static str, &'static str, Told);

static PROPERTIES: [Row; 8] = [
    ("H", "7", "Lx1=&", Told::Accepted),
    ("H", "7", "q1=", Told::UnknownName(b'q')),
    ("x", "7", "T", Told::UnknownName(b'x')),
    ("H", "7", "LM&", Told::UnknownLabel(b'm')),
    ("H", "7", "x", Told::WrongType(Item::Property)),
    ("H", "H", "T", Told::WrongType(Item::Property)),
    (
        "10/",
        "7",
        "T",
        Told::BadNumber(Item::Property, NumFault::ZeroDivisor),
    ),
    ("H", "0", "T", Told::BadHorizon),
];

/// The property of a row.
fn written(alloc: Global, row: &Row) -> Result<Property, Fail> {
    let bound = read(alloc, row.0.as_bytes())?;
    let last = read(alloc, row.1.as_bytes())?;
    let formula = read(alloc, row.2.as_bytes())?;
    Ok(Property {
        cmp: Cmp::Below,
        bound,
        path: PathText::Finally(Time::Upto { strict: true, last }, formula),
    })
}

/// Whether a formula speaks of the states up to number 6, and at most a half is claimed of it.
fn is_as_written(formula: &Path, claim: &Claim) -> bool {
    formula.kind == PathKind::Finally(6)
        && claim.at_most
        && claim.theta.num() == 1
        && claim.theta.den() == 2
}

fn told_formula(formula: &Path, claim: &Claim) -> Told {
    if is_as_written(formula, claim) {
        Told::Accepted
    } else {
        Told::Nothing
    }
}

/// What is told of a property over a chain.
fn tell_over(alloc: Global, property: &Property, known: &Consts, chain: &Chain) -> Told {
    match path(alloc, property, known, chain) {
        Ok((formula, claim)) => told_formula(&formula, &claim),
        Err(fault) => told_fault(&fault),
    }
}

/// What is told of a property over the model's chain.
fn tell_over_model(alloc: Global, property: &Property, known: &Consts) -> Result<Told, Fail> {
    match model_chain(alloc, known)? {
        Some(chain) => Ok(tell_over(alloc, property, known, &chain)),
        None => Ok(Told::Nothing),
    }
}

fn tell_row(alloc: Global, row: &Row, known: &Consts) -> Result<Told, Fail> {
    let property = written(alloc, row)?;
    tell_over_model(alloc, &property, known)
}

#[test]
fn a_property_is_a_path_formula_and_a_claim_or_refused(rt: HostRuntime) -> Result<(), Fail> {
    let known = consts(rt.alloc())?;
    for row in PROPERTIES.iter() {
        assert_eq!(rt; tell_row(rt.alloc(), row, &known)?, row.3);
    }
    Ok(())
}
