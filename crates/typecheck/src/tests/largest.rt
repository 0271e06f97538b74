//! The largest models, and those that are larger by one.

use super::expressions::{consts, name};
use super::models::{Told, tell};
use chain_model::limits::{MOST_BRANCHES, MOST_COMMANDS, MOST_MODULES, MOST_VARIABLES};
use prism_syntax::{Branch, Command, Expr, FlatText, Module, Variable};
use smc_num::Text;
use sqlite_items::Items;
use std::alloc::{AllocError, Global};
use std::test::Fail;

/// How many modules, variables, commands, and branches of the first command.
type Size = (usize, usize, usize, usize);

static SIZES: [(Size, Told); 5] = [
    (
        (MOST_MODULES, MOST_VARIABLES, MOST_COMMANDS, MOST_BRANCHES),
        Told::Accepted,
    ),
    ((MOST_MODULES + 1, 1, 1, 1), Told::TooLarge),
    ((1, MOST_VARIABLES + 1, 1, 1), Told::TooLarge),
    ((1, 1, MOST_COMMANDS + 1, 1), Told::TooLarge),
    ((1, 1, 1, MOST_BRANCHES + 1), Told::TooLarge),
];

/// A name of two letters for each number.
fn numbered(alloc: Global, number: usize) -> Result<Text, AllocError> {
    Text::from_bytes(
        alloc,
        &[b'a' + (number / 26 % 26) as u8, b'a' + (number % 26) as u8],
    )
}

fn booleans(alloc: Global, count: usize) -> Result<Items<Variable>, AllocError> {
    let mut list = Items::new(alloc);
    for number in 0..count {
        list.push(Variable {
            name: numbered(alloc, number)?,
            range: None,
            init: None,
        })?;
    }
    Ok(list)
}

fn branches(alloc: Global, count: usize) -> Result<Items<Branch>, AllocError> {
    let mut list = Items::new(alloc);
    for _ in 0..count {
        list.push(Branch {
            weight: None,
            sets: Items::new(alloc),
        })?;
    }
    Ok(list)
}

/// Commands, of which the first has so many branches, each with an action of its own.
fn commands(alloc: Global, count: usize, width: usize) -> Result<Items<Command>, AllocError> {
    let mut list = Items::new(alloc);
    for number in 0..count {
        list.push(Command {
            action: Some(numbered(alloc, number)?),
            guard: Expr::Truth(true),
            branches: branches(alloc, if number == 0 { width } else { 1 })?,
        })?;
    }
    Ok(list)
}

/// A module of variables and commands, and modules of nothing.
fn modules(alloc: Global, size: &Size) -> Result<Items<Module>, AllocError> {
    let mut list = Items::new(alloc);
    list.push(Module::Written {
        name: name(alloc, b'm')?,
        vars: booleans(alloc, size.1)?,
        commands: commands(alloc, size.2, size.3)?,
    })?;
    for _ in 1..size.0 {
        list.push(Module::Written {
            name: name(alloc, b'n')?,
            vars: Items::new(alloc),
            commands: Items::new(alloc),
        })?;
    }
    Ok(list)
}

fn sized(alloc: Global, size: &Size) -> Result<FlatText, AllocError> {
    Ok(FlatText {
        consts: Items::new(alloc),
        globals: Items::new(alloc),
        formulas: Items::new(alloc),
        modules: modules(alloc, size)?,
        labels: Items::new(alloc),
    })
}

fn tell_sized(alloc: Global, size: &Size) -> Result<Told, Fail> {
    let known = consts(alloc)?;
    let flat = sized(alloc, size)?;
    Ok(tell(alloc, &flat, &known))
}

#[test]
fn the_largest_models_are_accepted_and_larger_ones_refused(rt: HostRuntime) -> Result<(), Fail> {
    for (size, want) in SIZES.iter() {
        assert_eq!(rt; tell_sized(rt.alloc(), size)?, *want);
    }
    Ok(())
}
