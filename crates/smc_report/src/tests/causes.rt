//! Causes of faults, and the answer to `help`.

use super::*;
use chain_model::{Chain, Sort, TraceFault, Var};
use smc_num::Text;
use sqlite_items::Items;
use std::alloc::{AllocError, Global};
use std::test::Fail;

fn variable(alloc: Global, name: &str) -> Result<Var, AllocError> {
    Ok(Var {
        name: Text::from_bytes(alloc, name.as_bytes())?,
        owner: None,
        sort: Sort::Int,
        lo: 0,
        hi: 7,
        init: 0,
    })
}

/// A chain of two variables that always stays as it is.
fn chain(alloc: Global) -> Result<Option<Chain>, AllocError> {
    let mut vars = Items::new(alloc);
    vars.push(variable(alloc, "x")?)?;
    vars.push(variable(alloc, "queue_2")?)?;
    Ok(Chain::new(
        vars,
        Items::new(alloc),
        Items::new(alloc),
        Items::new(alloc),
        Items::new(alloc),
    ))
}

/// Faults, and their causes in words.
static CAUSES: [(TraceFault, &str); 9] = [
    (TraceFault::Range { var: 0 }, "x outside its range"),
    (TraceFault::Range { var: 1 }, "queue_2 outside its range"),
    (TraceFault::ZeroDivisor, "zero divisor"),
    (TraceFault::OutOfLimit, "number out of limit"),
    (TraceFault::OutsideDomain, "outside the domain"),
    (TraceFault::Weights { command: 0 }, "weights of command 0"),
    (
        TraceFault::Weights { command: 4095 },
        "weights of command 4095",
    ),
    (
        TraceFault::Denominator { command: 12 },
        "denominator of command 12",
    ),
    (TraceFault::Choices, "too many choices"),
];

#[test]
fn a_cause_names_a_variable_or_a_command_by_its_number(rt: HostRuntime) -> Result<(), Fail> {
    let chain = chain(rt.alloc())?.ok_or("no chain")?;
    for (fault, want) in CAUSES {
        let words = cause(rt.alloc(), &chain, &fault)?;
        assert!(rt; words.as_slice() == want.as_bytes(), "{want}");
    }
    Ok(())
}

#[test]
fn help_lists_the_commands(rt: HostRuntime) -> Result<(), Fail> {
    let line = help_line(rt.alloc())?;
    assert!(rt; line.as_slice() == b"commands: check trace expand make help\n".as_slice());
    Ok(())
}
