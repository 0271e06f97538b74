//! Lines of refusals by expansion and by constants, from the table of their numbers.

use super::refusals::tells;
use super::*;
use const_eval::ConstFault;
use module_expand::ExpandFault;
use smc_num::{NumFault, Text};
use std::alloc::{AllocError, Global};
use std::test::Fail;

/// The fault of an expansion of this number in the table, with a name.
fn expand_fault(alloc: Global, number: u32, name: &str) -> Result<ExpandFault, AllocError> {
    let name = Text::from_bytes(alloc, name.as_bytes())?;
    Ok(match number {
        530 => ExpandFault::Duplicate { name },
        531 => ExpandFault::FormulaCycle { name },
        532 => ExpandFault::NoSuchModule { name },
        533 => ExpandFault::RenameLeavesVariable { name },
        534 => ExpandFault::RenameTwice { name },
        535 => ExpandFault::TooLarge,
        _ => ExpandFault::RenameToFormula { name },
    })
}

/// A number of the table, a name, and the lines for the model and for the property.
static EXPANSIONS: [(u32, &str, &str, &str); 7] = [
    (
        530,
        "a",
        "refused 530: duplicate a\n",
        "refused 630: duplicate a\n",
    ),
    (
        531,
        "f",
        "refused 531: formula cycle f\n",
        "refused 631: formula cycle f\n",
    ),
    (
        532,
        "M",
        "refused 532: no such module M\n",
        "refused 632: no such module M\n",
    ),
    (
        533,
        "x",
        "refused 533: variable not renamed x\n",
        "refused 633: variable not renamed x\n",
    ),
    (
        534,
        "x_1",
        "refused 534: renamed twice x_1\n",
        "refused 634: renamed twice x_1\n",
    ),
    (
        535,
        "",
        "refused 535: too large after expansion\n",
        "refused 635: too large after expansion\n",
    ),
    (
        536,
        "f",
        "refused 536: renamed to formula f\n",
        "refused 636: renamed to formula f\n",
    ),
];

#[test]
fn an_expansion_is_refused_by_a_name(rt: HostRuntime) -> Result<(), Fail> {
    for (number, name, model, property) in EXPANSIONS {
        let reason = Reason::Expand(Subject::Model, expand_fault(rt.alloc(), number, name)?);
        assert!(rt; tells(rt.alloc(), reason, number, 5, model)?, "{model}");
        let reason = Reason::Expand(Subject::Property, expand_fault(rt.alloc(), number, name)?);
        assert!(rt;
            tells(rt.alloc(), reason, number + 100, 6, property)?,
            "{property}"
        );
    }
    Ok(())
}

/// The fault of constants of this number in the table, with a name and the fault of a number.
fn const_fault(
    alloc: Global,
    number: u32,
    name: &str,
    fault: NumFault,
) -> Result<ConstFault, AllocError> {
    let name = Text::from_bytes(alloc, name.as_bytes())?;
    Ok(match number {
        540 => ConstFault::Undefined { name },
        541 => ConstFault::Unknown { name },
        542 => ConstFault::GivenTwice { name },
        543 => ConstFault::Cycle { name },
        544 => ConstFault::WrongType { name },
        _ => ConstFault::Num { name, fault },
    })
}

/// A number of the table, a name, the fault of a number, and the line.
static CONSTANTS: [(u32, &str, NumFault, &str); 8] = [
    (
        540,
        "N",
        NumFault::ZeroDivisor,
        "refused 540: undefined constant N\n",
    ),
    (
        541,
        "K",
        NumFault::ZeroDivisor,
        "refused 541: unknown constant K\n",
    ),
    (
        542,
        "N",
        NumFault::ZeroDivisor,
        "refused 542: constant given twice N\n",
    ),
    (
        543,
        "a",
        NumFault::ZeroDivisor,
        "refused 543: constant cycle a\n",
    ),
    (
        544,
        "a",
        NumFault::ZeroDivisor,
        "refused 544: wrong type of constant a\n",
    ),
    (
        545,
        "a",
        NumFault::ZeroDivisor,
        "refused 545: zero divisor in constant a\n",
    ),
    (
        545,
        "p",
        NumFault::OutsideDomain,
        "refused 545: outside the domain in constant p\n",
    ),
    (
        545,
        "big",
        NumFault::OutOfLimit,
        "refused 545: out of limit in constant big\n",
    ),
];

#[test]
fn constants_are_refused_by_a_name(rt: HostRuntime) -> Result<(), Fail> {
    for (number, name, fault, line) in CONSTANTS {
        let reason = Reason::Const(const_fault(rt.alloc(), number, name, fault)?);
        assert!(rt; tells(rt.alloc(), reason, number, 5, line)?, "{line}");
    }
    Ok(())
}
