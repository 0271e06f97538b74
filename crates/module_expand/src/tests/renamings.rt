use super::models::Item::{Formula, Renamed, Written};
use super::told::{Cause, Row, first_wrong};
use std::test::Fail;

static FORMULAS: [Row; 4] = [
    (
        &[Formula("f", &["g"]), Formula("g", &["f"])],
        Cause::FormulaCycle,
        "f",
    ),
    (
        &[
            Formula("e", &["f"]),
            Formula("f", &["a", "g"]),
            Formula("g", &["f"]),
        ],
        Cause::FormulaCycle,
        "f",
    ),
    (
        &[Formula("f", &["a"]), Formula("g", &["f", "g"])],
        Cause::FormulaCycle,
        "g",
    ),
    // before a source that isn't there
    (
        &[Formula("f", &["f"]), Renamed("B", "M", &[])],
        Cause::FormulaCycle,
        "f",
    ),
];

static SOURCES: [Row; 3] = [
    (
        &[Renamed("B", "M", &[("x", "y")])],
        Cause::NoSuchModule,
        "M",
    ),
    // a renamed module is no source
    (
        &[
            Written("M", &["x"]),
            Renamed("B", "M", &[("x", "y")]),
            Renamed("C", "B", &[("y", "z")]),
        ],
        Cause::NoSuchModule,
        "B",
    ),
    // before a variable without a pair
    (
        &[
            Written("M", &["x"]),
            Renamed("B", "M", &[]),
            Renamed("C", "N", &[]),
        ],
        Cause::NoSuchModule,
        "N",
    ),
];

static PAIRS: [Row; 5] = [
    (
        &[Written("M", &["x"]), Renamed("B", "M", &[("a", "b")])],
        Cause::RenameLeavesVariable,
        "x",
    ),
    // the first variable in the text, and not the first renaming
    (
        &[
            Written("M", &["x", "y"]),
            Written("N", &["u", "v"]),
            Renamed("B", "N", &[("u", "w")]),
            Renamed("C", "M", &[("x", "z")]),
            Renamed("D", "N", &[("v", "t"), ("v", "s")]),
        ],
        Cause::RenameLeavesVariable,
        "y",
    ),
    (
        &[
            Written("M", &["x"]),
            Renamed("B", "M", &[("x", "y"), ("x", "z")]),
        ],
        Cause::RenameTwice,
        "x",
    ),
    (
        &[
            Formula("f", &["a"]),
            Written("M", &["x"]),
            Renamed("B", "M", &[("x", "y"), ("c", "f")]),
        ],
        Cause::RenameToFormula,
        "f",
    ),
    // a left name twice in a later renaming goes before a formula
    (
        &[
            Formula("f", &["a"]),
            Written("M", &["x"]),
            Renamed("B", "M", &[("x", "y"), ("c", "f")]),
            Renamed("C", "M", &[("x", "z"), ("b", "d"), ("b", "e")]),
        ],
        Cause::RenameTwice,
        "b",
    ),
];

#[test]
fn the_first_fault_of_formulas_and_renamings_is_told(rt: HostRuntime) -> Result<(), Fail> {
    assert_eq!(rt; first_wrong(rt.alloc(), &FORMULAS)?, None);
    assert_eq!(rt; first_wrong(rt.alloc(), &SOURCES)?, None);
    assert_eq!(rt; first_wrong(rt.alloc(), &PAIRS)?, None);
    Ok(())
}
