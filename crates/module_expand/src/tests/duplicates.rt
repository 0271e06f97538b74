use super::models::Item::{Const, Formula, Global as Variable, Label, Renamed, Written};
use super::told::{Cause, Row, first_wrong};
use std::test::Fail;

static ACCEPTED: [Row; 7] = [
    (&[], Cause::Nothing, ""),
    (
        &[Const("a"), Formula("f", &["a", "g"]), Formula("g", &["a"])],
        Cause::Nothing,
        "",
    ),
    (
        &[Renamed("B", "M", &[("x", "y")]), Written("M", &["x"])],
        Cause::Nothing,
        "",
    ),
    // a value, a module and a label may have one name
    (
        &[Const("M"), Written("M", &["x"]), Label("M")],
        Cause::Nothing,
        "",
    ),
    // names that no formula has may stand for anything later
    (&[Formula("f", &["nowhere", "f2"])], Cause::Nothing, ""),
    // a name that no variable has may have a pair
    (
        &[
            Written("M", &["x"]),
            Renamed("B", "M", &[("x", "y"), ("a", "b")]),
        ],
        Cause::Nothing,
        "",
    ),
    // names may be exchanged
    (
        &[
            Written("M", &["x", "y"]),
            Renamed("B", "M", &[("x", "u"), ("y", "v"), ("u", "x")]),
        ],
        Cause::Nothing,
        "",
    ),
];

static DUPLICATES: [Row; 9] = [
    (&[Const("a"), Const("a")], Cause::Duplicate, "a"),
    // the first place decides, also of the same mistake twice
    (
        &[Const("a"), Const("b"), Const("c"), Const("b"), Const("a")],
        Cause::Duplicate,
        "a",
    ),
    (
        &[
            Const("a"),
            Variable("g"),
            Formula("f", &["a"]),
            Formula("g", &["a"]),
        ],
        Cause::Duplicate,
        "g",
    ),
    (
        &[
            Variable("g"),
            Variable("f"),
            Formula("f", &["a"]),
            Formula("g", &["a"]),
        ],
        Cause::Duplicate,
        "g",
    ),
    (
        &[Formula("f", &["a"]), Written("M", &["x", "f"])],
        Cause::Duplicate,
        "f",
    ),
    (
        &[Written("m", &["x"]), Written("m", &["x"])],
        Cause::Duplicate,
        "m",
    ),
    (
        &[Written("m", &["x"]), Written("n", &["x"])],
        Cause::Duplicate,
        "x",
    ),
    // values go before labels, and duplicates before formulas that reach themselves
    (
        &[Const("a"), Const("a"), Label("init")],
        Cause::Duplicate,
        "a",
    ),
    (
        &[Formula("f", &["f"]), Label("l"), Label("l")],
        Cause::Duplicate,
        "l",
    ),
];

static NEW_NAMES: [Row; 9] = [
    (
        &[Written("M", &["x"]), Renamed("M", "M", &[("x", "y")])],
        Cause::Duplicate,
        "M",
    ),
    (
        &[Written("M", &["x"]), Renamed("B", "M", &[("x", "x")])],
        Cause::Duplicate,
        "x",
    ),
    (
        &[
            Const("c"),
            Written("M", &["x"]),
            Renamed("B", "M", &[("x", "c")]),
        ],
        Cause::Duplicate,
        "c",
    ),
    // in the last of many
    (
        &[
            Written("M", &["x"]),
            Renamed("B", "M", &[("x", "y")]),
            Renamed("C", "M", &[("x", "z")]),
            Renamed("D", "M", &[("x", "y")]),
        ],
        Cause::Duplicate,
        "y",
    ),
    // the first of two pairs gives the new name
    (
        &[
            Const("z"),
            Written("M", &["x"]),
            Renamed("B", "M", &[("x", "y"), ("x", "z")]),
        ],
        Cause::RenameTwice,
        "x",
    ),
    (
        &[
            Const("y"),
            Written("M", &["x"]),
            Renamed("B", "M", &[("x", "y"), ("x", "z")]),
        ],
        Cause::Duplicate,
        "y",
    ),
    // a renaming before its source, which has a variable twice, has the new name twice
    (
        &[Renamed("B", "M", &[("x", "y")]), Written("M", &["x", "x"])],
        Cause::Duplicate,
        "y",
    ),
    // of two new names the one whose variable stands first, whatever the order of the pairs
    (
        &[
            Renamed("B", "M", &[("z", "v"), ("y", "w")]),
            Renamed("C", "M", &[("z", "w"), ("y", "v")]),
            Written("M", &["x", "y", "z"]),
        ],
        Cause::Duplicate,
        "w",
    ),
    // a new name that is given to no variable is none
    (
        &[
            Renamed("B", "M", &[("x", "y"), ("a", "y"), ("b", "y")]),
            Written("M", &["x"]),
            Label("l"),
            Label("l"),
        ],
        Cause::Duplicate,
        "l",
    ),
];

static LABELS: [Row; 3] = [
    (
        &[Label("l"), Label("k"), Label("k"), Label("l")],
        Cause::Duplicate,
        "l",
    ),
    (&[Label("l"), Label("init")], Cause::Duplicate, "init"),
    (
        &[Label("deadlock"), Label("init")],
        Cause::Duplicate,
        "deadlock",
    ),
];

#[test]
fn models_without_a_fault_are_accepted(rt: HostRuntime) -> Result<(), Fail> {
    assert_eq!(rt; first_wrong(rt.alloc(), &ACCEPTED)?, None);
    Ok(())
}

#[test]
fn the_first_duplicate_is_told(rt: HostRuntime) -> Result<(), Fail> {
    assert_eq!(rt; first_wrong(rt.alloc(), &DUPLICATES)?, None);
    assert_eq!(rt; first_wrong(rt.alloc(), &NEW_NAMES)?, None);
    assert_eq!(rt; first_wrong(rt.alloc(), &LABELS)?, None);
    Ok(())
}
