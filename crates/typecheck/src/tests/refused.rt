//! Models that are refused, each for its first cause.

use super::expressions::consts;
use super::models::{Told, flat_text, tell};
use crate::Item;
use const_eval::Consts;
use smc_num::NumFault;
use std::alloc::Global;
use std::test::Fail;

fn tell_text(alloc: Global, text: &str, consts: &Consts) -> Result<Told, Fail> {
    let flat = flat_text(alloc, text)?;
    Ok(tell(alloc, &flat, consts))
}

/// Names that may not stand where they do.
static NAMES: [(&str, Told); 9] = [
    ("@n;#x 0 1 0;[] q0= :x1", Told::UnknownName(b'q')),
    ("@n;#x 0 1;#y 0 1 x", Told::UnknownName(b'x')),
    ("#g 0 1;@n;#x g h", Told::UnknownName(b'g')),
    ("@n;[] T :k1", Told::UnknownName(b'k')),
    ("@n;[] T p:qr", Told::UnknownName(b'p')),
    ("@n;[] T 1: 1:qr", Told::UnknownName(b'q')),
    ("\"l s;@n;[] 1 :;@o;[] t :", Told::UnknownName(b't')),
    ("@n;[] 1 :;\"l T;\"o s", Told::UnknownName(b's')),
    ("@n;#x T 1;#y 1 0 z", Told::UnknownName(b'z')),
];

/// Sorts that do not fit.
static SORTS: [(&str, Told); 14] = [
    ("@n;#x 0 1 0;[] x :x1", Told::WrongType(Item::Command(0))),
    ("@n;#x 0 H", Told::WrongType(Item::Variable(0))),
    ("#g 0 1;@n;@o;$b 1", Told::WrongType(Item::Variable(1))),
    ("#g 0 9 93/", Told::WrongType(Item::Variable(0))),
    ("@n;[] T T:", Told::WrongType(Item::Command(0))),
    ("#g 0 1;@n;[] T :gH", Told::WrongType(Item::Command(0))),
    ("#g 0 1;@n;[] T :g22/", Told::WrongType(Item::Command(0))),
    ("$b;@n;[] T :b1", Told::WrongType(Item::Command(0))),
    ("@n;[] T :;[] D :", Told::WrongType(Item::Command(1))),
    ("@n;[] T", Told::WrongType(Item::Command(0))),
    ("@n;[] 1 :;@o;#x T 1", Told::WrongType(Item::Command(0))),
    ("\"l T;\"o 1", Told::WrongType(Item::Label(1))),
    ("\"l 11=1=", Told::WrongType(Item::Label(0))),
    ("@n;#x 0 10/_;[] 1 :", Told::WrongType(Item::Command(0))),
];

/// Numbers of variables.
static NUMBERS: [(&str, Told); 9] = [
    (
        "@n;#x 0 10/_",
        Told::BadNumber(Item::Variable(0), NumFault::ZeroDivisor),
    ),
    (
        "@n;#x 1 0;#y 0 288*^",
        Told::BadNumber(Item::Variable(1), NumFault::OutOfLimit),
    ),
    (
        "#g 0 1 71~%;@n;#x 10/_ 1",
        Told::BadNumber(Item::Variable(0), NumFault::OutsideDomain),
    ),
    (
        "$b 10/0=",
        Told::BadNumber(Item::Variable(0), NumFault::ZeroDivisor),
    ),
    ("@n;#x 1 0", Told::BadRange(b'x')),
    ("#g 0 1 2;@n;#x 1 0 1;#y k 1", Told::BadRange(b'x')),
    ("@n;#x 0 1 2", Told::InitOutside(b'x')),
    ("@n;#x 0 1 1~", Told::InitOutside(b'x')),
    ("@n;#x 0 1;#y 0 1 k;@o;[] T :x1", Told::InitOutside(b'y')),
];

/// What commands write.
static WRITES: [(&str, Told); 6] = [
    ("@n;#x 0 1;@o;[] T :x1", Told::ForeignWrite(b'x')),
    (
        "#g 0 1;@n;[a] T :g1;[] T 1: 0:x1;@o;#x 0 1",
        Told::ForeignWrite(b'x'),
    ),
    ("#g 0 1;@n;[a] T :g1", Told::GlobalInSync(b'g')),
    (
        "#g 0 1;@n;#x 0 1;[] T :x1,x0;[a] T :x1,g1",
        Told::GlobalInSync(b'g'),
    ),
    ("@n;#x 0 1;[] T :x1,x0", Told::WrittenTwice(b'x')),
    (
        "@n;#x 0 1;#y 0 1;[] T 1:x1 0:x1,y0,y1,x0",
        Told::WrittenTwice(b'x'),
    ),
];

#[test]
fn names_are_refused_before_all_else(rt: HostRuntime) -> Result<(), Fail> {
    let known = consts(rt.alloc())?;
    for (text, want) in NAMES.iter() {
        assert_eq!(rt; tell_text(rt.alloc(), text, &known)?, *want);
    }
    Ok(())
}

#[test]
fn sorts_are_refused_before_numbers(rt: HostRuntime) -> Result<(), Fail> {
    let known = consts(rt.alloc())?;
    for (text, want) in SORTS.iter() {
        assert_eq!(rt; tell_text(rt.alloc(), text, &known)?, *want);
    }
    Ok(())
}

#[test]
fn numbers_are_refused_before_writes(rt: HostRuntime) -> Result<(), Fail> {
    let known = consts(rt.alloc())?;
    for (text, want) in NUMBERS.iter() {
        assert_eq!(rt; tell_text(rt.alloc(), text, &known)?, *want);
    }
    Ok(())
}

#[test]
fn writes_are_refused_in_order(rt: HostRuntime) -> Result<(), Fail> {
    let known = consts(rt.alloc())?;
    for (text, want) in WRITES.iter() {
        assert_eq!(rt; tell_text(rt.alloc(), text, &known)?, *want);
    }
    Ok(())
}
