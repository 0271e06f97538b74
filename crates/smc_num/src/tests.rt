use crate::{Frac, NumFault, ReadNum, Text, ceil, common, floor, gcd, modulo, read};
use std::cmp::Ordering;
use std::collections::{BTreeMap, HashMap};
use std::test::Fail;

type Parts = (i64, i64);

/// A fraction, which the tables have in range.
fn fraction(parts: Parts) -> Result<Frac, NumFault> {
    Frac::new(parts.0, parts.1)
}

/// What a fraction or a fault is in the tables.
fn parts_of(outcome: Result<Frac, NumFault>) -> Result<Parts, NumFault> {
    match outcome {
        Ok(value) => Ok((value.num(), value.den())),
        Err(fault) => Err(fault),
    }
}

#[test]
fn a_fraction_is_brought_to_lowest_terms_within_the_limits(rt: HostRuntime) {
    let cases = [
        (6, -4, Ok((-3, 2))),
        (1, 0, Err(NumFault::ZeroDivisor)),
        (0, -5, Ok((0, 1))),
        (4611686018427387903, 1, Ok((4611686018427387903, 1))),
        (-4611686018427387903, 1, Ok((-4611686018427387903, 1))),
        (4611686018427387904, 1, Err(NumFault::OutOfLimit)),
        (-4611686018427387904, 1, Err(NumFault::OutOfLimit)),
        (1, 4611686018427387903, Ok((1, 4611686018427387903))),
        (1, 4611686018427387904, Err(NumFault::OutOfLimit)),
        (4, i64::MIN, Ok((-1, 2305843009213693952))),
        (i64::MIN, 4, Ok((-2305843009213693952, 1))),
        (i64::MIN, i64::MIN, Ok((1, 1))),
        (2, i64::MIN, Err(NumFault::OutOfLimit)),
    ];
    for (num, den, wanted) in cases {
        assert_eq!(rt; parts_of(Frac::new(num, den)), wanted, "{num}/{den}");
    }
}

#[test]
fn the_four_operations_are_exact(rt: HostRuntime) -> Result<(), Fail> {
    let cases = [
        (
            (1, 2),
            (1, 3),
            Ok((5, 6)),
            Ok((1, 6)),
            Ok((1, 6)),
            Ok((3, 2)),
        ),
        (
            (-7, 12),
            (5, 18),
            Ok((-11, 36)),
            Ok((-31, 36)),
            Ok((-35, 216)),
            Ok((-21, 10)),
        ),
        (
            (4611686018427387903, 1),
            (1, 1),
            Err(NumFault::OutOfLimit),
            Ok((4611686018427387902, 1)),
            Ok((4611686018427387903, 1)),
            Ok((4611686018427387903, 1)),
        ),
        (
            (-4611686018427387903, 1),
            (4611686018427387903, 1),
            Ok((0, 1)),
            Err(NumFault::OutOfLimit),
            Err(NumFault::OutOfLimit),
            Ok((-1, 1)),
        ),
        (
            (1, 2305843009213693952),
            (1, 2305843009213693952),
            Ok((1, 1152921504606846976)),
            Ok((0, 1)),
            Err(NumFault::OutOfLimit),
            Ok((1, 1)),
        ),
        (
            (1, 2305843009213693952),
            (1, 3),
            Err(NumFault::OutOfLimit),
            Err(NumFault::OutOfLimit),
            Err(NumFault::OutOfLimit),
            Ok((3, 2305843009213693952)),
        ),
        (
            (999999999999999999, 1000000000000000000),
            (1, 1000000000000000000),
            Ok((1, 1)),
            Ok((499999999999999999, 500000000000000000)),
            Err(NumFault::OutOfLimit),
            Ok((999999999999999999, 1)),
        ),
        (
            (-2305843009213693952, 3),
            (9, 1152921504606846976),
            Err(NumFault::OutOfLimit),
            Err(NumFault::OutOfLimit),
            Ok((-6, 1)),
            Err(NumFault::OutOfLimit),
        ),
        (
            (5, 3),
            (0, 1),
            Ok((5, 3)),
            Ok((5, 3)),
            Ok((0, 1)),
            Err(NumFault::ZeroDivisor),
        ),
    ];
    for (a, b, sum, difference, product, quotient) in cases {
        let (a, b) = (fraction(a)?, fraction(b)?);
        assert_eq!(rt; parts_of(Frac::add(a, b)), sum, "{a:?} + {b:?}");
        assert_eq!(rt; parts_of(Frac::sub(a, b)), difference, "{a:?} - {b:?}");
        assert_eq!(rt; parts_of(Frac::mul(a, b)), product, "{a:?} * {b:?}");
        assert_eq!(rt; parts_of(Frac::div(a, b)), quotient, "{a:?} / {b:?}");
    }
    Ok(())
}

#[test]
fn powers_are_exact_and_end_early(rt: HostRuntime) -> Result<(), Fail> {
    let cases = [
        ((2, 1), 61, Ok((2305843009213693952, 1))),
        ((2, 1), 62, Err(NumFault::OutOfLimit)),
        ((2, 1), -1, Err(NumFault::OutsideDomain)),
        ((0, 1), 0, Ok((1, 1))),
        ((0, 1), -1, Err(NumFault::OutsideDomain)),
        ((-3, 2), 3, Ok((-27, 8))),
        ((-3, 2), 4, Ok((81, 16))),
        ((1, 2), 62, Err(NumFault::OutOfLimit)),
        ((0, 1), i64::MAX, Ok((0, 1))),
        ((1, 1), i64::MAX, Ok((1, 1))),
        ((-1, 1), i64::MAX, Ok((-1, 1))),
        ((2, 1), i64::MAX, Err(NumFault::OutOfLimit)),
        ((1, 2), i64::MAX, Err(NumFault::OutOfLimit)),
    ];
    for (a, exponent, wanted) in cases {
        assert_eq!(rt;
            parts_of(Frac::pow(fraction(a)?, exponent)),
            wanted,
            "{a:?} ^ {exponent}"
        );
    }
    Ok(())
}

#[test]
fn a_remainder_has_no_sign(rt: HostRuntime) {
    let cases = [
        (-1, 3, Ok(2)),
        (-7, 3, Ok(2)),
        (0, 5, Ok(0)),
        (
            -9223372036854775808,
            9223372036854775807,
            Ok(9223372036854775806),
        ),
        (5, 0, Err(NumFault::ZeroDivisor)),
        (5, -3, Err(NumFault::OutsideDomain)),
    ];
    for (i, n, wanted) in cases {
        assert_eq!(rt; modulo(i, n), wanted, "{i} mod {n}");
    }
}

#[test]
fn fractions_are_ordered_and_rounded_exactly(rt: HostRuntime) -> Result<(), Fail> {
    let orders = [
        ((1, 2), (1, 3), Ordering::Greater),
        ((-1, 2), (1, 3), Ordering::Less),
        ((7, 2), (7, 2), Ordering::Equal),
        ((-7, 2), (-3, 1), Ordering::Less),
        (
            (4611686018427387903, 4611686018427387902),
            (4611686018427387902, 4611686018427387901),
            Ordering::Less,
        ),
    ];
    for (a, b, wanted) in orders {
        assert_eq!(rt;
            Frac::cmp(fraction(a)?, fraction(b)?),
            wanted,
            "{a:?} and {b:?}"
        );
    }
    let roundings = [
        ((7, 2), 3, 4),
        ((-7, 2), -4, -3),
        ((6, 1), 6, 6),
        ((-6, 1), -6, -6),
        ((1, 4611686018427387903), 0, 1),
        ((-1, 4611686018427387903), -1, 0),
        (
            (-4611686018427387903, 2),
            -2305843009213693952,
            -2305843009213693951,
        ),
    ];
    for (a, below, above) in roundings {
        assert_eq!(rt; floor(fraction(a)?), below, "below {a:?}");
        assert_eq!(rt; ceil(fraction(a)?), above, "above {a:?}");
    }
    Ok(())
}

#[test]
fn a_common_denominator_is_the_least(rt: HostRuntime) -> Result<(), Fail> {
    let cases = [
        ((1, 6), (1, 4), Ok((2, 3, 12))),
        ((3, 1), (-5, 1), Ok((3, -5, 1))),
        (
            (1, 2147483648),
            (1, 2147483647),
            Ok((2147483647, 2147483648, 4611686016279904256)),
        ),
        ((1, 2305843009213693952), (1, 3), Err(NumFault::OutOfLimit)),
        ((4611686018427387903, 1), (1, 2), Err(NumFault::OutOfLimit)),
        ((-2, 9), (5, 6), Ok((-4, 15, 18))),
    ];
    for (a, b, wanted) in cases {
        assert_eq!(rt;
            common(fraction(a)?, fraction(b)?),
            wanted,
            "{a:?} and {b:?}"
        );
    }
    let divisors = [
        (0, 0, 0),
        (0, 7, 7),
        (12, 18, 6),
        (18446744073709551615, 4294967295, 4294967295),
    ];
    for (a, b, wanted) in divisors {
        assert_eq!(rt; gcd(a, b), wanted, "{a} and {b}");
    }
    Ok(())
}

#[test]
fn numbers_are_read_as_they_are_spelled(rt: HostRuntime) {
    let cases = [
        ("0.50", Ok((1, 2))),
        ("1e-18", Ok((1, 1000000000000000000))),
        ("1e400", Err(ReadNum::OutOfLimit)),
        ("1/0", Err(ReadNum::NotANumber)),
        ("-1/2", Ok((-1, 2))),
        ("-0", Ok((0, 1))),
        ("-.5e1", Ok((-5, 1))),
        ("1.", Err(ReadNum::NotANumber)),
        ("5.e1", Err(ReadNum::NotANumber)),
        ("1e+", Err(ReadNum::NotANumber)),
        ("1E2", Ok((100, 1))),
        ("12.5e-1", Ok((5, 4))),
        ("0e9999999999999999999999999999999999999999", Ok((0, 1))),
        (
            "1e-9999999999999999999999999999999999999999",
            Err(ReadNum::OutOfLimit),
        ),
        ("100000000000000000000", Err(ReadNum::OutOfLimit)),
        ("4611686018427387904", Err(ReadNum::OutOfLimit)),
        ("4611686018427387903.0", Ok((4611686018427387903, 1))),
        ("10e-19", Ok((1, 1000000000000000000))),
        ("5e-19", Err(ReadNum::OutOfLimit)),
        ("1000000000000000000000000000000e-29", Ok((10, 1))),
        ("00012", Ok((12, 1))),
        ("2/4", Ok((1, 2))),
        ("1/-2", Err(ReadNum::NotANumber)),
        ("+1", Err(ReadNum::NotANumber)),
        ("1/2e1", Err(ReadNum::NotANumber)),
        ("4611686018427387904/2", Err(ReadNum::OutOfLimit)),
    ];
    for (text, wanted) in cases {
        let found = match read(text.as_bytes()) {
            Ok(value) => Ok((value.num(), value.den())),
            Err(fault) => Err(fault),
        };
        assert_eq!(rt; found, wanted, "{text}");
    }
}

#[test]
fn a_text_is_its_bytes_and_a_key_of_maps(rt: HostRuntime) -> Result<(), Fail> {
    let alloc = rt.alloc();
    let name = Text::from_bytes(alloc, b"x1")?;
    let copy = name.copy(alloc)?;
    assert_eq!(rt; copy.bytes(), b"x1".as_slice());
    assert!(rt; name == copy);
    assert!(rt; name < Text::from_bytes(alloc, b"x10")?);
    assert_eq!(rt;
        name.cmp(&Text::from_bytes(alloc, b"w9")?),
        Ordering::Greater
    );
    let mut places = BTreeMap::new(alloc);
    places.insert(name.copy(alloc)?, 1u32)?;
    assert_eq!(rt; places.get(&copy).copied(), Some(1));
    let mut hashed = HashMap::new(alloc);
    hashed.insert(name, 2u32)?;
    assert_eq!(rt; hashed.get(&copy).copied(), Some(2));
    Ok(())
}
