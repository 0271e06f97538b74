//! Comparisons, and truth values joined, worked out by hand.

use crate::agreement::{Gives, MOST, Row, ZERO_DIVISOR, agrees};
use crate::fixtures::{ADD, AND, DIV, EQ, GE, GT, IMP, LE, LT, MUL, NE, OR, Piece, SUB};
use Gives::Truth;
use Piece::{B, Chain, If, N, Not, Q, T, X};
use chain_model::Op;
use std::test::Fail;

/// Two of three tests hold.
const TWO_OF_THREE: &[Piece] = &[
    X(0),
    X(1),
    EQ,
    N(1),
    N(0),
    If,
    X(1),
    N(2),
    LE,
    N(1),
    N(0),
    If,
    B(2),
    N(1),
    N(0),
    If,
    Chain(&[Op::Add, Op::Add]),
    N(2),
    EQ,
];

static TABLE: [Row; 48] = [
    (&[X(0), N(3), EQ], [3, 2, 1], Truth(true)),
    (&[X(0), N(3), EQ], [2, 2, 1], Truth(false)),
    (&[N(3), X(0), EQ], [3, 2, 1], Truth(true)),
    (&[X(0), N(3), NE], [3, 2, 1], Truth(false)),
    (&[X(0), N(3), LT], [2, 2, 1], Truth(true)),
    (&[X(0), N(3), LT], [3, 2, 1], Truth(false)),
    (&[X(0), N(3), LE], [3, 2, 1], Truth(true)),
    (&[X(0), N(3), LE], [4, 2, 1], Truth(false)),
    (&[X(0), N(3), GT], [4, 2, 1], Truth(true)),
    (&[X(0), N(3), GT], [3, 2, 1], Truth(false)),
    (&[X(0), N(3), GE], [3, 2, 1], Truth(true)),
    (&[X(0), N(3), GE], [2, 2, 1], Truth(false)),
    (&[N(3), X(0), LT], [4, 2, 1], Truth(true)),
    (&[N(3), X(0), GE], [4, 2, 1], Truth(false)),
    (&[X(0), N(MOST), GT], [MOST, 2, 1], Truth(false)),
    (&[X(0), N(-MOST), GE], [-MOST, 2, 1], Truth(true)),
    (&[X(0), X(1), EQ], [2, 2, 1], Truth(true)),
    (&[X(0), X(1), NE], [2, 2, 1], Truth(false)),
    (&[X(0), X(1), LT], [1, 2, 1], Truth(true)),
    (&[X(0), X(1), LE], [2, 2, 1], Truth(true)),
    (&[X(0), X(1), GT], [2, 2, 1], Truth(false)),
    (&[X(0), X(1), GE], [1, 2, 1], Truth(false)),
    (&[B(2)], [3, 2, 1], Truth(true)),
    (&[B(2), Not], [3, 2, 1], Truth(false)),
    (&[X(0), X(1), LT, Not], [3, 2, 1], Truth(true)),
    (&[X(0), N(3), LT, Not], [2, 2, 1], Truth(false)),
    (&[X(0), Q(1, 2), LT], [0, 2, 1], Truth(true)),
    (&[X(0), Q(1, 2), LT], [1, 2, 1], Truth(false)),
    (&[B(2), T(true), EQ], [0, 2, 1], Truth(true)),
    (&[X(0), N(5), N(2), SUB, EQ], [3, 2, 1], Truth(true)),
    (
        &[N(0), X(0), LT, X(0), N(3), LT, AND],
        [2, 2, 1],
        Truth(true),
    ),
    (
        &[N(0), X(0), LT, X(0), N(3), LT, AND],
        [3, 2, 1],
        Truth(false),
    ),
    (&[B(2), X(0), X(1), EQ, OR], [3, 2, 0], Truth(false)),
    (&[B(2), X(0), X(1), EQ, OR], [2, 2, 0], Truth(true)),
    (
        &[B(2), N(1), N(0), DIV, X(0), EQ, AND],
        [3, 2, 0],
        Truth(false),
    ),
    (
        &[B(2), N(1), N(0), DIV, X(0), EQ, AND],
        [3, 2, 1],
        ZERO_DIVISOR,
    ),
    (
        &[B(2), N(1), N(0), DIV, X(0), EQ, OR],
        [3, 2, 1],
        Truth(true),
    ),
    (
        &[B(2), N(1), N(0), DIV, X(0), EQ, IMP],
        [3, 2, 0],
        Truth(true),
    ),
    (&[B(2), T(false), IMP], [3, 2, 1], Truth(false)),
    (
        &[B(2), T(false), B(2), Chain(&[Op::Iff, Op::Iff])],
        [3, 2, 1],
        Truth(false),
    ),
    (
        &[X(0), X(1), N(2), MUL, ADD, N(8), LT],
        [3, 2, 1],
        Truth(true),
    ),
    (
        &[X(0), X(1), N(2), MUL, ADD, N(7), LT],
        [3, 2, 1],
        Truth(false),
    ),
    (TWO_OF_THREE, [2, 2, 0], Truth(true)),
    (TWO_OF_THREE, [2, 2, 1], Truth(false)),
    (TWO_OF_THREE, [3, 2, 1], Truth(true)),
    (TWO_OF_THREE, [3, 3, 1], Truth(true)),
    (&[X(0), N(1), ADD, X(1), LT], [1, 3, 1], Truth(true)),
    (&[X(0), N(1), ADD, X(1), LT], [2, 3, 1], Truth(false)),
];

#[test]
fn comparisons_and_junctions_have_the_values_of_the_table(rt: HostRuntime) -> Result<(), Fail> {
    for (pieces, state, gives) in &TABLE {
        assert!(rt; agrees(rt.alloc(), pieces, state, *gives)?);
    }
    Ok(())
}
