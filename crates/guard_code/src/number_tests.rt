//! Arithmetic, functions and conditionals, worked out by hand.

use crate::agreement::{Gives, MOST, OUT_OF_LIMIT, OUTSIDE, Row, ZERO_DIVISOR, agrees};
use crate::compiling::node_of;
use crate::fixtures::{ADD, DIV, EQ, MUL, Piece, SUB, nested};
use crate::fronts::stored_in;
use crate::labels::NoLabels;
use Gives::Number;
use Piece::{B, Call, Chain, If, Minus, N, Q, X};
use chain_model::{Func, Op};
use std::test::Fail;

static TABLE: [Row; 42] = [
    (&[X(0), N(1), ADD], [3, 2, 1], Number(4, 1)),
    (&[X(0), N(1), SUB], [3, 2, 1], Number(2, 1)),
    (&[N(2), X(0), SUB], [3, 2, 1], Number(-1, 1)),
    (&[X(0), N(-2), SUB], [3, 2, 1], Number(5, 1)),
    (&[N(2), X(0), ADD], [3, 2, 1], Number(5, 1)),
    (&[X(0), N(1), ADD], [MOST, 2, 1], OUT_OF_LIMIT),
    (&[X(0), N(1), SUB], [-MOST, 2, 1], OUT_OF_LIMIT),
    (
        &[X(0), X(1), N(1), Chain(&[Op::Sub, Op::Sub])],
        [3, 2, 1],
        Number(0, 1),
    ),
    (
        &[X(0), X(1), MUL],
        [2_147_483_648, 2_147_483_648, 1],
        OUT_OF_LIMIT,
    ),
    (
        &[X(0), X(1), MUL],
        [2_147_483_648, 2_147_483_647, 1],
        Number(4_611_686_016_279_904_256, 1),
    ),
    (
        &[X(0), X(1), X(1), Chain(&[Op::Add, Op::Sub])],
        [MOST, 1, 1],
        OUT_OF_LIMIT,
    ),
    (
        &[X(0), X(1), ADD, N(1), N(0), DIV, ADD],
        [MOST, 1, 1],
        OUT_OF_LIMIT,
    ),
    (&[X(0), X(1), DIV], [3, 2, 1], Number(3, 2)),
    (&[X(0), X(1), DIV], [3, 0, 1], ZERO_DIVISOR),
    (&[X(0), Minus], [3, 2, 1], Number(-3, 1)),
    (
        &[X(0), X(1), Q(1, 2), Call(Func::Min, 3)],
        [3, 2, 1],
        Number(1, 2),
    ),
    (&[X(0), X(1), Call(Func::Max, 2)], [3, 2, 1], Number(3, 1)),
    (
        &[X(0), N(2), DIV, Call(Func::Floor, 1)],
        [3, 2, 1],
        Number(1, 1),
    ),
    (
        &[X(0), N(2), DIV, Call(Func::Ceil, 1)],
        [3, 2, 1],
        Number(2, 1),
    ),
    (&[X(0), X(1), Call(Func::Pow, 2)], [3, 2, 1], Number(9, 1)),
    (&[X(0), X(1), Call(Func::Pow, 2)], [3, -1, 1], OUTSIDE),
    (&[X(0), X(1), Call(Func::Mod, 2)], [3, 2, 1], Number(1, 1)),
    (&[B(2), X(0), X(1), If], [3, 2, 1], Number(3, 1)),
    (
        &[B(2), X(0), X(0), N(3), EQ, X(1), N(0), If, If],
        [3, 2, 0],
        Number(2, 1),
    ),
    (
        &[B(2), X(0), X(0), N(3), EQ, X(1), N(7), If, If],
        [4, 2, 0],
        Number(7, 1),
    ),
    (
        &[X(0), N(1), ADD, X(1), Call(Func::Min, 2)],
        [3, 2, 1],
        Number(2, 1),
    ),
    (
        &[X(0), X(1), N(7), Call(Func::Max, 3)],
        [3, 2, 1],
        Number(7, 1),
    ),
    (
        &[N(5), X(0), N(1), ADD, Call(Func::Min, 2)],
        [MOST, 2, 1],
        OUT_OF_LIMIT,
    ),
    (&[X(0), X(1), Call(Func::Mod, 2)], [-3, 2, 1], Number(1, 1)),
    (&[X(0), X(1), Call(Func::Mod, 2)], [3, 0, 1], ZERO_DIVISOR),
    (&[X(0), X(1), Call(Func::Mod, 2)], [3, -2, 1], OUTSIDE),
    (
        &[X(0), N(1), ADD, N(5), Call(Func::Mod, 2), X(1), ADD],
        [4, 2, 1],
        Number(2, 1),
    ),
    (
        &[X(0), N(1), ADD, X(1), Call(Func::Mod, 2)],
        [MOST, 0, 1],
        OUT_OF_LIMIT,
    ),
    (&[X(0), X(1), DIV], [6, 4, 1], Number(3, 2)),
    (&[X(0), X(1), DIV], [3, -6, 1], Number(-1, 2)),
    (&[X(0), X(0), X(1), ADD, DIV], [1, 2, 1], Number(1, 3)),
    (&[X(0), X(0), X(1), ADD, DIV], [MOST, 1, 1], OUT_OF_LIMIT),
    (
        &[
            X(0),
            X(1),
            EQ,
            N(1),
            N(0),
            If,
            X(1),
            N(2),
            EQ,
            N(1),
            N(0),
            If,
            ADD,
        ],
        [2, 2, 1],
        Number(2, 1),
    ),
    (&[X(0), X(1), EQ, N(4), N(-7), If], [3, 2, 1], Number(-7, 1)),
    (
        &[X(0), X(1), EQ, Q(1, 2), N(0), If],
        [2, 2, 1],
        Number(1, 2),
    ),
    (
        &[B(2), X(0), X(1), N(1), ADD, If, X(1), MUL],
        [5, 3, 0],
        Number(12, 1),
    ),
    (
        &[B(2), X(0), Q(1, 2), If, X(1), MUL],
        [5, 3, 0],
        Number(3, 2),
    ),
];

#[test]
fn arithmetic_and_conditionals_have_the_values_of_the_table(rt: HostRuntime) -> Result<(), Fail> {
    for (pieces, state, gives) in &TABLE {
        assert!(rt; agrees(rt.alloc(), pieces, state, *gives)?);
    }
    Ok(())
}

#[test]
fn a_long_row_of_conditionals_is_evaluated_on_the_stack(rt: HostRuntime) -> Result<(), Fail> {
    let alloc = rt.alloc();
    let tree = nested(alloc, 1_024)?;
    let node = node_of(alloc, &tree)?;
    assert!(rt; stored_in(&NoLabels, &[0], &node) == Ok(7));
    assert!(rt; stored_in(&NoLabels, &[1], &node) == Ok(1));
    Ok(())
}
