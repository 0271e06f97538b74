//! Expressions in pieces, for the tests.

use chain_model::{Form, Func, Op, Sort, Typed, Value};
use smc_num::Frac;
use sqlite_items::{Boxed, Items};
use std::alloc::{AllocError, Global};

/// An expression in pieces, each after its parts.
#[derive(Clone, Copy)]
pub enum Piece {
    /// A variable of sort `int`, and one of sort `bool`.
    X(u32),
    B(u32),
    /// A whole number, one number over another, and a truth value.
    N(i64),
    Q(i64, i64),
    T(bool),
    /// A chain of so many parts, with these operators.
    Chain(&'static [Op]),
    Call(Func, usize),
    Not,
    Minus,
    If,
    Init,
    Deadlock,
}

pub const IMP: Piece = Piece::Chain(&[Op::Imp]);

pub const IFF: Piece = Piece::Chain(&[Op::Iff]);

pub const OR: Piece = Piece::Chain(&[Op::Or]);

pub const AND: Piece = Piece::Chain(&[Op::And]);

pub const EQ: Piece = Piece::Chain(&[Op::Eq]);

pub const NE: Piece = Piece::Chain(&[Op::Ne]);

pub const LT: Piece = Piece::Chain(&[Op::Lt]);

pub const LE: Piece = Piece::Chain(&[Op::Le]);

pub const GT: Piece = Piece::Chain(&[Op::Gt]);

pub const GE: Piece = Piece::Chain(&[Op::Ge]);

pub const ADD: Piece = Piece::Chain(&[Op::Add]);

pub const SUB: Piece = Piece::Chain(&[Op::Sub]);

pub const MUL: Piece = Piece::Chain(&[Op::Mul]);

pub const DIV: Piece = Piece::Chain(&[Op::Div]);

/// A number over another as a literal, or `false` where that is no number.
fn number(num: i64, den: i64) -> Form {
    match Frac::new(num, den) {
        Ok(value) => Form::Lit(Value::Num(value)),
        Err(_) => Form::Lit(Value::Bool(false)),
    }
}

/// The last of some trees.
fn last(trees: &mut Items<Typed>) -> Typed {
    match trees.pop() {
        Some(tree) => tree,
        None => Typed {
            sort: Sort::Int,
            form: number(0, 1),
        },
    }
}

/// The last trees, so many.
fn last_parts(
    alloc: Global,
    trees: &mut Items<Typed>,
    many: usize,
) -> Result<Items<Typed>, AllocError> {
    let mut turned = Items::new(alloc);
    for _ in 0..many {
        turned.push(last(trees))?;
    }
    let mut parts = Items::new(alloc);
    for _ in 0..many {
        parts.push(last(&mut turned))?;
    }
    Ok(parts)
}

/// The sort of a chain with these operators.
fn chain_sort(ops: &[Op]) -> Sort {
    match ops {
        [Op::Add | Op::Sub | Op::Mul, ..] => Sort::Int,
        [Op::Div, ..] => Sort::Double,
        _ => Sort::Bool,
    }
}

/// A chain of the last trees.
fn level(alloc: Global, trees: &mut Items<Typed>, ops: &'static [Op]) -> Result<Form, AllocError> {
    let parts = last_parts(alloc, trees, ops.len().saturating_add(1))?;
    Ok(Form::Level(parts, Items::from_slice(alloc, ops)?))
}

/// A conditional of the last three trees.
fn conditional(alloc: Global, trees: &mut Items<Typed>) -> Result<Form, AllocError> {
    let second = Boxed::new(alloc, last(trees))?;
    let first = Boxed::new(alloc, last(trees))?;
    let condition = Boxed::new(alloc, last(trees))?;
    Ok(Form::If(condition, first, second))
}

/// One piece more.
pub fn put(alloc: Global, trees: &mut Items<Typed>, piece: Piece) -> Result<(), AllocError> {
    let (sort, form) = match piece {
        Piece::X(number) => (Sort::Int, Form::Var(number)),
        Piece::B(number) => (Sort::Bool, Form::Var(number)),
        Piece::N(whole) => (Sort::Int, number(whole, 1)),
        Piece::Q(num, den) => (Sort::Double, number(num, den)),
        Piece::T(holds) => (Sort::Bool, Form::Lit(Value::Bool(holds))),
        Piece::Chain(ops) => (chain_sort(ops), level(alloc, trees, ops)?),
        Piece::Call(func, many) => (Sort::Int, Form::Call(func, last_parts(alloc, trees, many)?)),
        Piece::Not => (Sort::Bool, Form::Not(Boxed::new(alloc, last(trees))?)),
        Piece::Minus => (Sort::Int, Form::Minus(Boxed::new(alloc, last(trees))?)),
        Piece::If => (Sort::Int, conditional(alloc, trees)?),
        Piece::Init => (Sort::Bool, Form::IsInit),
        Piece::Deadlock => (Sort::Bool, Form::IsDeadlock),
    };
    trees.push(Typed { sort, form })
}

/// The expression of pieces.
pub fn tree(alloc: Global, pieces: &[Piece]) -> Result<Typed, AllocError> {
    let mut trees = Items::new(alloc);
    for piece in pieces {
        put(alloc, &mut trees, *piece)?;
    }
    Ok(last(&mut trees))
}

/// So many conditionals, each the last part of the one before it.
pub fn nested(alloc: Global, many: u32) -> Result<Typed, AllocError> {
    let mut trees = Items::new(alloc);
    put(alloc, &mut trees, Piece::N(7))?;
    for _ in 0..many {
        let others = last(&mut trees);
        put(alloc, &mut trees, Piece::B(0))?;
        put(alloc, &mut trees, Piece::N(1))?;
        trees.push(others)?;
        put(alloc, &mut trees, Piece::If)?;
    }
    Ok(last(&mut trees))
}
