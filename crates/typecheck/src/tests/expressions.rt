//! Expressions by hand: an operator stands after its operands, `10/` is one by zero.

ghost use Rattle.std.specs.Prelude.{IfOk};
ghost use Rattle.prism_names.specs.First.{AreDistinct};
ghost use Rattle.const_eval.specs.Constants.{const_names};

use const_eval::{Consts, constants};
use prism_syntax::{ConstText, Expr, FlatText, Func, Op, SortWord};
use smc_num::{Frac, Text};
use sqlite_items::{Boxed, Items};
use std::alloc::{AllocError, Global};
use std::test::Fail;

pub fn name(alloc: Global, letter: u8) -> Result<Text, AllocError> {
    Text::from_bytes(alloc, &[letter])
}

/// The letter of a name that has one.
pub fn letter(name: &Text) -> u8 {
    match name.bytes() {
        [letter] => *letter,
        _ => b'-',
    }
}

/// The expression that was read last, of which there is always one.
fn last(parts: &mut Vec<Expr>) -> Expr {
    match parts.pop() {
        Some(part) => part,
        None => Expr::Truth(false),
    }
}

fn chain(alloc: Global, parts: &mut Vec<Expr>, op: Op) -> Result<Expr, AllocError> {
    let second = last(parts);
    let mut both = Items::new(alloc);
    both.push(last(parts))?;
    both.push(second)?;
    let mut ops = Items::new(alloc);
    ops.push(op)?;
    Ok(Expr::Level(both, ops))
}

fn call(alloc: Global, parts: &mut Vec<Expr>, func: Func) -> Result<Expr, AllocError> {
    let second = last(parts);
    let mut both = Items::new(alloc);
    both.push(last(parts))?;
    both.push(second)?;
    Ok(Expr::Call(func, both))
}

fn floor(alloc: Global, parts: &mut Vec<Expr>) -> Result<Expr, AllocError> {
    let mut one = Items::new(alloc);
    one.push(last(parts))?;
    Ok(Expr::Call(Func::Floor, one))
}

/// What a letter means after the parts that were read.
fn part(alloc: Global, parts: &mut Vec<Expr>, letter: u8) -> Result<Expr, Fail> {
    match letter {
        b'0'..=b'9' => Ok(Expr::Whole(Frac::new((letter - b'0') as i64, 1)?)),
        b'H' => Ok(Expr::Real(Frac::new(1, 2)?)),
        b'T' => Ok(Expr::Truth(true)),
        b'I' => Ok(Expr::Quoted(Text::from_bytes(alloc, b"init")?)),
        b'D' => Ok(Expr::Quoted(Text::from_bytes(alloc, b"deadlock")?)),
        b'L' => Ok(Expr::Quoted(name(alloc, b'l')?)),
        b'M' => Ok(Expr::Quoted(name(alloc, b'm')?)),
        b'(' => Ok(Expr::Paren(Boxed::new(alloc, last(parts))?)),
        b'~' => Ok(Expr::Minus(Boxed::new(alloc, last(parts))?)),
        b'!' => Ok(Expr::Not(Boxed::new(alloc, last(parts))?)),
        b'_' => Ok(floor(alloc, parts)?),
        b'^' => Ok(call(alloc, parts, Func::Pow)?),
        b'%' => Ok(call(alloc, parts, Func::Mod)?),
        b'&' => Ok(chain(alloc, parts, Op::And)?),
        b'>' => Ok(chain(alloc, parts, Op::Gt)?),
        b'=' => Ok(chain(alloc, parts, Op::Eq)?),
        b'+' => Ok(chain(alloc, parts, Op::Add)?),
        b'*' => Ok(chain(alloc, parts, Op::Mul)?),
        b'/' => Ok(chain(alloc, parts, Op::Div)?),
        _ => Ok(Expr::Name(name(alloc, letter)?)),
    }
}

/// The expression that a text means.
pub fn read(alloc: Global, text: &[u8]) -> Result<Expr, Fail> {
    let mut parts = Vec::new(alloc);
    for letter in text {
        let next = part(alloc, &mut parts, *letter)?;
        parts.push(next)?;
    }
    Ok(last(&mut parts))
}

/// The expression that a text means, or none where it is empty.
pub fn read_part(alloc: Global, text: &[u8]) -> Result<Option<Expr>, Fail> {
    if text.is_empty() {
        return Ok(None);
    }
    Ok(Some(read(alloc, text)?))
}

/// The text of one constant, `k`, which is 2.
fn constant_text(alloc: Global) -> Result<FlatText, Fail>
    ensures { IfOk result (λ text. AreDistinct (const_names text.consts)) }
{
    let value = Some(Expr::Whole(Frac::new(2, 1)?));
    let mut consts = Items::new(alloc);
    consts.push(ConstText {
        name: name(alloc, b'k')?,
        sort: SortWord::Int,
        value,
    })?;
    Ok(FlatText {
        consts,
        globals: Items::new(alloc),
        formulas: Items::new(alloc),
        modules: Items::new(alloc),
        labels: Items::new(alloc),
    })
}

/// The only constant, `k`, which is 2.
pub fn consts(alloc: Global) -> Result<Consts, Fail> {
    let text = constant_text(alloc)?;
    Ok(constants(alloc, &text, &[])?)
}
