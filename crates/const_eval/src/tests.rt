//! Constants, sorts and values by hand.

ghost use Rattle.std.specs.Prelude.{IfOk};
ghost use Rattle.prism_names.specs.First.{AreDistinct};
ghost use Rattle.const_eval.specs.Constants.{const_names};

use crate::{ConstFault, Constant, Consts, constants, sort, value};
use chain_model::{Given, Sort, TraceFault, Value};
use indexmap::IndexMap;
use prism_syntax::{ConstText, Expr, FlatText, Func, Op, SortWord};
use smc_num::{Frac, NumFault, Text};
use sqlite_items::{Boxed, Items};
use std::alloc::{AllocError, Global};
use std::test::Fail;

fn name(alloc: Global, letter: u8) -> Result<Text, AllocError> {
    Text::from_bytes(alloc, &[letter])
}

/// The expression that was read last, of which there is always one.
fn last(parts: &mut Vec<Expr>) -> Expr {
    match parts.pop() {
        Some(part) => part,
        None => Expr::Truth(false),
    }
}

/// The two expressions that were read last.
fn last_two(alloc: Global, parts: &mut Vec<Expr>) -> Result<Items<Expr>, AllocError> {
    let second = last(parts);
    let mut both = Items::new(alloc);
    both.push(last(parts))?;
    both.push(second)?;
    Ok(both)
}

fn chain(alloc: Global, parts: &mut Vec<Expr>, op: Op) -> Result<Expr, AllocError> {
    let mut ops = Items::new(alloc);
    ops.push(op)?;
    Ok(Expr::Level(last_two(alloc, parts)?, ops))
}

fn call(alloc: Global, parts: &mut Vec<Expr>, func: Func) -> Result<Expr, AllocError> {
    Ok(Expr::Call(func, last_two(alloc, parts)?))
}

fn conditional(alloc: Global, parts: &mut Vec<Expr>) -> Result<Expr, AllocError> {
    let second = Boxed::new(alloc, last(parts))?;
    let first = Boxed::new(alloc, last(parts))?;
    Ok(Expr::If(Boxed::new(alloc, last(parts))?, first, second))
}

/// What a letter means after the parts that were read.
fn part(alloc: Global, parts: &mut Vec<Expr>, letter: u8) -> Result<Expr, Fail> {
    match letter {
        b'0'..=b'9' => Ok(Expr::Whole(Frac::new((letter - b'0') as i64, 1)?)),
        b'H' => Ok(Expr::Real(Frac::new(1, 2)?)),
        b'T' => Ok(Expr::Truth(true)),
        b'F' => Ok(Expr::Truth(false)),
        b'"' => Ok(Expr::Quoted(name(alloc, b'a')?)),
        b'~' => Ok(Expr::Minus(Boxed::new(alloc, last(parts))?)),
        b'!' => Ok(Expr::Not(Boxed::new(alloc, last(parts))?)),
        b'?' => Ok(conditional(alloc, parts)?),
        b'm' => Ok(call(alloc, parts, Func::Min)?),
        b'M' => Ok(call(alloc, parts, Func::Max)?),
        b'^' => Ok(call(alloc, parts, Func::Pow)?),
        b'%' => Ok(call(alloc, parts, Func::Mod)?),
        b'&' => Ok(chain(alloc, parts, Op::And)?),
        b'|' => Ok(chain(alloc, parts, Op::Or)?),
        b'>' => Ok(chain(alloc, parts, Op::Gt)?),
        b'=' => Ok(chain(alloc, parts, Op::Eq)?),
        b'+' => Ok(chain(alloc, parts, Op::Add)?),
        b'*' => Ok(chain(alloc, parts, Op::Mul)?),
        b'/' => Ok(chain(alloc, parts, Op::Div)?),
        _ => Ok(Expr::Name(name(alloc, letter)?)),
    }
}

/// The expression that a text means, in which an operator stands after its operands: `10/` is one by zero, `T1a?` is
/// `true ? 1 : a`, `H` a half and `~` the opposite.
fn read(alloc: Global, text: &[u8]) -> Result<Expr, Fail> {
    let mut parts = Vec::new(alloc);
    for letter in text {
        let next = part(alloc, &mut parts, *letter)?;
        parts.push(next)?;
    }
    Ok(last(&mut parts))
}

/// How a constant is declared: its sort and its definition, which is missing where the text is empty.
type Declared = (SortWord, &'static str);

fn definition(alloc: Global, text: &[u8]) -> Result<Option<Expr>, Fail> {
    if text.is_empty() {
        return Ok(None);
    }
    Ok(Some(read(alloc, text)?))
}

/// The text of the constants `a` and `b`.
fn flat_text(alloc: Global, first: Declared, second: Declared) -> Result<FlatText, Fail>
    ensures { IfOk result (λ text. AreDistinct (const_names text.consts)) }
{
    let first_value = definition(alloc, first.1.as_bytes())?;
    let second_value = definition(alloc, second.1.as_bytes())?;
    let mut consts = Items::new(alloc);
    consts.push(ConstText {
        name: Text::from_bytes(alloc, b"a")?,
        sort: first.0,
        value: first_value,
    })?;
    consts.push(ConstText {
        name: Text::from_bytes(alloc, b"b")?,
        sort: second.0,
        value: second_value,
    })?;
    Ok(FlatText {
        consts,
        globals: Items::new(alloc),
        formulas: Items::new(alloc),
        modules: Items::new(alloc),
        labels: Items::new(alloc),
    })
}

fn given_value(sort: Sort, value: i64) -> Result<Value, Fail> {
    match sort {
        Sort::Bool => Ok(Value::Bool(value == 1)),
        Sort::Int | Sort::Double => Ok(Value::Num(Frac::new(value, 1)?)),
    }
}

/// What is given: names, sorts and values.
fn givens(alloc: Global, rows: &[(u8, Sort, i64)]) -> Result<Vec<Given>, Fail> {
    let mut given = Vec::new(alloc);
    for row in rows {
        let value = given_value(row.1, row.2)?;
        given.push(Given {
            name: name(alloc, row.0)?,
            sort: row.1,
            value,
        })?;
    }
    Ok(given)
}

/// What is told of the constant `a`, or why the text is refused, with a name of one letter.
#[derive(Clone, Copy, Debug, PartialEq, Eq)]
enum Told {
    Number(Sort, i64, i64),
    Truth(bool),
    Undefined(u8),
    Unknown(u8),
    GivenTwice(u8),
    Cycle(u8),
    WrongType(u8),
    Num(u8, NumFault),
    Nothing,
}

fn letter(name: &Text) -> u8 {
    match name.bytes() {
        [letter] => *letter,
        _ => 0,
    }
}

fn told_fault(fault: &ConstFault) -> Told {
    match fault {
        ConstFault::Undefined { name } => Told::Undefined(letter(name)),
        ConstFault::Unknown { name } => Told::Unknown(letter(name)),
        ConstFault::GivenTwice { name } => Told::GivenTwice(letter(name)),
        ConstFault::Cycle { name } => Told::Cycle(letter(name)),
        ConstFault::WrongType { name } => Told::WrongType(letter(name)),
        ConstFault::Num { name, fault } => Told::Num(letter(name), *fault),
        ConstFault::OutOfMemory(_) => Told::Nothing,
    }
}

fn told_number(sort: Sort, number: &Frac) -> Told {
    Told::Number(sort, number.num(), number.den())
}

fn told_constant(found: &Constant) -> Told {
    match &found.value {
        Value::Num(number) => told_number(found.sort, number),
        Value::Bool(holds) => Told::Truth(*holds),
    }
}

/// What is told of `a`, where there are two constants.
fn told_value(known: &Consts, name: &Text) -> Told {
    if known.len() != 2 {
        return Told::Nothing;
    }
    match known.get(name) {
        Some(found) => told_constant(&found),
        None => Told::Nothing,
    }
}

fn tell(
    alloc: Global,
    first: Declared,
    second: Declared,
    rows: &[(u8, Sort, i64)],
) -> Result<Told, Fail> {
    let flat = flat_text(alloc, first, second)?;
    let given = givens(alloc, rows)?;
    let name = name(alloc, b'a')?;
    match constants(alloc, &flat, given.as_slice()) {
        Ok(known) => Ok(told_value(&known, &name)),
        Err(fault) => Ok(told_fault(&fault)),
    }
}

const INT: SortWord = SortWord::Int;

const REAL: SortWord = SortWord::Double;

const BOOL: SortWord = SortWord::Bool;

/// How `a` and `b` are declared, and why the text is refused.
static REFUSED: [(Declared, Declared, Told); 22] = [
    ((INT, ""), (INT, "1"), Told::Undefined(b'a')),
    ((INT, "c"), (INT, ""), Told::Undefined(b'b')),
    ((INT, "c"), (INT, "b"), Told::Unknown(b'c')),
    ((INT, "T1c?"), (INT, "1"), Told::Unknown(b'c')),
    ((INT, "b"), (INT, "a"), Told::Cycle(b'a')),
    ((INT, "b"), (INT, "b"), Told::Cycle(b'b')),
    ((INT, "T1a?"), (INT, "1"), Told::Cycle(b'a')),
    ((INT, "T"), (INT, "b1+"), Told::Cycle(b'b')),
    ((INT, "T"), (INT, "1"), Told::WrongType(b'a')),
    ((INT, "42/"), (INT, "1"), Told::WrongType(b'a')),
    ((INT, "H"), (INT, "1"), Told::WrongType(b'a')),
    ((REAL, "10/"), (INT, "T"), Told::WrongType(b'b')),
    ((BOOL, "1T&"), (INT, "1"), Told::WrongType(b'a')),
    ((BOOL, "\""), (INT, "1"), Told::WrongType(b'a')),
    ((INT, "F1T?"), (INT, "1"), Told::WrongType(b'a')),
    ((INT, "b"), (REAL, "1"), Told::WrongType(b'a')),
    (
        (REAL, "10/"),
        (INT, "1"),
        Told::Num(b'a', NumFault::ZeroDivisor),
    ),
    (
        (REAL, "b"),
        (REAL, "10/"),
        Told::Num(b'a', NumFault::ZeroDivisor),
    ),
    (
        (REAL, "1"),
        (REAL, "10/"),
        Told::Num(b'b', NumFault::ZeroDivisor),
    ),
    (
        (BOOL, "T10/0>&"),
        (INT, "1"),
        Told::Num(b'a', NumFault::ZeroDivisor),
    ),
    (
        (INT, "288*2*2+^"),
        (INT, "1"),
        Told::Num(b'a', NumFault::OutOfLimit),
    ),
    (
        (INT, "72~%"),
        (INT, "1"),
        Told::Num(b'a', NumFault::OutsideDomain),
    ),
];

#[test]
fn texts_are_refused_for_the_first_cause(rt: HostRuntime) -> Result<(), Fail> {
    for (first, second, want) in REFUSED.iter() {
        assert_eq!(rt; tell(rt.alloc(), *first, *second, &[])?, *want);
    }
    Ok(())
}

/// How `a` and `b` are declared, and what `a` is.
static VALUES: [(Declared, Declared, Told); 13] = [
    ((INT, "b6*"), (INT, "7"), Told::Number(Sort::Int, 42, 1)),
    ((REAL, "b6/"), (INT, "4"), Told::Number(Sort::Double, 2, 3)),
    ((REAL, "1"), (INT, "1"), Told::Number(Sort::Double, 1, 1)),
    ((INT, "5~"), (INT, "1"), Told::Number(Sort::Int, -5, 1)),
    ((INT, "34~m"), (INT, "1"), Told::Number(Sort::Int, -4, 1)),
    ((INT, "34~M"), (INT, "1"), Told::Number(Sort::Int, 3, 1)),
    ((INT, "7~3%"), (INT, "1"), Told::Number(Sort::Int, 2, 1)),
    ((INT, "T1b?"), (INT, "2"), Told::Number(Sort::Int, 1, 1)),
    (
        (REAL, "T110/?"),
        (INT, "2"),
        Told::Number(Sort::Double, 1, 1),
    ),
    ((BOOL, "F10/0>&"), (INT, "1"), Told::Truth(false)),
    ((BOOL, "T10/0>|"), (INT, "1"), Told::Truth(true)),
    ((BOOL, "H12/="), (INT, "1"), Told::Truth(true)),
    ((BOOL, "T!"), (INT, "1"), Told::Truth(false)),
];

#[test]
fn constants_have_their_values(rt: HostRuntime) -> Result<(), Fail> {
    for (first, second, want) in VALUES.iter() {
        assert_eq!(rt; tell(rt.alloc(), *first, *second, &[])?, *want);
    }
    Ok(())
}

/// How `a` is declared, what is given where `b` is 1, and what is told.
static GIVEN: [(Declared, &[(u8, Sort, i64)], Told); 10] = [
    (
        (INT, ""),
        &[(b'a', Sort::Int, 3)],
        Told::Number(Sort::Int, 3, 1),
    ),
    (
        (REAL, ""),
        &[(b'a', Sort::Int, 3)],
        Told::Number(Sort::Double, 3, 1),
    ),
    ((BOOL, ""), &[(b'a', Sort::Bool, 1)], Told::Truth(true)),
    ((INT, ""), &[(b'c', Sort::Int, 1)], Told::Undefined(b'a')),
    (
        (INT, "d"),
        &[(b'b', Sort::Int, 1), (b'c', Sort::Int, 1)],
        Told::Unknown(b'c'),
    ),
    (
        (INT, ""),
        &[(b'a', Sort::Int, 1), (b'a', Sort::Int, 2)],
        Told::GivenTwice(b'a'),
    ),
    ((INT, "a"), &[(b'b', Sort::Int, 1)], Told::GivenTwice(b'b')),
    (
        (INT, "1"),
        &[(b'b', Sort::Int, 1), (b'a', Sort::Int, 2)],
        Told::GivenTwice(b'b'),
    ),
    ((BOOL, ""), &[(b'a', Sort::Int, 1)], Told::WrongType(b'a')),
    ((INT, ""), &[(b'a', Sort::Double, 1)], Told::WrongType(b'a')),
];

#[test]
fn given_values_stand_for_their_names(rt: HostRuntime) -> Result<(), Fail> {
    for (first, given, want) in GIVEN.iter() {
        assert_eq!(rt; tell(rt.alloc(), *first, (INT, "1"), given)?, *want);
    }
    Ok(())
}

/// The tree of the deepest text that is parsed: 1 behind 64 times 192 signs and a pair of parentheses, in the last branch
/// of 1,024 conditionals.
fn deepest(alloc: Global) -> Result<Expr, Fail> {
    let one = Frac::new(1, 1)?;
    let mut tree = Expr::Whole(one);
    for _ in 0..64 {
        tree = Expr::Paren(Boxed::new(alloc, tree)?);
        for _ in 0..192 {
            tree = Expr::Minus(Boxed::new(alloc, tree)?);
        }
    }
    for _ in 0..1_024 {
        tree = Expr::If(
            Boxed::new(alloc, Expr::Truth(false))?,
            Boxed::new(alloc, Expr::Whole(one))?,
            Boxed::new(alloc, tree)?,
        );
    }
    Ok(tree)
}

fn deepest_sort(alloc: Global) -> Result<Option<Sort>, Fail> {
    let tree = deepest(alloc)?;
    let sorts: IndexMap<Text, Sort> = IndexMap::new(alloc);
    Ok(sort(&sorts, &tree))
}

fn deepest_value(alloc: Global) -> Result<Result<Value, TraceFault>, Fail> {
    let tree = deepest(alloc)?;
    let values: IndexMap<Text, Result<Value, TraceFault>> = IndexMap::new(alloc);
    Ok(value(&values, &tree))
}

#[test]
fn the_deepest_tree_has_a_sort_and_a_value(rt: HostRuntime) -> Result<(), Fail> {
    assert_eq!(rt; deepest_sort(rt.alloc())?, Some(Sort::Int));
    let one = Frac::new(1, 1)?;
    assert_eq!(rt; deepest_value(rt.alloc())?, Ok(Value::Num(one)));
    Ok(())
}
