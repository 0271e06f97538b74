//! Typed trees by hand, in a scope with a constant `k`, which is 2, a variable `x`, which has number 0, and a label `l`,
//! which is true.

ghost use Rattle.std.specs.Prelude.{IfOk};
ghost use Rattle.prism_names.specs.First.{AreDistinct};
ghost use Rattle.const_eval.specs.Constants.{const_names};

use crate::{Scope, add_tree, constant_value, copy_tree, literal, stands, type_tree};
use chain_model::{Form, Sort, TraceFault, Typed, Value};
use const_eval::{Consts, constants};
use indexmap::IndexMap;
use prism_syntax::{ConstText, Expr, FlatText, Op, SortWord};
use smc_num::{Frac, Text};
use sqlite_items::{Boxed, Items};
use std::alloc::{AllocError, Global};
use std::test::Fail;

fn name(alloc: Global, letter: u8) -> Result<Text, AllocError> {
    Text::from_bytes(alloc, &[letter])
}

/// The text of one constant, `k`, which is 2.
fn constant_text(alloc: Global) -> Result<FlatText, Fail>
    ensures { IfOk result (λ text. AreDistinct (const_names text.consts)) }
{
    let value = Some(Expr::Whole(Frac::new(2, 1)?));
    let mut consts = Items::new(alloc);
    consts.push(ConstText {
        name: name(alloc, b'k')?,
        sort: SortWord::Int,
        value,
    })?;
    Ok(FlatText {
        consts,
        globals: Items::new(alloc),
        formulas: Items::new(alloc),
        modules: Items::new(alloc),
        labels: Items::new(alloc),
    })
}

/// The only constant, `k`, which is 2.
fn consts(alloc: Global) -> Result<Consts, Fail> {
    let text = constant_text(alloc)?;
    Ok(constants(alloc, &text, &[])?)
}

/// The expression of a letter: a digit, `T`, which is true, `L`, which is the label `l`, or else a name.
fn leaf(alloc: Global, letter: u8) -> Result<Expr, Fail> {
    match letter {
        b'0'..=b'9' => Ok(Expr::Whole(Frac::new((letter - b'0') as i64, 1)?)),
        b'T' => Ok(Expr::Truth(true)),
        b'L' => Ok(Expr::Quoted(name(alloc, b'l')?)),
        _ => Ok(Expr::Name(name(alloc, letter)?)),
    }
}

/// Two leaves and an operator between them.
fn joined(alloc: Global, first: u8, op: Op, second: u8) -> Result<Expr, Fail> {
    let mut parts = Items::new(alloc);
    parts.push(leaf(alloc, first)?)?;
    parts.push(leaf(alloc, second)?)?;
    let mut ops = Items::new(alloc);
    ops.push(op)?;
    Ok(Expr::Paren(Boxed::new(alloc, Expr::Level(parts, ops))?))
}

/// A table of the one tree of a letter.
fn table(alloc: Global, letter: u8, tree: Typed) -> Result<IndexMap<Text, Typed>, AllocError> {
    let mut table = IndexMap::new(alloc);
    add_tree(&mut table, name(alloc, letter)?, tree)?;
    Ok(table)
}

/// The variable `x`.
fn variable() -> Typed {
    Typed {
        sort: Sort::Int,
        form: Form::Var(0),
    }
}

/// The typed tree of two leaves and an operator, where it has one.
fn tree(alloc: Global, first: u8, op: Op, second: u8) -> Result<Option<Typed>, Fail> {
    let consts = consts(alloc)?;
    let variables = table(alloc, b'x', variable())?;
    let labels = table(alloc, b'l', literal(Sort::Bool, Value::Bool(true)))?;
    let scope = Scope {
        consts: &consts,
        variables: &variables,
        labels: &labels,
    };
    Ok(type_tree(alloc, &scope, &joined(alloc, first, op, second)?)?)
}

/// The sort of two leaves and an operator, where they have one.
fn sort(alloc: Global, row: &Row) -> Result<Option<Sort>, Fail> {
    Ok(tree(alloc, row.0, row.1, row.2)?.map(|tree| tree.sort))
}

type Row = (u8, Op, u8, Option<Sort>);

static SORTS: [Row; 8] = [
    (b'x', Op::Add, b'k', Some(Sort::Int)),
    (b'x', Op::Div, b'k', Some(Sort::Double)),
    (b'x', Op::Lt, b'7', Some(Sort::Bool)),
    (b'L', Op::And, b'T', Some(Sort::Bool)),
    (b'x', Op::And, b'T', None),
    (b'L', Op::Add, b'1', None),
    (b'T', Op::Eq, b'1', None),
    (b'q', Op::Add, b'1', None),
];

#[test]
fn expressions_have_the_sorts_of_the_table_of_forms(rt: HostRuntime) -> Result<(), Fail> {
    for row in SORTS.iter() {
        assert_eq!(rt; sort(rt.alloc(), row)?, row.3);
    }
    Ok(())
}

/// Whether a tree is `x + 2`.
fn is_sum(tree: &Typed) -> bool {
    let Form::Level(parts, ops) = &tree.form else {
        return false;
    };
    match (parts.as_slice(), ops.as_slice()) {
        ([first, second], [chain_model::Op::Add]) => is_variable(first) && is_two(second),
        _ => false,
    }
}

fn is_variable(tree: &Typed) -> bool {
    match &tree.form {
        Form::Var(number) => tree.sort == Sort::Int && *number == 0,
        _ => false,
    }
}

fn is_two(tree: &Typed) -> bool {
    match &tree.form {
        Form::Lit(Value::Num(number)) => tree.sort == Sort::Int && number.num() == 2,
        _ => false,
    }
}

/// Whether the typed tree of `(x + k)`, and the same tree once more, are `x + 2`.
fn sum_is_typed(alloc: Global) -> Result<bool, Fail> {
    match tree(alloc, b'x', Op::Add, b'k')? {
        Some(tree) => Ok(is_sum(&tree) && is_sum(&copy_tree(alloc, &tree)?)),
        None => Ok(false),
    }
}

#[test]
fn a_typed_tree_has_no_parentheses_and_what_its_names_stand_for(
    rt: HostRuntime,
) -> Result<(), Fail> {
    assert!(rt; sum_is_typed(rt.alloc())?);
    Ok(())
}

/// The sort that a table has for a name after two trees of that name were listed.
fn first_listed(alloc: Global) -> Result<Option<Sort>, AllocError> {
    let mut table = table(alloc, b'x', variable())?;
    let other = literal(Sort::Bool, Value::Bool(true));
    add_tree(&mut table, name(alloc, b'x')?, other)?;
    Ok(table.get(&name(alloc, b'x')?).map(|tree| tree.sort))
}

#[test]
fn a_table_keeps_the_first_tree_of_a_name(rt: HostRuntime) -> Result<(), Fail> {
    assert_eq!(rt; first_listed(rt.alloc())?, Some(Sort::Int));
    Ok(())
}

/// Whether a name stands for something; labels are no names.
fn is_there(alloc: Global, letter: u8) -> Result<bool, Fail> {
    let consts = consts(alloc)?;
    let variables = table(alloc, b'x', variable())?;
    let labels = table(alloc, b'l', literal(Sort::Bool, Value::Bool(true)))?;
    let scope = Scope {
        consts: &consts,
        variables: &variables,
        labels: &labels,
    };
    Ok(stands(&scope, &name(alloc, letter)?))
}

#[test]
fn constants_and_variables_stand_for_something(rt: HostRuntime) -> Result<(), Fail> {
    for (letter, there) in [(b'k', true), (b'x', true), (b'l', false), (b'q', false)] {
        assert_eq!(rt; is_there(rt.alloc(), letter)?, there);
    }
    Ok(())
}

/// The value of two leaves and an operator between them.
fn valued(alloc: Global, first: u8, op: Op, second: u8) -> Result<Result<Value, TraceFault>, Fail> {
    let consts = consts(alloc)?;
    let expr = joined(alloc, first, op, second)?;
    Ok(constant_value(alloc, &consts, &expr)?)
}

#[test]
fn an_expression_of_constants_has_a_value_or_a_fault(rt: HostRuntime) -> Result<(), Fail> {
    let sum = valued(rt.alloc(), b'k', Op::Add, b'1')?;
    assert_eq!(rt; sum, Ok(Value::Num(Frac::new(3, 1)?)));
    let quotient = valued(rt.alloc(), b'k', Op::Div, b'0')?;
    assert_eq!(rt; quotient, Err(TraceFault::ZeroDivisor));
    Ok(())
}
