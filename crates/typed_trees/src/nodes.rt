//! Nodes of typed trees over the trees of their parts, where their sorts fit the table of forms.

ghost use Rattle.std.specs.Prelude.{◌≡◌, IfOk, map};
ghost use Rattle.const_eval.specs.Tables.{op_of};
ghost use Rattle.typed_trees.specs.Trees.{of_sort, whole_sort, call_tree, level_tree, negation_tree, opposite_tree, conditional_tree};

use crate::sorts::{call_sort, level_sort};
use chain_model::{
    Form, Func, Sort, Typed, Value, conditional_sort, is_of_sort, negation_sort, opposite_sort,
};
use const_eval::operator;
use sqlite_items::{Boxed, Items};
use std::alloc::{AllocError, Global};

/// A form of this sort, where it has one.
fn of_sort(form: Form, sort: Option<Sort>) -> Option<Typed>
    ensures { result ≡ of_sort form sort }
{
    match sort {
        Some(sort) => Some(Typed { sort, form }),
        None => None,
    }
}

/// A whole number.
pub fn whole_node(value: Value) -> Option<Typed>
    ensures { result ≡ of_sort (Form.Lit value) (whole_sort value) }
{
    if is_of_sort(Sort::Int, &value) {
        Some(Typed {
            sort: Sort::Int,
            form: Form::Lit(value),
        })
    } else {
        None
    }
}

/// A call.
pub fn call_node(func: Func, parts: Items<Typed>) -> Option<Typed>
    ensures { result ≡ call_tree func parts }
{
    let sort = call_sort(func, parts.as_slice());
    of_sort(Form::Call(func, parts), sort)
}

/// A chain.
pub fn level_node(
    alloc: Global,
    operands: Items<Typed>,
    operators: &[prism_syntax::Op],
) -> Result<Option<Typed>, AllocError>
    ensures { IfOk result (λ found. found ≡ level_tree operands (map op_of operators.now)) }
{
    let mut ops = Items::new(alloc);
    for op in operators {
        ops.push(operator(*op))?;
    }
    let sort = level_sort(operands.as_slice(), ops.as_slice());
    Ok(of_sort(Form::Level(operands, ops), sort))
}

/// The node of `!`.
pub fn negation_node(alloc: Global, operand: Typed) -> Result<Option<Typed>, AllocError>
    ensures { IfOk result (λ found. found ≡ negation_tree operand) }
{
    let sort = negation_sort(operand.sort);
    Ok(of_sort(Form::Not(Boxed::new(alloc, operand)?), sort))
}

/// The node of unary `-`.
pub fn opposite_node(alloc: Global, operand: Typed) -> Result<Option<Typed>, AllocError>
    ensures { IfOk result (λ found. found ≡ opposite_tree operand) }
{
    let sort = opposite_sort(operand.sort);
    Ok(of_sort(Form::Minus(Boxed::new(alloc, operand)?), sort))
}

/// A conditional.
pub fn conditional_node(
    alloc: Global,
    condition: Typed,
    first: Typed,
    second: Typed,
) -> Result<Option<Typed>, AllocError>
    ensures { IfOk result (λ found. found ≡ conditional_tree condition first second) }
{
    let sort = conditional_sort(condition.sort, first.sort, second.sort);
    let form = Form::If(
        Boxed::new(alloc, condition)?,
        Boxed::new(alloc, first)?,
        Boxed::new(alloc, second)?,
    );
    Ok(of_sort(form, sort))
}
