ghost use Rattle.std.specs.Prelude.{◌≡◌, IfOk};

use chain_model::{Form, Typed};
use sqlite_items::{Boxed, Items};
use std::alloc::{AllocError, Global};

/// Another tree that is the same.
#[cycle(copy)]
pub fn copy_tree(alloc: Global, tree: &Typed) -> Result<Typed, AllocError>
    ensures { IfOk result (λ other. other ≡ tree.now) }
{
    Ok(Typed {
        sort: tree.sort,
        form: copy_form(alloc, &tree.form)?,
    })
}

/// Another form that is the same.
#[cycle(copy)]
fn copy_form(alloc: Global, form: &Form) -> Result<Form, AllocError>
    ensures { IfOk result (λ other. other ≡ form.now) }
{
    match form {
        Form::Lit(value) => Ok(Form::Lit(*value)),
        Form::Var(number) => Ok(Form::Var(*number)),
        Form::Call(function, parts) => Ok(Form::Call(
            *function,
            copy_all(alloc, parts.as_slice())?,
        )),
        Form::Not(operand) => Ok(Form::Not(copy_part(alloc, operand)?)),
        Form::Minus(operand) => Ok(Form::Minus(copy_part(alloc, operand)?)),
        Form::Level(operands, operators) => Ok(Form::Level(
            copy_all(alloc, operands.as_slice())?,
            Items::from_slice(alloc, operators.as_slice())?,
        )),
        Form::If(condition, first, second) => Ok(Form::If(
            copy_part(alloc, condition)?,
            copy_part(alloc, first)?,
            copy_part(alloc, second)?,
        )),
        Form::IsInit => Ok(Form::IsInit),
        Form::IsDeadlock => Ok(Form::IsDeadlock),
    }
}

/// Another part that is the same.
#[cycle(copy)]
fn copy_part(alloc: Global, part: &Boxed<Typed>) -> Result<Boxed<Typed>, AllocError>
    ensures { IfOk result (λ other. other ≡ part.now) }
{
    Boxed::new(alloc, copy_tree(alloc, part.get())?)
}

/// The same trees once more.
#[cycle(copy)]
fn copy_all(alloc: Global, trees: &[Typed]) -> Result<Items<Typed>, AllocError>
    ensures { IfOk result (λ others. others ≡ trees.now) }
{
    let mut others = Items::new(alloc);
    for tree in trees {
        others.push(copy_tree(alloc, tree)?)?;
    }
    Ok(others)
}
