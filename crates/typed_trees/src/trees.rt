ghost use Rattle.std.specs.Prelude.{◌≡◌, IfOk, map};
ghost use Rattle.typed_trees.specs.Trees.{all_trees};
ghost use Rattle.typed_trees.specs.Scopes.{tree_in};

use crate::nodes::{
    call_node, conditional_node, level_node, negation_node, opposite_node, whole_node,
};
use crate::scopes::{Scope, label_tree, literal, name_tree};
use chain_model::{Sort, Typed, Value};
use const_eval::function;
use prism_syntax::Expr;
use sqlite_items::Items;
use std::alloc::{AllocError, Global};

/// The typed tree of an expression in a scope, where its sorts fit the table of forms.
#[cycle(trees)]
pub fn type_tree(alloc: Global, scope: &Scope<'_>, expr: &Expr) -> Result<Option<Typed>, AllocError>
    ensures { IfOk result (λ found. found ≡ tree_in scope.now expr.now) }
{
    match expr {
        Expr::Whole(value) => Ok(whole_node(Value::Num(*value))),
        Expr::Real(value) => Ok(Some(literal(Sort::Double, Value::Num(*value)))),
        Expr::Truth(value) => Ok(Some(literal(Sort::Bool, Value::Bool(*value)))),
        Expr::Name(name) => name_tree(alloc, scope, name),
        Expr::Quoted(name) => label_tree(alloc, scope, name),
        Expr::Paren(part) => type_tree(alloc, scope, part.get()),
        Expr::Call(func, parts) => match type_all(alloc, scope, parts.as_slice())? {
            Some(trees) => Ok(call_node(function(*func), trees)),
            None => Ok(None),
        },
        Expr::Not(operand) => match type_tree(alloc, scope, operand.get())? {
            Some(tree) => negation_node(alloc, tree),
            None => Ok(None),
        },
        Expr::Minus(operand) => match type_tree(alloc, scope, operand.get())? {
            Some(tree) => opposite_node(alloc, tree),
            None => Ok(None),
        },
        Expr::Level(operands, operators) => match type_all(alloc, scope, operands.as_slice())? {
            Some(trees) => level_node(alloc, trees, operators.as_slice()),
            None => Ok(None),
        },
        Expr::If(condition, first, second) => {
            let Some(condition) = type_tree(alloc, scope, condition.get())? else {
                return Ok(None);
            };
            let Some(first) = type_tree(alloc, scope, first.get())? else {
                return Ok(None);
            };
            match type_tree(alloc, scope, second.get())? {
                Some(second) => conditional_node(alloc, condition, first, second),
                None => Ok(None),
            }
        }
    }
}

/// The typed trees of expressions, where each has one.
#[cycle(trees)]
fn type_all(
    alloc: Global,
    scope: &Scope<'_>,
    exprs: &[Expr],
) -> Result<Option<Items<Typed>>, AllocError>
    ensures { IfOk result (λ found. found ≡ all_trees (map (tree_in scope.now) exprs.now)) }
{
    let mut trees = Items::new(alloc);
    for expr in exprs {
        match type_tree(alloc, scope, expr)? {
            Some(tree) => trees.push(tree)?,
            None => return Ok(None),
        }
    }
    Ok(Some(trees))
}
