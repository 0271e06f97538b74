ghost use Rattle.std.specs.Prelude.{◌≡◌, ◌∷◌, [], ◌++◌, codes, map, flat_map, if◌then◌else◌, ◌==◌, OnOk};
ghost use Rattle.prism_syntax.specs.declared.tokens.Kind.TheVariants as k;
ghost use Rattle.prism_syntax.specs.declared.expressions.Expr.TheVariants as e;
ghost use Rattle.prism_syntax.specs.Inverses.{operator_token, function_token};
ghost use Rattle.prism_print.specs.Pieces.{token, blank, spelled, text_of};
ghost use Rattle.prism_print.specs.Layout.{spaced, separated, chained, truth_token, expression};

use crate::numbers::{append_real, append_whole};
use prism_syntax::{Expr, Func, Op};
use std::alloc::AllocError;

/// Appends an expression.
#[cycle(expressions)]
#[tactic(auto, unfolding(prism_syntax::specs::Spelling::spelling_of), using(crate::proofs::TextLemmas::text_append))]
pub(crate) fn append_expression(text: &mut Vec<u8>, expr: &Expr) -> Result<(), AllocError>
    ensures { OnOk result (text.new.items ≡ text.old.items ++ text_of (expression expr.now)) }
{
    match expr {
        Expr::Whole(value) => append_whole(text, *value),
        Expr::Real(value) => append_real(text, *value),
        Expr::Truth(value) => append_truth(text, *value),
        Expr::Name(name) => text.extend_from_slice(name.bytes()),
        Expr::Quoted(name) => append_quoted(text, name.bytes()),
        Expr::Paren(inner) => {
            text.extend_from_slice(b"(")?;
            append_expression(text, inner.get())?;
            text.extend_from_slice(b")")
        }
        Expr::Call(function, parts) => append_call(text, *function, parts.as_slice()),
        Expr::Not(operand) => {
            text.extend_from_slice(b"!")?;
            append_expression(text, operand.get())
        }
        Expr::Minus(operand) => {
            text.extend_from_slice(b"-")?;
            append_expression(text, operand.get())
        }
        Expr::Level(operands, operators) => append_chain(
            text,
            operands.as_slice(),
            operators.as_slice(),
        ),
        Expr::If(condition, first, second) => {
            append_expression(text, condition.get())?;
            text.extend_from_slice(b" ? ")?;
            append_expression(text, first.get())?;
            text.extend_from_slice(b" : ")?;
            append_expression(text, second.get())
        }
    }
}

/// Appends a truth value.
#[tactic(auto, unfolding(prism_syntax::specs::Spelling::spelling_of))]
fn append_truth(text: &mut Vec<u8>, value: bool) -> Result<(), AllocError>
    ensures { OnOk result (text.new.items ≡ text.old.items ++ spelled (truth_token value)) }
{
    if value {
        text.extend_from_slice(b"true")
    } else {
        text.extend_from_slice(b"false")
    }
}

/// Appends a name between quotation marks.
pub(crate) fn append_quoted(text: &mut Vec<u8>, name: &[u8]) -> Result<(), AllocError>
    ensures { OnOk result (text.new.items ≡ text.old.items ++ spelled (k.Quoted name.now)) }
{
    text.extend_from_slice(b"\"")?;
    text.extend_from_slice(name)?;
    text.extend_from_slice(b"\"")
}

/// Appends a call.
#[cycle(expressions)]
#[inline(never)]
fn append_call(text: &mut Vec<u8>, function: Func, parts: &[Expr]) -> Result<(), AllocError>
    ensures { OnOk result (text.new.items ≡ text.old.items ++ (spelled (function_token function)
        ++ (codes "(" ++ (text_of (separated (token k.Comma ∷ blank ∷ []) (map expression parts.now)) ++ codes ")")))) }
{
    append_function(text, function)?;
    text.extend_from_slice(b"(")?;
    append_arguments(text, parts)?;
    text.extend_from_slice(b")")
}

/// Appends the word of a function.
#[tactic(auto, unfolding(prism_syntax::specs::Spelling::spelling_of))]
fn append_function(text: &mut Vec<u8>, function: Func) -> Result<(), AllocError>
    ensures { OnOk result (text.new.items ≡ text.old.items ++ spelled (function_token function)) }
{
    match function {
        Func::Min => text.extend_from_slice(b"min"),
        Func::Max => text.extend_from_slice(b"max"),
        Func::Floor => text.extend_from_slice(b"floor"),
        Func::Ceil => text.extend_from_slice(b"ceil"),
        Func::Pow => text.extend_from_slice(b"pow"),
        Func::Mod => text.extend_from_slice(b"mod"),
    }
}

/// Appends arguments, separated by commas.
#[cycle(expressions)]
fn append_arguments(text: &mut Vec<u8>, parts: &[Expr]) -> Result<(), AllocError>
    ensures { OnOk result (text.new.items ≡ text.old.items
        ++ text_of (separated (token k.Comma ∷ blank ∷ []) (map expression parts.now))) }
{
    for index in 0..parts.len() {
        append_between(text, index, b", ")?;
        append_expression(text, &parts[index])?;
    }
    Ok(())
}

/// Appends what stands before each part but the first.
pub(crate) fn append_between(
    text: &mut Vec<u8>,
    index: usize,
    between: &[u8],
) -> Result<(), AllocError>
    ensures { OnOk result (text.new.items ≡ text.old.items ++ (if index == 0 then [] else between.now)) }
{
    if index == 0 {
        return Ok(());
    }
    text.extend_from_slice(between)
}

/// Appends a chain: operands, and the operators between them.
#[cycle(expressions)]
#[inline(never)]
fn append_chain(text: &mut Vec<u8>, operands: &[Expr], operators: &[Op]) -> Result<(), AllocError>
    ensures { OnOk result (text.new.items ≡ text.old.items
        ++ text_of (chained (map expression operands.now) operators.now)) }
{
    for index in 0..operands.len() {
        append_expression(text, &operands[index])?;
        match operators.get(index) {
            Some(operator) => append_operator(text, *operator)?,
            None => return Ok(()),
        }
    }
    Ok(())
}

/// Appends an operator with a blank on either side.
#[tactic(auto, unfolding(prism_syntax::specs::Spelling::spelling_of))]
fn append_operator(text: &mut Vec<u8>, operator: Op) -> Result<(), AllocError>
    ensures { OnOk result (text.new.items ≡ text.old.items ++ text_of (spaced (operator_token operator))) }
{
    match operator {
        Op::Imp => text.extend_from_slice(b" => "),
        Op::Iff => text.extend_from_slice(b" <=> "),
        Op::Or => text.extend_from_slice(b" | "),
        Op::And => text.extend_from_slice(b" & "),
        Op::Eq => text.extend_from_slice(b" = "),
        Op::Ne => text.extend_from_slice(b" != "),
        Op::Lt => text.extend_from_slice(b" < "),
        Op::Le => text.extend_from_slice(b" <= "),
        Op::Gt => text.extend_from_slice(b" > "),
        Op::Ge => text.extend_from_slice(b" >= "),
        Op::Add => text.extend_from_slice(b" + "),
        Op::Sub => text.extend_from_slice(b" - "),
        Op::Mul => text.extend_from_slice(b" * "),
        Op::Div => text.extend_from_slice(b" / "),
    }
}
