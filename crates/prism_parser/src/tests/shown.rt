//! Trees as texts, with each part that has parts of its own between braces.

use prism_syntax::{
    Branch, Command, ConstText, Expr, ModelText, Module, Named, Op, SortWord, Variable, spelling,
};
use std::alloc::{AllocError, Global};

/// Appends an expression.
#[cycle(show)]
pub fn show(alloc: Global, out: &mut Vec<u8>, expr: &Expr) -> Result<(), AllocError> {
    match expr {
        Expr::Whole(value) => {
            let number = value.num();
            let digits = format!(in alloc; "{number}")?;
            out.extend_from_slice(digits.as_bytes())
        }
        Expr::Real(value) => {
            let (top, bottom) = (value.num(), value.den());
            let digits = format!(in alloc; "~{top}/{bottom}")?;
            out.extend_from_slice(digits.as_bytes())
        }
        Expr::Truth(true) => out.extend_from_slice(b"true"),
        Expr::Truth(false) => out.extend_from_slice(b"false"),
        Expr::Name(text) => out.extend_from_slice(text.bytes()),
        Expr::Quoted(text) => {
            out.extend_from_slice(b"\"")?;
            out.extend_from_slice(text.bytes())?;
            out.extend_from_slice(b"\"")
        }
        Expr::Paren(inner) => between(alloc, out, b"(", inner.get(), b")"),
        Expr::Not(operand) => between(alloc, out, b"!{", operand.get(), b"}"),
        Expr::Minus(operand) => between(alloc, out, b"-{", operand.get(), b"}"),
        Expr::Call(function, parts) => {
            out.extend_from_slice(function.spelling())?;
            list(alloc, out, parts.as_slice(), &[])
        }
        Expr::Level(operands, operators) => {
            list(alloc, out, operands.as_slice(), operators.as_slice())
        }
        Expr::If(condition, first, second) => {
            between(alloc, out, b"{", condition.get(), b"?")?;
            show(alloc, out, first.get())?;
            between(alloc, out, b":", second.get(), b"}")
        }
    }
}

/// Appends an expression between two texts.
#[cycle(show)]
fn between(
    alloc: Global,
    out: &mut Vec<u8>,
    before: &[u8],
    expr: &Expr,
    after: &[u8],
) -> Result<(), AllocError> {
    out.extend_from_slice(before)?;
    show(alloc, out, expr)?;
    out.extend_from_slice(after)
}

/// Appends expressions with the operators between them, or commas where there are none.
#[cycle(show)]
fn list(
    alloc: Global,
    out: &mut Vec<u8>,
    exprs: &[Expr],
    operators: &[Op],
) -> Result<(), AllocError> {
    out.extend_from_slice(b"{")?;
    let mut number: usize = 0;
    for expr in exprs {
        if 0 < number {
            match operators.get(number - 1) {
                Some(operator) => {
                    let token = operator.token();
                    out.extend_from_slice(spelling(&token).unwrap_or(b""))?;
                }
                None => out.extend_from_slice(b",")?,
            }
        }
        show(alloc, out, expr)?;
        number = number.saturating_add(1);
    }
    out.extend_from_slice(b"}")
}

/// Appends an expression after a text, where there is one.
fn optional(
    alloc: Global,
    out: &mut Vec<u8>,
    before: &[u8],
    expr: &Option<Expr>,
) -> Result<(), AllocError> {
    match expr {
        Some(expr) => between(alloc, out, before, expr, b""),
        None => Ok(()),
    }
}

fn constant(alloc: Global, out: &mut Vec<u8>, constant: &ConstText) -> Result<(), AllocError> {
    let sort: &[u8] = match constant.sort {
        SortWord::Int => b"int ",
        SortWord::Double => b"double ",
        SortWord::Bool => b"bool ",
    };
    out.extend_from_slice(sort)?;
    out.extend_from_slice(constant.name.bytes())?;
    optional(alloc, out, b"=", &constant.value)?;
    out.extend_from_slice(b";")
}

fn named(alloc: Global, out: &mut Vec<u8>, word: &[u8], named: &Named) -> Result<(), AllocError> {
    out.extend_from_slice(word)?;
    out.extend_from_slice(named.name.bytes())?;
    between(alloc, out, b"=", &named.body, b";")
}

fn variable(
    alloc: Global,
    out: &mut Vec<u8>,
    word: &[u8],
    variable: &Variable,
) -> Result<(), AllocError> {
    out.extend_from_slice(word)?;
    out.extend_from_slice(variable.name.bytes())?;
    match &variable.range {
        Some((low, high)) => {
            between(alloc, out, b":", low, b"..")?;
            between(alloc, out, b"", high, b"")?;
        }
        None => out.extend_from_slice(b":bool")?,
    }
    optional(alloc, out, b" init ", &variable.init)?;
    out.extend_from_slice(b";")
}

fn branch(alloc: Global, out: &mut Vec<u8>, branch: &Branch) -> Result<(), AllocError> {
    optional(alloc, out, b" ", &branch.weight)?;
    out.extend_from_slice(b":")?;
    for (name, value) in branch.sets.as_slice() {
        out.extend_from_slice(name.bytes())?;
        between(alloc, out, b"=", value, b"&")?;
    }
    Ok(())
}

fn command(alloc: Global, out: &mut Vec<u8>, command: &Command) -> Result<(), AllocError> {
    out.extend_from_slice(b"[")?;
    if let Some(action) = &command.action {
        out.extend_from_slice(action.bytes())?;
    }
    between(alloc, out, b"]", &command.guard, b"->")?;
    for part in command.branches.as_slice() {
        branch(alloc, out, part)?;
    }
    out.extend_from_slice(b";")
}

fn module(alloc: Global, out: &mut Vec<u8>, module: &Module) -> Result<(), AllocError> {
    match module {
        Module::Written {
            name,
            vars,
            commands,
        } => {
            out.extend_from_slice(name.bytes())?;
            out.extend_from_slice(b"{")?;
            for part in vars.as_slice() {
                variable(alloc, out, b"", part)?;
            }
            for part in commands.as_slice() {
                command(alloc, out, part)?;
            }
            out.extend_from_slice(b"}")
        }
        Module::Renamed {
            name,
            source,
            pairs,
        } => {
            out.extend_from_slice(name.bytes())?;
            out.extend_from_slice(b"=")?;
            out.extend_from_slice(source.bytes())?;
            for (old, new) in pairs.as_slice() {
                out.extend_from_slice(b",")?;
                out.extend_from_slice(old.bytes())?;
                out.extend_from_slice(b">")?;
                out.extend_from_slice(new.bytes())?;
            }
            out.extend_from_slice(b";")
        }
    }
}

/// Appends a model: constants, globals, formulas, modules and labels.
pub fn show_model(alloc: Global, out: &mut Vec<u8>, model: &ModelText) -> Result<(), AllocError> {
    for part in model.consts.as_slice() {
        constant(alloc, out, part)?;
    }
    for part in model.globals.as_slice() {
        variable(alloc, out, b"global ", part)?;
    }
    for part in model.formulas.as_slice() {
        named(alloc, out, b"formula ", part)?;
    }
    for part in model.modules.as_slice() {
        module(alloc, out, part)?;
    }
    for part in model.labels.as_slice() {
        named(alloc, out, b"label ", part)?;
    }
    Ok(())
}
