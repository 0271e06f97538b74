//! Flat models by hand. A text is a model, its lines end in `;`: `@n` begins a module, and what stands before the first
//! is global; `#x 0 1 0` is a variable with a range and the value that it starts with, which may be left out; `$b T` is a
//! boolean; `[a] g H:x1,y0 :` is a command with its action, its guard, and branches with their weights and assignments;
//! `"l g` is a label.

use super::expressions::{letter, name, read, read_part};
use crate::{Item, TypeFault, check};
use const_eval::Consts;
use prism_syntax::{Branch, Command, Expr, FlatText, Module, Named, Variable};
use smc_num::{NumFault, Text};
use sqlite_items::Items;
use std::alloc::{AllocError, Global};
use std::test::Fail;

/// The part of a text of this index, or nothing past the last.
pub fn field(text: &[u8], separator: u8, index: usize) -> &[u8] {
    for (number, part) in text.split(|byte| *byte == separator).enumerate() {
        if number == index {
            return part;
        }
    }
    &[]
}

/// A variable with a range.
fn ranged(alloc: Global, title: u8, text: &[u8]) -> Result<Variable, Fail> {
    let least = read(alloc, field(text, b' ', 1))?;
    let greatest = read(alloc, field(text, b' ', 2))?;
    let init = read_part(alloc, field(text, b' ', 3))?;
    Ok(Variable {
        name: name(alloc, title)?,
        range: Some((least, greatest)),
        init,
    })
}

/// A variable without a range.
fn boolean(alloc: Global, title: u8, text: &[u8]) -> Result<Variable, Fail> {
    let init = read_part(alloc, field(text, b' ', 1))?;
    Ok(Variable {
        name: name(alloc, title)?,
        range: None,
        init,
    })
}

/// The number of the module that lines are of, where a line comes next; 0 is none.
fn after(number: usize, line: &[u8]) -> usize {
    match line {
        [b'@', _] => number.saturating_add(1),
        _ => number,
    }
}

/// The variable of a line, where it is one.
fn line_variable(alloc: Global, line: &[u8]) -> Result<Option<Variable>, Fail> {
    match line {
        [b'#', title, ..] => Ok(Some(ranged(alloc, *title, line)?)),
        [b'$', title, ..] => Ok(Some(boolean(alloc, *title, line)?)),
        _ => Ok(None),
    }
}

/// The variables of a module, or the globals.
fn variables(alloc: Global, text: &[u8], owner: usize) -> Result<Items<Variable>, Fail> {
    let mut list = Items::new(alloc);
    let mut number = 0;
    for line in text.split(|byte| *byte == b';') {
        number = after(number, line);
        match line_variable(alloc, line)? {
            Some(variable) if number == owner => list.push(variable)?,
            _ => {}
        }
    }
    Ok(list)
}

/// The assignments of a branch: `x1,y0`.
fn assignments(alloc: Global, text: &[u8]) -> Result<Items<(Text, Expr)>, Fail> {
    let mut list = Items::new(alloc);
    for set in text.split(|byte| *byte == b',') {
        match set {
            [title, value @ ..] => {
                let value = read(alloc, value)?;
                list.push((name(alloc, *title)?, value))?;
            }
            _ => {}
        }
    }
    Ok(list)
}

fn branch(alloc: Global, text: &[u8]) -> Result<Branch, Fail> {
    let weight = read_part(alloc, field(text, b':', 0))?;
    let sets = assignments(alloc, field(text, b':', 1))?;
    Ok(Branch { weight, sets })
}

/// The branches of a command, which stand after its action and its guard.
fn branches(alloc: Global, text: &[u8]) -> Result<Items<Branch>, Fail> {
    let mut list = Items::new(alloc);
    for (number, part) in text.split(|byte| *byte == b' ').enumerate() {
        if number >= 2 {
            let one = branch(alloc, part)?;
            list.push(one)?;
        }
    }
    Ok(list)
}

fn action(alloc: Global, text: &[u8]) -> Result<Option<Text>, AllocError> {
    match text {
        [b'[', title, b']'] => Ok(Some(name(alloc, *title)?)),
        _ => Ok(None),
    }
}

/// The command of a line, where it is one.
fn line_command(alloc: Global, line: &[u8]) -> Result<Option<Command>, Fail> {
    match line {
        [b'[', ..] => {
            let guard = read(alloc, field(line, b' ', 1))?;
            let branches = branches(alloc, line)?;
            Ok(Some(Command {
                action: action(alloc, field(line, b' ', 0))?,
                guard,
                branches,
            }))
        }
        _ => Ok(None),
    }
}

/// The commands of a module.
fn commands(alloc: Global, text: &[u8], owner: usize) -> Result<Items<Command>, Fail> {
    let mut list = Items::new(alloc);
    let mut number = 0;
    for line in text.split(|byte| *byte == b';') {
        number = after(number, line);
        match line_command(alloc, line)? {
            Some(command) if number == owner => list.push(command)?,
            _ => {}
        }
    }
    Ok(list)
}

fn module(alloc: Global, title: u8, text: &[u8], number: usize) -> Result<Module, Fail> {
    let vars = variables(alloc, text, number)?;
    let commands = commands(alloc, text, number)?;
    Ok(Module::Written {
        name: name(alloc, title)?,
        vars,
        commands,
    })
}

fn modules(alloc: Global, text: &[u8]) -> Result<Items<Module>, Fail> {
    let mut list = Items::new(alloc);
    let mut number = 0;
    for line in text.split(|byte| *byte == b';') {
        number = after(number, line);
        match line {
            [b'@', title] => {
                let one = module(alloc, *title, text, number)?;
                list.push(one)?;
            }
            _ => {}
        }
    }
    Ok(list)
}

fn labels(alloc: Global, text: &[u8]) -> Result<Items<Named>, Fail> {
    let mut list = Items::new(alloc);
    for line in text.split(|byte| *byte == b';') {
        match line {
            [b'"', title, b' ', body @ ..] => {
                let body = read(alloc, body)?;
                list.push(Named {
                    name: name(alloc, *title)?,
                    body,
                })?;
            }
            _ => {}
        }
    }
    Ok(list)
}

/// The flat model of a text.
pub fn flat_text(alloc: Global, text: &str) -> Result<FlatText, Fail> {
    let text = text.as_bytes();
    let globals = variables(alloc, text, 0)?;
    let modules = modules(alloc, text)?;
    let labels = labels(alloc, text)?;
    Ok(FlatText {
        consts: Items::new(alloc),
        globals,
        formulas: Items::new(alloc),
        modules,
        labels,
    })
}

/// What is told of a model: that it has a chain, or why it is refused, with a name of one letter.
#[derive(Clone, Copy, Debug, PartialEq, Eq)]
pub enum Told {
    Accepted,
    UnknownName(u8),
    UnknownLabel(u8),
    WrongType(Item),
    BadNumber(Item, NumFault),
    BadRange(u8),
    InitOutside(u8),
    ForeignWrite(u8),
    GlobalInSync(u8),
    WrittenTwice(u8),
    TooLarge,
    BadHorizon,
    Nothing,
}

pub fn told_fault(fault: &TypeFault) -> Told {
    match fault {
        TypeFault::UnknownName { name } => Told::UnknownName(letter(name)),
        TypeFault::UnknownLabel { name } => Told::UnknownLabel(letter(name)),
        TypeFault::WrongType { item } => Told::WrongType(*item),
        TypeFault::BadNumber { item, fault } => Told::BadNumber(*item, *fault),
        TypeFault::BadRange { name } => Told::BadRange(letter(name)),
        TypeFault::InitOutside { name } => Told::InitOutside(letter(name)),
        TypeFault::ForeignWrite { name } => Told::ForeignWrite(letter(name)),
        TypeFault::GlobalInSync { name } => Told::GlobalInSync(letter(name)),
        TypeFault::WrittenTwice { name } => Told::WrittenTwice(letter(name)),
        TypeFault::TooLarge => Told::TooLarge,
        TypeFault::BadHorizon => Told::BadHorizon,
        TypeFault::OutOfMemory(_) => Told::Nothing,
    }
}

/// What is told of a flat model.
pub fn tell(alloc: Global, flat: &FlatText, consts: &Consts) -> Told {
    match check(alloc, flat, consts) {
        Ok(_) => Told::Accepted,
        Err(fault) => told_fault(&fault),
    }
}
