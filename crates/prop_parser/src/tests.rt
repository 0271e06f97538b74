use super::*;
use prism_lexer::tokens;
use prism_parser::ParseFault;
use prism_syntax::{Cmp, Expr, PathText, Property, Time, Token, nodes};
use std::alloc::{AllocError, Global};
use std::test::Fail;

mod deepest;
mod faults;
mod limits;
mod trees;

/// Appends words and a number.
fn push(alloc: Global, out: &mut Vec<u8>, words: &str, number: u64) -> Result<(), AllocError> {
    let digits = format!(in alloc; "{words}{number}")?;
    out.extend_from_slice(digits.as_bytes())
}

fn comparison(cmp: Cmp) -> &'static str {
    match cmp {
        Cmp::AtLeast => "P>=",
        Cmp::Above => "P>",
        Cmp::AtMost => "P<=",
        Cmp::Below => "P<",
    }
}

/// Appends a time and the state formula after it, each expression by the number of its nodes.
fn push_timed(
    alloc: Global,
    out: &mut Vec<u8>,
    time: &Time,
    state: &Expr,
) -> Result<(), AllocError> {
    match time {
        Time::Upto { strict, last } => {
            let sign = if *strict { "<" } else { "<=" };
            push(alloc, out, sign, nodes(last))?;
        }
    }
    push(alloc, out, " ", nodes(state))
}

fn push_path(alloc: Global, out: &mut Vec<u8>, tree: &PathText) -> Result<(), AllocError> {
    match tree {
        PathText::Next(state) => push(alloc, out, "X ", nodes(state)),
        PathText::Finally(time, state) => {
            out.push(b'F')?;
            push_timed(alloc, out, time, state)
        }
        PathText::Globally(time, state) => {
            out.push(b'G')?;
            push_timed(alloc, out, time, state)
        }
        PathText::Until(first, time, second) => {
            push(alloc, out, "", nodes(first))?;
            out.extend_from_slice(b" U")?;
            push_timed(alloc, out, time, second)
        }
    }
}

/// Appends a property, each expression by the number of its nodes.
fn push_tree(alloc: Global, out: &mut Vec<u8>, tree: &Property) -> Result<(), AllocError> {
    push(alloc, out, comparison(tree.cmp), nodes(&tree.bound))?;
    out.extend_from_slice(b" [ ")?;
    push_path(alloc, out, &tree.path)?;
    out.extend_from_slice(b" ]")
}

/// Appends why tokens are refused.
fn push_fault(alloc: Global, out: &mut Vec<u8>, fault: &ParseFault) -> Result<(), AllocError> {
    match fault {
        ParseFault::Unsupported { word, at } => {
            out.extend_from_slice(b"unsupported ")?;
            out.extend_from_slice(word.bytes())?;
            push(alloc, out, " at ", u64::from(*at))
        }
        ParseFault::TooDeep { at } => push(alloc, out, "too deep at ", u64::from(*at)),
        ParseFault::NotInGrammar { at } => {
            push(alloc, out, "not in the grammar at ", u64::from(*at))
        }
        ParseFault::OutOfMemory(_) => out.extend_from_slice(b"out of memory"),
    }
}

/// Appends what tokens are as a property, or why they are refused.
fn push_answer(alloc: Global, out: &mut Vec<u8>, tokens: &[Token]) -> Result<(), AllocError> {
    match property(alloc, tokens) {
        Ok(tree) => push_tree(alloc, out, &tree),
        Err(fault) => push_fault(alloc, out, &fault),
    }
}

/// What a text is as a property, or why it is refused.
fn answer(alloc: Global, text: &[u8]) -> Result<Vec<u8>, Fail> {
    let mut out = Vec::new(alloc);
    if text.len() < 65_536 {
        let tokens = tokens(alloc, text)?;
        push_answer(alloc, &mut out, &tokens)?;
    }
    Ok(out)
}
