use super::*;
use prism_lexer::tokens;
use shown::{show, show_model};
use std::alloc::{AllocError, Global};

mod expressions;
mod limits;
mod models;
mod shown;

/// Appends why tokens are refused.
fn show_fault(alloc: Global, out: &mut Vec<u8>, fault: &ParseFault) -> Result<(), AllocError> {
    match fault {
        ParseFault::Unsupported { word, at } => {
            let place = format!(in alloc; " at {at}")?;
            out.extend_from_slice(b"unsupported ")?;
            out.extend_from_slice(word.bytes())?;
            out.extend_from_slice(place.as_bytes())
        }
        ParseFault::TooDeep { at } => {
            let line = format!(in alloc; "too deep at {at}")?;
            out.extend_from_slice(line.as_bytes())
        }
        ParseFault::NotInGrammar { at } => {
            let line = format!(in alloc; "not in the grammar at {at}")?;
            out.extend_from_slice(line.as_bytes())
        }
        ParseFault::OutOfMemory(_) => out.extend_from_slice(b"out of memory"),
    }
}

/// The model that a text is, or why it is refused.
fn model_of(alloc: Global, text: &[u8]) -> Result<Vec<u8>, AllocError> {
    let mut out = Vec::new(alloc);
    if text.len() > 1_048_576 {
        return Ok(out);
    }
    match tokens(alloc, text) {
        Ok(tokens) => match model(alloc, &tokens) {
            Ok(tree) => show_model(alloc, &mut out, &tree)?,
            Err(fault) => show_fault(alloc, &mut out, &fault)?,
        },
        Err(_) => out.extend_from_slice(b"no tokens")?,
    }
    Ok(out)
}

/// The longest expression that a text begins with from a token on, and the index of the token after it, or why it is
/// refused.
fn expression_of(alloc: Global, text: &str, at: u32) -> Result<Vec<u8>, AllocError> {
    let mut out = Vec::new(alloc);
    if text.len() > 1_048_576 {
        return Ok(out);
    }
    match tokens(alloc, text.as_bytes()) {
        Ok(tokens) if tokens.len() < 1_048_576 && at as usize <= tokens.len() => {
            match expression(alloc, &tokens, at) {
                Ok((tree, next)) => {
                    show(alloc, &mut out, &tree)?;
                    let after = format!(in alloc; " {next}")?;
                    out.extend_from_slice(after.as_bytes())?;
                }
                Err(fault) => show_fault(alloc, &mut out, &fault)?,
            }
        }
        _ => out.extend_from_slice(b"no tokens")?,
    }
    Ok(out)
}
