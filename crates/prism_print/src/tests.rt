use super::*;
use module_expand::expand;
use prism_lexer::tokens;
use prism_parser::model;
use std::alloc::Global;
use std::test::Fail;

mod expressions;
mod lines;
mod numbers;

/// More bytes than any text of the tables has.
const MANY: usize = 1 << 20;

/// The printed form of a model's text, after what stands in `out` already; nothing of a text that is too long.
fn print_text(alloc: Global, text: &[u8], out: &mut Vec<u8>) -> Result<(), Fail> {
    if text.len() >= MANY {
        return Ok(());
    }
    let tokens = tokens(alloc, text)?;
    let tree = model(alloc, &tokens)?;
    let flat = expand(alloc, &tree)?;
    print(alloc, &flat, out)?;
    Ok(())
}
