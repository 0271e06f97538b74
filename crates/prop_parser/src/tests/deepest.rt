//! The deepest property that the limits allow.

use crate::property;
use prism_lexer::tokens;
use prism_syntax::{PathText, nodes};
use std::alloc::{AllocError, Global};
use std::test::Fail;

fn repeat(text: &mut Vec<u8>, part: &[u8], times: u32) -> Result<(), AllocError> {
    for _ in 0..times {
        text.extend_from_slice(part)?;
    }
    Ok(())
}

/// A property of 12,417 tokens for its state formula and six for the rest.
fn deepest(alloc: Global) -> Result<Vec<u8>, AllocError> {
    let mut text = Vec::new(alloc);
    text.extend_from_slice(b"P>=0.9 [ X ")?;
    for _ in 0..64 {
        repeat(&mut text, b"!", 64)?;
        repeat(&mut text, b"-", 64)?;
        repeat(&mut text, b"(", 1)?;
    }
    repeat(&mut text, b"x?x:", 1_024)?;
    repeat(&mut text, b"x", 1)?;
    repeat(&mut text, b")", 64)?;
    text.extend_from_slice(b" ]")?;
    Ok(text)
}

#[test]
fn the_deepest_property_is_parsed_copied_and_dropped(rt: HostRuntime) -> Result<(), Fail> {
    let alloc = rt.alloc();
    let text = deepest(alloc)?;
    assert!(rt; text.len() < 65_536);
    let tokens = tokens(alloc, text.as_slice())?;
    assert_eq!(rt; tokens.len(), 12_423);
    let tree = property(alloc, &tokens)?;
    match &tree.path {
        PathText::Next(state) => {
            let again = state.copy(alloc)?;
            assert_eq!(rt; nodes(&again), 11_329);
        }
        _ => assert!(rt; false),
    }
    Ok(())
}
