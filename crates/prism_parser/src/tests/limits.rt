//! Texts at the limits, and one past them.

use super::model_of;
use crate::expression;
use prism_lexer::tokens;
use prism_syntax::nodes;
use std::alloc::{AllocError, Global};
use std::test::Fail;

/// Appends a text so many times.
fn append(text: &mut Vec<u8>, part: &[u8], times: u32) -> Result<(), AllocError> {
    for _ in 0..times {
        text.extend_from_slice(part)?;
    }
    Ok(())
}

/// A text of three parts, of which each stands so many times.
fn text_of(alloc: Global, parts: [(&[u8], u32); 3]) -> Result<Vec<u8>, AllocError> {
    let mut text = Vec::new(alloc);
    for (part, times) in parts {
        append(&mut text, part, times)?;
    }
    Ok(text)
}

#[test]
fn each_limit_holds_at_its_number_and_not_past_it(rt: HostRuntime) -> Result<(), Fail> {
    let cases: [([(&[u8], u32); 3], &[u8]); 8] = [
        (
            [(b"dtmc const int a=", 1), (b"(", 64), (b"", 0)],
            b"not in the grammar at 81",
        ),
        (
            [(b"dtmc const int a=", 1), (b"(", 65), (b"", 0)],
            b"too deep at 81",
        ),
        (
            [(b"dtmc const int a=", 1), (b"!", 65), (b"x;", 1)],
            b"too deep at 81",
        ),
        (
            [(b"dtmc const int a=", 1), (b"- ", 65), (b"x;", 1)],
            b"too deep at 145",
        ),
        (
            [(b"dtmc const int a=", 1), (b"x?x:", 1025), (b"x;", 1)],
            b"too deep at 4114",
        ),
        (
            [(b"dtmc rewards ", 1), (b"(", 65), (b" endrewards", 1)],
            b"too deep at 77",
        ),
        ([(b"dtmc ;", 1), (b"(", 65), (b"", 0)], b"too deep at 70"),
        (
            [(b"dtmc ", 1), (b"(", 65), (b" ctmc", 1)],
            b"unsupported ctmc at 71",
        ),
    ];
    for (parts, want) in cases {
        let text = text_of(rt.alloc(), parts)?;
        let got = model_of(rt.alloc(), text.as_slice())?;
        assert_eq!(rt; got.as_slice(), want);
    }
    Ok(())
}

#[test]
fn the_deepest_text_is_parsed_copied_and_dropped(rt: HostRuntime) -> Result<(), Fail> {
    let alloc = rt.alloc();
    let mut text = Vec::new(alloc);
    for _ in 0..64 {
        append(&mut text, b"!", 64)?;
        append(&mut text, b"-", 64)?;
        append(&mut text, b"(", 1)?;
    }
    append(&mut text, b"x?x:", 1024)?;
    append(&mut text, b"x", 1)?;
    append(&mut text, b")", 64)?;
    let bytes = text.as_slice();
    if bytes.len() < 65_536 {
        let found = tokens(alloc, bytes)?;
        let list = found.as_slice();
        assert_eq!(rt; list.len(), 12_417);
        if list.len() < 65_536 {
            let (tree, next) = expression(alloc, list, 0)?;
            assert_eq!(rt; next, 12_417);
            let copy = tree.copy(alloc)?;
            assert_eq!(rt; nodes(&copy), 64 * 129 + 1024 * 3 + 1);
        }
    }
    Ok(())
}
