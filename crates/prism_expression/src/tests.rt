use super::*;
use prism_reading::Mismatch;
use prism_syntax::{Kind, Labels, Precedence, Token, nodes, symbol, word};
use smc_num::{Frac, Text};
use std::alloc::{AllocError, Global};
use std::test::Fail;

/// What a word of a test's text is as a token: a digit, a symbol, a reserved word or a name.
fn kind_of(alloc: Global, text: &[u8]) -> Result<Kind, Fail> {
    if let [digit @ b'0'..=b'9'] = text {
        return Ok(Kind::Whole(Frac::new(i64::from(*digit - b'0'), 1)?));
    }
    if let Some(kind) = word(text) {
        return Ok(kind);
    }
    match symbol(text) {
        Some(kind) => Ok(kind),
        None => Ok(Kind::Name(Text::from_bytes(alloc, text)?)),
    }
}

fn push(tokens: &mut Vec<Token>, kind: Kind) -> Result<(), AllocError> {
    tokens.push(Token {
        kind,
        from: 0,
        to: 0,
    })?;
    Ok(())
}

/// The tokens of a text with a blank between any two.
fn tokens_of(alloc: Global, text: &[u8]) -> Result<Vec<Token>, Fail> {
    let mut tokens = Vec::new(alloc);
    for part in text.split(|byte| *byte == b' ') {
        if !part.is_empty() {
            let kind = kind_of(alloc, part)?;
            push(&mut tokens, kind)?;
        }
    }
    Ok(tokens)
}

/// How many nodes the tree has, how many tokens follow its text, and how many are left from the first wrong one on; no
/// nodes where there is no text.
fn numbers(alloc: Global, text: &[u8]) -> Result<(u64, usize, usize), Fail> {
    let tokens = tokens_of(alloc, text)?;
    match parse_longest(
        alloc,
        Labels::Allowed,
        Precedence::Conditional,
        tokens.as_slice(),
    ) {
        Ok(longest) => Ok((nodes(&longest.tree), longest.rest.len(), longest.left)),
        Err(Mismatch::NoText { left }) => Ok((0, tokens.len(), left)),
        Err(Mismatch::OutOfMemory(fault)) => Err(fault.into()),
    }
}

#[test]
fn a_dropped_attempt_tells_the_first_wrong_token(rt: HostRuntime) -> Result<(), Fail> {
    let cases: [(&[u8], (u64, usize, usize)); 8] = [
        (b"a - b + c ;", (4, 1, 1)),
        (b"a + ;", (1, 2, 1)),
        (b"a ? b ;", (1, 3, 1)),
        (b"floor ( x ;", (1, 3, 1)),
        (b"min ( 1 )", (0, 4, 1)),
        (b"( a ;", (0, 3, 1)),
        (b"max x", (0, 2, 1)),
        (b"+ a", (0, 2, 2)),
    ];
    for (text, want) in cases {
        assert_eq!(rt; numbers(rt.alloc(), text)?, want);
    }
    Ok(())
}

/// Appends a token so many times.
fn repeat(alloc: Global, tokens: &mut Vec<Token>, text: &[u8], times: u32) -> Result<(), Fail> {
    for _ in 0..times {
        let kind = kind_of(alloc, text)?;
        push(tokens, kind)?;
    }
    Ok(())
}

#[test]
fn the_deepest_text_is_parsed_and_dropped(rt: HostRuntime) -> Result<(), Fail> {
    let alloc = rt.alloc();
    let mut tokens = Vec::new(alloc);
    for _ in 0..64 {
        repeat(alloc, &mut tokens, b"!", 64)?;
        repeat(alloc, &mut tokens, b"-", 64)?;
        repeat(alloc, &mut tokens, b"(", 1)?;
    }
    for _ in 0..1024 {
        repeat(alloc, &mut tokens, b"x", 1)?;
        repeat(alloc, &mut tokens, b"?", 1)?;
        repeat(alloc, &mut tokens, b"x", 1)?;
        repeat(alloc, &mut tokens, b":", 1)?;
    }
    repeat(alloc, &mut tokens, b"x", 1)?;
    repeat(alloc, &mut tokens, b")", 64)?;
    assert_eq!(rt; tokens.len(), 12_417);
    match parse_longest(
        alloc,
        Labels::Refused,
        Precedence::Conditional,
        tokens.as_slice(),
    ) {
        Ok(longest) => assert_eq!(rt; (longest.rest.len(), longest.left), (0, 0)),
        Err(_) => assert!(rt; false),
    }
    Ok(())
}

#[test]
fn a_text_is_parsed_up_to_its_end(rt: HostRuntime) -> Result<(), Fail> {
    let alloc = rt.alloc();
    let tokens = tokens_of(alloc, b"a + b ; c")?;
    let end = Kind::Semicolon;
    match expression_until(
        alloc,
        Labels::Refused,
        Precedence::Conditional,
        tokens.as_slice(),
        &end,
    ) {
        Ok((tree, rest)) => assert_eq!(rt; (nodes(&tree), rest.len()), (3, 1)),
        Err(_) => assert!(rt; false),
    }
    Ok(())
}
