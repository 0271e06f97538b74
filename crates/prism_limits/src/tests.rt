use super::*;
use prism_syntax::{Kind, Labels, Token, symbol, word};
use smc_num::Text;
use std::alloc::{AllocError, Global};
use std::test::Fail;

/// What a word of a test's text is as a token: a symbol, a reserved word or a name.
fn kind_of(alloc: Global, text: &[u8]) -> Result<Kind, AllocError> {
    if let Some(kind) = word(text) {
        return Ok(kind);
    }
    match symbol(text) {
        Some(kind) => Ok(kind),
        None => Ok(Kind::Name(Text::from_bytes(alloc, text)?)),
    }
}

/// Appends the tokens of a text with a blank between any two.
fn push(alloc: Global, tokens: &mut Vec<Token>, text: &[u8]) -> Result<(), AllocError> {
    for part in text.split(|byte| *byte == b' ') {
        if !part.is_empty() {
            let kind = kind_of(alloc, part)?;
            tokens.push(Token {
                kind,
                from: 0,
                to: 0,
            })?;
        }
    }
    Ok(())
}

/// Texts, and the index of the first word of each that is refused.
static WORDS: [(TextKind, &str, Option<usize>); 9] = [
    (TextKind::Model, "dtmc ; ctmc pta", Some(2)),
    (TextKind::Model, "rewards ctmc endrewards ctmc", Some(3)),
    (TextKind::Model, "rewards ctmc", None),
    (TextKind::Model, "x W y", Some(1)),
    (TextKind::Property, "x R y", Some(1)),
    (TextKind::Nested, "x W y R z S", Some(5)),
    (TextKind::Property, "log ; log ( x )", Some(2)),
    (TextKind::Property, "x round", None),
    (TextKind::Property, "P X F U G", None),
];

#[test]
fn words_are_refused_where_they_stand(rt: HostRuntime) -> Result<(), Fail> {
    for (kind, text, want) in WORDS.iter() {
        let mut tokens = Vec::new(rt.alloc());
        push(rt.alloc(), &mut tokens, text.as_bytes())?;
        assert_eq!(rt; refused_word(*kind, &tokens), *want, "{text}");
    }
    Ok(())
}

/// How tokens begin, what is repeated in them and how often, and the index of the first that is too deep.
static NESTED: [(TextKind, &str, &str, u32, Option<usize>); 13] = [
    (TextKind::Model, "", "(", 64, None),
    (TextKind::Model, "", "(", 65, Some(64)),
    (TextKind::Model, "( )", "(", 65, Some(66)),
    // more closed than opened counts below nothing
    (TextKind::Model, ") ) )", "(", 67, None),
    (TextKind::Model, ") ) )", "(", 68, Some(70)),
    (TextKind::Property, "", "!", 65, Some(64)),
    (TextKind::Property, "! -", "!", 64, None),
    (TextKind::Property, "", "-", 65, Some(64)),
    (TextKind::Model, "", "?", 1_025, Some(1_024)),
    (TextKind::Model, "? ;", "?", 1_024, None),
    (TextKind::Property, "", "[", 65, None),
    (TextKind::Nested, "", "[", 17, None),
    (TextKind::Nested, "[ ]", "[", 18, Some(19)),
];

#[test]
fn nesting_is_too_deep_at_the_first_token_too_many(rt: HostRuntime) -> Result<(), Fail> {
    for (kind, before, part, times, want) in NESTED.iter() {
        let mut tokens = Vec::new(rt.alloc());
        push(rt.alloc(), &mut tokens, before.as_bytes())?;
        for _ in 0..*times {
            push(rt.alloc(), &mut tokens, part.as_bytes())?;
        }
        assert_eq!(rt; too_deep(*kind, &tokens), *want, "{times} times {part}");
    }
    Ok(())
}

/// Texts, and the index of the first arrow of each with another of its chain before it.
static ARROWS: [(&str, Option<usize>); 12] = [
    ("a => b", None),
    ("a => b => c", Some(3)),
    ("a => b <=> c => d", Some(5)),
    ("a => ( b => c ) => d", Some(7)),
    // the first in the text, of the inner chain
    ("a => ( b => c => d ) => e", Some(6)),
    ("( a => b ) => c", None),
    ("a => b ; c => d", None),
    ("a => b ? c => d : e => f", None),
    // no operand between them
    ("a => + => b", None),
    ("a => b c => d", None),
    ("a => ( b => c", None),
    ("rewards a => b => c endrewards", None),
];

#[test]
fn an_arrow_after_another_of_its_chain_is_found(rt: HostRuntime) -> Result<(), Fail> {
    for (text, want) in ARROWS.iter() {
        let mut tokens = Vec::new(rt.alloc());
        push(rt.alloc(), &mut tokens, text.as_bytes())?;
        let found = later_arrow(rt.alloc(), Labels::Refused, &tokens)?;
        assert_eq!(rt; found, *want, "{text}");
    }
    Ok(())
}

#[test]
fn a_token_is_spelled_as_it_stands(rt: HostRuntime) -> Result<(), Fail> {
    let alloc = rt.alloc();
    for text in ["Pmax", "=>", "log", "W"] {
        let kind = kind_of(alloc, text.as_bytes())?;
        assert_eq!(rt; spelled(alloc, &kind)?.bytes(), text.as_bytes());
    }
    Ok(())
}
