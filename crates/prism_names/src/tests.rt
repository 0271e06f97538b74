use super::*;
use prism_syntax::{Expr, Func, Op};
use smc_num::{Frac, Text};
use sqlite_items::{Boxed, Items};
use std::alloc::{AllocError, Global};
use std::test::Fail;

fn name(alloc: Global, text: &[u8]) -> Result<Expr, AllocError> {
    Ok(Expr::Name(Text::from_bytes(alloc, text)?))
}

fn pair(alloc: Global, first: Expr, second: Expr) -> Result<Items<Expr>, AllocError> {
    let mut parts = Items::new(alloc);
    parts.push(first)?;
    parts.push(second)?;
    Ok(parts)
}

/// `(c=a ? -min(b, 2) : !"a")`
fn tree(alloc: Global, two: Frac) -> Result<Expr, AllocError> {
    let mut operators = Items::new(alloc);
    operators.push(Op::Eq)?;
    let operands = pair(alloc, name(alloc, b"c")?, name(alloc, b"a")?)?;
    let condition = Expr::Level(operands, operators);
    let least = Expr::Call(
        Func::Min,
        pair(alloc, name(alloc, b"b")?, Expr::Whole(two))?,
    );
    let label = Expr::Quoted(Text::from_bytes(alloc, b"a")?);
    let conditional = Expr::If(
        Boxed::new(alloc, condition)?,
        Boxed::new(alloc, Expr::Minus(Boxed::new(alloc, least)?))?,
        Boxed::new(alloc, Expr::Not(Boxed::new(alloc, label)?))?,
    );
    Ok(Expr::Paren(Boxed::new(alloc, conditional)?))
}

/// The names of the tree, each followed by a space.
fn names_of_tree(alloc: Global) -> Result<Vec<u8>, Fail> {
    let expr = tree(alloc, Frac::new(2, 1)?)?;
    let mut text = Vec::new(alloc);
    for name in &names(alloc, &expr)? {
        text.extend_from_slice(name.bytes())?;
        text.push(b' ')?;
    }
    Ok(text)
}

#[test]
fn the_names_of_a_tree_are_found_in_text_order(rt: HostRuntime) -> Result<(), Fail> {
    assert_eq!(rt; names_of_tree(rt.alloc())?.as_slice(), b"c a b ".as_slice());
    Ok(())
}

/// The tree of the deepest text that is parsed: `x` behind 64 times 64 `!`, 64 `-` and `(`, in the last branch of 1,024
/// conditionals.
fn deepest(alloc: Global) -> Result<Expr, AllocError> {
    let mut tree = name(alloc, b"x")?;
    for _ in 0..64 {
        tree = Expr::Paren(Boxed::new(alloc, tree)?);
        for _ in 0..64 {
            tree = Expr::Minus(Boxed::new(alloc, tree)?);
        }
        for _ in 0..64 {
            tree = Expr::Not(Boxed::new(alloc, tree)?);
        }
    }
    for _ in 0..1_024 {
        tree = Expr::If(
            Boxed::new(alloc, name(alloc, b"a")?)?,
            Boxed::new(alloc, name(alloc, b"b")?)?,
            Boxed::new(alloc, tree)?,
        );
    }
    Ok(tree)
}

#[test]
fn the_deepest_tree_gives_its_names(rt: HostRuntime) -> Result<(), Fail> {
    let tree = deepest(rt.alloc())?;
    assert_eq!(rt; names(rt.alloc(), &tree)?.len(), 2_049);
    Ok(())
}

/// Names of one letter each.
fn letters(alloc: Global, text: &[u8]) -> Result<Vec<Text>, AllocError> {
    let mut names = Vec::new(alloc);
    for letter in text {
        names.push(Text::from_bytes(alloc, &[*letter])?)?;
    }
    Ok(names)
}

fn views<'a>(alloc: Global, names: &'a [Text]) -> Result<Vec<&'a Text>, AllocError> {
    let mut views = Vec::new(alloc);
    for name in names {
        views.push(name)?;
    }
    Ok(views)
}

/// Whether the first of the names of one letter that is repeated is this one.
fn repeats_first(
    alloc: Global,
    all: &[u8],
    some: &[u8],
    expected: Option<&[u8]>,
) -> Result<bool, AllocError> {
    let all = letters(alloc, all)?;
    let some = letters(alloc, some)?;
    let found = first_repeated(alloc, &views(alloc, &all)?, &views(alloc, &some)?)?;
    Ok(found.map(|name| name.bytes()) == expected)
}

#[test]
fn the_first_repeated_name_is_found(rt: HostRuntime) -> Result<(), Fail> {
    let cases: [(&[u8], &[u8], Option<&[u8]>); 7] = [
        (b"", b"", None),
        (b"abc", b"abc", None),
        (b"abcb", b"abcb", Some(b"b")),
        (b"abba", b"abba", Some(b"a")),
        (b"abba", b"cba", Some(b"b")),
        (b"abba", b"cc", None),
        (b"aab", b"ba", Some(b"a")),
    ];
    for (all, some, expected) in cases {
        assert!(rt; repeats_first(rt.alloc(), all, some, expected)?);
    }
    Ok(())
}
