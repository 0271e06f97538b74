//! Texts at the limits of nesting.

use super::answer;
use std::alloc::{AllocError, Global};
use std::test::Fail;

/// How texts begin, what is repeated in them and how often, how they end, and what is said of them.
static NESTED: [(&str, &str, u32, &str, &str); 13] = [
    ("P>=0.9 [ X ", "(", 65, "x", "too deep at 75"),
    ("P>=0.9 [ X ", "(", 64, "x", "not in the grammar at 76"),
    ("P>=0.9 [ X ", "!", 65, "x ]", "too deep at 75"),
    ("P>=0.9 [ X ", "!", 64, "x ]", "P>=1 [ X 65 ]"),
    ("P>=0.9 [ X ", "-", 65, "x ]", "too deep at 75"),
    ("P>=0.9 [ X ", "-", 64, "x ]", "P>=1 [ X 65 ]"),
    ("P>=0.9 [ X ", "x?x:", 1_025, "x ]", "too deep at 4108"),
    ("P>=0.9 [ X ", "x?x:", 1_024, "x ]", "P>=1 [ X 3073 ]"),
    ("P>=0.9 ", "[", 65, " ]", "not in the grammar at 8"),
    // a word is refused first, and nesting before the grammar is asked
    ("; ", "(", 65, "ctmc", "unsupported ctmc at 67"),
    ("; ", "(", 65, "", "too deep at 66"),
    // closed parentheses count below nothing, also in a rewards block
    (
        "rewards ) endrewards ",
        "(",
        65,
        "",
        "not in the grammar at 0",
    ),
    ("rewards ) endrewards ", "(", 66, "", "too deep at 86"),
];

/// A text of a part between two others, so many times.
fn repeated(
    alloc: Global,
    before: &str,
    part: &str,
    times: u32,
    after: &str,
) -> Result<Vec<u8>, AllocError> {
    let mut text = Vec::new(alloc);
    text.extend_from_slice(before.as_bytes())?;
    for _ in 0..times {
        text.extend_from_slice(part.as_bytes())?;
    }
    text.extend_from_slice(after.as_bytes())?;
    Ok(text)
}

#[test]
fn nesting_is_refused_at_the_first_token_too_many(rt: HostRuntime) -> Result<(), Fail> {
    for (before, part, times, after, want) in NESTED.iter() {
        let text = repeated(rt.alloc(), before, part, *times, after)?;
        let got = answer(rt.alloc(), text.as_slice())?;
        assert_eq!(rt; got.as_slice(), want.as_bytes(), "{times} times {part}");
    }
    Ok(())
}
