use prism_syntax::{Expr, Token};

/// The longest text of a level that some tokens begin with.
#[derive(Debug, Drop)]
pub struct Longest<'a> {
    pub tree: Expr,
    /// The tokens after the text.
    pub rest: &'a [Token],
    /// How many of all the tokens are left from the first wrong one on: the first with which the tokens so far begin no
    /// text of the level. It may stand beyond the text, where an attempt at a longer one was dropped.
    pub left: usize,
}
