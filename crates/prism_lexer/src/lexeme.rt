use prism_syntax::Kind;

/// The form of a token, before its kind is known.
#[derive(Debug, Drop)]
pub enum Lexeme {
    /// A name or a reserved word.
    Word,
    Whole,
    Real,
    Quoted,
    Symbol(Kind),
}
