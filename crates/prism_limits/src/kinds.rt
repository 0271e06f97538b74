/// What a list of tokens is read as: which words are refused and what may nest differs.
#[derive(Clone, Copy, Debug, PartialEq, Eq)]
pub enum TextKind {
    /// A model.
    Model,
    /// A property, or one of its expressions.
    Property,
    /// A nested formula, which has `W` and `R` as operators and square brackets inside one another.
    Nested,
}
