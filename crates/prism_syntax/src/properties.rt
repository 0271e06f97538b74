use crate::expressions::Expr;

/// How the probability is compared with the bound.
#[derive(Clone, Copy, Debug, PartialEq, Eq)]
pub enum Cmp {
    /// `>=`
    AtLeast,
    /// `>`
    Above,
    /// `<=`
    AtMost,
    /// `<`
    Below,
}

/// A property.
#[derive(Debug, Drop)]
pub struct Property {
    pub cmp: Cmp,
    pub bound: Expr,
    pub path: PathText,
}

/// A path formula.
#[derive(Debug, Drop)]
pub enum PathText {
    Next(Expr),
    Finally(Time, Expr),
    Globally(Time, Expr),
    Until(Expr, Time, Expr),
}

/// The steps that a path formula looks at.
#[derive(Debug, Drop)]
pub enum Time {
    /// Up to a last step: `<` where it is strict, else `<=`.
    Upto { strict: bool, last: Expr },
}
