use smc_num::{Frac, Text};
use sqlite_items::{Boxed, Items};

/// A function of the language.
#[derive(Clone, Copy, Debug, PartialEq, Eq)]
pub enum Func {
    Min,
    Max,
    Floor,
    Ceil,
    Pow,
    Mod,
}

/// An operator between two operands.
#[derive(Clone, Copy, Debug, PartialEq, Eq)]
pub enum Op {
    /// `=>`
    Imp,
    /// `<=>`
    Iff,
    /// `|`
    Or,
    /// `&`
    And,
    /// `=`
    Eq,
    /// `!=`
    Ne,
    /// `<`
    Lt,
    /// `<=`
    Le,
    /// `>`
    Gt,
    /// `>=`
    Ge,
    /// `+`
    Add,
    /// `-`
    Sub,
    /// `*`
    Mul,
    /// `/`
    Div,
}

/// An expression as it is written. Contracts see it as plain data: a box as what it holds, items as a list.
#[derive(Debug, Drop)]
pub enum Expr {
    /// A whole number, of sort `int`.
    Whole(Frac),
    /// A number with a fraction or an exponent, of sort `double`.
    Real(Frac),
    Truth(bool),
    Name(Text),
    /// The name of a label, in a property.
    Quoted(Text),
    /// An expression in parentheses.
    Paren(Boxed<Expr>),
    Call(Func, Items<Expr>),
    /// `!`
    Not(Boxed<Expr>),
    /// Unary `-`
    Minus(Boxed<Expr>),
    /// The operands of one chain and, one fewer, the operators between them.
    Level(Items<Expr>, Items<Op>),
    /// `? :`, the condition first.
    If(Boxed<Expr>, Boxed<Expr>, Boxed<Expr>),
}
