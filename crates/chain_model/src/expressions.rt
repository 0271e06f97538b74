use crate::values::{Sort, Value};
use sqlite_items::{Boxed, Items};

/// A function of the language.
#[derive(Clone, Copy, Debug, PartialEq, Eq)]
pub enum Func {
    Min,
    Max,
    Floor,
    Ceil,
    Pow,
    Mod,
}

/// An operator between two operands.
#[derive(Clone, Copy, Debug, PartialEq, Eq)]
pub enum Op {
    /// `=>`
    Imp,
    /// `<=>`
    Iff,
    /// `|`
    Or,
    /// `&`
    And,
    /// `=`
    Eq,
    /// `!=`
    Ne,
    /// `<`
    Lt,
    /// `<=`
    Le,
    /// `>`
    Gt,
    /// `>=`
    Ge,
    /// `+`
    Add,
    /// `-`
    Sub,
    /// `*`
    Mul,
    /// `/`
    Div,
}

/// Whether the built-in labels may stand in an expression: they may in a property, and not in a model.
#[derive(Clone, Copy, Debug, PartialEq, Eq)]
pub enum Labels {
    Allowed,
    Refused,
}

/// An expression with its sort. Contracts see it as plain data: a box as what it holds, items as a list.
#[cycle(typed)]
#[derive(Debug, Drop)]
pub struct Typed {
    pub sort: Sort,
    pub form: Form,
}

/// What an expression is made of. There is no form for parentheses.
#[cycle(typed)]
#[derive(Debug, Drop)]
pub enum Form {
    Lit(Value),
    /// A variable, by its number.
    Var(u32),
    Call(Func, Items<Typed>),
    /// `!`
    Not(Boxed<Typed>),
    /// Unary `-`
    Minus(Boxed<Typed>),
    /// The operands of one chain and, one fewer, the operators between them.
    Level(Items<Typed>, Items<Op>),
    /// `? :`, the condition first.
    If(Boxed<Typed>, Boxed<Typed>, Boxed<Typed>),
    /// The label `"init"`.
    IsInit,
    /// The label `"deadlock"`.
    IsDeadlock,
}
