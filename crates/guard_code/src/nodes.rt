use crate::plain_tests::Test;
use chain_model::{Func, Op, Value};
use sqlite_items::{Boxed, Items};

/// A compiled expression. What is plain, tests of variables and whole numbers, has nodes of its own, which are evaluated
/// without fractions; the rest are the forms of the language.
#[derive(Debug, Drop)]
pub enum Node {
    Lit(Value),
    /// A whole number: the value of a variable.
    Number(u32),
    /// A whole number: the value of a variable and a constant, added.
    Shifted(u32, i64),
    Plain(Test),
    /// One of two whole numbers: the first where the test holds, else the second.
    PlainIf(Test, i64, i64),
    /// Tests that all hold.
    Every(Items<Test>),
    /// Tests of which some holds.
    Any(Items<Test>),
    /// A whole number: how many of these tests hold.
    Count(Items<Test>),
    /// A comparison of two whole numbers.
    Compare(Op, Items<Node>),
    /// A chain of `+`, `-` and `*` of whole numbers.
    Arithmetic(Items<Node>, Items<Op>),
    /// The least or the greatest of whole numbers, by the function.
    Extreme(Func, Items<Node>),
    /// The remainder of two whole numbers.
    Remainder(Items<Node>),
    /// A whole number over another.
    Quotient(Items<Node>),
    /// Parts that are read up to the first with this truth value: `&` where that is `false`, `|` where it is `true`.
    Junction(bool, Items<Node>),
    Not(Boxed<Node>),
    If(Boxed<Node>, Boxed<Node>, Boxed<Node>),
    Minus(Boxed<Node>),
    Call(Func, Items<Node>),
    Level(Items<Node>, Items<Op>),
    IsInit,
    IsDeadlock,
}
