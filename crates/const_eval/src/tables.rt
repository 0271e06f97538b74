//! Operators, functions and sorts as they are written, and as the tables of forms have them.

ghost use Rattle.std.specs.Prelude.{◌≡◌};
ghost use Rattle.const_eval.specs.Tables.{op_of, func_of, sort_of_word};

use chain_model::Sort;
use prism_syntax::{Func, Op, SortWord};

/// The operator that is written.
pub fn operator(op: Op) -> chain_model::Op
    ensures { result ≡ op_of op }
{
    match op {
        Op::Imp => chain_model::Op::Imp,
        Op::Iff => chain_model::Op::Iff,
        Op::Or => chain_model::Op::Or,
        Op::And => chain_model::Op::And,
        Op::Eq => chain_model::Op::Eq,
        Op::Ne => chain_model::Op::Ne,
        Op::Lt => chain_model::Op::Lt,
        Op::Le => chain_model::Op::Le,
        Op::Gt => chain_model::Op::Gt,
        Op::Ge => chain_model::Op::Ge,
        Op::Add => chain_model::Op::Add,
        Op::Sub => chain_model::Op::Sub,
        Op::Mul => chain_model::Op::Mul,
        Op::Div => chain_model::Op::Div,
    }
}

/// The function that is written.
pub fn function(func: Func) -> chain_model::Func
    ensures { result ≡ func_of func }
{
    match func {
        Func::Min => chain_model::Func::Min,
        Func::Max => chain_model::Func::Max,
        Func::Floor => chain_model::Func::Floor,
        Func::Ceil => chain_model::Func::Ceil,
        Func::Pow => chain_model::Func::Pow,
        Func::Mod => chain_model::Func::Mod,
    }
}

/// The sort that a constant is declared with.
pub fn declared_sort(word: SortWord) -> Sort
    ensures { result ≡ sort_of_word word }
{
    match word {
        SortWord::Int => Sort::Int,
        SortWord::Double => Sort::Double,
        SortWord::Bool => Sort::Bool,
    }
}
