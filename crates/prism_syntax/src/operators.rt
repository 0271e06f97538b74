ghost use Rattle.std.specs.Prelude.{◌≡◌};
ghost use Rattle.prism_syntax.specs.Inverses.{operator_token, function_spelling};

use crate::expressions::{Func, Op};
use crate::tokens::Kind;

impl Op {
    /// The token of this operator.
    pub fn token(self) -> Kind
        ensures { result ≡ operator_token self }
    {
        match self {
            Op::Imp => Kind::Implies,
            Op::Iff => Kind::Equivalent,
            Op::Or => Kind::Bar,
            Op::And => Kind::Ampersand,
            Op::Eq => Kind::Equal,
            Op::Ne => Kind::NotEqual,
            Op::Lt => Kind::Less,
            Op::Le => Kind::LessEqual,
            Op::Gt => Kind::Greater,
            Op::Ge => Kind::GreaterEqual,
            Op::Add => Kind::Plus,
            Op::Sub => Kind::Dash,
            Op::Mul => Kind::Star,
            Op::Div => Kind::Slash,
        }
    }
}

impl Func {
    /// The bytes of this function.
    pub fn spelling(self) -> &'static [u8]
        ensures { result.now ≡ function_spelling self }
    {
        match self {
            Func::Min => b"min",
            Func::Max => b"max",
            Func::Floor => b"floor",
            Func::Ceil => b"ceil",
            Func::Pow => b"pow",
            Func::Mod => b"mod",
        }
    }
}
