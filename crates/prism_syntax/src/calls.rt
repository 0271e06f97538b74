ghost use Rattle.std.specs.Prelude.{◌≡◌};
ghost use Rattle.prism_syntax.specs.Precedence.{function, named_function, takes};

use crate::expressions::Func;
use crate::tokens::Kind;

/// The function that a token is where `(` follows it.
pub fn function(kind: &Kind) -> Option<Func>
    ensures { result ≡ function kind.now }
{
    match kind {
        Kind::Min => Some(Func::Min),
        Kind::Max => Some(Func::Max),
        Kind::Name(text) => named_function(text.bytes()),
        _ => None,
    }
}

fn named_function(text: &[u8]) -> Option<Func>
    ensures { result ≡ named_function text.now }
{
    match text {
        b"floor" => Some(Func::Floor),
        b"ceil" => Some(Func::Ceil),
        b"pow" => Some(Func::Pow),
        b"mod" => Some(Func::Mod),
        _ => None,
    }
}

/// Whether a function takes this many parts after its first.
pub fn takes(function: Func, more: usize) -> bool
    ensures { result ≡ takes function more }
{
    match function {
        Func::Min | Func::Max => 1 <= more,
        Func::Floor | Func::Ceil => more == 0,
        Func::Pow | Func::Mod => more == 1,
    }
}
