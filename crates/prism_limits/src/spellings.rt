ghost use Rattle.std.specs.Prelude.{◌≡◌, IfOk};
ghost use Rattle.prism_limits.specs.Words.{word_of};

use prism_syntax::{Kind, spelling};
use smc_num::Text;
use std::alloc::{AllocError, Global};

/// The word of a token: its spelling, or the text of a name. A number has none.
#[tactic(auto, unfolding(prism_syntax::specs::Spelling::spelling_of))]
pub fn spelled(alloc: Global, kind: &Kind) -> Result<Text, AllocError>
    ensures { IfOk result (λ text. text ≡ word_of kind.now) }
{
    match kind {
        Kind::Name(text) | Kind::Quoted(text) => text.copy(alloc),
        _ => Text::from_bytes(alloc, spelling(kind).unwrap_or(b"")),
    }
}
