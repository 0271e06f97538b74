ghost use Rattle.std.specs.Prelude.{◌≡◌};
ghost use Rattle.prism_limits.specs.ChainWalk.{inside_after};

use prism_syntax::Kind;

/// Whether a rewards block is open after a token, from whether one is open before it.
pub fn is_inside(inside: bool, kind: &Kind) -> bool
    ensures { result ≡ inside_after inside kind.now }
{
    match kind {
        Kind::Rewards => true,
        Kind::EndRewards => false,
        _ => inside,
    }
}
