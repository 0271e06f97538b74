ghost use Rattle.std.specs.Prelude.{◌≡◌, IfOk};
ghost use Rattle.prism_limits.specs.ChainWalk.{may_stand_in_operand, step, place_of, last_after, around_after};

use crate::rewards::is_inside;
use prism_syntax::Kind;
use std::alloc::AllocError;

/// The chains of arrows around the place of a walk along tokens.
#[derive(Drop)]
pub struct Chains {
    /// Whether the place is inside a rewards block.
    pub inside: bool,
    /// The index of the last arrow of the chain at the place, where one stands before it.
    pub last: Option<usize>,
    /// Those of the chains around its parentheses, the outermost first.
    pub around: Vec<Option<usize>>,
}

/// Goes past one more token, which has this index.
pub fn step(chains: &mut Chains, index: usize, kind: &Kind) -> Result<(), AllocError>
    ensures { IfOk result (λ done. place_of chains.new ≡ step (place_of chains.old) index kind.now) }
{
    if !chains.inside {
        chains.last = last_after(chains, index, kind)?;
    }
    chains.inside = is_inside(chains.inside, kind);
    Ok(())
}

/// The last arrow of the chain after one more token outside rewards blocks; the chains around it are kept.
fn last_after(chains: &mut Chains, index: usize, kind: &Kind) -> Result<Option<usize>, AllocError>
    ensures last { IfOk result (λ last. last ≡ last_after (place_of chains.old) index kind.now) }
    ensures around { IfOk result (λ last. chains.new.around.items ≡ around_after (place_of chains.old) kind.now) }
    ensures inside { chains.new.inside ≡ chains.old.inside }
    ensures kept { chains.new.last ≡ chains.old.last }
{
    match kind {
        Kind::Implies => Ok(Some(index)),
        Kind::Open => {
            chains.around.push(chains.last)?;
            Ok(None)
        }
        Kind::Close => match chains.around.pop() {
            Some(last) => Ok(last),
            None => Ok(None),
        },
        _ => {
            if may_stand_in_operand(kind) {
                Ok(chains.last)
            } else {
                Ok(None)
            }
        }
    }
}

/// Whether an operand of a chain of arrows may have this token outside its parentheses.
fn may_stand_in_operand(kind: &Kind) -> bool
    ensures { result ≡ may_stand_in_operand kind.now }
{
    match kind {
        Kind::Equivalent
        | Kind::Bar
        | Kind::Ampersand
        | Kind::Bang
        | Kind::Equal
        | Kind::NotEqual
        | Kind::Less
        | Kind::LessEqual
        | Kind::Greater
        | Kind::GreaterEqual
        | Kind::Plus
        | Kind::Dash
        | Kind::Star
        | Kind::Slash
        | Kind::True
        | Kind::False
        | Kind::Min
        | Kind::Max
        | Kind::Name(_)
        | Kind::Quoted(_)
        | Kind::Whole(_)
        | Kind::Real(_) => true,
        _ => false,
    }
}
