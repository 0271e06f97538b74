//! What is known of the choices of a state before anything is drawn.

ghost use Rattle.std.specs.Prelude.{◌≤◌, All, length};
ghost use Rattle.successors.specs.Enabled.{AreGuards};
ghost use Rattle.successors.specs.Steppers.{IsPlan};
ghost use Rattle.successors.specs.Choosing.{AreChoices, IsWithin};

use crate::first::first_choice;
use crate::plan::Plan;
use chain_model::Chain;

/// What is told of how many choices a state has.
#[derive(Clone, Copy, Debug, PartialEq, Eq)]
pub enum Choices {
    /// There is none.
    Nothing,
    /// There is one, of so many commands.
    One(usize),
    /// There may be several: nothing is told.
    Several,
}

/// The choices of a state by the lowest bits of bytes, which say which commands are enabled. The commands of the one are
/// written.
pub fn choices_by(
    plan: &Plan,
    chain: &Chain,
    state: &[i64],
    enabled: &[u8],
    chosen: &mut [u32],
) -> Choices
    requires plan { IsPlan chain.now plan.now }
    requires guards { AreGuards chain.now state.now 0 enabled.now }
    requires room { 1 ≤ length chosen.old }
    requires wide { All (λ lists. length lists ≤ length chosen.old) plan.now.partition.actions }
    ensures choices { AreChoices chain.now state.now result chosen.new }
    ensures within { IsWithin result (length chosen.old) }
{
    let (count, size) = first_choice(
        enabled,
        0,
        plan.partition.singles.as_slice(),
        plan.partition.actions.as_slice(),
        chosen,
    );
    match count {
        0 => Choices::Nothing,
        1 => Choices::One(size),
        _ => Choices::Several,
    }
}
