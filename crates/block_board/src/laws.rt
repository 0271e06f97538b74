ghost use Rattle.std.specs.Prelude.{ℕ, List};
ghost use Rattle.block_board.specs.declared.view.View.{View};
ghost use Rattle.block_board.specs.Race.{Race};
ghost use Rattle.block_board.specs.KeepsRule.{KeepsRule};
ghost use Rattle.block_board.specs.IsSound.{IsSound};

use crate::seat::Seat;

/// Law: each race keeps the rule, after each of its steps.
pub fn rule_law()
    ensures { (n w : ℕ) (words : List ℕ) (views : List View) → Race n w words views → KeepsRule n w words views }
{}

/// Law: the view of each seat is sound at every moment.
pub fn seat_law(seat: &Seat)
    ensures { IsSound seat.now.view }
{
    let _inner = &seat.inner;
}
