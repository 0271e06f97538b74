use crate::view::View;
use atomic_table::Seat as TableSeat;
use std::marker::Model;

/// What a worker steps with: a place at one board, with some tickets. It takes no bytes.
#[derive(Drop)]
pub struct Seat {
    pub(crate) inner: TableSeat<(), View>,
}

impl Model for Seat {
    ghost use Rattle.std.specs.Prelude.{◌≡◌, []};
    ghost use Rattle.block_board.specs.IsSound.{IsSound};
    ghost use Rattle.block_board.specs.Identity.{SeatFacts};

    ghost Value = { SeatFacts };

    ghost view = { λ s. record { board = s.inner.table_id; view = s.inner.me.0 } };

    ghost invariant = { λ s. (s.inner.me.1 ≡ []) × IsSound s.inner.me.0 };
}
