//! How large a draw is.

ghost use Rattle.std.specs.Prelude.{ℕ, ◌^◌, ◌<◌};
ghost use Rattle.trace_streams.specs.Draws.{draw_at};

/// Law: each draw is a number of 64 bits. It does nothing when called.
pub fn draws_are_words()
    ensures { (seed trace place : ℕ) → draw_at seed trace place < 2 ^ 64 }
{}
