//! What the code of a block of traces says.

ghost use Rattle.std.specs.Prelude.{◌≡◌, ◌<◌, ◌≤◌, Some, slice_get};
ghost use Rattle.stop_rules.specs.Codes.{given_in, truths_in};

/// How many traces of a block come before its first fault.
pub(crate) fn given(code: u64) -> u32
    ensures { result ≡ given_in code }
{
    ((code >> 32) % 64) as u32
}

/// Whether the trace at this position of a block succeeds.
pub(crate) fn success_at(flip: bool, code: u64, position: u32) -> bool
    requires within { position < given_in code }
    requires few { given_in code ≤ 32 }
    ensures { slice_get (truths_in flip code) position ≡ Some result }
{
    ((code >> position) % 2 == 1) != flip
}
