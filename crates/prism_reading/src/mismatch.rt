use std::alloc::AllocError;

/// Why nothing is parsed.
#[derive(Debug, Drop)]
pub enum Mismatch {
    /// The tokens begin with no text of the rule. So many of them are left from the first wrong one on: the first with
    /// which the tokens so far begin no text of it.
    NoText { left: usize },
    OutOfMemory(AllocError),
}

impl From<AllocError> for Mismatch {
    ghost use Rattle.std.specs.Prelude.{◌≡◌};
    ghost use Rattle.prism_reading.specs.declared.mismatch.Mismatch.TheVariants.{OutOfMemory};

    ghost from_gives = { λ fault mismatch. mismatch ≡ OutOfMemory fault };

    fn from(fault: AllocError) -> Mismatch {
        Mismatch::OutOfMemory(fault)
    }
}
