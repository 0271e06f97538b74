//! What the built-in labels say in a state, by the code of a job.

ghost use Rattle.std.specs.Prelude.{◌≡◌};
ghost use Rattle.std.specs.Cmp.Lexicographic.{pointwise};
ghost use Rattle.std.specs.Ordering.{int_eq};

use crate::code::Code;
use crate::guards::is_stuck;
use crate::labels::BuiltInLabels;
use chain_model::TraceFault;

/// Whether a state has these values.
#[tactic(auto, using(crate::proofs::InitialLemmas::other_length))]
fn is_initial(start: &[i64], state: &[i64]) -> bool
    ensures { result ≡ pointwise int_eq state.now start.now }
{
    if state.len() != start.len() {
        return false;
    }
    for (index, number) in start.iter().enumerate() {
        if state[index] != *number {
            return false;
        }
    }
    true
}

/// The built-in labels of a state.
#[derive(Drop)]
pub struct StateLabels<'a> {
    pub code: &'a Code,
    pub state: &'a [i64],
}

impl BuiltInLabels for StateLabels<'_> {
    ghost use Rattle.guard_code.specs.Codes.{code_labels};

    ghost values = { λ s. code_labels s.code.now s.state.now };

    fn init(&self) -> bool {
        is_initial(self.code.initial.as_slice(), self.state)
    }

    fn deadlock(&self) -> Result<bool, TraceFault> {
        is_stuck(
            self.code.takes.as_slice(),
            self.state,
            self.code.commands.as_slice(),
        )
    }
}
