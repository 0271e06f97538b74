//! The values of the built-in labels in a state of a chain, and with them of the expressions of a property.

ghost use Rattle.std.specs.Prelude.{◌≡◌, map};
ghost use Rattle.std.specs.List.{list_any, list_all, enumerate_from};
ghost use Rattle.std.specs.Cmp.Lexicographic.{pointwise};
ghost use Rattle.std.specs.Ordering.{int_eq};
ghost use Rattle.chain_model.specs.Chain.{is_part};
ghost use Rattle.chain_model.specs.States.{initial_of};
ghost use Rattle.chain_model.specs.Labels.{labels_of, value_of};
ghost use Rattle.trace_meaning.specs.Guards.{is_possible, some_enabled};

use crate::guards::{guards_fault, some_part, some_single};
use crate::labels::BuiltInLabels;
use crate::values::value_with;
use chain_model::{Act, Chain, TraceFault, Typed, Value, Var};

/// Whether each of the modules has an enabled command with an action.
fn all_parts(action: usize, modules: &[u32], state: &[i64], acts: &[Act]) -> bool
    ensures { result ≡ list_all (λ owner. some_enabled (is_part action owner) state.now acts.now) modules.now }
{
    for owner in modules {
        let there = some_part(action, *owner, state, acts);
        if !there {
            return false;
        }
    }
    true
}

/// Whether some action is possible.
fn some_action(chain: &Chain, state: &[i64]) -> bool
    ensures { result ≡ list_any (is_possible state.now chain.now.commands) (enumerate_from 0 chain.now.actions) }
{
    for (number, action) in chain.actions.as_slice().iter().enumerate() {
        if all_parts(
            number,
            action.takes.as_slice(),
            state,
            chain.commands.as_slice(),
        ) {
            return true;
        }
    }
    false
}

/// Whether a state has no choice, or the fault of the first guard that faults.
#[tactic(auto, using(crate::proofs::DeadlockLemmas::deadlock_by_guards))]
fn deadlock(chain: &Chain, state: &[i64]) -> Result<bool, TraceFault>
    ensures { result ≡ (labels_of chain.now state.now).deadlock }
{
    let acts = chain.commands.as_slice();
    match guards_fault(state, acts) {
        Ok(()) => Ok(!some_single(state, acts) && !some_action(chain, state)),
        Err(fault) => Err(fault),
    }
}

/// Whether a state has the values that the variables start with.
#[tactic(auto, using(crate::proofs::InitialLemmas::other_length))]
fn is_initial(vars: &[Var], state: &[i64]) -> bool
    ensures { result ≡ pointwise int_eq state.now (map (λ var. var.init) vars.now) }
{
    if state.len() != vars.len() {
        return false;
    }
    for (index, var) in vars.iter().enumerate() {
        if state[index] != var.init {
            return false;
        }
    }
    true
}

/// The built-in labels of a state of a chain.
#[derive(Drop)]
pub struct StateLabels<'a> {
    chain: &'a Chain,
    state: &'a [i64],
}

impl BuiltInLabels for StateLabels<'_> {
    ghost use Rattle.chain_model.specs.Labels.{labels_of};

    ghost values = { λ s. labels_of s.chain.now s.state.now };

    fn init(&self) -> bool {
        is_initial(self.chain.vars.as_slice(), self.state)
    }

    fn deadlock(&self) -> Result<bool, TraceFault> {
        deadlock(self.chain, self.state)
    }
}

/// The value of an expression in a state of a chain. The guards are evaluated only where the label `"deadlock"` is read.
#[tactic(auto, unfolding(chain_model::specs::Labels::value_of))]
pub fn eval(expr: &Typed, chain: &Chain, state: &[i64]) -> Result<Value, TraceFault>
    ensures { result ≡ value_of chain.now state.now expr.now }
{
    let labels = StateLabels { chain, state };
    value_with(&labels, state, expr)
}
