//! The truth of a path's two state formulas in a state.

ghost use Rattle.std.specs.Prelude.{◌≡◌, IfSome};
ghost use Rattle.chain_model.specs.declared.job.Job.{Job};
ghost use Rattle.chain_model.specs.States.{IsState};
ghost use Rattle.chain_model.specs.Labels.{value_of};
ghost use Rattle.chain_model.specs.Trace.{pair_of};
ghost use Rattle.guard_code.specs.Wholes.{truth_of};
ghost use Rattle.guard_code.specs.Codes.{IsCode};

use chain_model::{TraceFault, Value};
use guard_code::{Code, Formula, Node, formula_holds};

/// The truth value that a node is, whatever the state, where it is a literal.
#[inline(always)]
fn literal_truth(node: &Node) -> Option<bool>
    ensures { IfSome result (λ holds. node.now ≡ Node.Lit (Value.Bool holds)) }
{
    match node {
        Node::Lit(Value::Bool(holds)) => Some(*holds),
        _ => None,
    }
}

/// Whether the first state formula holds. That of `F` and `G` is a literal, which says the same in every state.
#[inline(always)]
fn first_holds(code: &Code, state: &[i64]) -> Result<bool, TraceFault>
    ensures { (job : Job) → IsCode job code.now → IsState job.chain state.now
        → result ≡ truth_of (value_of job.chain state.now job.path.first) }
{
    if let Some(holds) = literal_truth(&code.first) {
        return Ok(holds);
    }
    formula_holds(code, Formula::First, state)
}

/// The pair of a state: whether the first state formula holds, and whether the second does.
pub(crate) fn pair(code: &Code, state: &[i64]) -> Result<(bool, bool), TraceFault>
    ensures { (job : Job) → IsCode job code.now → IsState job.chain state.now → result ≡ pair_of job state.now }
{
    let first = match first_holds(code, state) {
        Ok(first) => first,
        Err(fault) => return Err(fault),
    };
    match formula_holds(code, Formula::Second, state) {
        Ok(second) => Ok((first, second)),
        Err(fault) => Err(fault),
    }
}
