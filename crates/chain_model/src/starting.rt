ghost use Rattle.std.specs.Prelude.{◌≡◌, IfOk};
ghost use Rattle.chain_model.specs.States.{IsState, initial_of};

use crate::chain::Chain;
use std::alloc::{AllocError, Global};

/// The initial state of a chain: each variable has the value that it starts with.
pub fn initial(alloc: Global, chain: &Chain) -> Result<Vec<i64>, AllocError>
    ensures value { IfOk result (λ state. state.items ≡ initial_of chain.now) }
    ensures state { IfOk result (λ state. IsState chain.now state.items) }
{
    let vars = chain.vars.as_slice();
    let mut state = Vec::with_capacity(alloc, vars.len())?;
    for var in vars {
        state.push(var.init)?;
    }
    Ok(state)
}
