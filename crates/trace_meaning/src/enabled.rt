ghost use Rattle.std.specs.Prelude.{◌≡◌, ◌<◌, ◌^◌, length};
ghost use Rattle.chain_model.specs.Choices.{enabled_from};
ghost use Rattle.trace_meaning.specs.Gives.{Gives};

use crate::fault::StepFault;
use crate::guards::value_in;
use chain_model::Act;
use chain_values::truth;
use sqlite_items::Items;
use std::alloc::Global;

/// The numbers of the enabled commands.
pub fn enabled(alloc: Global, state: &[i64], acts: &[Act]) -> Result<Items<u32>, StepFault>
    requires { length acts.now < 2 ^ 32 }
    ensures { Gives result (enabled_from 0 state.now acts.now) }
{
    let mut numbers = Items::new(alloc);
    for (number, act) in acts.iter().enumerate() {
        let value = match value_in(state, &act.guard) {
            Ok(value) => value,
            Err(fault) => return Err(StepFault::Trace(fault)),
        };
        if truth(&value) {
            match numbers.push(number as u32) {
                Ok(()) => {}
                Err(error) => return Err(StepFault::OutOfMemory(error)),
            }
        }
    }
    Ok(numbers)
}
