//! The bytes of the guards of a state.

ghost use Rattle.std.specs.Prelude.{◌≡◌, ◌<◌, ◌^◌, MatchResult, OnOk, IfOk, IfErr, Ok, Err, length};
ghost use Rattle.chain_model.specs.States.{IsState};
ghost use Rattle.chain_model.specs.Choices.{choices_of};
ghost use Rattle.successors.specs.Enabled.{is_set, numbers_with, AreGuards, IsFound};
ghost use Rattle.successors.specs.Commands.{AreGuardNodes, enabled_by};

use crate::found::{Found, found_with};
use chain_model::{Chain, TraceFault};
use guard_code::{Node, guard_holds};

/// A byte whose lowest bit says whether a command is enabled.
#[inline(always)]
fn byte_of(holds: bool) -> u8
    ensures { is_set 0 result ≡ holds }
{
    u8::from(holds)
}

/// Writes for each guard a byte whose lowest bit says whether it holds, and says what is found of those that hold; or
/// tells the fault of the first that faults.
fn write_guards(guards: &[Node], state: &[i64], bytes: &mut [u8]) -> Result<Found, TraceFault>
    requires long { length bytes.old ≡ length guards.now }
    requires few { length guards.now < 2 ^ 32 }
    ensures enabled { MatchResult result
        (λ found. enabled_by 0 state.now guards.now ≡ Ok (numbers_with 0 0 bytes.new))
        (λ fault. enabled_by 0 state.now guards.now ≡ Err fault) }
    ensures found { IfOk result (λ found. IsFound found (numbers_with 0 0 bytes.new)) }
{
    let mut found = Found::Nothing;
    for (number, guard) in guards.iter().enumerate() {
        match guard_holds(guard, state) {
            Ok(holds) => {
                bytes[number] = byte_of(holds);
                found = found_with(found, number as u32, holds);
            }
            Err(fault) => return Err(fault),
        }
    }
    Ok(found)
}

/// Writes for each command of a chain a byte whose lowest bit says whether it is enabled, and says what is found of those
/// that are; or tells the fault of the first guard that faults, for which the state has no choices.
#[inline(always)]
pub fn fill(
    chain: &Chain,
    guards: &[Node],
    state: &[i64],
    bytes: &mut [u8],
) -> Result<Found, TraceFault>
    requires guards { AreGuardNodes chain.now.commands guards.now }
    requires state { IsState chain.now state.now }
    requires long { length bytes.old ≡ length chain.now.commands }
    ensures enabled { OnOk result (AreGuards chain.now state.now 0 bytes.new) }
    ensures found { IfOk result (λ found. IsFound found (numbers_with 0 0 bytes.new)) }
    ensures fault { IfErr result (λ fault. choices_of chain.now state.now ≡ Err fault) }
{
    write_guards(guards, state, bytes)
}
