//! The weights of a command's branches, and how a number picks one of them.

ghost use Rattle.std.specs.Prelude.{◌≡◌, ◌==◌, ◌*◌, ◌/◌, ◌<◌, ◌≤◌, ◌^◌, All, IfOk, IfSome, SomeIff, length, sum, unsigned_abs};
ghost use Rattle.smc_num.specs.Gcd.{lcm_of};
ghost use Rattle.chain_model.specs.Step.{as_weight, weights_of, denominator_of, first_above, running_sums};
ghost use Rattle.trace_meaning.specs.Gives.{Gives};
ghost use Rattle.trace_meaning.specs.Weights.{IsWeight, weight_of, numerators_over};

use crate::fault::StepFault;
use crate::guards::value_in;
use chain_model::{Arm, TraceFault, Value};
use smc_num::{Frac, gcd};
use sqlite_items::Items;
use std::alloc::Global;

/// A value as a weight of a command, which lies from 0 to 1.
pub fn as_weight(command: u32, value: Value) -> Result<Frac, TraceFault>
    ensures value { result ≡ as_weight command value }
    ensures weight { IfOk result IsWeight }
{
    let Value::Num(number) = value else {
        return Err(TraceFault::Weights { command });
    };
    if 0 <= number.num() && number.num() <= number.den() {
        Ok(number)
    } else {
        Err(TraceFault::Weights { command })
    }
}

/// The weight of a branch of a command.
fn weight(state: &[i64], command: u32, arm: &Arm) -> Result<Frac, TraceFault>
    ensures value { result ≡ weight_of state.now command arm.now }
    ensures weight { IfOk result IsWeight }
{
    match value_in(state, &arm.weight) {
        Ok(value) => as_weight(command, value),
        Err(fault) => Err(fault),
    }
}

/// The weights of a command's branches, from left to right.
pub fn weights(
    alloc: Global,
    state: &[i64],
    command: u32,
    arms: &[Arm],
) -> Result<Items<Frac>, StepFault>
    ensures value { Gives result (weights_of state.now command arms.now) }
    ensures weights { IfOk result (λ weights. All IsWeight weights) }
{
    let mut weights = Items::new(alloc);
    for arm in arms {
        let weight = match weight(state, command, arm) {
            Ok(weight) => weight,
            Err(fault) => return Err(StepFault::Trace(fault)),
        };
        match weights.push(weight) {
            Ok(()) => {}
            Err(error) => return Err(StepFault::OutOfMemory(error)),
        }
    }
    Ok(weights)
}

/// The product of two numbers, where it is at most 2^48.
fn limited_product(a: u64, b: u64) -> Option<u64>
    ensures { SomeIff result (a * b ≤ 2 ^ 48) (a * b) }
{
    match a.checked_mul(b) {
        Some(product) if product <= 1 << 48 => Some(product),
        _ => None,
    }
}

/// The least common multiple of two numbers, where it is at most 2^48.
#[tactic(auto, unfolding(smc_num::specs::Gcd::lcm_of))]
fn multiple(a: u64, b: u64) -> Option<u64>
    requires { 0 < b }
    ensures { SomeIff result (lcm_of a b ≤ 2 ^ 48) (lcm_of a b) }
{
    limited_product(a, b / gcd(a, b))
}

/// The denominator of a fraction.
fn den(number: Frac) -> u64
    ensures { result ≡ number.den }
{
    number.den() as u64
}

/// The least common denominator of weights, where it is at most 2^48.
pub fn denominator(weights: &[Frac]) -> Option<u64>
    requires { All IsWeight weights.now }
    ensures value { SomeIff result (denominator_of weights.now ≤ 2 ^ 48) (denominator_of weights.now) }
    ensures some { IfSome result (λ den. 0 < den) }
{
    let mut common: u64 = 1;
    for weight in weights {
        common = match multiple(common, den(*weight)) {
            Some(next) => next,
            None => return None,
        };
    }
    Some(common)
}

/// The numerator of a weight over a denominator.
pub fn numerator(weight: Frac, den: u64) -> u64
    requires weight { IsWeight weight }
    requires few { den ≤ 2 ^ 48 }
    ensures value { result ≡ unsigned_abs weight.num * (den / weight.den) }
    ensures most { result ≤ den }
{
    weight.num().unsigned_abs() * (den / self::den(weight))
}

/// Whether the numerators of weights over a denominator add up to it.
pub fn add_up(weights: &[Frac], den: u64) -> bool
    requires weights { All IsWeight weights.now }
    requires few { den ≤ 2 ^ 48 }
    ensures { result ≡ (sum (numerators_over den weights.now) == den) }
{
    let mut total: u64 = 0;
    for weight in weights {
        total += numerator(*weight, den);
        if total > den {
            return false;
        }
    }
    total == den
}

/// The index of the first weight at which the running sum of the numerators exceeds a number.
pub fn index_above(weights: &[Frac], den: u64, picked: u64) -> usize
    requires weights { All IsWeight weights.now }
    requires few { den ≤ 2 ^ 48 }
    requires picked { picked < den }
    ensures value { result ≡ first_above picked (running_sums 0 (numerators_over den weights.now)) }
    ensures within { result ≤ length weights.now }
{
    let mut sum: u64 = 0;
    for (index, weight) in weights.iter().enumerate() {
        sum += numerator(*weight, den);
        if picked < sum {
            return index;
        }
    }
    weights.len()
}
