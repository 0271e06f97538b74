//! Weights that are the same in every state, worked out once.

ghost use Rattle.std.specs.Prelude.{◌≡◌, ◌==◌, ◌+◌, ◌*◌, ◌/◌, ◌<◌, ◌≤◌, ◌^◌, ℕ, true, All, IfOk, IfSome, length, sum};
ghost use Rattle.trace_streams.specs.Pick.{pick_of, first_draw};
ghost use Rattle.chain_model.specs.declared.chain.Chain.{Chain};
ghost use Rattle.chain_model.specs.Step.{denominator_of, first_above, running_sums};
ghost use Rattle.trace_meaning.specs.Weights.{IsWeight, numerators_over};
ghost use Rattle.successors.specs.Weighing.{IsFixedWeight, AreFixedWeights, HasThresholds, HasWeights, IsWeighing};

use crate::weighing::Weights;
use chain_model::Chain;
use guard_code::Node;
use smc_num::Frac;
use sqlite_items::Items;
use std::alloc::{AllocError, Global};
use trace_meaning::{add_up, as_weight, denominator, numerator};
use trace_streams::branch_interval_law;

/// The weight that a node is, whatever the state.
fn fixed_weight(node: &Node) -> Option<Frac>
    ensures value { IfSome result (λ weight. IsFixedWeight node.now weight) }
    ensures weight { IfSome result IsWeight }
{
    match node {
        Node::Lit(value) => match as_weight(0, *value) {
            Ok(weight) => Some(weight),
            Err(_) => None,
        },
        _ => None,
    }
}

/// The weights that nodes are, whatever the state, where each is one.
fn fixed_weights(alloc: Global, nodes: &[Node]) -> Result<Option<Items<Frac>>, AllocError>
    ensures value { IfOk result (λ found. IfSome found (λ weights. AreFixedWeights nodes.now weights)) }
    ensures weights { IfOk result (λ found. IfSome found (λ weights. All IsWeight weights)) }
{
    let mut weights = Items::new(alloc);
    for node in nodes {
        match fixed_weight(node) {
            Some(weight) => weights.push(weight)?,
            None => return Ok(None),
        }
    }
    Ok(Some(weights))
}

/// The first draw that picks a part at or above this one of so many.
pub fn first_draw(part: u64, parts: u64) -> u64
    requires some { part < parts }
    requires few { parts ≤ 2 ^ 48 }
    ensures { result ≡ first_draw part parts }
{
    ((u128::from(part) * (1 << 64) + u128::from(parts - 1)) / u128::from(parts)) as u64
}

/// For each branch, up to the first that takes all that is left, the first draw that takes a later one.
fn thresholds(alloc: Global, weights: &[Frac], den: u64) -> Result<Items<u64>, AllocError>
    requires weights { All IsWeight weights.now }
    requires some { 0 < den }
    requires few { den ≤ 2 ^ 48 }
    ensures { IfOk result (λ thresholds. (draw : ℕ) → draw < 2 ^ 64
        → first_above draw thresholds
        ≡ first_above (pick_of draw den) (running_sums 0 (numerators_over den weights.now))) }
{
    branch_interval_law();
    let mut thresholds = Items::new(alloc);
    let mut through: u64 = 0;
    for weight in weights {
        through += numerator(*weight, den);
        if through >= den {
            return Ok(thresholds);
        }
        thresholds.push(first_draw(through, den))?;
    }
    Ok(thresholds)
}

/// How a branch is found by thresholds: one of two by a single comparison.
fn by_thresholds(thresholds: Items<u64>) -> Weights
    ensures { (chain : Chain) (command : ℕ) → HasThresholds chain command thresholds → IsWeighing chain command result }
{
    match thresholds.as_slice() {
        [threshold] => Weights::Coin(*threshold),
        _ => Weights::Fixed(thresholds),
    }
}

/// How a branch is found by weights that are the same in every state.
fn fixed(
    alloc: Global,
    chain: &Chain,
    command: usize,
    nodes: Items<Node>,
    weights: &[Frac],
    den: u64,
) -> Result<Weights, AllocError>
    requires has { HasWeights chain.now command nodes }
    requires fixed { AreFixedWeights nodes weights.now }
    requires weights { All IsWeight weights.now }
    requires common { den ≡ denominator_of weights.now }
    requires some { 0 < den }
    requires few { den ≤ 2 ^ 48 }
    requires whole { (sum (numerators_over den weights.now) == den) ≡ true }
    ensures { IfOk result (λ weights. IsWeighing chain.now command weights) }
{
    if weights.len() == 1 {
        return Ok(Weights::Certain);
    }
    Ok(by_thresholds(thresholds(alloc, weights, den)?))
}

/// How the branch of a command is found, by the nodes of its weights.
pub fn weights_of(
    alloc: Global,
    chain: &Chain,
    command: usize,
    nodes: Items<Node>,
) -> Result<Weights, AllocError>
    requires { HasWeights chain.now command nodes }
    ensures { IfOk result (λ weights. IsWeighing chain.now command weights) }
{
    if let Some(weights) = fixed_weights(alloc, nodes.as_slice())? {
        let weights = weights.as_slice();
        if let Some(den) = denominator(weights)
            && add_up(weights, den)
        {
            return fixed(alloc, chain, command, nodes, weights, den);
        }
    }
    Ok(Weights::Varying(nodes))
}
