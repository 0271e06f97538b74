//! The branch that a command takes, by its weights.

ghost use Rattle.std.specs.Prelude.{◌≡◌, ◌+◌, ◌<◌, ◌≤◌, ◌^◌, [], ◌∷◌, All, IfOk, IfSome, MatchResult, OnOk, OnErr, Ok, Err, length, take, unsigned_abs};
ghost use Rattle.trace_streams.specs.Draws.{draw_at};
ghost use Rattle.chain_model.specs.Step.{branch_of, command_draws, draws_for, first_above};
ghost use Rattle.guard_code.specs.Tests.{IsSmall};
ghost use Rattle.trace_meaning.specs.Weights.{IsWeight};
ghost use Rattle.successors.specs.Weighing.{node_weight, node_weights, weighed_branch, HasWeights, IsShare, IsWeighing};

use chain_model::{Chain, TraceFault};
use guard_code::{Node, weight_value};
use smc_num::Frac;
use sqlite_items::Items;
use trace_meaning::{add_up, as_weight, denominator, drawn_branch};
use trace_streams::{Draws, pick};

/// How the branch of a command is found.
#[derive(Debug, Drop)]
pub enum Weights {
    /// There is one branch, and its weight is 1.
    Certain,
    /// There are two branches, whose weights are the same in every state: the first draw that takes the second.
    Coin(u64),
    /// The weights are the same in every state: for each branch but the last the first draw that takes a later one.
    Fixed(Items<u64>),
    /// The weights are evaluated.
    Varying(Items<Node>),
}

/// The index of the first threshold above a draw, or how many there are where none is.
#[inline(always)]
fn index_above(draw: u64, thresholds: &[u64]) -> usize
    ensures { result ≡ first_above draw thresholds.now }
{
    for (index, threshold) in thresholds.iter().enumerate() {
        if draw < *threshold {
            return index;
        }
    }
    thresholds.len()
}

/// The second branch for draws from the threshold on, and the first for those below it.
#[inline(always)]
fn side_of_coin(draw: u64, threshold: u64) -> usize
    ensures { result ≡ first_above draw (threshold ∷ []) }
{
    usize::from(threshold <= draw)
}

/// The weight that a node gives.
fn weight(state: &[i64], command: u32, node: &Node) -> Result<Frac, TraceFault>
    ensures value { result ≡ node_weight state.now command node.now }
    ensures weight { IfOk result IsWeight }
{
    match weight_value(node, state) {
        Ok(value) => as_weight(command, value),
        Err(fault) => Err(fault),
    }
}

/// Writes the weights that nodes give, from left to right.
pub fn write_weights(
    state: &[i64],
    command: u32,
    nodes: &[Node],
    weights: &mut [Frac],
) -> Result<(), TraceFault>
    requires { length nodes.now ≤ length weights.old }
    ensures value { MatchResult result
        (λ done. node_weights state.now command nodes.now ≡ Ok (take (length nodes.now) weights.new))
        (λ fault. node_weights state.now command nodes.now ≡ Err fault) }
    ensures weights { OnOk result (All IsWeight (take (length nodes.now) weights.new)) }
{
    for (index, node) in nodes.iter().enumerate() {
        match weight(state, command, node) {
            Ok(weight) => weights[index] = weight,
            Err(fault) => return Err(fault),
        }
    }
    Ok(())
}

/// The denominator of a weight.
#[inline(always)]
fn den(weight: Frac) -> u64
    ensures { result ≡ weight.den }
{
    weight.den() as u64
}

/// The numerator of a weight.
#[inline(always)]
fn part(weight: Frac) -> u64
    ensures { result ≡ unsigned_abs weight.num }
{
    weight.num().unsigned_abs()
}

/// The numerator of the first of two weights that have one denominator and add up to 1, and the denominator.
#[inline(always)]
pub fn share_of(weights: &[Frac]) -> Option<(u64, u64)>
    requires { All IsWeight weights.now }
    ensures { IfSome result (λ share. IsShare weights.now share.0 share.1) }
{
    let [first, second] = weights else {
        return None;
    };
    let whole = den(*first);
    if den(*second) != whole || whole > 1 << 48 {
        return None;
    }
    let share = part(*first);
    if share > whole || part(*second) != whole - share {
        return None;
    }
    Some((share, whole))
}

/// The branch that weights say.
fn picked(command: u32, weights: &[Frac], draws: &mut Draws) -> Result<usize, TraceFault>
    requires weights { All IsWeight weights.now }
    requires place { draws.old.place < 2 ^ 62 }
    ensures value { result
        ≡ weighed_branch (draw_at draws.old.seed draws.old.trace) draws.old.place command weights.now }
    ensures moves { OnOk result
        (draws.new ≡ record draws.old { place = draws.old.place + draws_for (length weights.now) }) }
    ensures stays { OnErr result (draws.new ≡ draws.old) }
{
    if let Some((share, whole)) = share_of(weights) {
        return Ok(side_of_coin(pick(draws.next(), whole), share));
    }
    let den = match denominator(weights) {
        Some(den) => den,
        None => return Err(TraceFault::Denominator { command }),
    };
    if !add_up(weights, den) {
        return Err(TraceFault::Weights { command });
    }
    Ok(drawn_branch(weights, den, draws))
}

/// The branch that a command takes by the weights that nodes give.
fn varying(
    chain: &Chain,
    command: u32,
    nodes: &[Node],
    state: &[i64],
    weights: &mut [Frac],
    draws: &mut Draws,
) -> Result<usize, TraceFault>
    requires weighing { HasWeights chain.now command nodes.now }
    requires small { IsSmall state.now }
    requires room { 64 ≤ length weights.old }
    requires place { draws.old.place < 2 ^ 62 }
    ensures value { result
        ≡ branch_of chain.now (draw_at draws.old.seed draws.old.trace) state.now draws.old.place command }
    ensures moves { OnOk result
        (draws.new ≡ record draws.old { place = draws.old.place + command_draws chain.now command }) }
    ensures stays { OnErr result (draws.new ≡ draws.old) }
{
    match write_weights(state, command, nodes, weights) {
        Ok(()) => picked(command, &weights[..nodes.len()], draws),
        Err(fault) => Err(fault),
    }
}

/// The branch that a command takes.
#[inline(always)]
pub fn branch(
    chain: &Chain,
    command: u32,
    weighing: &Weights,
    state: &[i64],
    weights: &mut [Frac],
    draws: &mut Draws,
) -> Result<usize, TraceFault>
    requires weighing { IsWeighing chain.now command weighing.now }
    requires small { IsSmall state.now }
    requires room { 64 ≤ length weights.old }
    requires place { draws.old.place < 2 ^ 62 }
    ensures value { result
        ≡ branch_of chain.now (draw_at draws.old.seed draws.old.trace) state.now draws.old.place command }
    ensures moves { OnOk result
        (draws.new ≡ record draws.old { place = draws.old.place + command_draws chain.now command }) }
    ensures stays { OnErr result (draws.new ≡ draws.old) }
{
    match weighing {
        Weights::Certain => Ok(0),
        Weights::Coin(threshold) => Ok(side_of_coin(draws.next(), *threshold)),
        Weights::Fixed(thresholds) => Ok(index_above(draws.next(), thresholds.as_slice())),
        Weights::Varying(nodes) => {
            varying(chain, command, nodes.as_slice(), state, weights, draws)
        }
    }
}
