//! How the branch that a command takes in a state depends on what is drawn.

ghost use Rattle.std.specs.Prelude.{◌≡◌, ℕ, ◌≤◌, ◌^◌, List, All, IsTrue, Ok, length};
ghost use Rattle.smc_num.specs.Fraction.{Fraction};
ghost use Rattle.chain_model.specs.declared.chain.Chain.{Chain};
ghost use Rattle.chain_model.specs.States.{State};
ghost use Rattle.chain_model.specs.Step.{arms_of, weights_of};
ghost use Rattle.guard_code.specs.Tests.{IsSmall};
ghost use Rattle.trace_meaning.specs.Weights.{IsWeight};
ghost use Rattle.successors.specs.Weighing.{HasThresholds, HasWeights, IsShare, IsWeighing};
ghost use Rattle.successors.specs.Commands.{AreCommands};
ghost use Rattle.successors.specs.Branching.{IsSure, IsByDraw, IsBranching};

use crate::commands::Command;
use crate::fixed::first_draw;
use crate::weighing::{Weights, share_of, write_weights};
use chain_model::Chain;
use guard_code::Node;
use smc_num::Frac;
use sqlite_items::at;
use trace_meaning::{add_up, denominator};
use trace_streams::branch_interval_law;

/// How the branch that a command takes in a state depends on the draw.
#[derive(Clone, Copy, Debug, PartialEq, Eq)]
pub enum Branching {
    /// It takes the first, and nothing is drawn.
    Sure,
    /// One draw decides: it takes one branch where the draw is below this threshold, and another elsewhere.
    ByDraw {
        threshold: u64,
        below: usize,
        above: usize,
    },
    /// Nothing more is said.
    Untold,
}

/// The branching of a command that takes the first of two branches below a threshold. Where that is 0 the first is never
/// taken.
fn by_threshold(threshold: u64) -> Branching
    ensures { (chain : Chain) (state : State) (command : ℕ) → IsByDraw chain state command threshold 0 1
        → IsBranching chain state command result }
{
    if threshold == 0 {
        return Branching::ByDraw {
            threshold,
            below: 1,
            above: 1,
        };
    }
    Branching::ByDraw {
        threshold,
        below: 0,
        above: 1,
    }
}

/// The branching of a command that takes the first branch whose threshold exceeds the draw, and the next where none does.
fn by_thresholds(thresholds: &[u64]) -> Branching
    ensures { (chain : Chain) (state : State) (command : ℕ) → IsSmall state → HasThresholds chain command thresholds.now
        → IsBranching chain state command result }
{
    match thresholds {
        [] => Branching::ByDraw {
            threshold: 0,
            below: 0,
            above: 0,
        },
        _ => Branching::Untold,
    }
}

/// The branching of a command whose weights say the first branch by a share. Where that is all the second is never taken.
fn by_share(share: u64, whole: u64) -> Branching
    requires { whole ≤ 2 ^ 48 }
    ensures { (chain : Chain) (state : State) (command : ℕ) (weights : List Fraction) → IsShare weights share whole
        → weights_of state command (arms_of chain command) ≡ Ok weights → IsBranching chain state command result }
{
    branch_interval_law();
    if share >= whole {
        return Branching::ByDraw {
            threshold: 0,
            below: 0,
            above: 0,
        };
    }
    by_threshold(first_draw(share, whole))
}

/// Whether weights are one that is 1.
fn is_sure(weights: &[Frac]) -> bool
    requires { All IsWeight weights.now }
    ensures { IsTrue result → (chain : Chain) (state : State) (command : ℕ)
        → weights_of state command (arms_of chain command) ≡ Ok weights.now → IsSure chain state command }
{
    if weights.len() != 1 {
        return false;
    }
    match denominator(weights) {
        Some(den) => add_up(weights, den),
        None => false,
    }
}

/// The branching of a command that has these weights.
fn by_weights(weights: &[Frac]) -> Branching
    requires { All IsWeight weights.now }
    ensures { (chain : Chain) (state : State) (command : ℕ)
        → weights_of state command (arms_of chain command) ≡ Ok weights.now → IsBranching chain state command result }
{
    if let Some((share, whole)) = share_of(weights) {
        return by_share(share, whole);
    }
    if is_sure(weights) {
        return Branching::Sure;
    }
    Branching::Untold
}

/// The branching of a command whose weights nodes give.
fn by_nodes(
    chain: &Chain,
    command: u32,
    nodes: &[Node],
    state: &[i64],
    weights: &mut [Frac],
) -> Branching
    requires weighing { HasWeights chain.now command nodes.now }
    requires small { IsSmall state.now }
    requires room { 64 ≤ length weights.old }
    ensures { IsBranching chain.now state.now command result }
{
    match write_weights(state, command, nodes, weights) {
        Ok(()) => by_weights(&weights[..nodes.len()]),
        Err(_) => Branching::Untold,
    }
}

/// The branching of a command, by what is known of its weights.
fn by_weighing(
    chain: &Chain,
    command: u32,
    weighing: &Weights,
    state: &[i64],
    weights: &mut [Frac],
) -> Branching
    requires weighing { IsWeighing chain.now command weighing.now }
    requires small { IsSmall state.now }
    requires room { 64 ≤ length weights.old }
    ensures { IsBranching chain.now state.now command result }
{
    match weighing {
        Weights::Certain => Branching::Sure,
        Weights::Coin(threshold) => by_threshold(*threshold),
        Weights::Fixed(thresholds) => by_thresholds(thresholds.as_slice()),
        Weights::Varying(nodes) => by_nodes(chain, command, nodes.as_slice(), state, weights),
    }
}

/// The branching of the command of a number.
pub fn branching_of(
    chain: &Chain,
    commands: &[Command],
    command: u32,
    state: &[i64],
    weights: &mut [Frac],
) -> Branching
    requires commands { AreCommands chain.now commands.now }
    requires small { IsSmall state.now }
    requires room { 64 ≤ length weights.old }
    ensures { IsBranching chain.now state.now command result }
{
    match at(commands, command as usize) {
        Some(code) => by_weighing(chain, command, &code.weights, state, weights),
        None => Branching::Untold,
    }
}
