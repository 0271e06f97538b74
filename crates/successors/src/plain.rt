//! The choices of a state, read off its guards in one pass, where no guard can fault.

ghost use Rattle.std.specs.Prelude.{◌≡◌, ◌≢◌, ℕ, ◌+◌, ◌-◌, ◌<◌, ◌≤◌, ◌^◌, List, [], ◌∷◌, ◌++◌, if◌then◌else◌, All, IsOk, IsTrue, filter, flat_map, length, min};
ghost use Rattle.std.specs.List.{list_any};
ghost use Rattle.chain_model.specs.States.{State, IsState};
ghost use Rattle.successors.specs.Enabled.{IsFound};
ghost use Rattle.successors.specs.Partition.{joint_lists, choice_lists};
ghost use Rattle.successors.specs.Plain.{told_by, is_true, holds_at, is_possible, HaveTruth, IsCounted, AreTold, HasChoice};
ghost use Rattle.successors.specs.Steppers.{IsPlan};
ghost use Rattle.successors.specs.Choosing.{AreChoices, IsWithin};

use crate::choosing::Choices;
use crate::found::Found;
use crate::plan::Plan;
use chain_model::{Chain, TraceFault};
use guard_code::{Node, guard_holds};
use sqlite_items::Items;

/// Whether the node of a guard tests variables alone, or is a literal: it has a truth value in every state.
fn has_truth(node: &Node) -> bool
    ensures { IsTrue result → (state : State) → IsOk (told_by state node.now) }
{
    match node {
        Node::Lit(_) | Node::Plain(_) | Node::Every(_) | Node::Any(_) => true,
        _ => false,
    }
}

/// Whether each of these nodes tests variables alone, or is a literal.
pub fn have_truth(nodes: &[Node]) -> bool
    ensures { IsTrue result → HaveTruth nodes.now }
{
    for node in nodes {
        if !has_truth(node) {
            return false;
        }
    }
    true
}

/// What a guard says in a state, as a truth value; a fault is false.
#[inline(always)]
fn truth(told: Result<bool, TraceFault>) -> bool
    ensures { result ≡ is_true told }
{
    match told {
        Ok(holds) => holds,
        Err(_) => false,
    }
}

/// Whether a guard holds in a state. One plain test is made at once.
#[inline(always)]
fn holds(guard: &Node, state: &[i64]) -> bool
    ensures { result ≡ is_true (told_by state.now guard.now) }
{
    match guard {
        Node::Plain(_) => truth(guard_holds(guard, state)),
        _ => other_holds(guard, state),
    }
}

/// Whether a guard that isn't one plain test holds in a state.
#[inline(never)]
fn other_holds(guard: &Node, state: &[i64]) -> bool
    ensures { result ≡ is_true (told_by state.now guard.now) }
{
    truth(guard_holds(guard, state))
}

/// Whether the guard of a number holds in a state.
#[inline(always)]
fn holds_at(guards: &[Node], state: &[i64], number: u32) -> bool
    ensures { result ≡ holds_at guards.now state.now number }
{
    match guards.get(number as usize) {
        Some(guard) => holds(guard, state),
        None => false,
    }
}

/// How many commands are enabled and the last of them, with one more that is enabled or not. It takes no branch, since
/// which command of a module is enabled can hardly be foretold.
#[inline(always)]
fn counted_with(count: u64, last: u32, number: u32, enabled: bool) -> (u64, u32)
    requires { count < 2 ^ 63 }
    ensures counted { (numbers : List ℕ) → IsCounted count last numbers
        → IsCounted result.0 result.1 (numbers ++ (if enabled then number ∷ [] else [])) }
    ensures within { result.0 ≤ count + 1 }
{
    if enabled {
        return (count + 1, number);
    }
    (count, last)
}

/// What is found of commands of which so many are enabled, and this is the last of them.
#[inline(always)]
fn found_of(count: u64, last: u32) -> Found
    ensures { (numbers : List ℕ) → IsCounted count last numbers → IsFound result numbers }
{
    match count {
        0 => Found::Nothing,
        1 => Found::One(last),
        _ => Found::Several,
    }
}

/// What is found of those of these commands that are enabled.
#[inline(always)]
fn sole_in(guards: &[Node], state: &[i64], numbers: &[u32]) -> Found
    ensures { IsFound result (filter (holds_at guards.now state.now) numbers.now) }
{
    let mut count: u64 = 0;
    let mut last: u32 = 0;
    for number in numbers {
        let counted = counted_with(count, last, *number, holds_at(guards, state, *number));
        count = counted.0;
        last = counted.1;
    }
    found_of(count, last)
}

/// Whether one of these commands is enabled.
#[inline(always)]
fn some_in(guards: &[Node], state: &[i64], numbers: &[u32]) -> bool
    ensures { result ≡ list_any (holds_at guards.now state.now) numbers.now }
{
    for number in numbers {
        if holds_at(guards, state, *number) {
            return true;
        }
    }
    false
}

/// Whether each module that takes part in an action has an enabled command, where these lists are their commands.
fn is_possible(guards: &[Node], state: &[i64], lists: &[Items<u32>]) -> bool
    ensures { result ≡ is_possible (holds_at guards.now state.now) lists.now }
{
    for list in lists {
        if !some_in(guards, state, list.as_slice()) {
            return false;
        }
    }
    true
}

/// Whether one of these actions is possible.
fn some_possible(guards: &[Node], state: &[i64], actions: &[Items<Items<u32>>]) -> bool
    ensures { result ≡ list_any (is_possible (holds_at guards.now state.now)) actions.now }
{
    for lists in actions {
        if is_possible(guards, state, lists.as_slice()) {
            return true;
        }
    }
    false
}

/// What is told of the choices of an action: nothing, where a module has several enabled commands. The commands of the
/// one are written.
fn sole_joint(guards: &[Node], state: &[i64], lists: &[Items<u32>], chosen: &mut [u32]) -> Choices
    requires room { length lists.now ≤ length chosen.old }
    ensures told { AreTold (joint_lists (holds_at guards.now state.now) lists.now) result chosen.new }
    ensures within { IsWithin result (length chosen.old) }
{
    let mut place = lists.len();
    while place > 0 {
        place -= 1;
        match sole_in(guards, state, lists[place].as_slice()) {
            Found::One(command) => chosen[place] = command,
            Found::Nothing => return Choices::Nothing,
            Found::Several => return Choices::Several,
        }
    }
    Choices::One(lists.len())
}

/// What is told of the choices of actions. The commands of the one are written.
fn sole_action(
    guards: &[Node],
    state: &[i64],
    actions: &[Items<Items<u32>>],
    chosen: &mut [u32],
) -> Choices
    requires room { All (λ lists. length lists ≤ length chosen.old) actions.now }
    ensures told { AreTold (flat_map (joint_lists (holds_at guards.now state.now)) actions.now) result chosen.new }
    ensures within { IsWithin result (length chosen.old) }
{
    for (index, lists) in actions.iter().enumerate() {
        match sole_joint(guards, state, lists.as_slice(), chosen) {
            Choices::Nothing => {}
            Choices::One(size) => {
                if some_possible(guards, state, &actions[index + 1..]) {
                    return Choices::Several;
                }
                return Choices::One(size);
            }
            Choices::Several => return Choices::Several,
        }
    }
    Choices::Nothing
}

/// What is told of the choices that commands without an action and actions make. The commands of the one are written.
fn choices_of_lists(
    guards: &[Node],
    state: &[i64],
    singles: &[u32],
    actions: &[Items<Items<u32>>],
    chosen: &mut [u32],
) -> Choices
    requires some { 1 ≤ length chosen.old }
    requires room { All (λ lists. length lists ≤ length chosen.old) actions.now }
    ensures told { AreTold (choice_lists (holds_at guards.now state.now) singles.now actions.now) result chosen.new }
    ensures within { IsWithin result (length chosen.old) }
{
    match sole_in(guards, state, singles) {
        Found::Nothing => sole_action(guards, state, actions, chosen),
        Found::One(command) => {
            if some_possible(guards, state, actions) {
                return Choices::Several;
            }
            chosen[0] = command;
            Choices::One(1)
        }
        Found::Several => Choices::Several,
    }
}

/// What is told of the choices of a state by guards that can't fault, one after another. The commands of the one are
/// written.
pub fn choices_by_tests(plan: &Plan, chain: &Chain, state: &[i64], chosen: &mut [u32]) -> Choices
    requires plan { IsPlan chain.now plan.now }
    requires plain { IsTrue plan.now.plain }
    requires state { IsState chain.now state.now }
    requires room { 1 ≤ length chosen.old }
    requires wide { All (λ lists. length lists ≤ length chosen.old) plan.now.partition.actions }
    ensures choices { AreChoices chain.now state.now result chosen.new }
    ensures some { HasChoice chain.now state.now result }
    ensures within { IsWithin result (length chosen.old) }
    ensures few { IsWithin result 64 }
{
    choices_of_lists(
        plan.guards.as_slice(),
        state,
        plan.partition.singles.as_slice(),
        plan.partition.actions.as_slice(),
        chosen,
    )
}

/// How many passes that tell nothing are put up with; one that tells something gives back one.
pub const PATIENCE: u32 = 1024;

/// How many passes that tell nothing are still put up with, after one that told this.
#[inline(always)]
pub fn patience_after(patience: u32, told: Choices) -> u32
    ensures untold { told ≡ Choices.Several → result ≡ patience - 1 }
    ensures told { told ≢ Choices.Several → result ≡ min (patience + 1) 1024 }
{
    match told {
        Choices::Several => patience.saturating_sub(1),
        Choices::Nothing | Choices::One(_) => patience.saturating_add(1).min(PATIENCE),
    }
}
