//! The code of a job: its expressions, compiled, and what the built-in labels need.

ghost use Rattle.std.specs.Prelude.{◌≡◌, ◌∷◌, [], map, flat_map, IfOk, OnOk};
ghost use Rattle.chain_model.specs.States.{State, initial_of};
ghost use Rattle.guard_code.specs.Tests.{IsSmall};
ghost use Rattle.guard_code.specs.Means.{Adds, AllMean, Means};
ghost use Rattle.guard_code.specs.Guards.{told_act, told_command};
ghost use Rattle.guard_code.specs.Codes.{branch_expressions, command_expressions, model_expressions, IsCode};

use crate::compiling::node_of;
use crate::nodes::Node;
use chain_model::{Act, Action, Arm, Chain, Job, Path, Typed, initial};
use sqlite_items::Items;
use std::alloc::{AllocError, Global};

/// A command as far as choices go by it: the number of its module, the number of its action where it is labelled, and
/// its guard.
#[derive(Debug, Drop)]
pub struct Command {
    pub module: u32,
    pub action: Option<u32>,
    pub guard: Node,
}

/// The code of a job. `nodes` are the expressions of its commands by their numbers, `first` and `second` the state
/// formulas of its path, `commands` its commands, `takes` the modules that take part in each action, and `initial` its
/// initial state.
#[derive(Debug, Drop)]
pub struct Code {
    pub nodes: Items<Node>,
    pub first: Node,
    pub second: Node,
    pub commands: Items<Command>,
    pub takes: Items<Items<u32>>,
    pub initial: Items<i64>,
}

/// Adds the node of an expression.
fn add(alloc: Global, nodes: &mut Items<Node>, expr: &Typed) -> Result<(), AllocError>
    ensures { OnOk result (Adds nodes.old nodes.new (expr.now ∷ [])) }
{
    let node = node_of(alloc, expr)?;
    nodes.push(node)?;
    Ok(())
}

/// Adds the nodes of right sides.
fn add_sets(alloc: Global, nodes: &mut Items<Node>, sets: &[(u32, Typed)]) -> Result<(), AllocError>
    ensures { OnOk result (Adds nodes.old nodes.new (map (λ set. set.1) sets.now)) }
{
    for set in sets {
        add(alloc, nodes, &set.1)?;
    }
    Ok(())
}

/// Adds the nodes of branches.
fn add_branches(alloc: Global, nodes: &mut Items<Node>, arms: &[Arm]) -> Result<(), AllocError>
    ensures { OnOk result (Adds nodes.old nodes.new (flat_map branch_expressions arms.now)) }
{
    for arm in arms {
        add(alloc, nodes, &arm.weight)?;
        add_sets(alloc, nodes, arm.sets.as_slice())?;
    }
    Ok(())
}

/// Adds the nodes of commands.
fn add_commands(alloc: Global, nodes: &mut Items<Node>, acts: &[Act]) -> Result<(), AllocError>
    ensures { OnOk result (Adds nodes.old nodes.new (flat_map command_expressions acts.now)) }
{
    for act in acts {
        add(alloc, nodes, &act.guard)?;
        add_branches(alloc, nodes, act.branches.as_slice())?;
    }
    Ok(())
}

/// The nodes of the expressions of a job's commands.
fn expression_nodes(alloc: Global, job: &Job) -> Result<Items<Node>, AllocError>
    ensures { IfOk result (λ nodes. AllMean nodes (model_expressions job.now)) }
{
    let mut nodes = Items::new(alloc);
    add_commands(alloc, &mut nodes, job.chain.commands.as_slice())?;
    Ok(nodes)
}

/// Commands with their guards compiled.
fn commands_of(alloc: Global, acts: &[Act]) -> Result<Items<Command>, AllocError>
    ensures { IfOk result (λ commands. (state : State) → IsSmall state → map (told_command state) commands ≡ map (told_act state) acts.now) }
{
    let mut commands = Items::new(alloc);
    for act in acts {
        let guard = node_of(alloc, &act.guard)?;
        commands.push(Command {
            module: act.module,
            action: act.action,
            guard,
        })?;
    }
    Ok(commands)
}

/// The modules that take part in each action.
fn takes_of(alloc: Global, actions: &[Action]) -> Result<Items<Items<u32>>, AllocError>
    ensures { IfOk result (λ takes. takes ≡ map (λ action. action.takes) actions.now) }
{
    let mut takes = Items::new(alloc);
    for action in actions {
        takes.push(Items::from_slice(alloc, action.takes.as_slice())?)?;
    }
    Ok(takes)
}

/// The state formulas of a path, compiled.
#[derive(Drop)]
struct Formulas {
    first: Node,
    second: Node,
}

/// The nodes of the state formulas of a path.
fn formulas_of(alloc: Global, path: &Path) -> Result<Formulas, AllocError>
    ensures first { IfOk result (λ made. Means made.first path.now.first) }
    ensures second { IfOk result (λ made. Means made.second path.now.second) }
{
    let first = node_of(alloc, &path.first)?;
    let second = node_of(alloc, &path.second)?;
    Ok(Formulas { first, second })
}

/// What the built-in labels need of a chain: its commands, the modules that take part in each action, and the initial
/// state.
#[derive(Drop)]
struct LabelParts {
    commands: Items<Command>,
    takes: Items<Items<u32>>,
    initial: Items<i64>,
}

/// What the built-in labels need of a chain.
fn label_parts(alloc: Global, chain: &Chain) -> Result<LabelParts, AllocError>
    ensures commands { IfOk result (λ made. (state : State) → IsSmall state → map (told_command state) made.commands ≡ map (told_act state) chain.now.commands) }
    ensures takes { IfOk result (λ made. made.takes ≡ map (λ action. action.takes) chain.now.actions) }
    ensures initial { IfOk result (λ made. made.initial ≡ initial_of chain.now) }
{
    let initial = Items::from_vec(initial(alloc, chain)?);
    let takes = takes_of(alloc, chain.actions.as_slice())?;
    let commands = commands_of(alloc, chain.commands.as_slice())?;
    Ok(LabelParts {
        commands,
        takes,
        initial,
    })
}

/// The code of a job.
pub fn compile(alloc: Global, job: &Job) -> Result<Code, AllocError>
    ensures { IfOk result (λ code. IsCode job.now code) }
{
    let nodes = expression_nodes(alloc, job)?;
    let parts = label_parts(alloc, &job.chain)?;
    let formulas = formulas_of(alloc, &job.path)?;
    Ok(Code {
        nodes,
        first: formulas.first,
        second: formulas.second,
        commands: parts.commands,
        takes: parts.takes,
        initial: parts.initial,
    })
}
