ghost use Rattle.std.proofs.Props.{props};
ghost use Rattle.chain_model.specs.Chain.{IsChain};

use crate::expressions::Typed;
use crate::values::Sort;
use smc_num::Text;
use sqlite_items::Items;

/// A variable: its name, the number of its module (a global has none), its sort, its least and its greatest value, and
/// the value that it starts with. A boolean goes from 0 to 1.
#[derive(Debug, Drop)]
pub struct Var {
    pub name: Text,
    pub owner: Option<u32>,
    pub sort: Sort,
    pub lo: i64,
    pub hi: i64,
    pub init: i64,
}

/// An action: its name, and the numbers of the modules that take part in it.
#[derive(Debug, Drop)]
pub struct Action {
    pub name: Text,
    pub takes: Items<u32>,
}

/// A branch of a command: its weight, and its assignments, each the number of a variable and a right side.
#[derive(Debug, Drop)]
pub struct Arm {
    pub weight: Typed,
    pub sets: Items<(u32, Typed)>,
}

/// A command: the number of its module, the number of its action where it is labelled, its guard and its branches.
#[derive(Debug, Drop)]
pub struct Act {
    pub module: u32,
    pub action: Option<u32>,
    pub guard: Typed,
    pub branches: Items<Arm>,
}

/// A discrete-time Markov chain, well typed and within the limits. Actions go by first appearance, commands by module
/// and place. `modules` has the modules' names, `labels` the state formulas that have names.
#[derive(Debug, Drop)]
pub struct Chain {
    pub vars: Items<Var>,
    pub actions: Items<Action>,
    pub modules: Items<Text>,
    pub commands: Items<Act>,
    pub labels: Items<(Text, Typed)>,
    ghost well_formed: { IsChain vars actions modules commands labels } by { Prim.hlevel props },
}
