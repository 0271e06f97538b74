ghost use Rattle.std.specs.Prelude.{◌≡◌, bytes_eq, length};
ghost use Rattle.std.specs.Map.{lookup};

use chain_model::{Sort, Value};
use indexmap::IndexMap;
use smc_num::Text;
use std::marker::Model;

/// What a constant stands for.
#[derive(Clone, Copy, Debug, PartialEq, Eq)]
pub struct Constant {
    pub sort: Sort,
    pub value: Value,
}

/// The constants of a model, which contracts see as the list of their names in text order, each with what it stands for.
#[derive(Drop)]
pub struct Consts {
    known: IndexMap<Text, Constant>,
}

impl Model for Consts {
    ghost use Rattle.std.specs.Prelude.{List, ℕ};
    ghost use Rattle.const_eval.specs.declared.consts.Constant.{Constant};

    ghost Value = { List (List ℕ × Constant) };

    ghost view = { λ c. c.known.entries };
}

impl Consts {
    /// The constants of a map, in its order.
    pub(crate) fn from_map(known: IndexMap<Text, Constant>) -> Consts
        ensures { result ≡ known.entries }
    {
        Consts { known }
    }

    /// What a name stands for, where it is a constant.
    pub fn get(&self, name: &Text) -> Option<Constant>
        ensures { result ≡ lookup (bytes_eq name.now) self.now }
    {
        self.known.get(name).copied()
    }

    /// The number of constants.
    pub fn len(&self) -> usize
        ensures { result ≡ length self.now }
    {
        self.known.len()
    }
}
