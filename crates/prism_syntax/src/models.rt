use crate::commands::Command;
use crate::expressions::Expr;
use smc_num::Text;
use sqlite_items::Items;

/// The sort that a constant is declared with.
#[derive(Clone, Copy, Debug, PartialEq, Eq)]
pub enum SortWord {
    Int,
    Double,
    Bool,
}

/// A constant; without a value it has to be given one.
#[derive(Debug, Drop)]
pub struct ConstText {
    pub name: Text,
    pub sort: SortWord,
    pub value: Option<Expr>,
}

/// A formula or a label.
#[derive(Debug, Drop)]
pub struct Named {
    pub name: Text,
    pub body: Expr,
}

/// A variable, which has no range where it is of sort `bool`.
#[derive(Debug, Drop)]
pub struct Variable {
    pub name: Text,
    pub range: Option<(Expr, Expr)>,
    pub init: Option<Expr>,
}

/// A module.
#[derive(Debug, Drop)]
pub enum Module {
    Written {
        name: Text,
        vars: Items<Variable>,
        commands: Items<Command>,
    },
    /// A copy of another module, in which names are replaced.
    Renamed {
        name: Text,
        source: Text,
        /// Names with what replaces them.
        pairs: Items<(Text, Text)>,
    },
}

/// An item of a model.
#[derive(Debug, Drop)]
pub enum Item {
    Const(ConstText),
    Global(Variable),
    Formula(Named),
    Module(Module),
    Label(Named),
    /// A rewards block, which is passed over.
    Rewards,
}

/// A model as it is written. Each list is in text order.
#[derive(Debug, Drop)]
pub struct ModelText {
    pub consts: Items<ConstText>,
    pub globals: Items<Variable>,
    pub formulas: Items<Named>,
    pub modules: Items<Module>,
    pub labels: Items<Named>,
}

/// A model in which formulas and renamed modules have been replaced: its modules are all written out.
#[derive(Debug, Drop)]
pub struct FlatText {
    pub consts: Items<ConstText>,
    pub globals: Items<Variable>,
    pub formulas: Items<Named>,
    pub modules: Items<Module>,
    pub labels: Items<Named>,
}
