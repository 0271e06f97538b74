use crate::expressions::Expr;
use smc_num::Text;
use sqlite_items::Items;

/// A command of a module.
#[derive(Debug, Drop)]
pub struct Command {
    /// The name between the square brackets.
    pub action: Option<Text>,
    pub guard: Expr,
    pub branches: Items<Branch>,
}

/// A branch of a command.
#[derive(Debug, Drop)]
pub struct Branch {
    /// A weight that is left out is 1.
    pub weight: Option<Expr>,
    /// The assigned names with their values; the update `true` assigns none.
    pub sets: Items<(Text, Expr)>,
}
