ghost use Rattle.std.specs.Prelude.{◌≡◌, IfOk};

use crate::commands::{Branch, Command};
use crate::copying::copy_optional;
use crate::expressions::Expr;
use smc_num::Text;
use sqlite_items::Items;
use std::alloc::{AllocError, Global};

impl Command {
    /// Another command that is the same.
    pub fn copy(&self, alloc: Global) -> Result<Command, AllocError>
        ensures { IfOk result (λ copy. copy ≡ self.now) }
    {
        Ok(Command {
            action: copy_action(alloc, &self.action)?,
            guard: self.guard.copy(alloc)?,
            branches: copy_branches(alloc, self.branches.as_slice())?,
        })
    }
}

impl Branch {
    /// Another branch that is the same.
    pub fn copy(&self, alloc: Global) -> Result<Branch, AllocError>
        ensures { IfOk result (λ copy. copy ≡ self.now) }
    {
        Ok(Branch {
            weight: copy_optional(alloc, &self.weight)?,
            sets: copy_sets(alloc, self.sets.as_slice())?,
        })
    }
}

/// The same action once more, where there is one.
fn copy_action(alloc: Global, action: &Option<Text>) -> Result<Option<Text>, AllocError>
    ensures { IfOk result (λ copy. copy ≡ action.now) }
{
    match action {
        Some(name) => Ok(Some(name.copy(alloc)?)),
        None => Ok(None),
    }
}

/// The same branches once more.
fn copy_branches(alloc: Global, branches: &[Branch]) -> Result<Items<Branch>, AllocError>
    ensures { IfOk result (λ copies. copies ≡ branches.now) }
{
    let mut copies = Items::new(alloc);
    for branch in branches {
        copies.push(branch.copy(alloc)?)?;
    }
    Ok(copies)
}

/// The same assignments once more.
fn copy_sets(alloc: Global, sets: &[(Text, Expr)]) -> Result<Items<(Text, Expr)>, AllocError>
    ensures { IfOk result (λ copies. copies ≡ sets.now) }
{
    let mut copies = Items::new(alloc);
    for set in sets {
        copies.push((set.0.copy(alloc)?, set.1.copy(alloc)?))?;
    }
    Ok(copies)
}
