//! The variables of the chain of a flat model.

ghost use Rattle.std.specs.Prelude.{◌≡◌, ℕ, Option, option_map, map, IfOk, OnOk, All};
ghost use Rattle.prism_syntax.specs.declared.models.Variable.{Variable};
ghost use Rattle.typed_trees.specs.Leaves.{shown};
ghost use Rattle.typed_trees.specs.Numbers.{constant_value};
ghost use Rattle.typecheck.specs.Parts.{made_variable};
ghost use Rattle.typecheck.specs.Limits.{IsWithin};

use crate::fitting::declared_sort;
use crate::ranges::{greatest, least, start};
use crate::refusals::shown;
use chain_model::Var;
use const_eval::Consts;
use prism_syntax::Variable;
use sqlite_items::Items;
use std::alloc::{AllocError, Global};

/// The variables of a chain, each with the number of its module.
pub fn made_variables(
    alloc: Global,
    consts: &Consts,
    variables: &[(Option<usize>, &Variable)],
) -> Result<Items<Var>, AllocError>
    ensures made { IfOk result (λ vars. vars ≡ map (made_variable (constant_value consts.now)) (map {B = Option ℕ × Variable} (λ v. (v.0, v.1.now)) variables.now)) }
    ensures within { OnOk result (All IsWithin (map (made_variable (constant_value consts.now)) (map {B = Option ℕ × Variable} (λ v. (v.0, v.1.now)) variables.now))) }
{
    let mut vars = Items::new(alloc);
    for variable in variables {
        vars.push(made_variable(alloc, consts, variable.0, variable.1)?)?;
    }
    Ok(vars)
}

/// A variable of a chain.
fn made_variable(
    alloc: Global,
    consts: &Consts,
    owner: Option<usize>,
    variable: &Variable,
) -> Result<Var, AllocError>
    ensures made { IfOk result (λ var. var ≡ made_variable (constant_value consts.now) (owner, variable.now)) }
    ensures within { IfOk result IsWithin }
{
    let name = variable.name.copy(alloc)?;
    let lo = least(alloc, consts, variable)?;
    let hi = greatest(alloc, consts, variable)?;
    let init = start(alloc, consts, variable)?;
    Ok(Var {
        name,
        owner: owner_number(owner),
        sort: declared_sort(variable),
        lo,
        hi,
        init,
    })
}

/// The number of a variable's module, where it has one.
fn owner_number(owner: Option<usize>) -> Option<u32>
    ensures { result ≡ option_map shown owner }
{
    match owner {
        Some(number) => Some(shown(number)),
        None => None,
    }
}
