ghost use Rattle.std.specs.Prelude.{◌≡◌, IfOk, List, ℕ, bytes_eq, count_by, map};
ghost use Rattle.indexmap.specs.IndexMap.{get};
ghost use Rattle.module_expand.specs.Renamed.{variable_names};
ghost use Rattle.module_expand.specs.Times.{AreCounted};

use crate::sources::variables;
use crate::tables::put;
use indexmap::IndexMap;
use prism_syntax::{Module, Variable};
use smc_num::Text;
use std::alloc::{AllocError, Global};
use std::marker::Model;

/// The variables of a module, with a table of how often each name stands among them. Contracts see the names.
#[derive(Debug, Drop)]
pub struct VariableNames<'a> {
    variables: &'a [Variable],
    times: IndexMap<Text, usize>,
}

impl<'a> Model for VariableNames<'a> {
    ghost Value = { List (List ℕ) };

    ghost view = { λ names. map (λ v. v.name) names.variables.now };

    ghost invariant = { λ names. AreCounted (map (λ v. v.name) names.variables.now) (get bytes_eq names.times) };
}

impl<'a> VariableNames<'a> {
    /// These variables, counted.
    pub fn new(alloc: Global, variables: &'a [Variable]) -> Result<Self, AllocError>
        ensures { IfOk result (λ names. names ≡ map (λ v. v.name) variables.now) }
    {
        let times = count_names(alloc, variables)?;
        Ok(VariableNames { variables, times })
    }

    /// The variables in text order.
    pub fn variables(&self) -> &'a [Variable]
        ensures { map (λ v. v.name) result.now ≡ self.now }
    {
        self.variables
    }

    /// How many of the variables have this name.
    pub fn times(&self, name: &Text) -> usize
        ensures { result ≡ count_by (λ other. bytes_eq other name.now) self.now }
    {
        self.times.get(name).copied().unwrap_or(0)
    }
}

/// How often each name stands among these variables.
fn count_names(alloc: Global, variables: &[Variable]) -> Result<IndexMap<Text, usize>, AllocError>
    ensures { IfOk result (λ times. AreCounted (map (λ v. v.name) variables.now) (get bytes_eq times)) }
{
    let mut times: IndexMap<Text, usize> = IndexMap::new(alloc);
    for variable in variables {
        let before = times.get(&variable.name).copied().unwrap_or(0);
        put(alloc, &mut times, &variable.name, before + 1)?;
    }
    Ok(times)
}

/// The variables of each module, as far as it is written out.
pub fn names_of_modules<'a>(
    alloc: Global,
    modules: &'a [Module],
) -> Result<Vec<VariableNames<'a>>, AllocError>
    ensures { IfOk result (λ names. names.items ≡ map variable_names modules.now) }
{
    let mut names = Vec::new(alloc);
    for item in modules {
        names.push(VariableNames::new(alloc, variables(item))?)?;
    }
    Ok(names)
}
