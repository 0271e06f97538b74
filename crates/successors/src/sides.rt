//! Right sides: what they assign in a state.

ghost use Rattle.std.specs.Prelude.{◌≡◌, ◌&&◌, ℤ, int_le, slice_get, slice_set, true, IfOk, IfSome};
ghost use Rattle.chain_model.specs.Step.{is_within};
ghost use Rattle.guard_code.specs.Means.{Means};
ghost use Rattle.successors.specs.Sides.{assigned_by, assigned_sides, IsConstant, IsSide, AreSides};
ghost use Rattle.trace_meaning.specs.Assigning.{Writes};

use chain_model::{Chain, TraceFault, Typed, Value, Var};
use guard_code::{Node, assigned_number, node_of};
use sqlite_items::Items;
use std::alloc::{AllocError, Global};

/// The right side of an assignment to a variable.
#[derive(Debug, Drop)]
pub enum Side {
    /// A constant within the variable's range.
    Constant {
        variable: u32,
        value: i64,
    },
    /// An expression, whose value may lie from `lo` to `hi`.
    Ranged {
        variable: u32,
        lo: i64,
        hi: i64,
        node: Node,
    },
}

/// The least value of a variable.
fn least(var: &Var) -> i64
    ensures { result ≡ var.now.lo }
{
    var.lo
}

/// The greatest value of a variable.
fn greatest(var: &Var) -> i64
    ensures { result ≡ var.now.hi }
{
    var.hi
}

/// The range of the variable of a number; nothing lies in that of a variable that is not there.
fn range_of(vars: &[Var], number: u32) -> (i64, i64)
    ensures { (n : ℤ) → (int_le result.0 n && int_le n result.1) ≡ is_within (slice_get vars.now number) n }
{
    match vars.get(number as usize) {
        Some(var) => (least(var), greatest(var)),
        None => (1, 0),
    }
}

/// The right side of an assignment to a variable of this range.
fn ranged(variable: u32, range: (i64, i64), node: Node) -> Side
    ensures { result ≡ Side.Ranged variable range.0 range.1 node }
{
    Side::Ranged {
        variable,
        lo: range.0,
        hi: range.1,
        node,
    }
}

/// How the value of a literal stands in a state.
fn constant_of(node: &Node) -> Option<i64>
    ensures { IfSome result (λ n. IsConstant node.now n) }
{
    match node {
        Node::Lit(Value::Bool(holds)) => Some(i64::from(*holds)),
        Node::Lit(Value::Num(number)) => Some(number.num()),
        _ => None,
    }
}

/// The variable and the constant that is assigned to it, where a right side is one within this range.
fn constant_within(variable: u32, range: (i64, i64), node: &Node) -> Option<(u32, i64)>
    ensures { IfSome result (λ set. (set.0 ≡ variable) × IsConstant node.now set.1
        × ((int_le range.0 set.1 && int_le set.1 range.1) ≡ true)) }
{
    match constant_of(node) {
        Some(value) if range.0 <= value && value <= range.1 => Some((variable, value)),
        _ => None,
    }
}

/// The right side of an assignment of a constant to a variable.
fn constant(set: (u32, i64)) -> Side
    ensures { result ≡ Side.Constant set.0 set.1 }
{
    Side::Constant {
        variable: set.0,
        value: set.1,
    }
}

/// The right side of an assignment.
fn side_of(alloc: Global, chain: &Chain, set: &(u32, Typed)) -> Result<Side, AllocError>
    ensures { IfOk result (λ side. IsSide chain.now set.now side) }
{
    let node = node_of(alloc, &set.1)?;
    let range = range_of(chain.vars.as_slice(), set.0);
    match constant_within(set.0, range, &node) {
        Some(assigned) => Ok(constant(assigned)),
        None => Ok(ranged(set.0, range, node)),
    }
}

/// The right sides of assignments, one for one.
pub fn sides(alloc: Global, chain: &Chain, sets: &[(u32, Typed)]) -> Result<Items<Side>, AllocError>
    ensures { IfOk result (λ sides. AreSides chain.now sets.now sides) }
{
    let mut sides = Items::new(alloc);
    for set in sets {
        sides.push(side_of(alloc, chain, set)?)?;
    }
    Ok(sides)
}

/// What a side assigns: a variable's number, and a value within its range.
#[inline(always)]
pub fn assigned(side: &Side, state: &[i64]) -> Result<(u32, i64), TraceFault>
    ensures { result ≡ assigned_by state.now side.now }
{
    match side {
        Side::Constant { variable, value } => Ok((*variable, *value)),
        Side::Ranged {
            variable,
            lo,
            hi,
            node,
        } => match assigned_number(node, state) {
            Ok(value) => {
                if *lo <= value && value <= *hi {
                    Ok((*variable, value))
                } else {
                    Err(TraceFault::Range { var: *variable })
                }
            }
            Err(fault) => Err(fault),
        },
    }
}

/// Writes a value of a variable.
#[inline(always)]
pub fn write(copy: &mut [i64], variable: u32, value: i64)
    ensures { copy.new ≡ slice_set copy.old variable value }
{
    if (variable as usize) < copy.len() {
        copy[variable as usize] = value;
    }
}

/// Makes assignments in a copy of the old state.
#[inline(always)]
pub fn assign(sides: &[Side], state: &[i64], copy: &mut [i64]) -> Result<(), TraceFault>
    ensures { Writes result copy.new (assigned_sides state.now copy.old sides.now) }
{
    for side in sides {
        match assigned(side, state) {
            Ok((variable, value)) => write(copy, variable, value),
            Err(fault) => return Err(fault),
        }
    }
    Ok(())
}
