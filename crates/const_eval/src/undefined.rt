//! Constants without a value.

ghost use Rattle.std.specs.Prelude.{◌≡◌, ◌&&◌, not, is_some, bytes_eq, None, option_map, OnOk, IfErr};
ghost use Rattle.indexmap.specs.IndexMap.{get};
ghost use Rattle.const_eval.specs.Refusals.{first_undefined, IsTold};

use crate::consts::Constant;
use crate::fault::ConstFault;
use indexmap::IndexMap;
use prism_syntax::ConstText;
use smc_num::Text;
use std::alloc::Global;

/// Refuses the first constant that has no value in the text and is given none.
pub fn refuse_undefined(
    alloc: Global,
    consts: &[ConstText],
    given: &IndexMap<Text, Constant>,
) -> Result<(), ConstFault>
    ensures none { OnOk result (first_undefined (get bytes_eq given.now) consts.now ≡ None) }
    ensures told { IfErr result (λ told. IsTold (first_undefined (get bytes_eq given.now) consts.now) ConstFault.Undefined told) }
{
    match first_undefined(consts, given) {
        Some(name) => Err(ConstFault::Undefined {
            name: name.copy(alloc).map_err(ConstFault::OutOfMemory)?,
        }),
        None => Ok(()),
    }
}

/// The first constant that has no value in the text and is given none.
fn first_undefined<'a>(
    consts: &'a [ConstText],
    given: &IndexMap<Text, Constant>,
) -> Option<&'a Text>
    ensures { option_map (λ name. name.now) result ≡ first_undefined (get bytes_eq given.now) consts.now }
{
    for constant in consts {
        if is_undefined(constant, given) {
            return Some(&constant.name);
        }
    }
    None
}

/// Whether a constant has no value in the text and is given none.
fn is_undefined(constant: &ConstText, given: &IndexMap<Text, Constant>) -> bool
    ensures { result ≡ (not (is_some constant.now.value) && not (is_some (get bytes_eq given.now constant.now.name))) }
{
    match &constant.value {
        Some(_) => false,
        None => !given.contains_key(&constant.name),
    }
}
