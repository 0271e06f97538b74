ghost use Rattle.std.specs.Prelude.{◌≡◌, List, OnOk, length};
ghost use Rattle.prism_syntax.specs.declared.models.Item.{Item};
ghost use Rattle.prism_syntax.specs.Models.{Each, IsItem};
ghost use Rattle.prism_reading.specs.Reading.{Answers, Anything, Parses, Fails};
ghost use Rattle.prism_model.specs.Parts.{AreItems, IsEnd, with_last};

use crate::constants::constant;
use crate::formulas::{formula, label};
use crate::modules::module;
use crate::rewards::rewards;
use crate::variables::global;
use prism_reading::Mismatch;
use prism_syntax::{Item, Kind, ModelText, Token};
use sqlite_items::Items;
use std::alloc::{AllocError, Global};

/// The model of the items that the tokens are.
pub fn items(alloc: Global, tokens: &[Token]) -> Result<ModelText, Mismatch>
    ensures { Answers (AreItems tokens.now) (Fails (Each IsItem) IsEnd tokens.now) result }
{
    let mut model = ModelText {
        consts: Items::new(alloc),
        globals: Items::new(alloc),
        formulas: Items::new(alloc),
        modules: Items::new(alloc),
        labels: Items::new(alloc),
    };
    let mut rest = tokens;
    while !rest.is_empty() {
        let (next, after) = item(alloc, rest)?;
        add(&mut model, next)?;
        rest = after;
    }
    Ok(model)
}

/// Puts an item behind those of its kind.
fn add(model: &mut ModelText, item: Item) -> Result<(), AllocError>
    ensures { OnOk result (model.new ≡ with_last model.old item) }
{
    match item {
        Item::Const(constant) => model.consts.push(constant),
        Item::Global(variable) => model.globals.push(variable),
        Item::Formula(formula) => model.formulas.push(formula),
        Item::Module(module) => model.modules.push(module),
        Item::Label(label) => model.labels.push(label),
        Item::Rewards => Ok(()),
    }
}

/// The item that begins the tokens, and the tokens after it.
fn item<'a>(alloc: Global, tokens: &'a [Token]) -> Result<(Item, &'a [Token]), Mismatch>
    ensures { Answers
        (λ r. Parses IsItem Anything tokens.now r.0 r.1.now (length r.1.now))
        (Fails IsItem Anything tokens.now)
        result }
{
    match tokens {
        [] => Err(Mismatch::NoText { left: 0 }),
        [first, ..] => match first.kind {
            Kind::Const => {
                let (constant, rest) = constant(alloc, tokens)?;
                Ok((Item::Const(constant), rest))
            }
            Kind::Global => {
                let (variable, rest) = global(alloc, tokens)?;
                Ok((Item::Global(variable), rest))
            }
            Kind::Formula => {
                let (formula, rest) = formula(alloc, tokens)?;
                Ok((Item::Formula(formula), rest))
            }
            Kind::Module => {
                let (module, rest) = module(alloc, tokens)?;
                Ok((Item::Module(module), rest))
            }
            Kind::Label => {
                let (label, rest) = label(alloc, tokens)?;
                Ok((Item::Label(label), rest))
            }
            Kind::Rewards => {
                let rest = rewards(tokens)?;
                Ok((Item::Rewards, rest))
            }
            _ => Err(Mismatch::NoText { left: tokens.len() }),
        },
    }
}
