ghost use Rattle.prism_syntax.specs.declared.models.ModelText.{ModelText};
ghost use Rattle.prism_syntax.specs.Tokens.{kinds};
ghost use Rattle.prism_syntax.specs.Models.{IsModel};
ghost use Rattle.prism_reading.specs.Reach.{IsPrefix, IsReach};
ghost use Rattle.prism_reading.specs.Reading.{Answers};

use crate::items::items;
use prism_reading::Mismatch;
use prism_syntax::{Kind, ModelText, Token};
use std::alloc::Global;

/// The model that the tokens are, or how many of them are left from the first wrong one on: the first with which the
/// tokens so far begin no model.
pub fn parse(alloc: Global, tokens: &[Token]) -> Result<ModelText, Mismatch>
    ensures { Answers
        (λ tree. IsModel (kinds tokens.now) tree)
        (λ left. ((tree : ModelText) → IsModel (kinds tokens.now) tree → ⊥) × IsReach (IsPrefix IsModel) (kinds tokens.now) left)
        result }
{
    match tokens {
        [] => Err(Mismatch::NoText { left: 0 }),
        [first, rest @ ..] => match first.kind {
            Kind::Dtmc => {
                let model = items(alloc, rest)?;
                Ok(model)
            }
            Kind::Probabilistic => {
                let model = items(alloc, rest)?;
                Ok(model)
            }
            _ => Err(Mismatch::NoText { left: tokens.len() }),
        },
    }
}
