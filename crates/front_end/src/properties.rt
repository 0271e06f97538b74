//! From a property's text to its path formula over a model.

ghost use Rattle.std.specs.Prelude.{◌≡◌, Ok, Err, IfOk, IfErr, OnOk};
ghost use Rattle.chain_model.specs.Paths.{IsPath};
ghost use Rattle.module_expand.specs.declared.fault.ExpandFault.{ExpandFault};
ghost use Rattle.module_expand.specs.Listed.{AreTooLarge};
ghost use Rattle.module_expand.specs.Properties.{property_exprs};
ghost use Rattle.typecheck.specs.Paths.{IsPathOf};
ghost use Rattle.typecheck.specs.PathRefusals.{IsRefusedProperty};
ghost use Rattle.smc_report.specs.declared.reason.Reason.TheVariants as reason;
ghost use Rattle.front_end.specs.declared.models.Model.{Model};
ghost use Rattle.front_end.specs.Stops.{StopTells, IsReasonOf, IsAccepted};
ghost use Rattle.front_end.specs.Stages.{ParsesProperty};
ghost use Rattle.front_end.specs.Properties.{HasFlat, HasTree, IsQuestion, PropertyTells, flat_in};

use crate::models::Model;
use crate::stages::cut;
use crate::stop::Stop;
use chain_model::limits::MOST_PROPERTY_BYTES;
use chain_model::{Claim, Path};
use module_expand::in_property;
use prism_syntax::{Property, Token};
use prop_parser::property;
use smc_report::{Reason, Subject};
use std::alloc::Global;
use typecheck::path;

/// The path formula of a property's text over a model and what the property claims of it, or the reason to refuse the text.
pub fn read_property(alloc: Global, text: &[u8], model: &Model) -> Result<(Path, Claim), Stop>
    ensures question { IfOk result (IsQuestion text.now model.now) }
    ensures formed { IfOk result (λ question. IsPath model.now.chain.vars question.0) }
    ensures refused { IfErr result (StopTells (λ why. PropertyTells text.now model.now (Err why))) }
{
    let flat = match read_flat(alloc, text, model) {
        Ok(flat) => flat,
        Err(stop) => return Err(stop),
    };
    let answer = question(alloc, &flat, model);
    let_go(flat);
    answer
}

/// The tree of a property's text over a model, with formulas written out.
fn read_flat(alloc: Global, text: &[u8], model: &Model) -> Result<Property, Stop>
    ensures flat { IfOk result (HasFlat text.now model.now) }
    ensures refused { IfErr result (StopTells (λ why. PropertyTells text.now model.now (Err why))) }
{
    let tree = match read_tree(alloc, text) {
        Ok(tree) => tree,
        Err(stop) => return Err(stop),
    };
    let answer = flat(alloc, &tree, model);
    let_go(tree);
    answer
}

/// The tree of a property's text.
fn read_tree(alloc: Global, text: &[u8]) -> Result<Property, Stop>
    ensures tree { IfOk result (HasTree text.now) }
    ensures refused { (model : Model) → IfErr result (StopTells (λ why. PropertyTells text.now model (Err why))) }
{
    let tokens = match cut(alloc, Subject::Property, MOST_PROPERTY_BYTES, text) {
        Ok(tokens) => tokens,
        Err(stop) => return Err(stop),
    };
    tree(alloc, tokens.as_slice())
}

/// The tree of a property's tokens.
fn tree(alloc: Global, tokens: &[Token]) -> Result<Property, Stop>
    ensures tree { IfOk result (λ tree. ParsesProperty tokens.now (Ok tree)) }
    ensures refused { IfErr result (StopTells (IsReasonOf (reason.Parse Subject.Property) (λ fault. ParsesProperty tokens.now (Err fault)))) }
{
    match property(alloc, tokens) {
        Ok(tree) => Ok(tree),
        Err(fault) => Err(Stop::new(Reason::Parse(Subject::Property, fault))),
    }
}

/// The tree of a property over a model, with formulas written out.
fn flat(alloc: Global, tree: &Property, model: &Model) -> Result<Property, Stop>
    ensures flat { IfOk result (λ flat. flat ≡ flat_in model.now tree.now) }
    ensures within { IfOk result (λ flat. ¬ AreTooLarge (property_exprs flat)) }
    ensures refused { IfErr result (StopTells (λ why. (why ≡ reason.Expand Subject.Property ExpandFault.TooLarge)
        × AreTooLarge (property_exprs (flat_in model.now tree.now)))) }
{
    match in_property(alloc, tree, &model.flat) {
        Ok(flat) => Ok(flat),
        Err(fault) => Err(Stop::new(Reason::Expand(Subject::Property, fault))),
    }
}

/// The path formula and the claim of a property without formulas.
fn question(alloc: Global, flat: &Property, model: &Model) -> Result<(Path, Claim), Stop>
    ensures question { IfOk result (λ question. IsPathOf model.now.consts model.now.chain flat.now question.0 question.1) }
    ensures formed { IfOk result (λ question. IsPath model.now.chain.vars question.0) }
    ensures accepted { OnOk result (IsAccepted (IsRefusedProperty model.now.consts model.now.chain flat.now)) }
    ensures refused { IfErr result (StopTells (IsReasonOf (reason.Type Subject.Property) (IsRefusedProperty model.now.consts model.now.chain flat.now))) }
{
    match path(alloc, flat, &model.consts, &model.chain) {
        Ok(question) => Ok(question),
        Err(fault) => Err(Stop::new(Reason::Type(Subject::Property, fault))),
    }
}

/// Lets a property go, in one place, since its trees are let go node by node.
fn let_go(_property: Property) {}
