//! From a model's text to its chain.

ghost use Rattle.std.specs.Prelude.{Ok, Err, IfOk, IfErr, OnOk};
ghost use Rattle.module_expand.specs.Duplicates.{AreNamedApart};
ghost use Rattle.module_expand.specs.Flat.{IsFlat};
ghost use Rattle.module_expand.specs.Refusals as expanding;
ghost use Rattle.const_eval.specs.Constants.{AreConsts, given_to};
ghost use Rattle.const_eval.specs.Refusals as constants;
ghost use Rattle.typecheck.specs.Chains.{IsChainOf};
ghost use Rattle.typecheck.specs.ModelRefusals as typing;
ghost use Rattle.smc_report.specs.declared.reason.Reason.TheVariants as reason;
ghost use Rattle.front_end.specs.Stops.{StopTells, IsReasonOf, IsAccepted};
ghost use Rattle.front_end.specs.Stages.{ParsesModel};
ghost use Rattle.front_end.specs.Models.{HasFlat, HasTree, FlatTells, IsModelOf, IsModelOfFlat, ModelTells, RefusesFlat};

use crate::stages::cut;
use crate::stop::Stop;
use chain_model::limits::MOST_MODEL_BYTES;
use chain_model::{Chain, Given};
use const_eval::{Consts, constants};
use module_expand::expand;
use prism_parser::model;
use prism_syntax::{FlatText, ModelText, Token};
use smc_report::{Reason, Subject};
use std::alloc::Global;
use typecheck::check;

/// A model: its text with formulas and renamed modules written out, the values of its constants, and its chain.
#[derive(Drop)]
pub struct Model {
    pub flat: FlatText,
    pub consts: Consts,
    pub chain: Chain,
}

/// The model of a text with these given constants, or the reason to refuse the text.
pub fn read_model(alloc: Global, text: &[u8], given: &[Given]) -> Result<Model, Stop>
    ensures model { IfOk result (IsModelOf text.now given.now) }
    ensures refused { IfErr result (StopTells (λ reason. ModelTells text.now given.now (Err reason))) }
{
    let flat = match read_flat(alloc, text) {
        Ok(flat) => flat,
        Err(stop) => return Err(stop),
    };
    model_of(alloc, flat, given)
}

/// The model of a flat text with these given constants.
fn model_of(alloc: Global, flat: FlatText, given: &[Given]) -> Result<Model, Stop>
    requires { AreNamedApart flat }
    ensures model { IfOk result (IsModelOfFlat flat given.now) }
    ensures refused { IfErr result (StopTells (RefusesFlat flat given.now)) }
{
    let consts = match values(alloc, &flat, given) {
        Ok(consts) => consts,
        Err(stop) => return Err(stop),
    };
    let chain = match chain(alloc, &flat, &consts) {
        Ok(chain) => chain,
        Err(stop) => return Err(stop),
    };
    Ok(Model {
        flat,
        consts,
        chain,
    })
}

/// The flat text of a model's text, in which its formulas and renamed modules are written out, or the reason to refuse the
/// text.
pub fn read_flat(alloc: Global, text: &[u8]) -> Result<FlatText, Stop>
    ensures flat { IfOk result (HasFlat text.now) }
    ensures distinct { IfOk result AreNamedApart }
    ensures refused { IfErr result (StopTells (λ reason. FlatTells text.now (Err reason))) }
{
    let tree = match read_tree(alloc, text) {
        Ok(tree) => tree,
        Err(stop) => return Err(stop),
    };
    flat(alloc, &tree)
}

/// The tree of a model's text.
fn read_tree(alloc: Global, text: &[u8]) -> Result<ModelText, Stop>
    ensures tree { IfOk result (HasTree text.now) }
    ensures refused { IfErr result (StopTells (λ reason. FlatTells text.now (Err reason))) }
{
    let tokens = match cut(alloc, Subject::Model, MOST_MODEL_BYTES, text) {
        Ok(tokens) => tokens,
        Err(stop) => return Err(stop),
    };
    tree(alloc, tokens.as_slice())
}

/// The tree of a model's tokens.
fn tree(alloc: Global, tokens: &[Token]) -> Result<ModelText, Stop>
    ensures tree { IfOk result (λ tree. ParsesModel tokens.now (Ok tree)) }
    ensures refused { IfErr result (StopTells (IsReasonOf (reason.Parse Subject.Model) (λ fault. ParsesModel tokens.now (Err fault)))) }
{
    match model(alloc, tokens) {
        Ok(tree) => Ok(tree),
        Err(fault) => Err(Stop::new(Reason::Parse(Subject::Model, fault))),
    }
}

/// The flat text of a model's tree.
fn flat(alloc: Global, tree: &ModelText) -> Result<FlatText, Stop>
    ensures flat { IfOk result (IsFlat tree.now) }
    ensures accepted { OnOk result (IsAccepted (expanding.IsRefused tree.now)) }
    ensures distinct { IfOk result AreNamedApart }
    ensures refused { IfErr result (StopTells (IsReasonOf (reason.Expand Subject.Model) (expanding.IsRefused tree.now))) }
{
    match expand(alloc, tree) {
        Ok(flat) => Ok(flat),
        Err(fault) => Err(Stop::new(Reason::Expand(Subject::Model, fault))),
    }
}

/// The values of the constants of a flat text.
fn values(alloc: Global, flat: &FlatText, given: &[Given]) -> Result<Consts, Stop>
    requires { AreNamedApart flat.now }
    ensures values { IfOk result (AreConsts flat.now.consts (given_to given.now)) }
    ensures accepted { OnOk result (IsAccepted (constants.IsRefused flat.now.consts given.now)) }
    ensures refused { IfErr result (StopTells (IsReasonOf reason.Const (constants.IsRefused flat.now.consts given.now))) }
{
    match constants(alloc, flat, given) {
        Ok(consts) => Ok(consts),
        Err(fault) => Err(Stop::new(Reason::Const(fault))),
    }
}

/// The chain of a flat text and its constants.
fn chain(alloc: Global, flat: &FlatText, consts: &Consts) -> Result<Chain, Stop>
    ensures chain { IfOk result (IsChainOf flat.now consts.now) }
    ensures accepted { OnOk result (IsAccepted (typing.IsRefused flat.now consts.now)) }
    ensures refused { IfErr result (StopTells (IsReasonOf (reason.Type Subject.Model) (typing.IsRefused flat.now consts.now))) }
{
    match check(alloc, flat, consts) {
        Ok(chain) => Ok(chain),
        Err(fault) => Err(Stop::new(Reason::Type(Subject::Model, fault))),
    }
}
