//! Laws of the definitions in `specs/`. Each is the contract of a function that does nothing when called.

ghost use Rattle.std.specs.Prelude.{◌≡◌, List};
ghost use Rattle.chain_model.specs.declared.chain.Chain.{Chain};
ghost use Rattle.chain_model.specs.declared.job.Claim.{Claim};
ghost use Rattle.chain_model.specs.declared.job.Path.{Path};
ghost use Rattle.prism_syntax.specs.declared.models.FlatText.{FlatText};
ghost use Rattle.prism_syntax.specs.declared.properties.Property.{Property};
ghost use Rattle.prism_names.specs.First.{Name};
ghost use Rattle.const_eval.specs.declared.consts.Constant.{Constant};
ghost use Rattle.typecheck.specs.declared.fault.TypeFault.{TypeFault};
ghost use Rattle.typecheck.specs.Chains.{IsChainOf};
ghost use Rattle.typecheck.specs.ModelRefusals.{IsRefused};
ghost use Rattle.typecheck.specs.Paths.{IsPathOf};
ghost use Rattle.typecheck.specs.PathRefusals.{IsRefusedProperty};

/// A flat model with its constants has one chain at most.
pub fn one_chain()
    ensures { (flat : FlatText) (consts : List (Name × Constant)) (chain other : Chain)
        → IsChainOf flat consts chain → IsChainOf flat consts other → chain ≡ other }
{}

/// A flat model with its constants is refused with one fault at most.
pub fn one_model_refusal()
    ensures { (flat : FlatText) (consts : List (Name × Constant)) (f g : TypeFault)
        → IsRefused flat consts f → IsRefused flat consts g → f ≡ g }
{}

/// A property over a chain and its constants has one path formula and one claim at most.
pub fn one_path()
    ensures { (consts : List (Name × Constant)) (chain : Chain) (property : Property) (path other : Path) (claim more : Claim)
        → IsPathOf consts chain property path claim → IsPathOf consts chain property other more → (path ≡ other) × (claim ≡ more) }
{}

/// A property over a chain and its constants is refused with one fault at most.
pub fn one_property_refusal()
    ensures { (consts : List (Name × Constant)) (chain : Chain) (property : Property) (f g : TypeFault)
        → IsRefusedProperty consts chain property f → IsRefusedProperty consts chain property g → f ≡ g }
{}
