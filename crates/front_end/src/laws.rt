//! Laws of the definitions in `specs/`. Each is the contract of a function that does nothing when called.

ghost use Rattle.std.specs.Prelude.{◌≡◌, ℕ, List, Result};
ghost use Rattle.chain_model.specs.declared.constants.Given.{Given};
ghost use Rattle.chain_model.specs.declared.job.Claim.{Claim};
ghost use Rattle.chain_model.specs.declared.job.Path.{Path};
ghost use Rattle.prism_syntax.specs.declared.models.FlatText.{FlatText};
ghost use Rattle.smc_report.specs.declared.reason.Reason.{Reason};
ghost use Rattle.front_end.specs.declared.models.Model.{Model};
ghost use Rattle.front_end.specs.Models.{FlatTells, ModelTells};
ghost use Rattle.front_end.specs.Properties.{PropertyTells};

/// A text of a model tells one thing at most by itself: a flat text, or one reason to refuse it.
pub fn one_flat_law()
    ensures { (text : List ℕ) (a b : Result FlatText Reason) → FlatTells text a → FlatTells text b → a ≡ b }
{}

/// A text of a model tells one thing at most with these given constants: a model, or one reason to refuse it.
pub fn one_model_law()
    ensures { (text : List ℕ) (given : List Given) (a b : Result Model Reason)
        → ModelTells text given a → ModelTells text given b → a ≡ b }
{}

/// A text of a property tells one thing at most over a model: a path formula and a claim, or one reason to refuse it.
pub fn one_property_law()
    ensures { (text : List ℕ) (model : Model) (a b : Result (Path × Claim) Reason)
        → PropertyTells text model a → PropertyTells text model b → a ≡ b }
{}
