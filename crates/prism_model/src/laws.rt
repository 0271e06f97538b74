ghost use Rattle.std.specs.Prelude.{◌≡◌, ◌↔◌, List};
ghost use Rattle.prism_syntax.specs.declared.models.ModelText.{ModelText};
ghost use Rattle.prism_syntax.specs.declared.tokens.Kind.{Kind};
ghost use Rattle.prism_syntax.specs.Models.{IsModel};
ghost use Rattle.prism_reading.specs.Reach.{IsPrefix};
ghost use Rattle.prism_model.specs.Begins.{BeginsModel};

/// A list of tokens is a model with at most one tree.
pub fn one_model()
    ensures { (tokens : List Kind) (x y : ModelText) → IsModel tokens x → IsModel tokens y → x ≡ y }
{}

/// Tokens begin a model exactly where they are a prefix of one.
pub fn begins_model()
    ensures { (tokens : List Kind) → BeginsModel tokens ↔ IsPrefix IsModel tokens }
{}
