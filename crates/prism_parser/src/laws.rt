ghost use Rattle.std.specs.Prelude.{◌≡◌, ◌↔◌, ℕ, List, Result};
ghost use Rattle.prism_syntax.specs.declared.labels.Labels.TheVariants.{Refused};
ghost use Rattle.prism_syntax.specs.declared.tokens.Kind.{Kind};
ghost use Rattle.prism_syntax.specs.declared.models.ModelText.{ModelText};
ghost use Rattle.prism_syntax.specs.declared.tokens.Token.{Token};
ghost use Rattle.prism_syntax.specs.Tokens.{kinds};
ghost use Rattle.prism_syntax.specs.Models.{IsModel};
ghost use Rattle.prism_limits.specs.declared.kinds.TextKind.TheVariants.{Model};
ghost use Rattle.prism_limits.specs.Arrows.{IsLaterArrow};
ghost use Rattle.prism_parser.specs.declared.fault.ParseFault.{ParseFault};
ghost use Rattle.prism_parser.specs.Models.{HasLongModel};
ghost use Rattle.prism_parser.specs.Outcome.{IsNoText, RanOut, Tells};

/// A model has a chain of two or more arrows exactly where its tokens have an arrow with another one of its chain
/// before it, outside each rewards block.
pub fn model_arrow_law()
    ensures { (tokens : List Kind) (tree : ModelText) → IsModel tokens tree
        → (HasLongModel tree ↔ ((index : ℕ) × IsLaterArrow Refused tokens index)) }
{}

/// Of the tokens of a model one answer is true at most, unless memory ran out: a tree, or the first refusal.
pub fn one_answer()
    ensures { (tokens : List Token) (a b : Result ModelText ParseFault)
        → Tells Model (IsModel (kinds tokens)) HasLongModel (IsNoText IsModel (kinds tokens)) tokens 0 a
        → Tells Model (IsModel (kinds tokens)) HasLongModel (IsNoText IsModel (kinds tokens)) tokens 0 b
        → ¬ RanOut a → ¬ RanOut b → a ≡ b }
{}
