ghost use Rattle.std.specs.Prelude.{◌≡◌, ◌↔◌, ℕ, List, Result};
ghost use Rattle.prism_syntax.specs.declared.labels.Labels.TheVariants.{Allowed};
ghost use Rattle.prism_syntax.specs.declared.tokens.Kind.{Kind};
ghost use Rattle.prism_syntax.specs.declared.properties.Property.{Property};
ghost use Rattle.prism_syntax.specs.declared.tokens.Token.{Token};
ghost use Rattle.prism_syntax.specs.Tokens.{kinds};
ghost use Rattle.prism_syntax.specs.Properties.{IsProperty};
ghost use Rattle.prism_reading.specs.Reach.{IsPrefix};
ghost use Rattle.prism_limits.specs.declared.kinds.TextKind.TheVariants.{Property as ForProperty};
ghost use Rattle.prism_limits.specs.Arrows.{IsLaterArrow};
ghost use Rattle.prism_parser.specs.declared.fault.ParseFault.{ParseFault};
ghost use Rattle.prism_parser.specs.Outcome.{IsNoText, RanOut, Tells};
ghost use Rattle.prop_parser.specs.Begins.{BeginsProperty};
ghost use Rattle.prop_parser.specs.Properties.{HasLongProperty};

/// A list of tokens is a property with at most one tree.
pub fn one_property()
    ensures { (tokens : List Kind) (x y : Property) → IsProperty tokens x → IsProperty tokens y → x ≡ y }
{}

/// Tokens begin a property exactly where they are a prefix of one.
pub fn begins_property()
    ensures { (tokens : List Kind) → BeginsProperty tokens ↔ IsPrefix IsProperty tokens }
{}

/// A property has a chain of two or more arrows exactly where its tokens have an arrow with another one of its chain
/// before it.
pub fn property_arrow_law()
    ensures { (tokens : List Kind) (tree : Property) → IsProperty tokens tree
        → (HasLongProperty tree ↔ ((index : ℕ) × IsLaterArrow Allowed tokens index)) }
{}

/// Of the tokens of a property one answer is true at most, unless memory ran out: a tree, or the first refusal.
pub fn one_answer()
    ensures { (tokens : List Token) (a b : Result Property ParseFault)
        → Tells ForProperty (IsProperty (kinds tokens)) HasLongProperty (IsNoText IsProperty (kinds tokens)) tokens 0 a
        → Tells ForProperty (IsProperty (kinds tokens)) HasLongProperty (IsNoText IsProperty (kinds tokens)) tokens 0 b
        → ¬ RanOut a → ¬ RanOut b → a ≡ b }
{}
