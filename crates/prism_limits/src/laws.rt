ghost use Rattle.std.specs.Prelude.{◌≡◌, ◌↔◌, ℕ, List};
ghost use Rattle.prism_syntax.specs.declared.labels.Labels.{Labels};
ghost use Rattle.prism_syntax.specs.declared.tokens.Kind.{Kind};
ghost use Rattle.prism_syntax.specs.declared.expressions.Expr.{Expr};
ghost use Rattle.prism_syntax.specs.declared.precedence.Precedence.TheVariants as rule;
ghost use Rattle.prism_syntax.specs.Expressions.{Derives};
ghost use Rattle.prism_limits.specs.Places.{IsFirst};
ghost use Rattle.prism_limits.specs.Arrows.{IsLaterArrow, HasLongChain};
ghost use Rattle.prism_limits.specs.Limits.{Limit, IsPast};

/// At most one token is the first that is past a limit.
pub fn one_first()
    ensures { (limit : Limit) (tokens : List Kind) (a b : ℕ) → IsFirst (IsPast limit tokens) a → IsFirst (IsPast limit tokens) b → a ≡ b }
{}

/// A tree has a chain of two or more arrows exactly where its tokens have an arrow with another one of its chain
/// before it.
pub fn arrow_law()
    ensures { (labels : Labels) (tokens : List Kind) (tree : Expr) → Derives labels rule.Conditional tokens tree
        → (HasLongChain tree ↔ ((index : ℕ) × IsLaterArrow labels tokens index)) }
{}
