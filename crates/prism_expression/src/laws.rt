ghost use Rattle.std.specs.Prelude.{◌≡◌, ◌↔◌, List};
ghost use Rattle.prism_syntax.specs.declared.expressions.Expr.{Expr};
ghost use Rattle.prism_syntax.specs.declared.labels.Labels.{Labels};
ghost use Rattle.prism_syntax.specs.declared.precedence.Precedence.{Precedence};
ghost use Rattle.prism_syntax.specs.declared.tokens.Kind.{Kind};
ghost use Rattle.prism_syntax.specs.Expressions.{Derives};
ghost use Rattle.prism_reading.specs.Reach.{IsPrefix};
ghost use Rattle.prism_expression.specs.Begins.{Begins};

/// A list of tokens has at most one tree at each level.
pub fn one_tree()
    ensures { (labels : Labels) (level : Precedence) (tokens : List Kind) (x y : Expr)
        → Derives labels level tokens x → Derives labels level tokens y → x ≡ y }
{}

/// Tokens begin a level exactly where they are a prefix of one of its texts.
pub fn begins_exactly()
    ensures { (labels : Labels) (level : Precedence) (tokens : List Kind)
        → Begins labels level tokens ↔ IsPrefix (Derives labels level) tokens }
{}
