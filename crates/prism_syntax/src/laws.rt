ghost use Rattle.std.specs.Prelude.{◌≡◌, ◌↔◌, Some};
ghost use Rattle.prism_syntax.specs.declared.tokens.Kind.{Kind};
ghost use Rattle.prism_syntax.specs.declared.expressions.Func.{Func};
ghost use Rattle.prism_syntax.specs.declared.expressions.Op.{Op};
ghost use Rattle.prism_syntax.specs.Tokens.{IsToken};
ghost use Rattle.prism_syntax.specs.Precedence.{operator, function};
ghost use Rattle.prism_syntax.specs.Inverses.{operator_token, operator_level, function_token, function_spelling};

/// The token of an operator is read as that operator, at its level.
pub fn operator_law()
    ensures { (op : Op) → operator (operator_level op) (operator_token op) ≡ Some op }
{}

/// What the token and the bytes of a function mean: that token alone is read as the function, and the
/// bytes are spelled as that token.
pub fn function_law()
    ensures token { (token : Kind) (f : Func) → (function token ≡ Some f) ↔ (token ≡ function_token f) }
    ensures spelling { (f : Func) → IsToken (function_spelling f) (Some (function_token f)) }
{}
