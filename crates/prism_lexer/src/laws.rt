ghost use Rattle.std.specs.Prelude.{◌≡◌, ℕ, List, Result};
ghost use Rattle.prism_syntax.specs.declared.tokens.Token.{Token};
ghost use Rattle.prism_syntax.specs.Tokens.{AreTokensOf};
ghost use Rattle.prism_syntax.specs.Outcome.{IsFaultOf};
ghost use Rattle.prism_lexer.specs.declared.fault.LexFault.{LexFault};
ghost use Rattle.prism_lexer.specs.Outcome.{Tells, IsOutOfMemory};

/// A text is cut into at most one list of tokens.
pub fn one_cut()
    ensures { (text : List ℕ) (first second : List Token)
        → AreTokensOf text first → AreTokensOf text second → first ≡ second }
{}

/// Of a text one answer is true at most, unless memory ran out: its tokens, or one fault.
pub fn one_outcome()
    ensures { (text : List ℕ) (a b : Result (List Token) LexFault) → Tells text a → Tells text b
        → ¬ IsFaultOf IsOutOfMemory a → ¬ IsFaultOf IsOutOfMemory b → a ≡ b }
{}
