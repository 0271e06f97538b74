ghost use Rattle.std.specs.Prelude.{◌≡◌};
ghost use Rattle.prism_syntax.specs.Precedence.{inner, is_chain, is_prefix, operator, is_sign};

use crate::expressions::Op;
use crate::tokens::Kind;

/// A level of the grammar of expressions, from the one that binds least to the one that binds most.
#[derive(Clone, Copy, Debug, PartialEq, Eq)]
pub enum Precedence {
    /// Conditionals.
    Conditional,
    /// Chains of `=>`.
    Implication,
    /// Chains of `<=>`.
    Equivalence,
    /// Chains of `|`.
    Disjunction,
    /// Chains of `&`.
    Conjunction,
    /// Operands with `!` before them.
    Negation,
    /// Chains of `=` and `!=`.
    Equality,
    /// Chains of `<`, `<=`, `>` and `>=`.
    Relation,
    /// Chains of `+` and `-`.
    Sum,
    /// Chains of `*` and `/`.
    Product,
    /// Operands with `-` before them.
    Unary,
    /// Literals, names, calls and expressions in parentheses.
    Primary,
}

impl Precedence {
    /// The level of which this level's operands are; nothing stands below a primary.
    pub fn inner(self) -> Precedence
        ensures { result ≡ inner self }
    {
        match self {
            Precedence::Conditional => Precedence::Implication,
            Precedence::Implication => Precedence::Equivalence,
            Precedence::Equivalence => Precedence::Disjunction,
            Precedence::Disjunction => Precedence::Conjunction,
            Precedence::Conjunction => Precedence::Negation,
            Precedence::Negation => Precedence::Equality,
            Precedence::Equality => Precedence::Relation,
            Precedence::Relation => Precedence::Sum,
            Precedence::Sum => Precedence::Product,
            Precedence::Product => Precedence::Unary,
            Precedence::Unary | Precedence::Primary => Precedence::Primary,
        }
    }

    /// Whether this is a level of operands with operators between them.
    pub fn is_chain(self) -> bool
        ensures { result ≡ is_chain self }
    {
        match self {
            Precedence::Conditional
            | Precedence::Negation
            | Precedence::Unary
            | Precedence::Primary => false,
            Precedence::Implication
            | Precedence::Equivalence
            | Precedence::Disjunction
            | Precedence::Conjunction
            | Precedence::Equality
            | Precedence::Relation
            | Precedence::Sum
            | Precedence::Product => true,
        }
    }

    /// Whether this is a level of one operand with signs before it.
    pub fn is_prefix(self) -> bool
        ensures { result ≡ is_prefix self }
    {
        match self {
            Precedence::Negation | Precedence::Unary => true,
            Precedence::Conditional
            | Precedence::Implication
            | Precedence::Equivalence
            | Precedence::Disjunction
            | Precedence::Conjunction
            | Precedence::Equality
            | Precedence::Relation
            | Precedence::Sum
            | Precedence::Product
            | Precedence::Primary => false,
        }
    }

    /// The operator that a token stands for between the operands of this level.
    pub fn operator(self, kind: &Kind) -> Option<Op>
        ensures { result ≡ operator self kind.now }
    {
        match (self, kind) {
            (Precedence::Implication, Kind::Implies) => Some(Op::Imp),
            (Precedence::Equivalence, Kind::Equivalent) => Some(Op::Iff),
            (Precedence::Disjunction, Kind::Bar) => Some(Op::Or),
            (Precedence::Conjunction, Kind::Ampersand) => Some(Op::And),
            (Precedence::Equality, Kind::Equal) => Some(Op::Eq),
            (Precedence::Equality, Kind::NotEqual) => Some(Op::Ne),
            (Precedence::Relation, Kind::Less) => Some(Op::Lt),
            (Precedence::Relation, Kind::LessEqual) => Some(Op::Le),
            (Precedence::Relation, Kind::Greater) => Some(Op::Gt),
            (Precedence::Relation, Kind::GreaterEqual) => Some(Op::Ge),
            (Precedence::Sum, Kind::Plus) => Some(Op::Add),
            (Precedence::Sum, Kind::Dash) => Some(Op::Sub),
            (Precedence::Product, Kind::Star) => Some(Op::Mul),
            (Precedence::Product, Kind::Slash) => Some(Op::Div),
            _ => None,
        }
    }

    /// Whether a token is the sign of this level.
    pub fn is_sign(self, kind: &Kind) -> bool
        ensures { result ≡ is_sign self kind.now }
    {
        match (self, kind) {
            (Precedence::Negation, Kind::Bang) | (Precedence::Unary, Kind::Dash) => true,
            _ => false,
        }
    }
}
