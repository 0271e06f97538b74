use smc_num::{Frac, Text};

/// What a token is: one variant for each symbol and each reserved word, or a name, a quoted name or a
/// number.
#[derive(Debug, Drop, PartialEq, Eq)]
pub enum Kind {
    /// `;`
    Semicolon,
    /// `:`
    Colon,
    /// `,`
    Comma,
    /// `..`
    Dots,
    /// `[`
    OpenBracket,
    /// `]`
    CloseBracket,
    /// `(`
    Open,
    /// `)`
    Close,
    /// `'`
    Prime,
    /// `=`
    Equal,
    /// `!=`
    NotEqual,
    /// `<`
    Less,
    /// `<=`
    LessEqual,
    /// `>`
    Greater,
    /// `>=`
    GreaterEqual,
    /// `+`
    Plus,
    /// `-`
    Dash,
    /// `*`
    Star,
    /// `/`
    Slash,
    /// `&`
    Ampersand,
    /// `|`
    Bar,
    /// `!`
    Bang,
    /// `?`
    Query,
    /// `->`
    Arrow,
    /// `=>`
    Implies,
    /// `<=>`
    Equivalent,
    A,
    Bool,
    Clock,
    Const,
    Ctmc,
    C,
    Double,
    Dtmc,
    E,
    EndInit,
    EndInvariant,
    EndModule,
    EndObservables,
    EndRewards,
    EndSystem,
    False,
    Filter,
    Formula,
    Func,
    F,
    Global,
    G,
    I,
    Init,
    Int,
    Invariant,
    Label,
    Max,
    Mdp,
    Min,
    Module,
    Nondeterministic,
    Observable,
    Observables,
    Of,
    P,
    Pmax,
    Pmin,
    Pomdp,
    Popta,
    Prob,
    Probabilistic,
    Pta,
    R,
    Rate,
    Rewards,
    Rmax,
    Rmin,
    S,
    Stochastic,
    System,
    True,
    U,
    W,
    X,
    /// A name, which is no reserved word.
    Name(Text),
    /// A name or a reserved word between quotation marks, without them.
    Quoted(Text),
    /// A whole number.
    Whole(Frac),
    /// A number with a fraction or an exponent.
    Real(Frac),
}

/// A token and its place in the text.
#[derive(Debug, Drop, PartialEq, Eq)]
pub struct Token {
    pub kind: Kind,
    /// The place of its first byte.
    pub from: u32,
    /// The place after its last byte.
    pub to: u32,
}
