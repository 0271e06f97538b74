ghost use Rattle.std.specs.Prelude.{◌≡◌};
ghost use Rattle.std.specs.Option.{option_copied};
ghost use Rattle.prism_syntax.specs.Spelling.{spelling_of, is_refused};

use crate::tokens::Kind;

/// The bytes of a symbol or of a reserved word; a name or a number has no spelling of its own.
#[tactic(auto, unfolding(crate::specs::Spelling::spelling_of))]
pub fn spelling(kind: &Kind) -> Option<&'static [u8]>
    ensures { option_copied result ≡ spelling_of kind.now }
{
    match kind {
        Kind::Semicolon => Some(b";"),
        Kind::Colon => Some(b":"),
        Kind::Comma => Some(b","),
        Kind::Dots => Some(b".."),
        Kind::OpenBracket => Some(b"["),
        Kind::CloseBracket => Some(b"]"),
        Kind::Open => Some(b"("),
        Kind::Close => Some(b")"),
        Kind::Prime => Some(b"'"),
        Kind::Equal => Some(b"="),
        Kind::NotEqual => Some(b"!="),
        Kind::Less => Some(b"<"),
        Kind::LessEqual => Some(b"<="),
        Kind::Greater => Some(b">"),
        Kind::GreaterEqual => Some(b">="),
        Kind::Plus => Some(b"+"),
        Kind::Dash => Some(b"-"),
        Kind::Star => Some(b"*"),
        Kind::Slash => Some(b"/"),
        Kind::Ampersand => Some(b"&"),
        Kind::Bar => Some(b"|"),
        Kind::Bang => Some(b"!"),
        Kind::Query => Some(b"?"),
        Kind::Arrow => Some(b"->"),
        Kind::Implies => Some(b"=>"),
        Kind::Equivalent => Some(b"<=>"),
        Kind::A => Some(b"A"),
        Kind::Bool => Some(b"bool"),
        Kind::Clock => Some(b"clock"),
        Kind::Const => Some(b"const"),
        Kind::Ctmc => Some(b"ctmc"),
        Kind::C => Some(b"C"),
        Kind::Double => Some(b"double"),
        Kind::Dtmc => Some(b"dtmc"),
        Kind::E => Some(b"E"),
        Kind::EndInit => Some(b"endinit"),
        Kind::EndInvariant => Some(b"endinvariant"),
        Kind::EndModule => Some(b"endmodule"),
        Kind::EndObservables => Some(b"endobservables"),
        Kind::EndRewards => Some(b"endrewards"),
        Kind::EndSystem => Some(b"endsystem"),
        Kind::False => Some(b"false"),
        Kind::Filter => Some(b"filter"),
        Kind::Formula => Some(b"formula"),
        Kind::Func => Some(b"func"),
        Kind::F => Some(b"F"),
        Kind::Global => Some(b"global"),
        Kind::G => Some(b"G"),
        Kind::I => Some(b"I"),
        Kind::Init => Some(b"init"),
        Kind::Int => Some(b"int"),
        Kind::Invariant => Some(b"invariant"),
        Kind::Label => Some(b"label"),
        Kind::Max => Some(b"max"),
        Kind::Mdp => Some(b"mdp"),
        Kind::Min => Some(b"min"),
        Kind::Module => Some(b"module"),
        Kind::Nondeterministic => Some(b"nondeterministic"),
        Kind::Observable => Some(b"observable"),
        Kind::Observables => Some(b"observables"),
        Kind::Of => Some(b"of"),
        Kind::P => Some(b"P"),
        Kind::Pmax => Some(b"Pmax"),
        Kind::Pmin => Some(b"Pmin"),
        Kind::Pomdp => Some(b"pomdp"),
        Kind::Popta => Some(b"popta"),
        Kind::Prob => Some(b"prob"),
        Kind::Probabilistic => Some(b"probabilistic"),
        Kind::Pta => Some(b"pta"),
        Kind::R => Some(b"R"),
        Kind::Rate => Some(b"rate"),
        Kind::Rewards => Some(b"rewards"),
        Kind::Rmax => Some(b"Rmax"),
        Kind::Rmin => Some(b"Rmin"),
        Kind::S => Some(b"S"),
        Kind::Stochastic => Some(b"stochastic"),
        Kind::System => Some(b"system"),
        Kind::True => Some(b"true"),
        Kind::U => Some(b"U"),
        Kind::W => Some(b"W"),
        Kind::X => Some(b"X"),
        Kind::Name(_) | Kind::Quoted(_) | Kind::Whole(_) | Kind::Real(_) => None,
    }
}

/// Whether a reserved word is of the language but not of this profile, which refuses it by name.
#[tactic(auto, unfolding(crate::specs::Spelling::is_refused))]
pub fn is_refused(kind: &Kind) -> bool
    ensures { result ≡ is_refused kind.now }
{
    matches!(
        kind,
        Kind::A
            | Kind::C
            | Kind::E
            | Kind::I
            | Kind::R
            | Kind::S
            | Kind::W
            | Kind::Clock
            | Kind::Ctmc
            | Kind::EndInit
            | Kind::EndInvariant
            | Kind::EndObservables
            | Kind::EndSystem
            | Kind::Filter
            | Kind::Func
            | Kind::Invariant
            | Kind::Mdp
            | Kind::Nondeterministic
            | Kind::Observable
            | Kind::Observables
            | Kind::Of
            | Kind::Pmax
            | Kind::Pmin
            | Kind::Pomdp
            | Kind::Popta
            | Kind::Prob
            | Kind::Pta
            | Kind::Rate
            | Kind::Rmax
            | Kind::Rmin
            | Kind::Stochastic
            | Kind::System
    )
}
