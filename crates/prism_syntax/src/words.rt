ghost use Rattle.std.specs.Prelude.{◌≡◌, ◌↔◌, IfSome, None, bytes_eq, length};
ghost use Rattle.std.specs.Map.{lookup};
ghost use Rattle.prism_syntax.specs.Tokens.{IsReservedWord, IsNotReserved};
ghost use Rattle.prism_syntax.specs.SpellingTables.{words_of, one_letter_words, four_letter_words, five_letter_words, middle_words, short_words, long_words};

use crate::tokens::Kind;

/// The reserved word that a text is.
pub fn word(text: &[u8]) -> Option<Kind>
    ensures found { IfSome result (λ kind. IsReservedWord text.now kind) }
    ensures none { (result ≡ None) ↔ IsNotReserved text.now }
{
    find_word(text)
}

/// The reserved word that a text is, by its length.
fn find_word(text: &[u8]) -> Option<Kind>
    ensures { result ≡ lookup (bytes_eq text.now) (words_of (length text.now)) }
{
    match text.len() {
        1 => one_letter_word(text),
        4 => four_letter_word(text),
        5 => five_letter_word(text),
        6 | 7 => middle_word(text),
        2 | 3 => short_word(text),
        _ => long_word(text),
    }
}

/// Whether a text is this word.
fn is(text: &[u8], word: &[u8]) -> bool
    ensures { result ≡ bytes_eq text.now word.now }
{
    text == word
}

/// Which of the reserved words of one letter a text is.
#[tactic(auto, unfolding(crate::specs::SpellingTables::one_letter_words))]
fn one_letter_word(text: &[u8]) -> Option<Kind>
    ensures { result ≡ lookup (bytes_eq text.now) one_letter_words }
{
    if is(text, b"A") {
        Some(Kind::A)
    } else if is(text, b"C") {
        Some(Kind::C)
    } else if is(text, b"E") {
        Some(Kind::E)
    } else if is(text, b"F") {
        Some(Kind::F)
    } else if is(text, b"G") {
        Some(Kind::G)
    } else if is(text, b"I") {
        Some(Kind::I)
    } else if is(text, b"P") {
        Some(Kind::P)
    } else if is(text, b"R") {
        Some(Kind::R)
    } else if is(text, b"S") {
        Some(Kind::S)
    } else if is(text, b"U") {
        Some(Kind::U)
    } else if is(text, b"W") {
        Some(Kind::W)
    } else if is(text, b"X") {
        Some(Kind::X)
    } else {
        None
    }
}

/// Which of the reserved words of four letters a text is.
#[tactic(auto, unfolding(crate::specs::SpellingTables::four_letter_words))]
fn four_letter_word(text: &[u8]) -> Option<Kind>
    ensures { result ≡ lookup (bytes_eq text.now) four_letter_words }
{
    if is(text, b"bool") {
        Some(Kind::Bool)
    } else if is(text, b"ctmc") {
        Some(Kind::Ctmc)
    } else if is(text, b"dtmc") {
        Some(Kind::Dtmc)
    } else if is(text, b"func") {
        Some(Kind::Func)
    } else if is(text, b"init") {
        Some(Kind::Init)
    } else if is(text, b"Pmax") {
        Some(Kind::Pmax)
    } else if is(text, b"Pmin") {
        Some(Kind::Pmin)
    } else if is(text, b"prob") {
        Some(Kind::Prob)
    } else if is(text, b"rate") {
        Some(Kind::Rate)
    } else if is(text, b"Rmax") {
        Some(Kind::Rmax)
    } else if is(text, b"Rmin") {
        Some(Kind::Rmin)
    } else if is(text, b"true") {
        Some(Kind::True)
    } else {
        None
    }
}

/// Which of the reserved words of five letters a text is.
#[tactic(auto, unfolding(crate::specs::SpellingTables::five_letter_words))]
fn five_letter_word(text: &[u8]) -> Option<Kind>
    ensures { result ≡ lookup (bytes_eq text.now) five_letter_words }
{
    if is(text, b"clock") {
        Some(Kind::Clock)
    } else if is(text, b"const") {
        Some(Kind::Const)
    } else if is(text, b"false") {
        Some(Kind::False)
    } else if is(text, b"label") {
        Some(Kind::Label)
    } else if is(text, b"pomdp") {
        Some(Kind::Pomdp)
    } else if is(text, b"popta") {
        Some(Kind::Popta)
    } else {
        None
    }
}

/// Which of the reserved words of six and seven letters a text is.
#[tactic(auto, unfolding(crate::specs::SpellingTables::middle_words))]
fn middle_word(text: &[u8]) -> Option<Kind>
    ensures { result ≡ lookup (bytes_eq text.now) middle_words }
{
    if is(text, b"double") {
        Some(Kind::Double)
    } else if is(text, b"endinit") {
        Some(Kind::EndInit)
    } else if is(text, b"filter") {
        Some(Kind::Filter)
    } else if is(text, b"formula") {
        Some(Kind::Formula)
    } else if is(text, b"global") {
        Some(Kind::Global)
    } else if is(text, b"module") {
        Some(Kind::Module)
    } else if is(text, b"rewards") {
        Some(Kind::Rewards)
    } else if is(text, b"system") {
        Some(Kind::System)
    } else {
        None
    }
}

/// Which of the reserved words of two and three letters a text is.
#[tactic(auto, unfolding(crate::specs::SpellingTables::short_words))]
fn short_word(text: &[u8]) -> Option<Kind>
    ensures { result ≡ lookup (bytes_eq text.now) short_words }
{
    if is(text, b"int") {
        Some(Kind::Int)
    } else if is(text, b"max") {
        Some(Kind::Max)
    } else if is(text, b"mdp") {
        Some(Kind::Mdp)
    } else if is(text, b"min") {
        Some(Kind::Min)
    } else if is(text, b"of") {
        Some(Kind::Of)
    } else if is(text, b"pta") {
        Some(Kind::Pta)
    } else {
        None
    }
}

/// Which of the reserved words of eight letters and more a text is.
#[tactic(auto, unfolding(crate::specs::SpellingTables::long_words))]
fn long_word(text: &[u8]) -> Option<Kind>
    ensures { result ≡ lookup (bytes_eq text.now) long_words }
{
    if is(text, b"endinvariant") {
        Some(Kind::EndInvariant)
    } else if is(text, b"endmodule") {
        Some(Kind::EndModule)
    } else if is(text, b"endobservables") {
        Some(Kind::EndObservables)
    } else if is(text, b"endrewards") {
        Some(Kind::EndRewards)
    } else if is(text, b"endsystem") {
        Some(Kind::EndSystem)
    } else if is(text, b"invariant") {
        Some(Kind::Invariant)
    } else if is(text, b"nondeterministic") {
        Some(Kind::Nondeterministic)
    } else if is(text, b"observable") {
        Some(Kind::Observable)
    } else if is(text, b"observables") {
        Some(Kind::Observables)
    } else if is(text, b"probabilistic") {
        Some(Kind::Probabilistic)
    } else if is(text, b"stochastic") {
        Some(Kind::Stochastic)
    } else {
        None
    }
}
