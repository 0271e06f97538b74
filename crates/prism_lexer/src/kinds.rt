ghost use Rattle.std.specs.Prelude.{◌≡◌, IfOk, Some};
ghost use Rattle.prism_syntax.specs.Tokens.{IsWord, IsToken};
ghost use Rattle.prism_lexer.specs.Lexemes.{HasLexeme, IsQuoted, IsReal};
ghost use Rattle.std.specs.Str.Parse.{IsNumeral};

use crate::lexeme::Lexeme;
use prism_syntax::{Kind, word};
use smc_num::{Text, read};
use std::alloc::{AllocError, Global};

/// The kind of a token of this form, or none for a number that is too wide.
pub fn kind_of(alloc: Global, form: Lexeme, bytes: &[u8]) -> Result<Option<Kind>, AllocError>
    requires { HasLexeme form bytes.now }
    ensures { IfOk result (λ kind. IsToken bytes.now kind) }
{
    match form {
        Lexeme::Word => Ok(Some(word_kind(alloc, bytes)?)),
        Lexeme::Whole => Ok(whole_kind(bytes)),
        Lexeme::Real => Ok(real_kind(bytes)),
        Lexeme::Quoted => Ok(Some(quoted_kind(alloc, bytes)?)),
        Lexeme::Symbol(kind) => Ok(Some(kind)),
    }
}

/// A reserved word, or else a name.
fn word_kind(alloc: Global, bytes: &[u8]) -> Result<Kind, AllocError>
    requires { IsWord bytes.now }
    ensures { IfOk result (λ kind. IsToken bytes.now (Some kind)) }
{
    match word(bytes) {
        Some(kind) => Ok(kind),
        None => Ok(Kind::Name(Text::from_bytes(alloc, bytes)?)),
    }
}

/// The word between the quotation marks.
fn quoted_kind(alloc: Global, bytes: &[u8]) -> Result<Kind, AllocError>
    requires { IsQuoted bytes.now }
    ensures { IfOk result (λ kind. IsToken bytes.now (Some kind)) }
{
    match bytes {
        [_, word @ .., _] => Ok(Kind::Quoted(Text::from_bytes(alloc, word)?)),
        _ => unreachable!(),
    }
}

/// A whole number, or none where it is too wide.
fn whole_kind(bytes: &[u8]) -> Option<Kind>
    requires { IsNumeral 10 bytes.now }
    ensures { IsToken bytes.now result }
{
    match read(bytes) {
        Ok(value) => Some(Kind::Whole(value)),
        Err(_) => None,
    }
}

/// A number with a fraction or an exponent, or none where it is too wide.
fn real_kind(bytes: &[u8]) -> Option<Kind>
    requires { IsReal bytes.now }
    ensures { IsToken bytes.now result }
{
    match read(bytes) {
        Ok(value) => Some(Kind::Real(value)),
        Err(_) => None,
    }
}
