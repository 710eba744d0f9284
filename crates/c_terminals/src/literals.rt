// Which literals aren't supported: a spelling arrives, and a class leaves, or an error. What else is bad in a literal is asked
// of its value, which isn't known here.
ghost use Rattle.std.specs.Prelude.{◌≡◌, IfOk, Some};
ghost use Rattle.vocabulary.specs.declared.token_class.TokenClass.TheVariants as classes;
ghost use Rattle.meaning_literals.specs.Integers.{integer_of};
ghost use Rattle.meaning_literals.specs.Quoted.{char_of, string_of};
ghost use Rattle.meaning_grammar.specs.Terminals.{character_reading, number_reading, string_reading};
ghost use Rattle.c_terminals.specs.Seen.{reading_seen};

use crate::reading::{Reading, of_class, refused};
use c_literals::{LiteralFault, read_char, read_integer, read_string};
use std::alloc::{AllocError, Global};
use vocabulary::{ErrorKind, TokenClass};

/// A number.
pub(crate) fn number_reading(text: &[u8]) -> Reading
    ensures { reading_seen result ≡ number_reading (integer_of text.now) }
{
    match read_integer(text) {
        Err(LiteralFault::Floating) => refused(ErrorKind::FloatingType),
        _ => of_class(TokenClass::Number),
    }
}

/// A character constant.
pub(crate) fn character_reading(text: &[u8]) -> Reading
    ensures { reading_seen result ≡ character_reading (char_of text.now) }
{
    match read_char(text) {
        Err(LiteralFault::Wide) => refused(ErrorKind::WideOrUtfLiteral),
        Err(LiteralFault::Universal) => refused(ErrorKind::UniversalCharacterName),
        _ => of_class(TokenClass::Character),
    }
}

/// A string literal.
pub(crate) fn string_reading(alloc: Global, text: &[u8]) -> Result<Reading, AllocError>
    ensures { IfOk result (λ reading. reading_seen reading ≡ string_reading (string_of text.now)) }
{
    match read_string(alloc, text) {
        Err(LiteralFault::Wide) => Ok(refused_string(ErrorKind::WideOrUtfLiteral)),
        Err(LiteralFault::Universal) => Ok(refused_string(ErrorKind::UniversalCharacterName)),
        Err(LiteralFault::Memory) => Err(AllocError),
        _ => Ok(of_class(TokenClass::String)),
    }
}

// A row of string literals that it ends is refused at it.
fn refused_string(error: ErrorKind) -> Reading
    ensures { result ≡ record { class = classes.RefusedString; refusal = Some error } }
{
    Reading {
        class: TokenClass::RefusedString,
        refusal: Some(error),
    }
}
