// Literals in quotation marks: a spelling in, an int or bytes out. Neighbouring strings aren't known here.
ghost use Rattle.std.specs.Prelude.{◌≡◌, ◌↔◌, ℕ, Result, [], ◌∷◌, Some, Ok, Err, IfOk, IfErr, IsErrOf};
ghost use Rattle.meaning_literals.specs.Constants.{Fault, BadEscapeFault, EmptyFault, WideFault, UniversalFault};
ghost use Rattle.meaning_literals.specs.Elements.{elements_of};
ghost use Rattle.meaning_literals.specs.Quoted.{begins_with_mark, bytes_of, char_constant, char_of, content, fault_of_two, single_byte, string_of};
ghost use Rattle.c_literals.specs.Seen.{IsCharacterFault, IsElementFault, IsStringFault, Tells, byte_answer, constant_seen, fault_seen};

use crate::element::piece_at;
use crate::fault::LiteralFault;
use sparse_model::{IntConst, IntKind};
use std::alloc::Global;

/// The value of a character constant, as an int: that of its one byte, which is a signed char (C11
/// 6.4.4.4). A text without a value is told Wide where it doesn't begin with its quotation mark, as
/// behind a prefix, else Empty where nothing stands between its quotation marks, else the first of
/// Universal and BadEscape from the left. It takes no memory.
pub fn read_char(text: &[u8]) -> Result<IntConst, LiteralFault>
    ensures value { IfOk result (λ found. char_of text.now ≡ Ok (constant_seen found)) }
    ensures wide { IsErrOf result LiteralFault.Wide ↔ (char_of text.now ≡ Err WideFault) }
    ensures empty { IsErrOf result LiteralFault.Empty ↔ (char_of text.now ≡ Err EmptyFault) }
    ensures universal { IsErrOf result LiteralFault.Universal
        ↔ (char_of text.now ≡ Err UniversalFault) }
    ensures bad_escape { IsErrOf result LiteralFault.BadEscape
        ↔ (char_of text.now ≡ Err BadEscapeFault) }

    // No other fault, and never want of memory.
    ensures only { IfErr result IsCharacterFault }
{
    if !begins_with(text, b'\'') {
        return Err(LiteralFault::Wide);
    }
    match single_byte(content(text)) {
        Ok(byte) => Ok(char_constant(byte)),
        Err(fault) => Err(fault),
    }
}

/// The bytes of a string literal, without a last zero (C11 6.4.5). A text without bytes is told Wide
/// where it doesn't begin with its quotation mark, as behind a prefix, else the first of Universal and
/// BadEscape from the left. Memory tells of want of memory.
pub fn read_string(alloc: Global, text: &[u8]) -> Result<Vec<u8>, LiteralFault>
    ensures value { IfOk result (λ bytes. string_of text.now ≡ Ok bytes.items) }

    // A prefix is found before any memory is taken.
    ensures wide { IsErrOf result LiteralFault.Wide ↔ (string_of text.now ≡ Err WideFault) }
    ensures universal { IsErrOf result LiteralFault.Universal
        → string_of text.now ≡ Err UniversalFault }
    ensures bad_escape { IsErrOf result LiteralFault.BadEscape
        → string_of text.now ≡ Err BadEscapeFault }

    // No other fault but want of memory.
    ensures only { IfErr result IsStringFault }
{
    if !begins_with(text, b'"') {
        return Err(LiteralFault::Wide);
    }
    read_content(alloc, content(text))
}

// The bytes of the elements of which the text is made.
fn read_content(alloc: Global, text: &[u8]) -> Result<Vec<u8>, LiteralFault>
    ensures value { IfOk result (λ bytes. bytes_of (elements_of text.now) ≡ Ok bytes.items) }
    ensures fault { IfErr result (Tells (bytes_of (elements_of text.now))) }
    ensures only { IfErr result IsElementFault }
{
    let mut bytes = Vec::new(alloc);
    let mut rest = text;
    'elements: while let Some((&byte, others)) = rest.split_first() {
        let piece = piece_at(byte, others);
        match piece.byte {
            Ok(byte) => bytes.push(byte)?,
            Err(fault) => return Err(fault),
        }
        rest = &others[piece.further..];
    }
    Ok(bytes)
}

fn begins_with(text: &[u8], mark: u8) -> bool
    ensures { result ≡ begins_with_mark (mark ∷ []) text.now }
{
    match text.first() {
        Some(&byte) => byte == mark,
        None => false,
    }
}

// What stands between the first byte and the last one.
fn content(text: &[u8]) -> &[u8]
    ensures { result.now ≡ content text.now }
{
    if text.len() < 2 {
        &[]
    } else {
        &text[1..text.len() - 1]
    }
}

// The one byte of which the text is made.
fn single_byte(text: &[u8]) -> Result<u8, LiteralFault>
    ensures { byte_answer result ≡ Some (single_byte (elements_of text.now)) }
{
    let Some((&byte, others)) = text.split_first() else {
        return Err(LiteralFault::Empty);
    };
    let first = piece_at(byte, others);
    match others[first.further..].split_first() {
        None => first.byte,
        Some((&byte, others)) => Err(fault_of_two(first.byte, piece_at(byte, others).byte)),
    }
}

// The fault of the first byte, or what is found at the second.
fn fault_of_two(first: Result<u8, LiteralFault>, second: Result<u8, LiteralFault>) -> LiteralFault
    ensures { (a b : Result ℕ Fault) → byte_answer first ≡ Some a → byte_answer second ≡ Some b
        → fault_seen result ≡ Some (fault_of_two a b) }
{
    match (first, second) {
        (Err(fault), _) => fault,
        (Ok(_), Err(fault)) => fault,
        (Ok(_), Ok(_)) => LiteralFault::BadEscape,
    }
}

// An int with the value that the byte has as a char (6.4.4.4 p10).
fn char_constant(byte: u8) -> IntConst
    ensures { constant_seen result ≡ char_constant byte }
{
    let bits = if byte <= 127 {
        u64::from(byte)
    } else {
        u64::from(byte) + (u64::MAX - 255)
    };
    IntConst {
        kind: IntKind::Int,
        bits,
    }
}
