//! What stands between the quotation marks of a literal.
ghost use Rattle.std.specs.Prelude.{◌≡◌, ◌+◌, ◌≤◌, length};
ghost use Rattle.meaning_literals.specs.Numbers.{number};
ghost use Rattle.meaning_literals.specs.Elements.{Escape, escape_at, hexadecimal_escape, lettered_escape, octal_escape, piece_at, simple_value, universal_name};
ghost use Rattle.c_literals.specs.Seen.{IsByte, IsPiece, base_seen};

use crate::fault::LiteralFault;
use crate::numbers::{Base, digits_len, is_digit, number};

/// An element: the byte that it is, or its fault, and how many bytes behind its first one belong to it.
#[derive(Clone, Copy, Debug, PartialEq, Eq)]
pub(crate) struct Piece {
    pub(crate) byte: Result<u8, LiteralFault>,
    pub(crate) further: usize,
}

const UNKNOWN_ESCAPE: Piece = Piece {
    byte: Err(LiteralFault::BadEscape),
    further: 1,
};

/// The element that begins with this byte, before this text.
pub(crate) fn piece_at(byte: u8, text: &[u8]) -> Piece
    ensures piece { IsPiece result (piece_at byte text.now) }
    ensures within { result.further ≤ length text.now }
{
    if byte == b'\\' {
        escape_at(text)
    } else {
        Piece {
            byte: Ok(byte),
            further: 0,
        }
    }
}

// What a backslash begins, from the byte behind it on (C11 6.4.4.4 p1).
fn escape_at(text: &[u8]) -> Piece
    ensures piece { IsPiece result (escape_at text.now) }
    ensures within { result.further ≤ length text.now }
{
    let Some((&byte, others)) = text.split_first() else {
        return Piece {
            byte: Err(LiteralFault::BadEscape),
            further: 0,
        };
    };
    if let Some(value) = simple_value(byte) {
        return Piece {
            byte: Ok(value),
            further: 1,
        };
    }
    if is_digit(Base::Octal, byte) {
        return octal_escape(text);
    }
    lettered_escape(byte, others)
}

// The value of a simple escape sequence, by the byte behind its backslash (5.2.2 p2).
fn simple_value(byte: u8) -> Option<u8>
    ensures { result ≡ simple_value byte }
{
    match byte {
        b'\'' | b'"' | b'?' | b'\\' => Some(byte),
        b'a' => Some(7),
        b'b' => Some(8),
        b'f' => Some(12),
        b'n' => Some(10),
        b'r' => Some(13),
        b't' => Some(9),
        b'v' => Some(11),
        _ => None,
    }
}

// The byte with the number that the digits write.
fn escaped(base: Base, digits: &[u8]) -> Result<u8, LiteralFault>
    ensures { IsByte result (Escape (number (base_seen base) digits.now)) }
{
    match number(base, digits) {
        Some(value) if value <= 255 => Ok(value as u8),
        _ => Err(LiteralFault::BadEscape),
    }
}

// At most three octal digits.
fn octal_escape(text: &[u8]) -> Piece
    ensures piece { IsPiece result (octal_escape text.now) }
    ensures within { result.further ≤ length text.now }
{
    let front = &text[..text.len().min(3)];
    let count = digits_len(Base::Octal, front);
    Piece {
        byte: escaped(Base::Octal, &front[..count]),
        further: count,
    }
}

// What follows `\x`: all hexadecimal digits, and at least one.
fn hexadecimal_escape(text: &[u8]) -> Piece
    ensures piece { IsPiece result (hexadecimal_escape text.now) }
    ensures within { result.further ≤ 1 + length text.now }
{
    let count = digits_len(Base::Hexadecimal, text);
    if count == 0 {
        return UNKNOWN_ESCAPE;
    }
    Piece {
        byte: escaped(Base::Hexadecimal, &text[..count]),
        further: 1 + count,
    }
}

// What follows `\u` or `\U`: so many hexadecimal digits (6.4.3).
fn universal_name(count: usize, text: &[u8]) -> Piece
    requires { count ≤ 8 }
    ensures piece { IsPiece result (universal_name count text.now) }
    ensures within { result.further ≤ 1 + length text.now }
{
    if count <= digits_len(Base::Hexadecimal, text) {
        Piece {
            byte: Err(LiteralFault::Universal),
            further: 1 + count,
        }
    } else {
        UNKNOWN_ESCAPE
    }
}

// The escape sequences with a letter, from that letter on.
fn lettered_escape(byte: u8, text: &[u8]) -> Piece
    ensures piece { IsPiece result (lettered_escape byte text.now) }
    ensures within { result.further ≤ 1 + length text.now }
{
    match byte {
        b'x' => hexadecimal_escape(text),
        b'u' => universal_name(4, text),
        b'U' => universal_name(8, text),
        _ => UNKNOWN_ESCAPE,
    }
}
