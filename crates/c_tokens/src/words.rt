//! Identifiers and preprocessing numbers (C11 6.4.2.1, 6.4.8), by the bytes that go on with one.
ghost use Rattle.std.specs.Prelude.{◌≡◌, ◌^◌, ◌<◌, ◌≤◌, ◌==◌, length, get_or, IsTrue, false};
ghost use Rattle.meaning_text.specs.Bytes.{backslash, is_exponent, is_nondigit, is_sign, is_word_byte};
ghost use Rattle.meaning_text.specs.Words.{begins_hexadecimal, begins_identifier, begins_number, number_goes_on, sign_behind, universal_left, universal_length, word_goes_on};
ghost use Rattle.meaning_text.specs.Fronts.{number_tail_length, word_length};
ghost use Rattle.c_tokens.specs.Cursor.{ahead};
ghost use Rattle.c_tokens.specs.Remaining.{plain_word_length};

use crate::cursor::Cursor;

/// A letter or an underscore, with which an identifier begins (6.4.2.1).
pub fn is_nondigit(byte: u8) -> bool
    ensures { result ≡ is_nondigit byte }
{
    byte.is_ascii_alphabetic() || byte == b'_'
}

/// A letter, an underscore or a digit, with which an identifier goes on (6.4.2.1).
pub fn is_word_byte(byte: u8) -> bool
    ensures { result ≡ is_word_byte byte }
{
    is_nondigit(byte) || byte.is_ascii_digit()
}

// The text begins with so many hexadecimal digits.
fn begins_hexadecimal(start: &Cursor<'_>, count: usize) -> bool
    ensures { result ≡ begins_hexadecimal count (ahead start.now) }
{
    let mut cursor = *start;
    let mut left = count;
    while left > 0 {
        if !cursor.byte().is_ascii_hexdigit() {
            return false;
        }
        cursor = cursor.next();
        left -= 1;
    }
    true
}

// The length of the universal character name with which the text begins, or 0 (6.4.3).
fn universal_length(cursor: &Cursor<'_>) -> usize
    ensures length { result ≡ universal_length (ahead cursor.now) }
    ensures bound { result ≤ 10 }
{
    if cursor.byte() != b'\\' {
        return 0;
    }
    let second = cursor.next();
    let letter = second.byte();
    let digits = second.next();
    if letter == b'u' && begins_hexadecimal(&digits, 4) {
        return 6;
    }
    if letter == b'U' && begins_hexadecimal(&digits, 8) {
        return 10;
    }
    0
}

// The byte goes on with an identifier.
fn word_goes_on(cursor: &Cursor<'_>) -> bool
    ensures goes_on { result ≡ word_goes_on (ahead cursor.now) }
    ensures some { IsTrue result → 0 < length (ahead cursor.now) }
{
    is_word_byte(cursor.byte()) || universal_length(cursor) > 0
}

/// The text begins with an identifier.
pub(crate) fn begins_identifier(cursor: &Cursor<'_>) -> bool
    ensures { result ≡ begins_identifier (ahead cursor.now) }
{
    is_nondigit(cursor.byte()) || universal_length(cursor) > 0
}

/// How many bytes go on with an identifier.
#[inline(always)]
pub(crate) fn word_length(start: &Cursor<'_>) -> usize
    ensures { result ≡ word_length (ahead start.now) }
{
    let count = plain_word_length(start.bytes);
    // Only a backslash can make more of the word, by a splice or a universal character name.
    if is_backslash(start.bytes, count) {
        let here = *start;
        long_word_length(&here)
    } else {
        count
    }
}

// A backslash is the byte of this number.
fn is_backslash(bytes: &[u8], index: usize) -> bool
    ensures { result ≡ (get_or bytes.now index 0 == backslash) }
{
    if index < bytes.len() {
        bytes[index] == b'\\'
    } else {
        false
    }
}

// How many of the bytes are letters, underscores and digits, before another one.
#[inline(always)]
fn plain_word_length(bytes: &[u8]) -> usize
    ensures length { result ≡ plain_word_length bytes.now }
    ensures within { result ≤ length bytes.now }
{
    let mut count = 0;
    while count < bytes.len() && is_word_byte(bytes[count]) {
        count += 1;
    }
    count
}

// How many bytes go on with an identifier, byte by byte.
#[inline(never)]
fn long_word_length(start: &Cursor<'_>) -> usize
    ensures { result ≡ word_length (ahead start.now) }
{
    let mut cursor = *start;
    let mut count = 0;
    while word_goes_on(&cursor) {
        cursor = cursor.next();
        count += 1;
    }
    count
}

/// The text begins with a number.
pub(crate) fn begins_number(cursor: &Cursor<'_>) -> bool
    ensures { result ≡ begins_number (ahead cursor.now) }
{
    let byte = cursor.byte();
    byte.is_ascii_digit() || (byte == b'.' && cursor.next().byte().is_ascii_digit())
}

// The byte goes on with a number.
fn number_goes_on(cursor: &Cursor<'_>, sign_may_stand: bool) -> bool
    ensures goes_on { result ≡ number_goes_on sign_may_stand (ahead cursor.now) }
    ensures some { IsTrue result → 0 < length (ahead cursor.now) }
{
    let byte = cursor.byte();
    word_goes_on(cursor) || byte == b'.' || (sign_may_stand && matches!(byte, b'+' | b'-'))
}

// How many bytes of a universal character name are left behind the byte.
fn universal_left(left: usize, cursor: &Cursor<'_>) -> usize
    ensures { result ≡ universal_left left (ahead cursor.now) }
{
    let length = universal_length(cursor);
    if length > 0 {
        length - 1
    } else {
        left.saturating_sub(1)
    }
}

// A sign may stand behind the byte.
fn sign_behind(left: usize, byte: u8) -> bool
    ensures { result ≡ sign_behind left byte }
{
    left == 0 && matches!(byte, b'e' | b'E' | b'p' | b'P')
}

/// How many bytes behind the first go on with a number.
pub(crate) fn number_tail_length(start: &Cursor<'_>) -> usize
    ensures length { result ≡ number_tail_length false 0 (ahead start.now) }
    ensures bound { result ≤ 2 ^ 31 }
{
    let mut cursor = *start;
    let mut count = 0;
    let mut sign = false;
    let mut left = 0;
    while number_goes_on(&cursor, sign) {
        sign = sign_behind(left, cursor.byte());
        left = universal_left(left, &cursor);
        cursor = cursor.next();
        count += 1;
    }
    count
}
