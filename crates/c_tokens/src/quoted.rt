//! Character constants, string literals and header names, by their lengths (C11 6.4.4.4, 6.4.5,
//! 6.4.7).
ghost use Rattle.std.specs.Prelude.{◌≡◌, ◌^◌, ◌≤◌, false, IfSome};
ghost use Rattle.meaning_text.specs.Bytes.{is_prefix_letter};
ghost use Rattle.meaning_text.specs.Fronts.{character_length, header_name_length, name_tail_length, quoted_length, quoted_tail_length, string_length};
ghost use Rattle.c_tokens.specs.Cursor.{ahead};

use crate::cursor::Cursor;

// How many bytes there are from behind an opening quotation mark to the one that closes it.
fn quoted_tail_length(start: &Cursor<'_>, quote: u8) -> Option<usize>
    ensures length { result ≡ quoted_tail_length quote false (ahead start.now) }
    ensures bound { IfSome result (λ count. count ≤ 2 ^ 31) }
{
    let mut cursor = *start;
    let mut count = 0;
    let mut escaped = false;
    'bytes: while let Some(byte) = cursor.peek() {
        if byte == b'\n' {
            return None;
        }
        count += 1;
        if byte == quote && !escaped {
            return Some(count);
        }
        escaped = byte == b'\\' && !escaped;
        cursor = cursor.next();
    }
    None
}

// The length of a text in such quotation marks.
fn quoted_length(cursor: &Cursor<'_>, quote: u8) -> Option<usize>
    ensures length { result ≡ quoted_length quote (ahead cursor.now) }
    ensures bound { IfSome result (λ count. count ≤ 2 ^ 32) }
{
    if cursor.peek() != Some(quote) {
        return None;
    }
    let count = quoted_tail_length(&cursor.next(), quote)?;
    Some(1 + count)
}

/// A prefix that is one letter.
pub(crate) fn is_prefix_letter(byte: u8) -> bool
    ensures { result ≡ is_prefix_letter byte }
{
    matches!(byte, b'L' | b'u' | b'U')
}

/// The length of the character constant with which the text begins.
pub(crate) fn character_length(cursor: &Cursor<'_>) -> Option<usize>
    ensures { result ≡ character_length (ahead cursor.now) }
{
    if is_prefix_letter(cursor.byte()) {
        let count = quoted_length(&cursor.next(), b'\'')?;
        Some(1 + count)
    } else {
        quoted_length(cursor, b'\'')
    }
}

/// The length of the string literal with which the text begins.
pub(crate) fn string_length(cursor: &Cursor<'_>) -> Option<usize>
    ensures { result ≡ string_length (ahead cursor.now) }
{
    let first = cursor.byte();
    if !is_prefix_letter(first) {
        return quoted_length(cursor, b'"');
    }
    let second = cursor.next();
    if first == b'u' && second.byte() == b'8' {
        let count = quoted_length(&second.next(), b'"')?;
        Some(2 + count)
    } else {
        let count = quoted_length(&second, b'"')?;
        Some(1 + count)
    }
}

// How many bytes there are from behind the opening of a header name to the byte that closes it.
fn name_tail_length(start: &Cursor<'_>, closing: u8) -> Option<usize>
    ensures length { result ≡ name_tail_length closing (ahead start.now) }
    ensures bound { IfSome result (λ count. count ≤ 2 ^ 31) }
{
    let mut cursor = *start;
    let mut count = 0;
    'bytes: while let Some(byte) = cursor.peek() {
        if byte == b'\n' {
            return None;
        }
        count += 1;
        if byte == closing {
            return Some(count);
        }
        cursor = cursor.next();
    }
    None
}

/// The length of the header name with which the text begins, where one may stand.
pub(crate) fn header_name_length(cursor: &Cursor<'_>) -> Option<usize>
    ensures { result ≡ header_name_length (ahead cursor.now) }
{
    let closing = match cursor.byte() {
        b'<' => b'>',
        b'"' => b'"',
        _ => return None,
    };
    let name = cursor.next();
    if name.peek() == Some(closing) {
        return None;
    }
    let count = name_tail_length(&name, closing)?;
    Some(1 + count)
}
