//! Comments, by their lengths (C11 6.4.9).
ghost use Rattle.std.specs.Prelude.{◌≡◌, ◌==◌, ◌^◌, ◌≤◌, false, IfSome};
ghost use Rattle.meaning_text.specs.Bytes.{new_line};
ghost use Rattle.meaning_text.specs.Comments.{begins_slash_and};
ghost use Rattle.meaning_text.specs.Fronts.{block_tail_length, line_length};
ghost use Rattle.c_tokens.specs.Cursor.{ahead};

use crate::cursor::Cursor;

/// The text begins with a slash and this byte, which is no new-line.
pub(crate) fn begins_slash_and(cursor: &Cursor<'_>, second: u8) -> bool
    requires { (second == new_line) ≡ false }
    ensures { result ≡ begins_slash_and second (ahead cursor.now) }
{
    cursor.byte() == b'/' && cursor.next().byte() == second
}

/// How many bytes there are before the end of the line.
pub(crate) fn line_length(start: &Cursor<'_>) -> usize
    ensures { result ≡ line_length (ahead start.now) }
{
    let mut cursor = *start;
    let mut count = 0;
    while cursor.byte() != b'\n' {
        cursor = cursor.next();
        count += 1;
    }
    count
}

/// How many bytes there are from behind `/*` to the end of the first `*/`.
pub(crate) fn block_tail_length(start: &Cursor<'_>) -> Option<usize>
    ensures length { result ≡ block_tail_length false (ahead start.now) }
    ensures bound { IfSome result (λ count. count ≤ 2 ^ 31) }
{
    let mut cursor = *start;
    let mut count = 0;
    let mut behind_star = false;
    'bytes: while let Some(byte) = cursor.peek() {
        count += 1;
        if byte == b'/' && behind_star {
            return Some(count);
        }
        behind_star = byte == b'*';
        cursor = cursor.next();
    }
    None
}
