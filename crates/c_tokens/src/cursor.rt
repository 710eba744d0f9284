// The bytes of a file in, those of its logical text out, with their places. Tokens aren't known here.
ghost use Rattle.std.specs.Prelude.{◌≡◌, ◌+◌, ◌-◌, ◌^◌, ◌≤◌, ◌<◌, ◌++◌, length, take, drop, false, get_or, IsSome, IsNone, IfSome, IfOk, OnOk};
ghost use Rattle.meaning_text.specs.Bytes.{new_line};
ghost use Rattle.meaning_text.specs.Places.{behind_byte};
ghost use Rattle.meaning_text.specs.Logical.{bytes_of, logical_text};
ghost use Rattle.c_tokens.specs.Seen.{at_of};
ghost use Rattle.c_tokens.specs.Remaining.{begins_splice, first_of, is_plain, remaining_at};

use sparse_model::Place;
use std::alloc::AllocError;

/// A place in a text, and what is left of the text there. Splices are read over, and a missing last
/// new-line is supplied (C11 5.1.1.2 p1, phase 2), so the bytes that it gives are those of the
/// logical text.
#[derive(Clone, Copy)]
pub(crate) struct Cursor<'t> {
    // What is left of the file. It never begins with a splice.
    pub(crate) bytes: &'t [u8],
    pub(crate) place: Place,
    // The last byte that was passed is no new-line.
    pub(crate) line_is_open: bool,
    ghost settled: { begins_splice bytes.now ≡ false },
    ghost lines: { place.line + length bytes.now ≤ 2 ^ 30 },
    ghost columns: { place.column + length bytes.now ≤ 2 ^ 30 },
    ghost short: { length (bytes_of (remaining_at line_is_open place bytes.now)) ≤ 2 ^ 31 },
}

impl<'t> Cursor<'t> {
    ghost use Rattle.c_tokens.specs.Cursor.{remaining, ahead};

    /// The begin of a file with this number.
    pub(crate) fn new(file: u32, text: &'t [u8]) -> Cursor<'t>
        requires { length text.now < 2 ^ 30 }
        ensures all { remaining result ≡ logical_text file text.now }
        ensures within { length result.bytes.now ≤ length text.now }
        ensures file { result.place.file ≡ file }
    {
        let start = Place {
            file,
            line: 1,
            column: 1,
        };
        Cursor::over_splices(text, start, false)
    }

    // The cursor at these bytes, behind the splices that they begin with.
    fn over_splices(text: &'t [u8], start: Place, line_is_open: bool) -> Cursor<'t>
        requires lines { start.line + length text.now ≤ 2 ^ 30 }
        requires columns { start.column + length text.now ≤ 2 ^ 30 }
        ensures same { remaining result ≡ remaining_at line_is_open start text.now }
        ensures within { length result.bytes.now ≤ length text.now }
        ensures file { result.place.file ≡ start.file }
    {
        let mut bytes = text;
        let mut place = start;
        while let Some(rest) = bytes.strip_prefix(b"\\\n") {
            bytes = rest;
            place = behind(behind(place, b'\\'), b'\n');
        }
        Cursor {
            bytes,
            place,
            line_is_open,
        }
    }

    /// The next byte.
    pub(crate) fn peek(&self) -> Option<u8>
        ensures first { result ≡ first_of (ahead self.now) }
        ensures some { IsSome result → 0 < length (ahead self.now) }
        ensures none { IsNone result → length self.now.bytes.now ≡ 0 }
    {
        if let Some((&byte, _rest)) = self.bytes.split_first() {
            Some(byte)
        } else if self.line_is_open {
            Some(b'\n')
        } else {
            None
        }
    }

    /// The next byte, or a new-line where the text ends.
    pub(crate) fn byte(&self) -> u8
        ensures { result ≡ get_or (ahead self.now) 0 new_line }
    {
        self.peek().unwrap_or(b'\n')
    }

    /// The cursor behind the next byte.
    pub(crate) fn next(&self) -> Cursor<'t>
        ensures behind { remaining result ≡ drop 1 (remaining self.now) }
        ensures bytes { ahead result ≡ drop 1 (ahead self.now) }
        ensures fewer { length (ahead result) ≡ length (ahead self.now) - 1 }
        ensures shorter { length result.bytes.now ≤ length self.now.bytes.now - 1 }
        ensures file { result.place.file ≡ self.now.place.file }
    {
        let Some((&byte, rest)) = self.bytes.split_first() else {
            return Cursor {
                bytes: self.bytes,
                place: self.place,
                line_is_open: false,
            };
        };
        Cursor::over_splices(rest, behind(self.place, byte), byte != b'\n')
    }

    /// The cursor behind so many bytes.
    pub(crate) fn skip(&self, count: usize) -> Cursor<'t>
        ensures behind { remaining result ≡ drop count (remaining self.now) }
        ensures shorter { length result.bytes.now ≤ length self.now.bytes.now }
        ensures file { result.place.file ≡ self.now.place.file }
    {
        let mut cursor = *self;
        let mut left = count;
        while left > 0 {
            cursor = cursor.next();
            left -= 1;
        }
        cursor
    }

    /// The next so many bytes and the cursor behind them, where the file has them side by side: no
    /// splice and no new-line is among them.
    pub(crate) fn plain(&self, count: usize) -> Option<(&'t [u8], Cursor<'t>)>
        ensures bytes { IfSome result (λ found. found.0.now ≡ take count (ahead self.now)) }
        ensures behind { IfSome result (λ found. remaining found.1 ≡ drop count (remaining self.now)) }
        ensures shorter { IfSome result (λ found. length found.1.bytes.now ≤ length self.now.bytes.now - count) }
        ensures file { IfSome result (λ found. found.1.place.file ≡ self.now.place.file) }
    {
        if count == 0 || count > self.bytes.len() {
            return None;
        }
        let (front, rest) = self.bytes.split_at(count);
        if !is_plain(front) {
            return None;
        }
        let place = Place {
            column: self.place.column + count as u32,
            ..self.place
        };
        Some((front, Cursor::over_splices(rest, place, true)))
    }

    /// The cursor behind so many bytes, which are appended to the spelling.
    pub(crate) fn spell(
        &self,
        count: usize,
        spelling: &mut Vec<u8>,
    ) -> Result<Cursor<'t>, AllocError>
        ensures behind { IfOk result (λ cursor. remaining cursor ≡ drop count (remaining self.now)) }
        ensures spelled { OnOk result (spelling.new.items ≡ spelling.old.items ++ take count (ahead self.now)) }
        ensures shorter { IfOk result (λ cursor. length cursor.bytes.now ≤ length self.now.bytes.now - count) }
        ensures file { IfOk result (λ cursor. cursor.place.file ≡ self.now.place.file) }
    {
        let mut cursor = *self;
        let mut left = count;
        while left > 0 {
            let Some(byte) = cursor.peek() else {
                return Ok(cursor);
            };
            spelling.push(byte)?;
            cursor = cursor.next();
            left -= 1;
        }
        Ok(cursor)
    }
}

// Neither a backslash nor a new-line is among the bytes.
fn is_plain(bytes: &[u8]) -> bool
    ensures { result ≡ is_plain bytes.now }
{
    bytes.iter().all(|&byte| byte != b'\\' && byte != b'\n')
}

// The place behind a byte.
fn behind(place: Place, byte: u8) -> Place
    requires line { place.line < 2 ^ 30 }
    requires column { place.column < 2 ^ 30 }
    ensures at { at_of result ≡ behind_byte (at_of place) byte }
    ensures file { result.file ≡ place.file }
{
    if byte == b'\n' {
        Place {
            line: place.line + 1,
            column: 1,
            ..place
        }
    } else {
        Place {
            column: place.column + 1,
            ..place
        }
    }
}
