//! What stands at the front of a text: white space, a comment, a token, or an opening that is never
//! closed.
ghost use Rattle.std.specs.Prelude.{◌≡◌, ◌<◌, length, drop, true, false};
ghost use Rattle.meaning_text.specs.Bytes.{is_blank};
ghost use Rattle.meaning_text.specs.Fronts.{block_front, block_tail_length, found_header_name, found_punctuator, found_stray, found_token, front_of, or_else, string_length};
ghost use Rattle.meaning_text.specs.Fronts as fronts;
ghost use Rattle.vocabulary.specs.declared.token_kind.TokenKind.TheVariants.{HeaderName};
ghost use Rattle.c_tokens.specs.Front.{front_seen, opens_mark};
ghost use Rattle.c_tokens.specs.Cursor.{ahead};

use crate::comments::{begins_slash_and, block_tail_length, line_length};
use crate::cursor::Cursor;
use crate::punctuators::found_punctuator;
use crate::quoted::{character_length, header_name_length, is_prefix_letter, string_length};
use crate::words::{
    begins_identifier, begins_number, is_nondigit, is_word_byte, number_tail_length, word_length,
};
use sparse_model::TokenKind;

/// What stands at the front of a text. A number is how many bytes are of it.
#[derive(Clone, Copy)]
pub(crate) enum Front {
    End,
    NewLine,
    Blank,
    Comment(usize),
    Token(TokenKind, usize),
    OpenComment,
    OpenLiteral,
}

/// The front of the text, where header names are tokens or not.
#[tactic(auto, unfolding(meaning_text::specs::Fronts::front_of))]
pub(crate) fn front_of(cursor: &Cursor<'_>, header_names_allowed: bool) -> Front
    ensures { front_seen result ≡ front_of header_names_allowed (ahead cursor.now) }
{
    let Some(first) = cursor.peek() else {
        return Front::End;
    };
    if first == b'\n' {
        return Front::NewLine;
    }
    if is_blank(first) {
        return Front::Blank;
    }
    if begins_slash_and(cursor, b'/') {
        return Front::Comment(line_length(cursor));
    }
    if begins_slash_and(cursor, b'*') {
        return block_comment(cursor);
    }
    match found_token(cursor, header_names_allowed) {
        Some((kind, count)) => Front::Token(kind, count),
        None => Front::OpenLiteral,
    }
}

// White space inside a line.
fn is_blank(byte: u8) -> bool
    ensures { result ≡ is_blank byte }
{
    matches!(byte, b' ' | b'\t' | b'\x0b' | b'\x0c')
}

// A comment that opens here, and how long it is, if it is closed.
fn block_comment(cursor: &Cursor<'_>) -> Front
    ensures { front_seen result ≡ block_front (block_tail_length false (drop 2 (ahead cursor.now))) }
{
    match block_tail_length(&cursor.next().next()) {
        Some(count) => Front::Comment(2 + count),
        None => Front::OpenComment,
    }
}

/// The token with which the text begins. Mostly its first byte tells which kinds it can't be of.
pub(crate) fn found_token(
    cursor: &Cursor<'_>,
    header_names_allowed: bool,
) -> Option<(TokenKind, usize)>
    requires { 0 < length (ahead cursor.now) }
    ensures { result ≡ found_token header_names_allowed (ahead cursor.now) }
{
    let first = cursor.byte();
    if is_nondigit(first) && !is_prefix_letter(first) {
        return Some((TokenKind::Identifier, word_length(cursor)));
    }
    if opens_mark(first) {
        return found_mark(cursor);
    }
    // A copy, so that the cursor of the usual ways can stay in registers.
    let here = *cursor;
    found_in_turn(&here, header_names_allowed)
}

// No token but a punctuator or a byte by itself begins with the byte.
fn opens_mark(byte: u8) -> bool
    ensures { result ≡ opens_mark byte }
{
    !is_word_byte(byte) && !matches!(byte, b'"' | b'\'' | b'<' | b'.' | b'\\')
}

// The punctuator with which the text begins, or its first byte by itself.
#[inline(always)]
fn found_mark(cursor: &Cursor<'_>) -> Option<(TokenKind, usize)>
    requires { 0 < length (ahead cursor.now) }
    ensures { result ≡ or_else (found_punctuator (ahead cursor.now)) (found_stray (ahead cursor.now)) }
{
    if let Some(found) = found_punctuator(cursor) {
        return Some(found);
    }
    stray(cursor)
}

// The token with which the text begins, where each kind is tried in turn.
#[inline(never)]
fn found_in_turn(cursor: &Cursor<'_>, header_names_allowed: bool) -> Option<(TokenKind, usize)>
    requires { 0 < length (ahead cursor.now) }
    ensures { result ≡ found_token header_names_allowed (ahead cursor.now) }
{
    let string = string_length(cursor);
    if header_names_allowed {
        if let Some(count) = header_name(cursor, string) {
            return Some((TokenKind::HeaderName, count));
        }
    }
    if let Some(count) = string {
        return Some((TokenKind::String, count));
    }
    if let Some(count) = character_length(cursor) {
        return Some((TokenKind::Character, count));
    }
    if begins_identifier(cursor) {
        return Some((TokenKind::Identifier, word_length(cursor)));
    }
    if begins_number(cursor) {
        return Some((TokenKind::Number, 1 + number_tail_length(&cursor.next())));
    }
    found_mark(cursor)
}

// The length of a header name, unless a string literal that begins here is longer.
fn header_name(cursor: &Cursor<'_>, string: Option<usize>) -> Option<usize>
    requires { string ≡ string_length (ahead cursor.now) }
    ensures { fronts.found_of HeaderName result ≡ found_header_name true (ahead cursor.now) }
{
    let name = header_name_length(cursor)?;
    match string {
        Some(count) if count > name => None,
        _ => Some(name),
    }
}

// A byte that is a token where no other token has it.
#[inline(never)]
fn stray(cursor: &Cursor<'_>) -> Option<(TokenKind, usize)>
    requires { 0 < length (ahead cursor.now) }
    ensures { result ≡ found_stray (ahead cursor.now) }
{
    let byte = cursor.byte();
    if is_blank(byte) || matches!(byte, b'\n' | b'\'' | b'"') {
        None
    } else {
        Some((TokenKind::Stray, 1))
    }
}
