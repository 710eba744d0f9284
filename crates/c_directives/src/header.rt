//! The header that an `#include` asks for (C11 6.10.2, 6.4.7). Where it is looked for isn't known here.
ghost use Rattle.std.specs.Prelude.{◌≡◌, ◌++◌, List, ℕ, option_map, IfOk, IfSome};
ghost use Rattle.meaning_preprocessing.specs.Search.{begins_with_byte, between_ends, header_of, header_spelled, is_greater_kind, is_less_kind, is_string_kind, name_to_greater, string_header};
ghost use Rattle.c_tokens.specs.Seen.{Extends, IsKnown, text_of, tok_of, toks_of};
ghost use Rattle.c_directives.specs.Conditions.{AreKnown};
ghost use Rattle.c_directives.specs.Headers.{IsKnownHeader, header_seen};

use c_tokens::{Names, Token};
use sparse_model::{NameId, TokenKind};
use std::alloc::{AllocError, Global};

/// A header by the id of its name, as the directive gives that.
#[derive(Clone, Copy, Debug, PartialEq, Eq)]
pub enum Header {
    InQuotes(NameId),
    InAngles(NameId),
}

/// The header that a header name spells.
pub fn spelled_header(
    alloc: Global,
    names: &mut Names,
    spelled: NameId,
) -> Result<Header, AllocError>
    requires { IsKnown names.old spelled }
    ensures header { IfOk result (λ header. header_seen names.new header ≡ header_spelled (text_of names.old spelled)) }
    ensures known { IfOk result (IsKnownHeader names.new) }
    ensures keeps { Extends names.old names.new }
{
    let text = Vec::from_slice(alloc, names.spelling(spelled))?;
    let name = names.intern(between_ends(&text))?;
    if begins_with_byte(b'<', &text) {
        Ok(Header::InAngles(name))
    } else {
        Ok(Header::InQuotes(name))
    }
}

/// The header that tokens are behind expansion, if they are one (6.10.2 p4).
pub fn expanded_header(
    alloc: Global,
    names: &mut Names,
    tokens: &[Token],
) -> Result<Option<Header>, AllocError>
    requires { AreKnown names.old tokens.now }
    ensures header { IfOk result (λ found. option_map (header_seen names.new) found ≡ header_of (toks_of names.old tokens.now)) }
    ensures known { IfOk result (λ found. IfSome found (IsKnownHeader names.new)) }
    ensures keeps { Extends names.old names.new }
{
    let Some((first, others)) = tokens.split_first() else {
        return Ok(None);
    };
    if others.is_empty() {
        return string_header(alloc, names, first);
    }
    if !is_less(first.kind) {
        return Ok(None);
    }
    let Some(spelled) = name_to_greater(alloc, names, others)? else {
        return Ok(None);
    };
    let name = names.intern(&spelled)?;
    Ok(Some(Header::InAngles(name)))
}

// The header that a string literal without a prefix spells.
fn string_header(
    alloc: Global,
    names: &mut Names,
    token: &Token,
) -> Result<Option<Header>, AllocError>
    requires { IsKnown names.old token.now.name }
    ensures header { IfOk result (λ found. option_map (header_seen names.new) found ≡ string_header (tok_of names.old token.now)) }
    ensures known { IfOk result (λ found. IfSome found (IsKnownHeader names.new)) }
    ensures keeps { Extends names.old names.new }
{
    if !is_string(token.kind) {
        return Ok(None);
    }
    let text = Vec::from_slice(alloc, names.spelling(token.name))?;
    if !begins_with_byte(b'"', &text) {
        return Ok(None);
    }
    let name = names.intern(between_ends(&text))?;
    Ok(Some(Header::InQuotes(name)))
}

// The spellings up to the first `>`, where that is the last token.
fn name_to_greater(
    alloc: Global,
    names: &Names,
    tokens: &[Token],
) -> Result<Option<Vec<u8>>, AllocError>
    requires { AreKnown names.now tokens.now }
    ensures { IfOk result (λ found. option_map (λ name. name.items) found ≡ name_to_greater (toks_of names.now tokens.now)) }
{
    let mut name = Vec::new(alloc);
    let mut left = tokens;
    'tokens: while let Some((token, others)) = left.split_first() {
        if is_greater(token.kind) {
            if others.is_empty() {
                return Ok(Some(name));
            }
            return Ok(None);
        }
        name.extend_from_slice(names.spelling(token.name))?;
        left = others;
    }
    Ok(None)
}

// Without its first and its last byte.
fn between_ends(text: &[u8]) -> &[u8]
    ensures { result.now ≡ between_ends text.now }
{
    if text.len() < 2 {
        return b"";
    }
    let (_first, behind) = text.split_at(1);
    let (inner, _last) = behind.split_at(text.len() - 2);
    inner
}

pub(crate) fn begins_with_byte(byte: u8, text: &[u8]) -> bool
    ensures { result ≡ begins_with_byte byte text.now }
{
    match text.split_first() {
        Some((&first, _)) => first == byte,
        None => false,
    }
}

fn is_string(kind: TokenKind) -> bool
    ensures { result ≡ is_string_kind kind }
{
    matches!(kind, TokenKind::String)
}

fn is_less(kind: TokenKind) -> bool
    ensures { result ≡ is_less_kind kind }
{
    matches!(kind, TokenKind::Less)
}

fn is_greater(kind: TokenKind) -> bool
    ensures { result ≡ is_greater_kind kind }
{
    matches!(kind, TokenKind::Greater)
}
