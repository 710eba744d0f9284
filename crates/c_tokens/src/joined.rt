// Two spellings in, and the one token that they are if they stand side by side. Where that is asked isn't known here.
ghost use Rattle.std.specs.Prelude.{◌≡◌, ◌^◌, ◌<◌, false, length, IfOk, OnErr, IfSome, IsNone};
ghost use Rattle.std.specs.Option.{option_map};
ghost use Rattle.vocabulary.specs.declared.token_kind.TokenKind.{TokenKind as Kind};
ghost use Rattle.sparse_model.specs.declared.ids.NameId.{NameId as Id};
ghost use Rattle.meaning_text.specs.Kinds.{kind_in};
ghost use Rattle.c_tokens.specs.Seen.{Extends, IsKnown, joined_text, text_of};
ghost use Rattle.c_tokens.specs.Spellings.{with_spelling};

use crate::cursor::Cursor;
use crate::front::found_token;
use crate::names::Names;
use sparse_model::{NameId, TokenKind};
use std::alloc::{AllocError, Global};

/// The length from which on a text is too long to be read.
const MAX_LENGTH: usize = 1 << 30;

/// What two tokens are where `##` joins them (C11 6.10.3.3 p3): the kind and the id of the joined
/// spelling, if that is one token, and no header name. The spelling joins the table then.
///
/// What is joined is a spelling and no line, so a backslash and a new-line in it are no splice. A
/// joined spelling of 2^30 bytes or more is want of memory.
pub fn one_token(
    alloc: Global,
    names: &mut Names,
    left: NameId,
    right: NameId,
) -> Result<Option<(TokenKind, NameId)>, AllocError>
    requires left { IsKnown names.old left }
    requires right { IsKnown names.old right }
    ensures kind { IfOk result (λ found. option_map (λ (one : Kind × Id). one.0) found
        ≡ kind_in false (joined_text names.old left right)) }
    ensures spelled { IfOk result (λ found. IfSome found
        (λ one. text_of names.new one.1 ≡ joined_text names.old left right)) }
    ensures known { IfOk result (λ found. IfSome found (λ one. IsKnown names.new one.1)) }

    // The table grows by the joined spelling, where that is one token, and by no other.
    ensures table { IfOk result (λ found. IfSome found
        (λ _. names.new ≡ with_spelling names.old (joined_text names.old left right))) }
    ensures none { IfOk result (λ found. IsNone found → names.new ≡ names.old) }
    ensures keeps { Extends names.old names.new }
    ensures err { OnErr result (names.new ≡ names.old) }
{
    let mut text = Vec::new(alloc);
    text.extend_from_slice(names.spelling(left))?;
    text.extend_from_slice(names.spelling(right))?;
    if text.len() >= MAX_LENGTH {
        return Err(AllocError);
    }
    let Some(kind) = kind_of(&text) else {
        return Ok(None);
    };
    let name = names.intern(&text)?;
    Ok(Some((kind, name)))
}

// The kind of the token that is spelled so.
fn kind_of(text: &[u8]) -> Option<TokenKind>
    requires { length text.now < 2 ^ 30 }
    ensures { result ≡ kind_in false text.now }
{
    if text.is_empty() {
        return None;
    }
    // No token has a new-line, and a cursor would read over one behind a backslash.
    if text.contains(&b'\n') {
        return None;
    }
    let (kind, count) = found_token(&Cursor::new(0, text), false)?;
    if count == text.len() {
        Some(kind)
    } else {
        None
    }
}
