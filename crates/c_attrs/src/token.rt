//! What a token is to an attribute, and those tokens of a list that mean something: all but each
//! `__extension__`. The words of attributes aren't known here.
ghost use Rattle.std.specs.Prelude.{◌≡◌, ◌≤◌, length, option_map};
ghost use Rattle.std.specs.List.{prefix_len};
ghost use Rattle.meaning_literals.specs.Integers.{integer_of};
ghost use Rattle.meaning_attributes.specs.Tokens.{constant_value, is_closing, is_extension, is_identifier_kind, is_opening, lone_number, number_at};
ghost use Rattle.c_tokens.specs.Seen.{text_of, tok_of, toks_of};
ghost use Rattle.c_attrs.specs.Seen.{significant};
ghost use Rattle.c_attrs.specs.Fronts.{first_and_rest, last_and_rest, only_token};

use c_literals::read_integer;
use c_tokens::{Names, Token};
use sparse_model::{NameId, TokenKind};

/// The spelling of an id, which is empty where the table doesn't have it.
pub(crate) fn spelling(names: &Names, id: NameId) -> &[u8]
    ensures { result.now ≡ text_of names.now id }
{
    if (id.0 as usize) < names.len() {
        names.spelling(id)
    } else {
        &[]
    }
}

/// A name or a keyword.
pub(crate) fn is_identifier(kind: TokenKind) -> bool
    ensures { result ≡ is_identifier_kind kind }
{
    matches!(kind, TokenKind::Identifier)
}

pub(crate) fn is_opening(kind: TokenKind) -> bool
    ensures { result ≡ is_opening kind }
{
    matches!(kind, TokenKind::LeftParenthesis)
}

pub(crate) fn is_closing(kind: TokenKind) -> bool
    ensures { result ≡ is_closing kind }
{
    matches!(kind, TokenKind::RightParenthesis)
}

// `__extension__`, which means nothing wherever it stands.
fn is_extension(names: &Names, token: Token) -> bool
    ensures { result ≡ is_extension (tok_of names.now token) }
{
    is_identifier(token.kind) && spelling(names, token.name) == b"__extension__".as_slice()
}

/// How many `__extension__` stand at the front.
pub(crate) fn extensions_len(names: &Names, toks: &[Token]) -> usize
    ensures count { result ≡ prefix_len is_extension (toks_of names.now toks.now) }
    ensures within { result ≤ length toks.now }
{
    let mut count: usize = 0;
    let mut rest = toks;
    'extensions: while let Some((&token, others)) = rest.split_first() {
        if !is_extension(names, token) {
            return count;
        }
        count += 1;
        rest = others;
    }
    count
}

/// The first token that means something, and those behind it.
pub(crate) fn split_first<'t>(names: &Names, toks: &'t [Token]) -> Option<(Token, &'t [Token])>
    ensures { significant names.now toks.now ≡ first_and_rest names.now result }
{
    let mut rest = toks;
    'extensions: while let Some((&token, others)) = rest.split_first() {
        if !is_extension(names, token) {
            return Some((token, others));
        }
        rest = others;
    }
    None
}

/// The last token that means something, and those before it.
pub(crate) fn split_last<'t>(names: &Names, toks: &'t [Token]) -> Option<(Token, &'t [Token])>
    ensures { significant names.now toks.now ≡ last_and_rest names.now result }
{
    let mut rest = toks;
    'extensions: while let Some((&token, others)) = rest.split_last() {
        if !is_extension(names, token) {
            return Some((token, others));
        }
        rest = others;
    }
    None
}

/// The one token that means something, if there is just one.
pub(crate) fn only_token(names: &Names, toks: &[Token]) -> Option<Token>
    ensures { option_map (tok_of names.now) result ≡ only_token (significant names.now toks.now) }
{
    let (token, behind) = split_first(names, toks)?;
    match split_first(names, behind) {
        Some(_) => None,
        None => Some(token),
    }
}

/// The value of an integer constant.
pub(crate) fn number_at(names: &Names, token: Token) -> Option<u64>
    ensures { result ≡ number_at (tok_of names.now token) }
{
    match token.kind {
        TokenKind::Number => constant_value(spelling(names, token.name)),
        _ => None,
    }
}

// The value of the integer constant that is spelled so, unless it is refused.
fn constant_value(text: &[u8]) -> Option<u64>
    ensures { result ≡ constant_value (integer_of text.now) }
{
    match read_integer(text) {
        Ok(constant) => Some(constant.bits),
        Err(_fault) => None,
    }
}

/// The value of the integer constant that the tokens are.
pub(crate) fn lone_number(names: &Names, toks: &[Token]) -> Option<u64>
    ensures { result ≡ lone_number (significant names.now toks.now) }
{
    number_at(names, only_token(names, toks)?)
}
