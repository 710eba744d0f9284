//! What a token is to an expression behind `#if`.
ghost use Rattle.std.specs.Prelude.{◌≡◌, ◌≢◌, ℕ, List, codes};
ghost use Rattle.std.specs.List.{list_any};
ghost use Rattle.meaning_literals.specs.Bytes.{is_one_of};
ghost use Rattle.meaning_literals.specs.Integers.{integer_of};
ghost use Rattle.meaning_literals.specs.Quoted.{char_of};
ghost use Rattle.meaning_conditions.specs.Signs.{character_sign, has_unsigned_suffix, integer_sign, sign_of, sign_of_kind};
ghost use Rattle.c_tokens.specs.Seen.{IsKnown, tok_of};
ghost use Rattle.c_conditions.specs.Seen.{sign_seen};

use crate::fault::IfNumber;
use crate::numbers::GREATEST_SIGNED;
use crate::operators::{Binary, Unary};
use c_literals::{read_char, read_integer};
use c_tokens::{Names, Token};
use sparse_model::TokenKind;

/// What a token is to an expression: an operator may stand before its operand, between two operands, or in
/// both ways.
#[derive(Clone, Copy, Debug, PartialEq, Eq)]
pub(crate) enum Sign {
    Literal(IfNumber),
    Operator(Option<Unary>, Option<Binary>),
    OpenParenthesis,
    CloseParenthesis,
    QuestionMark,
    Colon,
    /// It stands in no expression.
    Stranger,
}

/// The sign that the token is.
pub(crate) fn sign_of(names: &Names, token: Token) -> Sign
    requires { IsKnown names.now token.name }
    ensures { (index : ℕ) → sign_seen index result ≡ sign_of index (tok_of names.now token) }
{
    match token.kind {
        TokenKind::Number => integer_sign(names.spelling(token.name)),
        TokenKind::Character => character_sign(names.spelling(token.name)),
        kind => sign_of_kind(kind),
    }
}

// A token of a kind whose spelling says no more.
fn sign_of_kind(kind: TokenKind) -> Sign
    requires { (kind ≢ TokenKind.Number) × (kind ≢ TokenKind.Character) }
    ensures { (index : ℕ) (text : List ℕ) → sign_seen index result ≡ sign_of_kind index kind text }
{
    match kind {
        TokenKind::Identifier => Sign::Literal(IfNumber {
            bits: 0,
            unsigned: false,
        }),
        TokenKind::LeftParenthesis => Sign::OpenParenthesis,
        TokenKind::RightParenthesis => Sign::CloseParenthesis,
        TokenKind::Question => Sign::QuestionMark,
        TokenKind::Colon => Sign::Colon,
        TokenKind::Plus => Sign::Operator(Some(Unary::Plus), Some(Binary::Add)),
        TokenKind::Minus => Sign::Operator(Some(Unary::Negative), Some(Binary::Subtract)),
        TokenKind::Tilde => Sign::Operator(Some(Unary::Complement), None),
        TokenKind::Exclamation => Sign::Operator(Some(Unary::Not), None),
        TokenKind::Star => Sign::Operator(None, Some(Binary::Multiply)),
        TokenKind::Slash => Sign::Operator(None, Some(Binary::Divide)),
        TokenKind::Percent => Sign::Operator(None, Some(Binary::Remainder)),
        TokenKind::ShiftLeft => Sign::Operator(None, Some(Binary::LeftShift)),
        TokenKind::ShiftRight => Sign::Operator(None, Some(Binary::RightShift)),
        TokenKind::Less => Sign::Operator(None, Some(Binary::Less)),
        TokenKind::Greater => Sign::Operator(None, Some(Binary::Greater)),
        TokenKind::LessEqual => Sign::Operator(None, Some(Binary::LessEqual)),
        TokenKind::GreaterEqual => Sign::Operator(None, Some(Binary::GreaterEqual)),
        TokenKind::EqualEqual => Sign::Operator(None, Some(Binary::Equal)),
        TokenKind::NotEqual => Sign::Operator(None, Some(Binary::NotEqual)),
        TokenKind::Ampersand => Sign::Operator(None, Some(Binary::BitAnd)),
        TokenKind::Caret => Sign::Operator(None, Some(Binary::BitXor)),
        TokenKind::Bar => Sign::Operator(None, Some(Binary::BitOr)),
        TokenKind::AndAnd => Sign::Operator(None, Some(Binary::And)),
        TokenKind::OrOr => Sign::Operator(None, Some(Binary::Or)),
        _ => Sign::Stranger,
    }
}

// An integer constant, if it isn't refused.
fn integer_sign(text: &[u8]) -> Sign
    ensures { (index : ℕ) → sign_seen index result ≡ integer_sign text.now (integer_of text.now) }
{
    match read_integer(text) {
        Ok(constant) => Sign::Literal(IfNumber {
            bits: constant.bits,
            unsigned: has_unsigned_suffix(text) || constant.bits > GREATEST_SIGNED,
        }),
        Err(_) => Sign::Stranger,
    }
}

fn has_unsigned_suffix(text: &[u8]) -> bool
    ensures { result ≡ has_unsigned_suffix text.now }
{
    text.iter().any(|&byte| is_suffix_letter(byte))
}

fn is_suffix_letter(byte: u8) -> bool
    ensures { result ≡ is_one_of (codes "uU") byte }
{
    matches!(byte, b'u' | b'U')
}

// A character constant, if it isn't refused.
fn character_sign(text: &[u8]) -> Sign
    ensures { (index : ℕ) → sign_seen index result ≡ character_sign (char_of text.now) }
{
    match read_char(text) {
        Ok(constant) => Sign::Literal(IfNumber {
            bits: constant.bits,
            unsigned: false,
        }),
        Err(_) => Sign::Stranger,
    }
}
