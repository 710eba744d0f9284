//! The punctuators and their digraphs (C11 6.4.6).
#![tactic(auto, unfolding(meaning_text::specs::Punctuators::punctuator_of, meaning_text::specs::Punctuators::punctuators, meaning_text::specs::Punctuators::plain_punctuators, meaning_text::specs::Punctuators::digraphs))]

ghost use Rattle.std.specs.Prelude.{◌≡◌, ◌<◌, ◌∷◌, [], length, IsTrue, true};
ghost use Rattle.std.specs.Option.{option_map};
ghost use Rattle.meaning_text.specs.Punctuators.{own_spelling, punctuator_of};
ghost use Rattle.meaning_text.specs.Fronts.{found_punctuator};
ghost use Rattle.c_tokens.specs.Cursor.{ahead};
ghost use Rattle.c_tokens.specs.Front.{are_shorter};

use crate::cursor::Cursor;
use sparse_model::TokenKind;

/// How a punctuator is spelled where it is no digraph; `None` for the other kinds of tokens.
#[rattlefmt::skip]
pub fn punctuator(kind: TokenKind) -> Option<&'static [u8]>
    ensures { option_map (λ spelling. spelling.now) result ≡ own_spelling kind }
{
    let spelling: &'static [u8] = match kind {
        TokenKind::LeftBracket => b"[",         TokenKind::RightBracket => b"]",
        TokenKind::LeftParenthesis => b"(",     TokenKind::RightParenthesis => b")",
        TokenKind::LeftBrace => b"{",           TokenKind::RightBrace => b"}",
        TokenKind::Dot => b".",                 TokenKind::Arrow => b"->",
        TokenKind::PlusPlus => b"++",           TokenKind::MinusMinus => b"--",
        TokenKind::Ampersand => b"&",           TokenKind::Star => b"*",
        TokenKind::Plus => b"+",                TokenKind::Minus => b"-",
        TokenKind::Tilde => b"~",               TokenKind::Exclamation => b"!",
        TokenKind::Slash => b"/",               TokenKind::Percent => b"%",
        TokenKind::ShiftLeft => b"<<",          TokenKind::ShiftRight => b">>",
        TokenKind::Less => b"<",                TokenKind::Greater => b">",
        TokenKind::LessEqual => b"<=",          TokenKind::GreaterEqual => b">=",
        TokenKind::EqualEqual => b"==",         TokenKind::NotEqual => b"!=",
        TokenKind::Caret => b"^",               TokenKind::Bar => b"|",
        TokenKind::AndAnd => b"&&",             TokenKind::OrOr => b"||",
        TokenKind::Question => b"?",            TokenKind::Colon => b":",
        TokenKind::Semicolon => b";",           TokenKind::Ellipsis => b"...",
        TokenKind::Assign => b"=",              TokenKind::StarAssign => b"*=",
        TokenKind::SlashAssign => b"/=",        TokenKind::PercentAssign => b"%=",
        TokenKind::PlusAssign => b"+=",         TokenKind::MinusAssign => b"-=",
        TokenKind::ShiftLeftAssign => b"<<=",   TokenKind::ShiftRightAssign => b">>=",
        TokenKind::AndAssign => b"&=",          TokenKind::XorAssign => b"^=",
        TokenKind::OrAssign => b"|=",           TokenKind::Comma => b",",
        TokenKind::Hash => b"#",                TokenKind::HashHash => b"##",
        TokenKind::Identifier => return None,   TokenKind::Number => return None,
        TokenKind::Character => return None,    TokenKind::String => return None,
        TokenKind::HeaderName => return None,   TokenKind::Stray => return None,
    };
    Some(spelling)
}

/// The longest punctuator with which the text begins, and how many bytes it has.
#[inline(always)]
pub(crate) fn found_punctuator(cursor: &Cursor<'_>) -> Option<(TokenKind, usize)>
    requires { 0 < length (ahead cursor.now) }
    ensures { result ≡ found_punctuator (ahead cursor.now) }
{
    let first = cursor.byte();
    if is_alone(first) {
        let kind = of_one(first)?;
        return Some((kind, 1));
    }
    let second = cursor.next();
    if is_in_two(first) {
        return longest(first, second.byte(), b'\n', b'\n');
    }
    let third = second.next();
    let fourth = third.next();
    longest(first, second.byte(), third.byte(), fourth.byte())
}

// No punctuator of two bytes begins with the byte.
fn is_alone(byte: u8) -> bool
    ensures { IsTrue result → are_shorter 2 byte ≡ true }
{
    matches!(
        byte,
        b'(' | b')' | b'[' | b']' | b'{' | b'}' | b';' | b',' | b'?' | b'~'
    )
}

// No punctuator of three bytes begins with the byte.
fn is_in_two(byte: u8) -> bool
    ensures { IsTrue result → are_shorter 3 byte ≡ true }
{
    !matches!(byte, b'.' | b'<' | b'>' | b'%')
}

// The longest with which these four bytes begin.
#[inline(always)]
fn longest(first: u8, second: u8, third: u8, fourth: u8) -> Option<(TokenKind, usize)>
    ensures { result ≡ found_punctuator (first ∷ second ∷ third ∷ fourth ∷ []) }
{
    if let Some(kind) = of_four(first, second, third, fourth) {
        return Some((kind, 4));
    }
    if let Some(kind) = of_three(first, second, third) {
        return Some((kind, 3));
    }
    if let Some(kind) = of_two(first, second) {
        return Some((kind, 2));
    }
    let kind = of_one(first)?;
    Some((kind, 1))
}

// Of four bytes, which is a digraph.
fn of_four(first: u8, second: u8, third: u8, fourth: u8) -> Option<TokenKind>
    ensures { result ≡ punctuator_of (first ∷ second ∷ third ∷ fourth ∷ []) }
{
    if first == b'%' && second == b':' && third == b'%' && fourth == b':' {
        Some(TokenKind::HashHash)
    } else {
        None
    }
}

// Of three bytes.
fn of_three(first: u8, second: u8, third: u8) -> Option<TokenKind>
    ensures { result ≡ punctuator_of (first ∷ second ∷ third ∷ []) }
{
    match first {
        b'.' if second == b'.' && third == b'.' => Some(TokenKind::Ellipsis),
        b'<' if second == b'<' && third == b'=' => Some(TokenKind::ShiftLeftAssign),
        b'>' if second == b'>' && third == b'=' => Some(TokenKind::ShiftRightAssign),
        _ => None,
    }
}

// Of two bytes, five digraphs among them.
#[rattlefmt::skip]
fn of_two(first: u8, second: u8) -> Option<TokenKind>
    ensures { result ≡ punctuator_of (first ∷ second ∷ []) }
{
    let kind = match first {
        b'+' => match second { b'+' => TokenKind::PlusPlus, b'=' => TokenKind::PlusAssign, _ => return None },
        b'-' => match second { b'-' => TokenKind::MinusMinus, b'=' => TokenKind::MinusAssign, b'>' => TokenKind::Arrow, _ => return None },
        b'&' => match second { b'&' => TokenKind::AndAnd, b'=' => TokenKind::AndAssign, _ => return None },
        b'|' => match second { b'|' => TokenKind::OrOr, b'=' => TokenKind::OrAssign, _ => return None },
        b'*' => match second { b'=' => TokenKind::StarAssign, _ => return None },
        b'/' => match second { b'=' => TokenKind::SlashAssign, _ => return None },
        b'^' => match second { b'=' => TokenKind::XorAssign, _ => return None },
        b'!' => match second { b'=' => TokenKind::NotEqual, _ => return None },
        b'=' => match second { b'=' => TokenKind::EqualEqual, _ => return None },
        b'#' => match second { b'#' => TokenKind::HashHash, _ => return None },
        b':' => match second { b'>' => TokenKind::RightBracket, _ => return None },
        b'<' => match second {
            b'<' => TokenKind::ShiftLeft, b'=' => TokenKind::LessEqual,
            b':' => TokenKind::LeftBracket, b'%' => TokenKind::LeftBrace, _ => return None,
        },
        b'>' => match second { b'>' => TokenKind::ShiftRight, b'=' => TokenKind::GreaterEqual, _ => return None },
        b'%' => match second {
            b'=' => TokenKind::PercentAssign, b'>' => TokenKind::RightBrace, b':' => TokenKind::Hash, _ => return None,
        },
        _ => return None,
    };
    Some(kind)
}

// Of one byte.
#[rattlefmt::skip]
fn of_one(first: u8) -> Option<TokenKind>
    ensures { result ≡ punctuator_of (first ∷ []) }
{
    let kind = match first {
        b'[' => TokenKind::LeftBracket,         b']' => TokenKind::RightBracket,
        b'(' => TokenKind::LeftParenthesis,     b')' => TokenKind::RightParenthesis,
        b'{' => TokenKind::LeftBrace,           b'}' => TokenKind::RightBrace,
        b'.' => TokenKind::Dot,                 b'&' => TokenKind::Ampersand,
        b'*' => TokenKind::Star,                b'+' => TokenKind::Plus,
        b'-' => TokenKind::Minus,               b'~' => TokenKind::Tilde,
        b'!' => TokenKind::Exclamation,         b'/' => TokenKind::Slash,
        b'%' => TokenKind::Percent,             b'<' => TokenKind::Less,
        b'>' => TokenKind::Greater,             b'^' => TokenKind::Caret,
        b'|' => TokenKind::Bar,                 b'?' => TokenKind::Question,
        b':' => TokenKind::Colon,               b';' => TokenKind::Semicolon,
        b'=' => TokenKind::Assign,              b',' => TokenKind::Comma,
        b'#' => TokenKind::Hash,                _ => return None,
    };
    Some(kind)
}
