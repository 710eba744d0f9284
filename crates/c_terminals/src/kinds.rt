// How tokens of a kind are read: a kind arrives, and what decides on the class leaves. No spelling is known here.
ghost use Rattle.std.specs.Prelude.{◌≡◌, List, ℕ};
ghost use Rattle.meaning_grammar.specs.Terminals.{reading_of};
ghost use Rattle.c_terminals.specs.Kinds.{read_by};

use vocabulary::{TokenClass, TokenKind};

/// What decides on the class of a token.
#[derive(Clone, Copy)]
pub(crate) enum Deciding {
    Spelling,
    Number,
    Character,
    String,
    /// The kind alone: the class is this.
    Kind(TokenClass),
}

/// What decides on the class of a token of this kind.
pub(crate) fn decided_by(kind: TokenKind) -> Deciding
    ensures { (text : List ℕ) → reading_of kind text ≡ read_by result text }
{
    match kind {
        TokenKind::Identifier => Deciding::Spelling,
        TokenKind::Number => Deciding::Number,
        TokenKind::Character => Deciding::Character,
        TokenKind::String => Deciding::String,
        TokenKind::LeftBracket => Deciding::Kind(TokenClass::LeftBracket),
        TokenKind::RightBracket => Deciding::Kind(TokenClass::RightBracket),
        TokenKind::LeftParenthesis => Deciding::Kind(TokenClass::LeftParenthesis),
        TokenKind::RightParenthesis => Deciding::Kind(TokenClass::RightParenthesis),
        TokenKind::LeftBrace => Deciding::Kind(TokenClass::LeftBrace),
        TokenKind::RightBrace => Deciding::Kind(TokenClass::RightBrace),
        TokenKind::Dot => Deciding::Kind(TokenClass::Dot),
        TokenKind::Arrow => Deciding::Kind(TokenClass::Arrow),
        TokenKind::PlusPlus => Deciding::Kind(TokenClass::PlusPlus),
        TokenKind::MinusMinus => Deciding::Kind(TokenClass::MinusMinus),
        TokenKind::Ampersand => Deciding::Kind(TokenClass::Ampersand),
        TokenKind::Star => Deciding::Kind(TokenClass::Star),
        TokenKind::Plus => Deciding::Kind(TokenClass::Plus),
        TokenKind::Minus => Deciding::Kind(TokenClass::Minus),
        TokenKind::Tilde => Deciding::Kind(TokenClass::Tilde),
        TokenKind::Exclamation => Deciding::Kind(TokenClass::Exclamation),
        TokenKind::Slash => Deciding::Kind(TokenClass::Slash),
        TokenKind::Percent => Deciding::Kind(TokenClass::Percent),
        TokenKind::ShiftLeft => Deciding::Kind(TokenClass::ShiftLeft),
        TokenKind::ShiftRight => Deciding::Kind(TokenClass::ShiftRight),
        TokenKind::Less => Deciding::Kind(TokenClass::Less),
        TokenKind::Greater => Deciding::Kind(TokenClass::Greater),
        TokenKind::LessEqual => Deciding::Kind(TokenClass::LessEqual),
        TokenKind::GreaterEqual => Deciding::Kind(TokenClass::GreaterEqual),
        TokenKind::EqualEqual => Deciding::Kind(TokenClass::EqualEqual),
        TokenKind::NotEqual => Deciding::Kind(TokenClass::NotEqual),
        TokenKind::Caret => Deciding::Kind(TokenClass::Caret),
        TokenKind::Bar => Deciding::Kind(TokenClass::Bar),
        TokenKind::AndAnd => Deciding::Kind(TokenClass::AndAnd),
        TokenKind::OrOr => Deciding::Kind(TokenClass::OrOr),
        TokenKind::Question => Deciding::Kind(TokenClass::Question),
        TokenKind::Colon => Deciding::Kind(TokenClass::Colon),
        TokenKind::Semicolon => Deciding::Kind(TokenClass::Semicolon),
        TokenKind::Ellipsis => Deciding::Kind(TokenClass::Ellipsis),
        TokenKind::Assign => Deciding::Kind(TokenClass::Assign),
        TokenKind::StarAssign => Deciding::Kind(TokenClass::StarAssign),
        TokenKind::SlashAssign => Deciding::Kind(TokenClass::SlashAssign),
        TokenKind::PercentAssign => Deciding::Kind(TokenClass::PercentAssign),
        TokenKind::PlusAssign => Deciding::Kind(TokenClass::PlusAssign),
        TokenKind::MinusAssign => Deciding::Kind(TokenClass::MinusAssign),
        TokenKind::ShiftLeftAssign => Deciding::Kind(TokenClass::ShiftLeftAssign),
        TokenKind::ShiftRightAssign => Deciding::Kind(TokenClass::ShiftRightAssign),
        TokenKind::AndAssign => Deciding::Kind(TokenClass::AndAssign),
        TokenKind::XorAssign => Deciding::Kind(TokenClass::XorAssign),
        TokenKind::OrAssign => Deciding::Kind(TokenClass::OrAssign),
        TokenKind::Comma => Deciding::Kind(TokenClass::Comma),
        _ => Deciding::Kind(TokenClass::OtherToken),
    }
}
