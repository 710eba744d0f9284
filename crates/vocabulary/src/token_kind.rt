// The kinds of tokens.

/// The kinds of tokens (C11 6.4). A digraph is of the kind of the punctuator that it stands for.
#[derive(Clone, Copy, Debug, PartialEq, Eq)]
pub enum TokenKind {
    /// A name or a keyword (6.4.2.1, 6.4.1).
    Identifier,
    /// A preprocessing number (6.4.8).
    Number,
    /// A character constant, with its prefix (6.4.4.4).
    Character,
    /// A string literal, with its prefix (6.4.5).
    String,
    /// A header name, which exists directly behind `#include` alone (6.4.7).
    HeaderName,
    /// `[`, also spelled `<:`.
    LeftBracket,
    /// `]`, also spelled `:>`.
    RightBracket,
    /// `(`.
    LeftParenthesis,
    /// `)`.
    RightParenthesis,
    /// `{`, also spelled `<%`.
    LeftBrace,
    /// `}`, also spelled `%>`.
    RightBrace,
    /// `.`.
    Dot,
    /// `->`.
    Arrow,
    /// `++`.
    PlusPlus,
    /// `--`.
    MinusMinus,
    /// `&`.
    Ampersand,
    /// `*`.
    Star,
    /// `+`.
    Plus,
    /// `-`.
    Minus,
    /// `~`.
    Tilde,
    /// `!`.
    Exclamation,
    /// `/`.
    Slash,
    /// `%`.
    Percent,
    /// `<<`.
    ShiftLeft,
    /// `>>`.
    ShiftRight,
    /// `<`.
    Less,
    /// `>`.
    Greater,
    /// `<=`.
    LessEqual,
    /// `>=`.
    GreaterEqual,
    /// `==`.
    EqualEqual,
    /// `!=`.
    NotEqual,
    /// `^`.
    Caret,
    /// `|`.
    Bar,
    /// `&&`.
    AndAnd,
    /// `||`.
    OrOr,
    /// `?`.
    Question,
    /// `:`.
    Colon,
    /// `;`.
    Semicolon,
    /// `...`.
    Ellipsis,
    /// `=`.
    Assign,
    /// `*=`.
    StarAssign,
    /// `/=`.
    SlashAssign,
    /// `%=`.
    PercentAssign,
    /// `+=`.
    PlusAssign,
    /// `-=`.
    MinusAssign,
    /// `<<=`.
    ShiftLeftAssign,
    /// `>>=`.
    ShiftRightAssign,
    /// `&=`.
    AndAssign,
    /// `^=`.
    XorAssign,
    /// `|=`.
    OrAssign,
    /// `,`.
    Comma,
    /// `#`, also spelled `%:`.
    Hash,
    /// `##`, also spelled `%:%:`.
    HashHash,
    /// Any other byte by itself (6.4 p1, the last alternative).
    Stray,
}
