// The classes of tokens.

/// What the grammar distinguishes of a token: its class. A digraph has the class of the punctuator that it stands
/// for, and a spelling with `__` before it, or before and behind, that GNU C has for a keyword has that keyword's.
#[derive(Clone, Copy, Debug, PartialEq, Eq)]
pub enum TokenClass {
    // Punctuators (C11 6.4.6)
    /// `[`, also spelled `<:`.
    LeftBracket,
    /// `]`, also spelled `:>`.
    RightBracket,
    /// `(`.
    LeftParenthesis,
    /// `)`.
    RightParenthesis,
    /// `{`, also spelled `<%`.
    LeftBrace,
    /// `}`, also spelled `%>`.
    RightBrace,
    /// `.`.
    Dot,
    /// `->`.
    Arrow,
    /// `++`.
    PlusPlus,
    /// `--`.
    MinusMinus,
    /// `&`.
    Ampersand,
    /// `*`.
    Star,
    /// `+`.
    Plus,
    /// `-`.
    Minus,
    /// `~`.
    Tilde,
    /// `!`.
    Exclamation,
    /// `/`.
    Slash,
    /// `%`.
    Percent,
    /// `<<`.
    ShiftLeft,
    /// `>>`.
    ShiftRight,
    /// `<`.
    Less,
    /// `>`.
    Greater,
    /// `<=`.
    LessEqual,
    /// `>=`.
    GreaterEqual,
    /// `==`.
    EqualEqual,
    /// `!=`.
    NotEqual,
    /// `^`.
    Caret,
    /// `|`.
    Bar,
    /// `&&`.
    AndAnd,
    /// `||`.
    OrOr,
    /// `?`.
    Question,
    /// `:`.
    Colon,
    /// `;`.
    Semicolon,
    /// `...`.
    Ellipsis,
    /// `=`.
    Assign,
    /// `*=`.
    StarAssign,
    /// `/=`.
    SlashAssign,
    /// `%=`.
    PercentAssign,
    /// `+=`.
    PlusAssign,
    /// `-=`.
    MinusAssign,
    /// `<<=`.
    ShiftLeftAssign,
    /// `>>=`.
    ShiftRightAssign,
    /// `&=`.
    AndAssign,
    /// `^=`.
    XorAssign,
    /// `|=`.
    OrAssign,
    /// `,`.
    Comma,

    // Keywords (6.4.1, and those of GNU C and of the kernel)
    /// `typedef`.
    TypedefKeyword,
    /// `extern`.
    ExternKeyword,
    /// `static`.
    StaticKeyword,
    /// `auto`.
    AutoKeyword,
    /// `register`.
    RegisterKeyword,
    /// `inline`.
    InlineKeyword,
    /// `_Noreturn`.
    NoreturnKeyword,
    /// `const`.
    ConstKeyword,
    /// `volatile`.
    VolatileKeyword,
    /// `restrict`.
    RestrictKeyword,
    /// `void`.
    VoidKeyword,
    /// `char`.
    CharKeyword,
    /// `short`.
    ShortKeyword,
    /// `int`.
    IntKeyword,
    /// `long`.
    LongKeyword,
    /// `signed`.
    SignedKeyword,
    /// `unsigned`.
    UnsignedKeyword,
    /// `_Bool`.
    BoolKeyword,
    /// `struct`.
    StructKeyword,
    /// `union`.
    UnionKeyword,
    /// `enum`.
    EnumKeyword,
    /// `typeof`.
    TypeofKeyword,
    /// `__attribute__`.
    AttributeKeyword,
    /// `_Static_assert`.
    StaticAssertKeyword,
    /// `case`.
    CaseKeyword,
    /// `default`.
    DefaultKeyword,
    /// `if`.
    IfKeyword,
    /// `else`.
    ElseKeyword,
    /// `switch`.
    SwitchKeyword,
    /// `while`.
    WhileKeyword,
    /// `do`.
    DoKeyword,
    /// `for`.
    ForKeyword,
    /// `goto`.
    GotoKeyword,
    /// `continue`.
    ContinueKeyword,
    /// `break`.
    BreakKeyword,
    /// `return`.
    ReturnKeyword,
    /// `__context__`.
    ContextKeyword,
    /// `sizeof`.
    SizeofKeyword,
    /// `_Alignof`.
    AlignofKeyword,
    /// `__builtin_expect`.
    BuiltinExpectKeyword,
    /// `__builtin_offsetof`.
    BuiltinOffsetofKeyword,

    // All else
    /// A name that isn't bound as a type's.
    Identifier,
    /// A name that is bound as a type's (6.7.8).
    TypedefName,
    /// An integer constant, well formed or not (6.4.4.1).
    Number,
    /// A character constant without a prefix (6.4.4.4).
    Character,
    /// A string literal without a prefix (6.4.5).
    String,
    /// A string literal that isn't supported: where it ends a row of string literals it is told before a bad one earlier
    /// in the row.
    RefusedString,
    /// A keyword that no production names.
    OtherKeyword,
    /// Any other token: a stray byte, a word or a literal that isn't supported, `#`.
    OtherToken,
    /// The end of the unit, behind its last token.
    End,
}
