// Rows of casts, unary, postfix and primary expressions (C11 6.5.1 to 6.5.4).
use crate::production::Production;
use vocabulary::Action::{
    Append, BeginAtNext, BeginList, CountParameter, MakeBinary, MakeBuiltinOffsetof, MakeCall,
    MakeCharacterConstant, MakeIntegerConstant, MakeMember, MakeNamed, MakeOver, MakeOverList,
    MakeOverTwo, MakePostfix, MakeSizeofType, MakeStringLiteral, MakeStringPiece, UseName,
};
use vocabulary::NodeKind;
use vocabulary::ProductionItem::{Do, Name, Nonterminal, Passed, Token};
use vocabulary::Role::{Condition, Evaluated, TypePart, Unevaluated};
use vocabulary::Symbol::{
    Arguments, AssignmentExpression, BracedInitializer, CastExpression, CastOperand,
    CompoundStatement, Expression, FurtherArguments, FurtherStringLiterals, InitializerItems,
    OffsetofDesignators, ParenthesizedExpression, PostfixTail, PrimaryExpression, SizeofOperand,
    SizeofTypeEnd, StringLiterals, TypeName, UnaryExpression,
};
use vocabulary::TokenClass::{
    AlignofKeyword, Ampersand, Arrow, BuiltinExpectKeyword, BuiltinOffsetofKeyword, Character,
    Comma, Dot, Exclamation, Identifier, LeftBrace, LeftBracket, LeftParenthesis, Minus,
    MinusMinus, Number, Plus, PlusPlus, RightBrace, RightBracket, RightParenthesis, SizeofKeyword,
    Star, String, Tilde,
};

/// A cast expression (6.5.4).
#[rattlefmt::skip]
pub(crate) static CAST_EXPRESSION: [Production; 2] = [
    Production { symbol: CastExpression, items: &[
        Token(LeftParenthesis), Nonterminal(TypeName), Passed(RightParenthesis), Nonterminal(CastOperand),
    ] },
    Production { symbol: CastExpression, items: &[Nonterminal(UnaryExpression)] },
];

/// What stands behind a type in parentheses.
#[rattlefmt::skip]
pub(crate) static CAST_OPERAND: [Production; 2] = [
    Production { symbol: CastOperand, items: &[
        Nonterminal(BracedInitializer), Do(MakeOverTwo(NodeKind::CompoundLiteral, TypePart, Evaluated)),
        Nonterminal(PostfixTail),
    ] },
    Production { symbol: CastOperand, items: &[
        Nonterminal(CastExpression), Do(MakeOverTwo(NodeKind::Cast, TypePart, Evaluated)),
    ] },
];

/// Initializers between braces (6.7.9).
#[rattlefmt::skip]
pub(crate) static BRACED_INITIALIZER: [Production; 1] = [
    Production { symbol: BracedInitializer, items: &[
        Token(LeftBrace), Do(BeginList), Nonterminal(InitializerItems), Passed(RightBrace),
        Do(MakeOverList(NodeKind::BracedInitializer)),
    ] },
];

/// A unary expression (6.5.3).
#[rattlefmt::skip]
pub(crate) static UNARY_EXPRESSION: [Production; 11] = [
    Production { symbol: UnaryExpression, items: &[
        Token(Ampersand), Nonterminal(CastExpression), Do(MakeOver(NodeKind::Address, Evaluated)),
    ] },
    Production { symbol: UnaryExpression, items: &[
        Token(Star), Nonterminal(CastExpression), Do(MakeOver(NodeKind::Indirection, Evaluated)),
    ] },
    Production { symbol: UnaryExpression, items: &[
        Token(Plus), Nonterminal(CastExpression), Do(MakeOver(NodeKind::UnaryPlus, Evaluated)),
    ] },
    Production { symbol: UnaryExpression, items: &[
        Token(Minus), Nonterminal(CastExpression), Do(MakeOver(NodeKind::Negation, Evaluated)),
    ] },
    Production { symbol: UnaryExpression, items: &[
        Token(Tilde), Nonterminal(CastExpression), Do(MakeOver(NodeKind::Complement, Evaluated)),
    ] },
    Production { symbol: UnaryExpression, items: &[
        Token(Exclamation), Nonterminal(CastExpression), Do(MakeOver(NodeKind::LogicalNot, Condition)),
    ] },
    Production { symbol: UnaryExpression, items: &[
        Token(PlusPlus), Nonterminal(UnaryExpression), Do(MakeOver(NodeKind::PreIncrement, Evaluated)),
    ] },
    Production { symbol: UnaryExpression, items: &[
        Token(MinusMinus), Nonterminal(UnaryExpression), Do(MakeOver(NodeKind::PreDecrement, Evaluated)),
    ] },
    Production { symbol: UnaryExpression, items: &[Token(SizeofKeyword), Nonterminal(SizeofOperand)] },
    Production { symbol: UnaryExpression, items: &[
        Token(AlignofKeyword), Passed(LeftParenthesis), Nonterminal(TypeName), Passed(RightParenthesis),
        Do(MakeOver(NodeKind::AlignofType, TypePart)),
    ] },
    Production { symbol: UnaryExpression, items: &[Nonterminal(PrimaryExpression), Nonterminal(PostfixTail)] },
];

/// A type in parentheses, or an expression (6.5.3.4).
#[rattlefmt::skip]
pub(crate) static SIZEOF_OPERAND: [Production; 2] = [
    Production { symbol: SizeofOperand, items: &[
        Token(LeftParenthesis), Nonterminal(TypeName), Passed(RightParenthesis), Nonterminal(SizeofTypeEnd),
    ] },
    Production { symbol: SizeofOperand, items: &[
        Nonterminal(UnaryExpression), Do(MakeOver(NodeKind::SizeofExpression, Unevaluated)),
    ] },
];

/// The braces that make a compound literal of the type, or nothing.
#[rattlefmt::skip]
pub(crate) static SIZEOF_TYPE_END: [Production; 2] = [
    Production { symbol: SizeofTypeEnd, items: &[
        Nonterminal(BracedInitializer), Do(MakeOverTwo(NodeKind::CompoundLiteral, TypePart, Evaluated)),
        Nonterminal(PostfixTail), Do(MakeOver(NodeKind::SizeofExpression, Unevaluated)),
    ] },
    Production { symbol: SizeofTypeEnd, items: &[Do(MakeSizeofType)] },
];

/// Postfix operators (6.5.2).
#[rattlefmt::skip]
pub(crate) static POSTFIX_TAIL: [Production; 7] = [
    Production { symbol: PostfixTail, items: &[
        Token(LeftBracket), Nonterminal(Expression), Passed(RightBracket),
        Do(MakeBinary(NodeKind::Subscript, Evaluated)), Nonterminal(PostfixTail),
    ] },
    Production { symbol: PostfixTail, items: &[
        Token(LeftParenthesis), Do(BeginList), Nonterminal(Arguments), Passed(RightParenthesis), Do(MakeCall),
        Nonterminal(PostfixTail),
    ] },
    Production { symbol: PostfixTail, items: &[
        Token(Dot), Name, Do(MakeMember(NodeKind::Member)), Nonterminal(PostfixTail),
    ] },
    Production { symbol: PostfixTail, items: &[
        Token(Arrow), Name, Do(MakeMember(NodeKind::PointerMember)), Nonterminal(PostfixTail),
    ] },
    Production { symbol: PostfixTail, items: &[
        Token(PlusPlus), Do(MakePostfix(NodeKind::PostIncrement)), Nonterminal(PostfixTail),
    ] },
    Production { symbol: PostfixTail, items: &[
        Token(MinusMinus), Do(MakePostfix(NodeKind::PostDecrement)), Nonterminal(PostfixTail),
    ] },
    Production { symbol: PostfixTail, items: &[] },
];

/// The arguments of a call, or none.
#[rattlefmt::skip]
pub(crate) static ARGUMENTS: [Production; 2] = [
    Production { symbol: Arguments, items: &[] },
    Production { symbol: Arguments, items: &[
        Do(CountParameter), Nonterminal(AssignmentExpression), Do(Append(Evaluated)),
        Nonterminal(FurtherArguments),
    ] },
];

/// The arguments behind a comma, or nothing.
#[rattlefmt::skip]
pub(crate) static FURTHER_ARGUMENTS: [Production; 2] = [
    Production { symbol: FurtherArguments, items: &[
        Passed(Comma), Do(CountParameter), Nonterminal(AssignmentExpression), Do(Append(Evaluated)),
        Nonterminal(FurtherArguments),
    ] },
    Production { symbol: FurtherArguments, items: &[] },
];

/// A primary expression (6.5.1), or a builtin.
#[rattlefmt::skip]
pub(crate) static PRIMARY_EXPRESSION: [Production; 7] = [
    Production { symbol: PrimaryExpression, items: &[Token(Identifier), Do(UseName)] },
    Production { symbol: PrimaryExpression, items: &[Token(Number), Do(MakeIntegerConstant)] },
    Production { symbol: PrimaryExpression, items: &[Token(Character), Do(MakeCharacterConstant)] },
    Production { symbol: PrimaryExpression, items: &[Nonterminal(StringLiterals)] },
    Production { symbol: PrimaryExpression, items: &[
        Token(LeftParenthesis), Nonterminal(ParenthesizedExpression),
    ] },
    Production { symbol: PrimaryExpression, items: &[
        Token(BuiltinExpectKeyword), Passed(LeftParenthesis), Nonterminal(AssignmentExpression), Passed(Comma),
        Nonterminal(AssignmentExpression), Passed(RightParenthesis),
        Do(MakeOverTwo(NodeKind::BuiltinExpect, Evaluated, Evaluated)),
    ] },
    Production { symbol: PrimaryExpression, items: &[
        Token(BuiltinOffsetofKeyword), Passed(LeftParenthesis), Nonterminal(TypeName), Passed(Comma), Name,
        Do(BeginList), Nonterminal(OffsetofDesignators), Passed(RightParenthesis), Do(MakeBuiltinOffsetof),
    ] },
];

/// The designators behind the first member of `__builtin_offsetof`.
#[rattlefmt::skip]
pub(crate) static OFFSETOF_DESIGNATORS: [Production; 3] = [
    Production { symbol: OffsetofDesignators, items: &[
        Token(Dot), Name, Do(MakeNamed(NodeKind::MemberDesignator)), Do(Append(Unevaluated)),
        Nonterminal(OffsetofDesignators),
    ] },
    Production { symbol: OffsetofDesignators, items: &[
        Token(LeftBracket), Nonterminal(Expression), Passed(RightBracket),
        Do(MakeOver(NodeKind::IndexDesignator, Unevaluated)), Do(Append(Unevaluated)),
        Nonterminal(OffsetofDesignators),
    ] },
    Production { symbol: OffsetofDesignators, items: &[] },
];

/// What stands behind the parenthesis of an operand.
#[rattlefmt::skip]
pub(crate) static PARENTHESIZED_EXPRESSION: [Production; 2] = [
    Production { symbol: ParenthesizedExpression, items: &[
        Nonterminal(CompoundStatement), Passed(RightParenthesis),
        Do(MakeOver(NodeKind::StatementExpression, Evaluated)),
    ] },
    Production { symbol: ParenthesizedExpression, items: &[
        Nonterminal(Expression), Passed(RightParenthesis), Do(MakeOver(NodeKind::Parenthesized, Evaluated)),
    ] },
];

/// String literals one behind the other (6.4.5).
#[rattlefmt::skip]
pub(crate) static STRING_LITERALS: [Production; 1] = [
    Production { symbol: StringLiterals, items: &[
        Do(BeginAtNext), Token(String), Do(MakeStringPiece), Do(Append(Evaluated)),
        Nonterminal(FurtherStringLiterals), Do(MakeStringLiteral),
    ] },
];

/// Further string literals, or none.
#[rattlefmt::skip]
pub(crate) static FURTHER_STRING_LITERALS: [Production; 2] = [
    Production { symbol: FurtherStringLiterals, items: &[
        Token(String), Do(MakeStringPiece), Do(Append(Evaluated)), Nonterminal(FurtherStringLiterals),
    ] },
    Production { symbol: FurtherStringLiterals, items: &[] },
];
