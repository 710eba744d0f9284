// Rows of members and enumerators (C11 6.7.2.1, 6.7.2.2).
use crate::production::Production;
use vocabulary::Action::{
    Append, BeginAtNext, BeginList, BindEnumerator, DefineTag, MakeDeclarator, MakeEnumerator,
    MakeLeaf, MakeMemberDeclaration, MakeMemberSpecifiers, MakeOver, MakeTagged, RequireType,
    RequireTypeOrAttributes, UseTag, WithoutTag,
};
use vocabulary::NodeKind;
use vocabulary::ProductionItem::{Do, Name, Nonterminal, Passed, Token};
use vocabulary::Role::{TypePart, Unevaluated};
use vocabulary::Symbol::{
    AttributeLists, ConditionalExpression, Declarator, EnumSpecifier, Enumerator,
    EnumeratorsBehindComma, EnumeratorsBehindTag, FurtherEnumerators, FurtherMemberDeclarators,
    MemberDeclaration, MemberDeclarations, MemberDeclarator, MemberDeclarators,
    OptionalEnumeratorValue, OptionalWidth, Specifiers, StaticAssertion, TagOrEnumerators,
};
use vocabulary::TokenClass::{Assign, Colon, Comma, EnumKeyword, LeftBrace, RightBrace, Semicolon};

/// The declarations of members, or none.
#[rattlefmt::skip]
pub(crate) static MEMBER_DECLARATIONS: [Production; 2] = [
    Production { symbol: MemberDeclarations, items: &[
        Nonterminal(MemberDeclaration), Do(Append(TypePart)), Nonterminal(MemberDeclarations),
    ] },
    Production { symbol: MemberDeclarations, items: &[] },
];

/// A declaration of members (6.7.2.1).
#[rattlefmt::skip]
pub(crate) static MEMBER_DECLARATION: [Production; 3] = [
    Production { symbol: MemberDeclaration, items: &[
        Token(Semicolon), Do(MakeLeaf(NodeKind::EmptyDeclaration)),
    ] },
    Production { symbol: MemberDeclaration, items: &[Nonterminal(StaticAssertion)] },
    Production { symbol: MemberDeclaration, items: &[
        Do(BeginAtNext), Nonterminal(Specifiers), Do(MakeMemberSpecifiers), Nonterminal(MemberDeclarators),
        Passed(Semicolon), Do(MakeMemberDeclaration),
    ] },
];

/// The members of one declaration; an unnamed structure or union has none.
#[rattlefmt::skip]
pub(crate) static MEMBER_DECLARATORS: [Production; 2] = [
    Production { symbol: MemberDeclarators, items: &[
        Do(RequireType), Do(BeginList), Nonterminal(MemberDeclarator), Nonterminal(FurtherMemberDeclarators),
    ] },
    Production { symbol: MemberDeclarators, items: &[Do(RequireTypeOrAttributes), Do(BeginList)] },
];

/// The members behind a comma, or nothing.
#[rattlefmt::skip]
pub(crate) static FURTHER_MEMBER_DECLARATORS: [Production; 2] = [
    Production { symbol: FurtherMemberDeclarators, items: &[
        Passed(Comma), Nonterminal(MemberDeclarator), Nonterminal(FurtherMemberDeclarators),
    ] },
    Production { symbol: FurtherMemberDeclarators, items: &[] },
];

/// A member, or a bit-field without a name, whose declarator has nothing.
#[rattlefmt::skip]
pub(crate) static MEMBER_DECLARATOR: [Production; 2] = [
    Production { symbol: MemberDeclarator, items: &[
        Do(BeginAtNext), Do(MakeDeclarator), Do(Append(TypePart)), Token(Colon), Nonterminal(ConditionalExpression),
        Do(MakeOver(NodeKind::BitFieldWidth, Unevaluated)), Do(Append(Unevaluated)), Nonterminal(AttributeLists),
    ] },
    Production { symbol: MemberDeclarator, items: &[
        Nonterminal(Declarator), Do(MakeDeclarator), Do(Append(TypePart)), Nonterminal(OptionalWidth),
        Nonterminal(AttributeLists),
    ] },
];

/// The width of a bit-field, or nothing.
#[rattlefmt::skip]
pub(crate) static OPTIONAL_WIDTH: [Production; 2] = [
    Production { symbol: OptionalWidth, items: &[
        Token(Colon), Nonterminal(ConditionalExpression), Do(MakeOver(NodeKind::BitFieldWidth, Unevaluated)),
        Do(Append(Unevaluated)),
    ] },
    Production { symbol: OptionalWidth, items: &[] },
];

/// `enum` (6.7.2.2).
#[rattlefmt::skip]
pub(crate) static ENUM_SPECIFIER: [Production; 1] = [
    Production { symbol: EnumSpecifier, items: &[
        Token(EnumKeyword), Do(BeginList), Nonterminal(AttributeLists), Nonterminal(TagOrEnumerators),
        Do(MakeTagged(NodeKind::EnumSpecifier)),
    ] },
];

/// The tag of an `enum`, its enumerators, or both.
#[rattlefmt::skip]
pub(crate) static TAG_OR_ENUMERATORS: [Production; 2] = [
    Production { symbol: TagOrEnumerators, items: &[Name, Nonterminal(EnumeratorsBehindTag)] },
    Production { symbol: TagOrEnumerators, items: &[
        Do(WithoutTag), Do(BeginList), Passed(LeftBrace), Nonterminal(Enumerator),
        Nonterminal(FurtherEnumerators), Passed(RightBrace),
    ] },
];

/// The enumerators behind a tag, or nothing.
#[rattlefmt::skip]
pub(crate) static ENUMERATORS_BEHIND_TAG: [Production; 2] = [
    Production { symbol: EnumeratorsBehindTag, items: &[
        Do(DefineTag), Do(BeginList), Passed(LeftBrace), Nonterminal(Enumerator),
        Nonterminal(FurtherEnumerators), Passed(RightBrace),
    ] },
    Production { symbol: EnumeratorsBehindTag, items: &[Do(UseTag), Do(BeginList)] },
];

/// An enumerator (6.7.2.2).
#[rattlefmt::skip]
pub(crate) static ENUMERATOR: [Production; 1] = [
    Production { symbol: Enumerator, items: &[
        Name, Do(BeginList), Nonterminal(AttributeLists), Nonterminal(OptionalEnumeratorValue),
        Do(MakeEnumerator), Do(BindEnumerator), Do(Append(TypePart)),
    ] },
];

/// The value of an enumerator, or nothing.
#[rattlefmt::skip]
pub(crate) static OPTIONAL_ENUMERATOR_VALUE: [Production; 2] = [
    Production { symbol: OptionalEnumeratorValue, items: &[
        Passed(Assign), Nonterminal(ConditionalExpression), Do(Append(Unevaluated)),
    ] },
    Production { symbol: OptionalEnumeratorValue, items: &[] },
];

/// The enumerators behind another, or nothing; a last comma is allowed.
#[rattlefmt::skip]
pub(crate) static FURTHER_ENUMERATORS: [Production; 2] = [
    Production { symbol: FurtherEnumerators, items: &[Passed(Comma), Nonterminal(EnumeratorsBehindComma)] },
    Production { symbol: FurtherEnumerators, items: &[] },
];

/// The enumerators behind a comma, or none.
#[rattlefmt::skip]
pub(crate) static ENUMERATORS_BEHIND_COMMA: [Production; 2] = [
    Production { symbol: EnumeratorsBehindComma, items: &[
        Nonterminal(Enumerator), Nonterminal(FurtherEnumerators),
    ] },
    Production { symbol: EnumeratorsBehindComma, items: &[] },
];
