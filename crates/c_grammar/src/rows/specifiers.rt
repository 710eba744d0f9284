// Rows of specifiers (C11 6.7.1 to 6.7.4).
use crate::production::Production;
use vocabulary::Action::{
    Append, BeginList, DefineTag, MakeLeaf, MakeOverList, MakeTagged, UseTag, UseTypedefName,
    WithoutTag,
};
use vocabulary::NodeKind;
use vocabulary::ProductionItem::{Do, Name, Nonterminal, Passed, Token};
use vocabulary::Role::TypePart;
use vocabulary::Symbol::{
    AttributeList, AttributeLists, EnumSpecifier, MemberDeclarations, MembersBehindTag, Specifiers,
    SpecifiersBehindType, StorageClassSpecifier, StructOrUnionSpecifier, TagOrMembers,
    TypeQualifier, TypeWord, TypeofSpecifier,
};
use vocabulary::TokenClass::{
    AutoKeyword, BoolKeyword, CharKeyword, ConstKeyword, ExternKeyword, InlineKeyword, IntKeyword,
    LeftBrace, LongKeyword, NoreturnKeyword, RegisterKeyword, RestrictKeyword, RightBrace,
    ShortKeyword, SignedKeyword, StaticKeyword, StructKeyword, TypedefKeyword, TypedefName,
    UnionKeyword, UnsignedKeyword, VoidKeyword, VolatileKeyword,
};

/// Specifiers up to the first that names a type (6.7 p1).
#[rattlefmt::skip]
pub(crate) static SPECIFIERS: [Production; 9] = [
    Production { symbol: Specifiers, items: &[
        Nonterminal(StorageClassSpecifier), Do(Append(TypePart)), Nonterminal(Specifiers),
    ] },
    Production { symbol: Specifiers, items: &[
        Nonterminal(TypeQualifier), Do(Append(TypePart)), Nonterminal(Specifiers),
    ] },
    Production { symbol: Specifiers, items: &[
        Nonterminal(AttributeList), Do(Append(TypePart)), Nonterminal(Specifiers),
    ] },
    Production { symbol: Specifiers, items: &[
        Nonterminal(TypeWord), Do(Append(TypePart)), Nonterminal(SpecifiersBehindType),
    ] },
    Production { symbol: Specifiers, items: &[
        Nonterminal(StructOrUnionSpecifier), Do(Append(TypePart)), Nonterminal(SpecifiersBehindType),
    ] },
    Production { symbol: Specifiers, items: &[
        Nonterminal(EnumSpecifier), Do(Append(TypePart)), Nonterminal(SpecifiersBehindType),
    ] },
    Production { symbol: Specifiers, items: &[
        Nonterminal(TypeofSpecifier), Do(Append(TypePart)), Nonterminal(SpecifiersBehindType),
    ] },
    Production { symbol: Specifiers, items: &[
        Token(TypedefName), Do(UseTypedefName), Do(Append(TypePart)), Nonterminal(SpecifiersBehindType),
    ] },
    Production { symbol: Specifiers, items: &[] },
];

/// Specifiers behind one that names a type, where a typedef name is a declarator.
#[rattlefmt::skip]
pub(crate) static SPECIFIERS_BEHIND_TYPE: [Production; 5] = [
    Production { symbol: SpecifiersBehindType, items: &[
        Nonterminal(StorageClassSpecifier), Do(Append(TypePart)), Nonterminal(SpecifiersBehindType),
    ] },
    Production { symbol: SpecifiersBehindType, items: &[
        Nonterminal(TypeQualifier), Do(Append(TypePart)), Nonterminal(SpecifiersBehindType),
    ] },
    Production { symbol: SpecifiersBehindType, items: &[
        Nonterminal(AttributeList), Do(Append(TypePart)), Nonterminal(SpecifiersBehindType),
    ] },
    Production { symbol: SpecifiersBehindType, items: &[
        Nonterminal(TypeWord), Do(Append(TypePart)), Nonterminal(SpecifiersBehindType),
    ] },
    Production { symbol: SpecifiersBehindType, items: &[] },
];

/// A storage-class or function specifier (6.7.1, 6.7.4).
#[rattlefmt::skip]
pub(crate) static STORAGE_CLASS_SPECIFIER: [Production; 7] = [
    Production { symbol: StorageClassSpecifier, items: &[
        Token(TypedefKeyword), Do(MakeLeaf(NodeKind::TypedefSpecifier)),
    ] },
    Production { symbol: StorageClassSpecifier, items: &[
        Token(ExternKeyword), Do(MakeLeaf(NodeKind::ExternSpecifier)),
    ] },
    Production { symbol: StorageClassSpecifier, items: &[
        Token(StaticKeyword), Do(MakeLeaf(NodeKind::StaticSpecifier)),
    ] },
    Production { symbol: StorageClassSpecifier, items: &[
        Token(AutoKeyword), Do(MakeLeaf(NodeKind::AutoSpecifier)),
    ] },
    Production { symbol: StorageClassSpecifier, items: &[
        Token(RegisterKeyword), Do(MakeLeaf(NodeKind::RegisterSpecifier)),
    ] },
    Production { symbol: StorageClassSpecifier, items: &[
        Token(InlineKeyword), Do(MakeLeaf(NodeKind::InlineSpecifier)),
    ] },
    Production { symbol: StorageClassSpecifier, items: &[
        Token(NoreturnKeyword), Do(MakeLeaf(NodeKind::NoreturnSpecifier)),
    ] },
];

/// A type qualifier (6.7.3).
#[rattlefmt::skip]
pub(crate) static TYPE_QUALIFIER: [Production; 3] = [
    Production { symbol: TypeQualifier, items: &[Token(ConstKeyword), Do(MakeLeaf(NodeKind::ConstQualifier))] },
    Production { symbol: TypeQualifier, items: &[
        Token(VolatileKeyword), Do(MakeLeaf(NodeKind::VolatileQualifier)),
    ] },
    Production { symbol: TypeQualifier, items: &[
        Token(RestrictKeyword), Do(MakeLeaf(NodeKind::RestrictQualifier)),
    ] },
];

/// A type specifier of one word (6.7.2).
#[rattlefmt::skip]
pub(crate) static TYPE_WORD: [Production; 8] = [
    Production { symbol: TypeWord, items: &[Token(VoidKeyword), Do(MakeLeaf(NodeKind::VoidSpecifier))] },
    Production { symbol: TypeWord, items: &[Token(CharKeyword), Do(MakeLeaf(NodeKind::CharSpecifier))] },
    Production { symbol: TypeWord, items: &[Token(ShortKeyword), Do(MakeLeaf(NodeKind::ShortSpecifier))] },
    Production { symbol: TypeWord, items: &[Token(IntKeyword), Do(MakeLeaf(NodeKind::IntSpecifier))] },
    Production { symbol: TypeWord, items: &[Token(LongKeyword), Do(MakeLeaf(NodeKind::LongSpecifier))] },
    Production { symbol: TypeWord, items: &[Token(SignedKeyword), Do(MakeLeaf(NodeKind::SignedSpecifier))] },
    Production { symbol: TypeWord, items: &[
        Token(UnsignedKeyword), Do(MakeLeaf(NodeKind::UnsignedSpecifier)),
    ] },
    Production { symbol: TypeWord, items: &[Token(BoolKeyword), Do(MakeLeaf(NodeKind::BoolSpecifier))] },
];

/// `struct` or `union` (6.7.2.1).
#[rattlefmt::skip]
pub(crate) static STRUCT_OR_UNION_SPECIFIER: [Production; 2] = [
    Production { symbol: StructOrUnionSpecifier, items: &[
        Token(StructKeyword), Do(BeginList), Nonterminal(AttributeLists), Nonterminal(TagOrMembers),
        Do(MakeTagged(NodeKind::StructSpecifier)),
    ] },
    Production { symbol: StructOrUnionSpecifier, items: &[
        Token(UnionKeyword), Do(BeginList), Nonterminal(AttributeLists), Nonterminal(TagOrMembers),
        Do(MakeTagged(NodeKind::UnionSpecifier)),
    ] },
];

/// The tag of a `struct` or `union`, its members, or both.
#[rattlefmt::skip]
pub(crate) static TAG_OR_MEMBERS: [Production; 2] = [
    Production { symbol: TagOrMembers, items: &[Name, Nonterminal(MembersBehindTag)] },
    Production { symbol: TagOrMembers, items: &[
        Do(WithoutTag), Do(BeginList), Token(LeftBrace), Do(BeginList), Nonterminal(MemberDeclarations),
        Passed(RightBrace), Do(MakeOverList(NodeKind::MemberList)), Do(Append(TypePart)),
    ] },
];

/// The members behind a tag, or nothing.
#[rattlefmt::skip]
pub(crate) static MEMBERS_BEHIND_TAG: [Production; 2] = [
    Production { symbol: MembersBehindTag, items: &[
        Do(DefineTag), Do(BeginList), Token(LeftBrace), Do(BeginList), Nonterminal(MemberDeclarations),
        Passed(RightBrace), Do(MakeOverList(NodeKind::MemberList)), Do(Append(TypePart)),
    ] },
    Production { symbol: MembersBehindTag, items: &[Do(UseTag), Do(BeginList)] },
];
