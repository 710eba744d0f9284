// Which row of members and enumerators is taken: the next classes arrive, and one row of `rows/members.rt` leaves, or none.
// What the row says isn't known here.
ghost use Rattle.std.specs.Prelude.{◌≡◌, option_map};
ghost use Rattle.meaning_grammar.specs.Choice.{choice};
ghost use Rattle.vocabulary.specs.declared.symbol.Symbol.TheVariants as symbols;
ghost use Rattle.vocabulary.specs.declared.token_class.TokenClass.{TokenClass};

use crate::classes::{begins_member_declaration, is_name};
use crate::rows::members;
use vocabulary::{ProductionItem, TokenClass};

/// The declarations of members, or none.
pub(crate) fn choose_member_declarations(next: TokenClass) -> Option<&'static [ProductionItem]>
    ensures { (behind : TokenClass) → choice symbols.MemberDeclarations next behind ≡ option_map (λ items. items.now) result }
{
    if begins_member_declaration(next) {
        Some(members::MEMBER_DECLARATIONS[0].items)
    } else {
        Some(members::MEMBER_DECLARATIONS[1].items)
    }
}

/// A declaration of members (6.7.2.1).
pub(crate) fn choose_member_declaration(next: TokenClass) -> Option<&'static [ProductionItem]>
    ensures { (behind : TokenClass) → choice symbols.MemberDeclaration next behind ≡ option_map (λ items. items.now) result }
{
    match next {
        TokenClass::Semicolon => Some(members::MEMBER_DECLARATION[0].items),
        TokenClass::StaticAssertKeyword => Some(members::MEMBER_DECLARATION[1].items),
        TokenClass::Colon
        | TokenClass::TypedefKeyword
        | TokenClass::ExternKeyword
        | TokenClass::StaticKeyword
        | TokenClass::AutoKeyword
        | TokenClass::RegisterKeyword
        | TokenClass::InlineKeyword
        | TokenClass::NoreturnKeyword
        | TokenClass::ConstKeyword
        | TokenClass::VolatileKeyword
        | TokenClass::RestrictKeyword
        | TokenClass::VoidKeyword
        | TokenClass::CharKeyword
        | TokenClass::ShortKeyword
        | TokenClass::IntKeyword
        | TokenClass::LongKeyword
        | TokenClass::SignedKeyword
        | TokenClass::UnsignedKeyword
        | TokenClass::BoolKeyword
        | TokenClass::StructKeyword => Some(members::MEMBER_DECLARATION[2].items),
        TokenClass::UnionKeyword
        | TokenClass::EnumKeyword
        | TokenClass::TypeofKeyword
        | TokenClass::TypedefName
        | TokenClass::AttributeKeyword
        | TokenClass::Star
        | TokenClass::LeftParenthesis
        | TokenClass::Identifier => Some(members::MEMBER_DECLARATION[2].items),
        _ => None,
    }
}

/// The members of one declaration; an unnamed structure or union has none.
pub(crate) fn choose_member_declarators(next: TokenClass) -> Option<&'static [ProductionItem]>
    ensures { (behind : TokenClass) → choice symbols.MemberDeclarators next behind ≡ option_map (λ items. items.now) result }
{
    match next {
        TokenClass::Colon
        | TokenClass::Star
        | TokenClass::LeftParenthesis
        | TokenClass::Identifier
        | TokenClass::TypedefName => Some(members::MEMBER_DECLARATORS[0].items),
        _ => Some(members::MEMBER_DECLARATORS[1].items),
    }
}

/// The members behind a comma, or nothing.
pub(crate) fn choose_further_member_declarators(
    next: TokenClass,
) -> Option<&'static [ProductionItem]>
    ensures { (behind : TokenClass) → choice symbols.FurtherMemberDeclarators next behind ≡ option_map (λ items. items.now) result }
{
    match next {
        TokenClass::Comma => Some(members::FURTHER_MEMBER_DECLARATORS[0].items),
        _ => Some(members::FURTHER_MEMBER_DECLARATORS[1].items),
    }
}

/// A member, or a bit-field without a name.
pub(crate) fn choose_member_declarator(next: TokenClass) -> Option<&'static [ProductionItem]>
    ensures { (behind : TokenClass) → choice symbols.MemberDeclarator next behind ≡ option_map (λ items. items.now) result }
{
    match next {
        TokenClass::Colon => Some(members::MEMBER_DECLARATOR[0].items),
        TokenClass::Star
        | TokenClass::LeftParenthesis
        | TokenClass::Identifier
        | TokenClass::TypedefName => Some(members::MEMBER_DECLARATOR[1].items),
        _ => None,
    }
}

/// The width of a bit-field, or nothing.
pub(crate) fn choose_optional_width(next: TokenClass) -> Option<&'static [ProductionItem]>
    ensures { (behind : TokenClass) → choice symbols.OptionalWidth next behind ≡ option_map (λ items. items.now) result }
{
    match next {
        TokenClass::Colon => Some(members::OPTIONAL_WIDTH[0].items),
        _ => Some(members::OPTIONAL_WIDTH[1].items),
    }
}

/// `enum` (6.7.2.2).
pub(crate) fn choose_enum_specifier(next: TokenClass) -> Option<&'static [ProductionItem]>
    ensures { (behind : TokenClass) → choice symbols.EnumSpecifier next behind ≡ option_map (λ items. items.now) result }
{
    match next {
        TokenClass::EnumKeyword => Some(members::ENUM_SPECIFIER[0].items),
        _ => None,
    }
}

/// The tag of an `enum`, its enumerators, or both.
pub(crate) fn choose_tag_or_enumerators(next: TokenClass) -> Option<&'static [ProductionItem]>
    ensures { (behind : TokenClass) → choice symbols.TagOrEnumerators next behind ≡ option_map (λ items. items.now) result }
{
    match next {
        TokenClass::Identifier | TokenClass::TypedefName => Some(
            members::TAG_OR_ENUMERATORS[0].items,
        ),
        TokenClass::LeftBrace => Some(members::TAG_OR_ENUMERATORS[1].items),
        _ => None,
    }
}

/// The enumerators behind a tag, or nothing.
pub(crate) fn choose_enumerators_behind_tag(next: TokenClass) -> Option<&'static [ProductionItem]>
    ensures { (behind : TokenClass) → choice symbols.EnumeratorsBehindTag next behind ≡ option_map (λ items. items.now) result }
{
    match next {
        TokenClass::LeftBrace => Some(members::ENUMERATORS_BEHIND_TAG[0].items),
        _ => Some(members::ENUMERATORS_BEHIND_TAG[1].items),
    }
}

/// An enumerator (6.7.2.2).
pub(crate) fn choose_enumerator(next: TokenClass) -> Option<&'static [ProductionItem]>
    ensures { (behind : TokenClass) → choice symbols.Enumerator next behind ≡ option_map (λ items. items.now) result }
{
    if is_name(next) {
        Some(members::ENUMERATOR[0].items)
    } else {
        None
    }
}

/// The value of an enumerator, or nothing.
pub(crate) fn choose_optional_enumerator_value(
    next: TokenClass,
) -> Option<&'static [ProductionItem]>
    ensures { (behind : TokenClass) → choice symbols.OptionalEnumeratorValue next behind ≡ option_map (λ items. items.now) result }
{
    match next {
        TokenClass::Assign => Some(members::OPTIONAL_ENUMERATOR_VALUE[0].items),
        _ => Some(members::OPTIONAL_ENUMERATOR_VALUE[1].items),
    }
}

/// The enumerators behind another, or nothing; a last comma is allowed.
pub(crate) fn choose_further_enumerators(next: TokenClass) -> Option<&'static [ProductionItem]>
    ensures { (behind : TokenClass) → choice symbols.FurtherEnumerators next behind ≡ option_map (λ items. items.now) result }
{
    match next {
        TokenClass::Comma => Some(members::FURTHER_ENUMERATORS[0].items),
        _ => Some(members::FURTHER_ENUMERATORS[1].items),
    }
}

/// The enumerators behind a comma, or none.
pub(crate) fn choose_enumerators_behind_comma(next: TokenClass) -> Option<&'static [ProductionItem]>
    ensures { (behind : TokenClass) → choice symbols.EnumeratorsBehindComma next behind ≡ option_map (λ items. items.now) result }
{
    match next {
        TokenClass::Identifier | TokenClass::TypedefName => Some(
            members::ENUMERATORS_BEHIND_COMMA[0].items,
        ),
        _ => Some(members::ENUMERATORS_BEHIND_COMMA[1].items),
    }
}
