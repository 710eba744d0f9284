// Which row of specifiers is taken: the next classes arrive, and one row of `rows/specifiers.rt` leaves, or none. What the row
// says isn't known here.
ghost use Rattle.std.specs.Prelude.{◌≡◌, option_map};
ghost use Rattle.meaning_grammar.specs.Choice.{choice};
ghost use Rattle.vocabulary.specs.declared.symbol.Symbol.TheVariants as symbols;
ghost use Rattle.vocabulary.specs.declared.token_class.TokenClass.{TokenClass};

use crate::rows::specifiers;
use vocabulary::{ProductionItem, TokenClass};

/// Specifiers up to the first that names a type (6.7 p1).
pub(crate) fn choose_specifiers(next: TokenClass) -> Option<&'static [ProductionItem]>
    ensures { (behind : TokenClass) → choice symbols.Specifiers next behind ≡ option_map (λ items. items.now) result }
{
    match next {
        TokenClass::TypedefKeyword
        | TokenClass::ExternKeyword
        | TokenClass::StaticKeyword
        | TokenClass::AutoKeyword
        | TokenClass::RegisterKeyword
        | TokenClass::InlineKeyword
        | TokenClass::NoreturnKeyword => Some(specifiers::SPECIFIERS[0].items),
        TokenClass::ConstKeyword | TokenClass::VolatileKeyword | TokenClass::RestrictKeyword =>
            Some(specifiers::SPECIFIERS[1].items),
        TokenClass::AttributeKeyword => Some(specifiers::SPECIFIERS[2].items),
        TokenClass::VoidKeyword
        | TokenClass::CharKeyword
        | TokenClass::ShortKeyword
        | TokenClass::IntKeyword
        | TokenClass::LongKeyword
        | TokenClass::SignedKeyword
        | TokenClass::UnsignedKeyword
        | TokenClass::BoolKeyword => Some(specifiers::SPECIFIERS[3].items),
        TokenClass::StructKeyword | TokenClass::UnionKeyword => Some(
            specifiers::SPECIFIERS[4].items,
        ),
        TokenClass::EnumKeyword => Some(specifiers::SPECIFIERS[5].items),
        TokenClass::TypeofKeyword => Some(specifiers::SPECIFIERS[6].items),
        TokenClass::TypedefName => Some(specifiers::SPECIFIERS[7].items),
        _ => Some(specifiers::SPECIFIERS[8].items),
    }
}

/// Specifiers behind one that names a type, where a typedef name is a declarator.
pub(crate) fn choose_specifiers_behind_type(next: TokenClass) -> Option<&'static [ProductionItem]>
    ensures { (behind : TokenClass) → choice symbols.SpecifiersBehindType next behind ≡ option_map (λ items. items.now) result }
{
    match next {
        TokenClass::TypedefKeyword
        | TokenClass::ExternKeyword
        | TokenClass::StaticKeyword
        | TokenClass::AutoKeyword
        | TokenClass::RegisterKeyword
        | TokenClass::InlineKeyword
        | TokenClass::NoreturnKeyword => Some(specifiers::SPECIFIERS_BEHIND_TYPE[0].items),
        TokenClass::ConstKeyword | TokenClass::VolatileKeyword | TokenClass::RestrictKeyword =>
            Some(specifiers::SPECIFIERS_BEHIND_TYPE[1].items),
        TokenClass::AttributeKeyword => Some(specifiers::SPECIFIERS_BEHIND_TYPE[2].items),
        TokenClass::VoidKeyword
        | TokenClass::CharKeyword
        | TokenClass::ShortKeyword
        | TokenClass::IntKeyword
        | TokenClass::LongKeyword
        | TokenClass::SignedKeyword
        | TokenClass::UnsignedKeyword
        | TokenClass::BoolKeyword => Some(specifiers::SPECIFIERS_BEHIND_TYPE[3].items),
        _ => Some(specifiers::SPECIFIERS_BEHIND_TYPE[4].items),
    }
}

/// A storage-class or function specifier (6.7.1, 6.7.4).
pub(crate) fn choose_storage_class_specifier(next: TokenClass) -> Option<&'static [ProductionItem]>
    ensures { (behind : TokenClass) → choice symbols.StorageClassSpecifier next behind ≡ option_map (λ items. items.now) result }
{
    match next {
        TokenClass::TypedefKeyword => Some(specifiers::STORAGE_CLASS_SPECIFIER[0].items),
        TokenClass::ExternKeyword => Some(specifiers::STORAGE_CLASS_SPECIFIER[1].items),
        TokenClass::StaticKeyword => Some(specifiers::STORAGE_CLASS_SPECIFIER[2].items),
        TokenClass::AutoKeyword => Some(specifiers::STORAGE_CLASS_SPECIFIER[3].items),
        TokenClass::RegisterKeyword => Some(specifiers::STORAGE_CLASS_SPECIFIER[4].items),
        TokenClass::InlineKeyword => Some(specifiers::STORAGE_CLASS_SPECIFIER[5].items),
        TokenClass::NoreturnKeyword => Some(specifiers::STORAGE_CLASS_SPECIFIER[6].items),
        _ => None,
    }
}

/// A type qualifier (6.7.3).
pub(crate) fn choose_type_qualifier(next: TokenClass) -> Option<&'static [ProductionItem]>
    ensures { (behind : TokenClass) → choice symbols.TypeQualifier next behind ≡ option_map (λ items. items.now) result }
{
    match next {
        TokenClass::ConstKeyword => Some(specifiers::TYPE_QUALIFIER[0].items),
        TokenClass::VolatileKeyword => Some(specifiers::TYPE_QUALIFIER[1].items),
        TokenClass::RestrictKeyword => Some(specifiers::TYPE_QUALIFIER[2].items),
        _ => None,
    }
}

/// A type specifier of one word (6.7.2).
pub(crate) fn choose_type_word(next: TokenClass) -> Option<&'static [ProductionItem]>
    ensures { (behind : TokenClass) → choice symbols.TypeWord next behind ≡ option_map (λ items. items.now) result }
{
    match next {
        TokenClass::VoidKeyword => Some(specifiers::TYPE_WORD[0].items),
        TokenClass::CharKeyword => Some(specifiers::TYPE_WORD[1].items),
        TokenClass::ShortKeyword => Some(specifiers::TYPE_WORD[2].items),
        TokenClass::IntKeyword => Some(specifiers::TYPE_WORD[3].items),
        TokenClass::LongKeyword => Some(specifiers::TYPE_WORD[4].items),
        TokenClass::SignedKeyword => Some(specifiers::TYPE_WORD[5].items),
        TokenClass::UnsignedKeyword => Some(specifiers::TYPE_WORD[6].items),
        TokenClass::BoolKeyword => Some(specifiers::TYPE_WORD[7].items),
        _ => None,
    }
}

/// `struct` or `union` (6.7.2.1).
pub(crate) fn choose_struct_or_union_specifier(
    next: TokenClass,
) -> Option<&'static [ProductionItem]>
    ensures { (behind : TokenClass) → choice symbols.StructOrUnionSpecifier next behind ≡ option_map (λ items. items.now) result }
{
    match next {
        TokenClass::StructKeyword => Some(specifiers::STRUCT_OR_UNION_SPECIFIER[0].items),
        TokenClass::UnionKeyword => Some(specifiers::STRUCT_OR_UNION_SPECIFIER[1].items),
        _ => None,
    }
}

/// The tag of a `struct` or `union`, its members, or both.
pub(crate) fn choose_tag_or_members(next: TokenClass) -> Option<&'static [ProductionItem]>
    ensures { (behind : TokenClass) → choice symbols.TagOrMembers next behind ≡ option_map (λ items. items.now) result }
{
    match next {
        TokenClass::Identifier | TokenClass::TypedefName => Some(
            specifiers::TAG_OR_MEMBERS[0].items,
        ),
        TokenClass::LeftBrace => Some(specifiers::TAG_OR_MEMBERS[1].items),
        _ => None,
    }
}

/// The members behind a tag, or nothing.
pub(crate) fn choose_members_behind_tag(next: TokenClass) -> Option<&'static [ProductionItem]>
    ensures { (behind : TokenClass) → choice symbols.MembersBehindTag next behind ≡ option_map (λ items. items.now) result }
{
    match next {
        TokenClass::LeftBrace => Some(specifiers::MEMBERS_BEHIND_TAG[0].items),
        _ => Some(specifiers::MEMBERS_BEHIND_TAG[1].items),
    }
}
