// Which row of declarators is taken: the next classes arrive, and one row of `rows/declarators.rt` leaves, or none. What the
// row says isn't known here.
ghost use Rattle.std.specs.Prelude.{◌≡◌, option_map};
ghost use Rattle.meaning_grammar.specs.Choice.{choice};
ghost use Rattle.vocabulary.specs.declared.symbol.Symbol.TheVariants as symbols;
ghost use Rattle.vocabulary.specs.declared.token_class.TokenClass.{TokenClass};

use crate::classes::{begins_declarator, begins_expression, begins_parameter, is_right_bracket};
use crate::rows::declarators;
use vocabulary::{ProductionItem, TokenClass};

/// A declarator with a name (6.7.6).
pub(crate) fn choose_declarator(next: TokenClass) -> Option<&'static [ProductionItem]>
    ensures { (behind : TokenClass) → choice symbols.Declarator next behind ≡ option_map (λ items. items.now) result }
{
    if begins_declarator(next) {
        Some(declarators::DECLARATOR[0].items)
    } else {
        None
    }
}

/// The stars before a declarator, or none (6.7.6.1).
pub(crate) fn choose_pointers(next: TokenClass) -> Option<&'static [ProductionItem]>
    ensures { (behind : TokenClass) → choice symbols.Pointers next behind ≡ option_map (λ items. items.now) result }
{
    match next {
        TokenClass::Star => Some(declarators::POINTERS[0].items),
        _ => Some(declarators::POINTERS[1].items),
    }
}

/// Qualifiers and attributes behind a star, or none.
pub(crate) fn choose_pointer_qualifiers(next: TokenClass) -> Option<&'static [ProductionItem]>
    ensures { (behind : TokenClass) → choice symbols.PointerQualifiers next behind ≡ option_map (λ items. items.now) result }
{
    match next {
        TokenClass::ConstKeyword | TokenClass::VolatileKeyword | TokenClass::RestrictKeyword =>
            Some(declarators::POINTER_QUALIFIERS[0].items),
        TokenClass::AttributeKeyword => Some(declarators::POINTER_QUALIFIERS[1].items),
        _ => Some(declarators::POINTER_QUALIFIERS[2].items),
    }
}

/// A declarator without its stars.
pub(crate) fn choose_direct_declarator(next: TokenClass) -> Option<&'static [ProductionItem]>
    ensures { (behind : TokenClass) → choice symbols.DirectDeclarator next behind ≡ option_map (λ items. items.now) result }
{
    match next {
        TokenClass::Identifier | TokenClass::TypedefName => Some(
            declarators::DIRECT_DECLARATOR[0].items,
        ),
        TokenClass::LeftParenthesis => Some(declarators::DIRECT_DECLARATOR[1].items),
        _ => None,
    }
}

/// Array sizes and parameter lists behind a declarator, or none (6.7.6.2, 6.7.6.3).
pub(crate) fn choose_declarator_suffixes(next: TokenClass) -> Option<&'static [ProductionItem]>
    ensures { (behind : TokenClass) → choice symbols.DeclaratorSuffixes next behind ≡ option_map (λ items. items.now) result }
{
    match next {
        TokenClass::LeftBracket => Some(declarators::DECLARATOR_SUFFIXES[0].items),
        TokenClass::LeftParenthesis => Some(declarators::DECLARATOR_SUFFIXES[1].items),
        _ => Some(declarators::DECLARATOR_SUFFIXES[2].items),
    }
}

/// The size of an array, or nothing.
pub(crate) fn choose_array_size(next: TokenClass) -> Option<&'static [ProductionItem]>
    ensures { (behind : TokenClass) → choice symbols.ArraySize next behind ≡ option_map (λ items. items.now) result }
{
    if is_right_bracket(next) {
        Some(declarators::ARRAY_SIZE[0].items)
    } else if begins_expression(next) {
        Some(declarators::ARRAY_SIZE[1].items)
    } else {
        None
    }
}

/// The parameters of a function, or none.
pub(crate) fn choose_parameters(next: TokenClass) -> Option<&'static [ProductionItem]>
    ensures { (behind : TokenClass) → choice symbols.Parameters next behind ≡ option_map (λ items. items.now) result }
{
    match next {
        TokenClass::RightParenthesis => Some(declarators::PARAMETERS[0].items),
        TokenClass::TypedefKeyword
        | TokenClass::ExternKeyword
        | TokenClass::StaticKeyword
        | TokenClass::AutoKeyword
        | TokenClass::RegisterKeyword
        | TokenClass::InlineKeyword
        | TokenClass::NoreturnKeyword
        | TokenClass::ConstKeyword
        | TokenClass::VolatileKeyword
        | TokenClass::RestrictKeyword
        | TokenClass::VoidKeyword
        | TokenClass::CharKeyword
        | TokenClass::ShortKeyword
        | TokenClass::IntKeyword
        | TokenClass::LongKeyword
        | TokenClass::SignedKeyword
        | TokenClass::UnsignedKeyword
        | TokenClass::BoolKeyword
        | TokenClass::StructKeyword
        | TokenClass::UnionKeyword => Some(declarators::PARAMETERS[1].items),
        TokenClass::EnumKeyword
        | TokenClass::TypeofKeyword
        | TokenClass::TypedefName
        | TokenClass::AttributeKeyword
        | TokenClass::LeftBracket
        | TokenClass::Star
        | TokenClass::LeftParenthesis
        | TokenClass::Identifier
        | TokenClass::Comma => Some(declarators::PARAMETERS[1].items),
        _ => None,
    }
}

/// The parameters behind a comma, or nothing.
pub(crate) fn choose_further_parameters(next: TokenClass) -> Option<&'static [ProductionItem]>
    ensures { (behind : TokenClass) → choice symbols.FurtherParameters next behind ≡ option_map (λ items. items.now) result }
{
    match next {
        TokenClass::Comma => Some(declarators::FURTHER_PARAMETERS[0].items),
        _ => Some(declarators::FURTHER_PARAMETERS[1].items),
    }
}

/// What stands behind a comma in a parameter list.
pub(crate) fn choose_parameter_or_ellipsis(next: TokenClass) -> Option<&'static [ProductionItem]>
    ensures { (behind : TokenClass) → choice symbols.ParameterOrEllipsis next behind ≡ option_map (λ items. items.now) result }
{
    match next {
        TokenClass::Ellipsis => Some(declarators::PARAMETER_OR_ELLIPSIS[0].items),
        TokenClass::TypedefKeyword
        | TokenClass::ExternKeyword
        | TokenClass::StaticKeyword
        | TokenClass::AutoKeyword
        | TokenClass::RegisterKeyword
        | TokenClass::InlineKeyword
        | TokenClass::NoreturnKeyword
        | TokenClass::ConstKeyword
        | TokenClass::VolatileKeyword
        | TokenClass::RestrictKeyword
        | TokenClass::VoidKeyword
        | TokenClass::CharKeyword
        | TokenClass::ShortKeyword
        | TokenClass::IntKeyword
        | TokenClass::LongKeyword
        | TokenClass::SignedKeyword
        | TokenClass::UnsignedKeyword
        | TokenClass::BoolKeyword
        | TokenClass::StructKeyword
        | TokenClass::UnionKeyword => Some(declarators::PARAMETER_OR_ELLIPSIS[1].items),
        TokenClass::EnumKeyword
        | TokenClass::TypeofKeyword
        | TokenClass::TypedefName
        | TokenClass::AttributeKeyword
        | TokenClass::LeftBracket
        | TokenClass::Star
        | TokenClass::LeftParenthesis
        | TokenClass::Identifier
        | TokenClass::RightParenthesis
        | TokenClass::Comma => Some(declarators::PARAMETER_OR_ELLIPSIS[1].items),
        _ => None,
    }
}

/// A parameter (6.7.6.3).
pub(crate) fn choose_parameter(next: TokenClass) -> Option<&'static [ProductionItem]>
    ensures { (behind : TokenClass) → choice symbols.Parameter next behind ≡ option_map (λ items. items.now) result }
{
    if begins_parameter(next) {
        Some(declarators::PARAMETER[0].items)
    } else {
        None
    }
}

/// A declarator with or without a name (6.7.6, 6.7.7).
pub(crate) fn choose_any_declarator(next: TokenClass) -> Option<&'static [ProductionItem]>
    ensures { (behind : TokenClass) → choice symbols.AnyDeclarator next behind ≡ option_map (λ items. items.now) result }
{
    match next {
        TokenClass::LeftBracket
        | TokenClass::Star
        | TokenClass::LeftParenthesis
        | TokenClass::Identifier
        | TokenClass::TypedefName
        | TokenClass::AttributeKeyword
        | TokenClass::RightParenthesis
        | TokenClass::Comma => Some(declarators::ANY_DECLARATOR[0].items),
        _ => None,
    }
}

/// Such a declarator without its stars.
pub(crate) fn choose_any_direct_declarator(
    next: TokenClass,
    behind: TokenClass,
) -> Option<&'static [ProductionItem]>
    ensures { choice symbols.AnyDirectDeclarator next behind ≡ option_map (λ items. items.now) result }
{
    match next {
        TokenClass::LeftParenthesis => match behind {
            TokenClass::RightParenthesis
            | TokenClass::TypedefKeyword
            | TokenClass::ExternKeyword
            | TokenClass::StaticKeyword
            | TokenClass::AutoKeyword
            | TokenClass::RegisterKeyword
            | TokenClass::InlineKeyword
            | TokenClass::NoreturnKeyword
            | TokenClass::ConstKeyword
            | TokenClass::VolatileKeyword
            | TokenClass::RestrictKeyword
            | TokenClass::VoidKeyword
            | TokenClass::CharKeyword
            | TokenClass::ShortKeyword
            | TokenClass::IntKeyword
            | TokenClass::LongKeyword
            | TokenClass::SignedKeyword
            | TokenClass::UnsignedKeyword
            | TokenClass::BoolKeyword
            | TokenClass::StructKeyword
            | TokenClass::UnionKeyword
            | TokenClass::EnumKeyword
            | TokenClass::TypeofKeyword
            | TokenClass::TypedefName => Some(declarators::ANY_DIRECT_DECLARATOR[1].items),
            _ => Some(declarators::ANY_DIRECT_DECLARATOR[2].items),
        },
        TokenClass::Identifier | TokenClass::TypedefName => Some(
            declarators::ANY_DIRECT_DECLARATOR[0].items,
        ),
        _ => Some(declarators::ANY_DIRECT_DECLARATOR[1].items),
    }
}
