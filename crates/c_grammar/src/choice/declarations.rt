// Which row of units and declarations is taken: the next classes arrive, and one row of `rows/declarations.rt` leaves, or
// none. What the row says isn't known here.
ghost use Rattle.std.specs.Prelude.{◌≡◌, option_map};
ghost use Rattle.meaning_grammar.specs.Choice.{choice};
ghost use Rattle.vocabulary.specs.declared.symbol.Symbol.TheVariants as symbols;
ghost use Rattle.vocabulary.specs.declared.token_class.TokenClass.{TokenClass};

use crate::classes::begins_external_declaration;
use crate::rows::declarations;
use vocabulary::{ProductionItem, TokenClass};

/// The declarations and functions of a file (6.9), or none.
pub(crate) fn choose_external_declarations(next: TokenClass) -> Option<&'static [ProductionItem]>
    ensures { (behind : TokenClass) → choice symbols.ExternalDeclarations next behind ≡ option_map (λ items. items.now) result }
{
    if begins_external_declaration(next) {
        Some(declarations::EXTERNAL_DECLARATIONS[0].items)
    } else {
        Some(declarations::EXTERNAL_DECLARATIONS[1].items)
    }
}

/// A declaration or a function at file scope (6.9).
pub(crate) fn choose_external_declaration(next: TokenClass) -> Option<&'static [ProductionItem]>
    ensures { (behind : TokenClass) → choice symbols.ExternalDeclaration next behind ≡ option_map (λ items. items.now) result }
{
    match next {
        TokenClass::Semicolon => Some(declarations::EXTERNAL_DECLARATION[0].items),
        TokenClass::StaticAssertKeyword => Some(declarations::EXTERNAL_DECLARATION[1].items),
        TokenClass::TypedefKeyword
        | TokenClass::ExternKeyword
        | TokenClass::StaticKeyword
        | TokenClass::AutoKeyword
        | TokenClass::RegisterKeyword
        | TokenClass::InlineKeyword
        | TokenClass::NoreturnKeyword
        | TokenClass::ConstKeyword
        | TokenClass::VolatileKeyword
        | TokenClass::RestrictKeyword
        | TokenClass::VoidKeyword
        | TokenClass::CharKeyword
        | TokenClass::ShortKeyword
        | TokenClass::IntKeyword
        | TokenClass::LongKeyword
        | TokenClass::SignedKeyword
        | TokenClass::UnsignedKeyword
        | TokenClass::BoolKeyword
        | TokenClass::StructKeyword
        | TokenClass::UnionKeyword => Some(declarations::EXTERNAL_DECLARATION[2].items),
        TokenClass::EnumKeyword
        | TokenClass::TypeofKeyword
        | TokenClass::TypedefName
        | TokenClass::AttributeKeyword
        | TokenClass::Star
        | TokenClass::LeftParenthesis
        | TokenClass::Identifier => Some(declarations::EXTERNAL_DECLARATION[2].items),
        _ => None,
    }
}

/// What stands behind the specifiers of an external declaration.
pub(crate) fn choose_external_declarators(next: TokenClass) -> Option<&'static [ProductionItem]>
    ensures { (behind : TokenClass) → choice symbols.ExternalDeclarators next behind ≡ option_map (λ items. items.now) result }
{
    match next {
        TokenClass::Semicolon => Some(declarations::EXTERNAL_DECLARATORS[0].items),
        TokenClass::Star
        | TokenClass::LeftParenthesis
        | TokenClass::Identifier
        | TokenClass::TypedefName => Some(declarations::EXTERNAL_DECLARATORS[1].items),
        _ => None,
    }
}

/// A body behind the first declarator, or the rest of the declaration.
pub(crate) fn choose_body_or_declarators(next: TokenClass) -> Option<&'static [ProductionItem]>
    ensures { (behind : TokenClass) → choice symbols.BodyOrDeclarators next behind ≡ option_map (λ items. items.now) result }
{
    match next {
        TokenClass::LeftBrace => Some(declarations::BODY_OR_DECLARATORS[0].items),
        TokenClass::Assign | TokenClass::Comma | TokenClass::Semicolon => Some(
            declarations::BODY_OR_DECLARATORS[1].items,
        ),
        _ => None,
    }
}

/// `=` and what a declared object begins with (6.7.9), or nothing.
pub(crate) fn choose_optional_initializer(next: TokenClass) -> Option<&'static [ProductionItem]>
    ensures { (behind : TokenClass) → choice symbols.OptionalInitializer next behind ≡ option_map (λ items. items.now) result }
{
    match next {
        TokenClass::Assign => Some(declarations::OPTIONAL_INITIALIZER[0].items),
        _ => Some(declarations::OPTIONAL_INITIALIZER[1].items),
    }
}

/// The other declarators of a declaration.
pub(crate) fn choose_further_declarators(next: TokenClass) -> Option<&'static [ProductionItem]>
    ensures { (behind : TokenClass) → choice symbols.FurtherDeclarators next behind ≡ option_map (λ items. items.now) result }
{
    match next {
        TokenClass::Comma => Some(declarations::FURTHER_DECLARATORS[0].items),
        _ => Some(declarations::FURTHER_DECLARATORS[1].items),
    }
}
