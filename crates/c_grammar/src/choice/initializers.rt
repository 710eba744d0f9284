// Which row of initializers and assertions is taken: the next classes arrive, and one row of `rows/initializers.rt` leaves, or
// none. What the row says isn't known here.
ghost use Rattle.std.specs.Prelude.{◌≡◌, option_map};
ghost use Rattle.meaning_grammar.specs.Choice.{choice};
ghost use Rattle.vocabulary.specs.declared.symbol.Symbol.TheVariants as symbols;
ghost use Rattle.vocabulary.specs.declared.token_class.TokenClass.{TokenClass};

use crate::classes::{begins_expression, is_left_brace};
use crate::rows::initializers;
use vocabulary::{ProductionItem, TokenClass};

/// An initializer (6.7.9).
pub(crate) fn choose_initializer(next: TokenClass) -> Option<&'static [ProductionItem]>
    ensures { (behind : TokenClass) → choice symbols.Initializer next behind ≡ option_map (λ items. items.now) result }
{
    if is_left_brace(next) {
        Some(initializers::INITIALIZER[0].items)
    } else if begins_expression(next) {
        Some(initializers::INITIALIZER[1].items)
    } else {
        None
    }
}

/// The initializers between braces, or none.
pub(crate) fn choose_initializer_items(next: TokenClass) -> Option<&'static [ProductionItem]>
    ensures { (behind : TokenClass) → choice symbols.InitializerItems next behind ≡ option_map (λ items. items.now) result }
{
    match next {
        TokenClass::Dot
        | TokenClass::LeftBracket
        | TokenClass::LeftBrace
        | TokenClass::Identifier
        | TokenClass::LeftParenthesis
        | TokenClass::Number
        | TokenClass::Character
        | TokenClass::String
        | TokenClass::Ampersand
        | TokenClass::Star
        | TokenClass::Plus
        | TokenClass::Minus
        | TokenClass::Tilde
        | TokenClass::Exclamation
        | TokenClass::PlusPlus
        | TokenClass::MinusMinus
        | TokenClass::SizeofKeyword
        | TokenClass::AlignofKeyword
        | TokenClass::BuiltinExpectKeyword
        | TokenClass::BuiltinOffsetofKeyword => Some(initializers::INITIALIZER_ITEMS[0].items),
        TokenClass::RightBrace => Some(initializers::INITIALIZER_ITEMS[1].items),
        _ => None,
    }
}

/// The initializers behind a comma, or nothing; a last comma is allowed.
pub(crate) fn choose_further_initializer_items(
    next: TokenClass,
) -> Option<&'static [ProductionItem]>
    ensures { (behind : TokenClass) → choice symbols.FurtherInitializerItems next behind ≡ option_map (λ items. items.now) result }
{
    match next {
        TokenClass::Comma => Some(initializers::FURTHER_INITIALIZER_ITEMS[0].items),
        _ => Some(initializers::FURTHER_INITIALIZER_ITEMS[1].items),
    }
}

/// An initializer between braces, with its designators.
pub(crate) fn choose_initializer_item(next: TokenClass) -> Option<&'static [ProductionItem]>
    ensures { (behind : TokenClass) → choice symbols.InitializerItem next behind ≡ option_map (λ items. items.now) result }
{
    match next {
        TokenClass::Dot | TokenClass::LeftBracket => Some(initializers::INITIALIZER_ITEM[0].items),
        TokenClass::LeftBrace
        | TokenClass::Identifier
        | TokenClass::LeftParenthesis
        | TokenClass::Number
        | TokenClass::Character
        | TokenClass::String
        | TokenClass::Ampersand
        | TokenClass::Star
        | TokenClass::Plus
        | TokenClass::Minus
        | TokenClass::Tilde
        | TokenClass::Exclamation
        | TokenClass::PlusPlus
        | TokenClass::MinusMinus
        | TokenClass::SizeofKeyword
        | TokenClass::AlignofKeyword
        | TokenClass::BuiltinExpectKeyword
        | TokenClass::BuiltinOffsetofKeyword => Some(initializers::INITIALIZER_ITEM[1].items),
        _ => None,
    }
}

/// A designator: a member or an element (6.7.9).
pub(crate) fn choose_designator(next: TokenClass) -> Option<&'static [ProductionItem]>
    ensures { (behind : TokenClass) → choice symbols.Designator next behind ≡ option_map (λ items. items.now) result }
{
    match next {
        TokenClass::Dot => Some(initializers::DESIGNATOR[0].items),
        TokenClass::LeftBracket => Some(initializers::DESIGNATOR[1].items),
        _ => None,
    }
}

/// Further designators, or none.
pub(crate) fn choose_further_designators(next: TokenClass) -> Option<&'static [ProductionItem]>
    ensures { (behind : TokenClass) → choice symbols.FurtherDesignators next behind ≡ option_map (λ items. items.now) result }
{
    match next {
        TokenClass::Dot | TokenClass::LeftBracket => Some(
            initializers::FURTHER_DESIGNATORS[0].items,
        ),
        _ => Some(initializers::FURTHER_DESIGNATORS[1].items),
    }
}

/// `_Static_assert` (6.7.10).
pub(crate) fn choose_static_assertion(next: TokenClass) -> Option<&'static [ProductionItem]>
    ensures { (behind : TokenClass) → choice symbols.StaticAssertion next behind ≡ option_map (λ items. items.now) result }
{
    match next {
        TokenClass::StaticAssertKeyword => Some(initializers::STATIC_ASSERTION[0].items),
        _ => None,
    }
}
