// Which row of statements is taken: the next classes arrive, and one row of `rows/statements.rt` leaves, or none. What the row
// says isn't known here.
ghost use Rattle.std.specs.Prelude.{◌≡◌, option_map};
ghost use Rattle.meaning_grammar.specs.Choice.{choice};
ghost use Rattle.vocabulary.specs.declared.symbol.Symbol.TheVariants as symbols;
ghost use Rattle.vocabulary.specs.declared.token_class.TokenClass.{TokenClass};

use crate::classes::{
    begins_assertion, begins_block_item, begins_declaration, begins_label, begins_other_statement,
    is_right_brace,
};
use crate::rows::statements;
use vocabulary::{ProductionItem, TokenClass};

/// A compound statement, or the body of a function (6.8.2).
pub(crate) fn choose_compound_statement(next: TokenClass) -> Option<&'static [ProductionItem]>
    ensures { (behind : TokenClass) → choice symbols.CompoundStatement next behind ≡ option_map (λ items. items.now) result }
{
    match next {
        TokenClass::LeftBrace => Some(statements::COMPOUND_STATEMENT[0].items),
        _ => None,
    }
}

/// The declarations and statements of a body, or none.
pub(crate) fn choose_block_items(next: TokenClass) -> Option<&'static [ProductionItem]>
    ensures { (behind : TokenClass) → choice symbols.BlockItems next behind ≡ option_map (λ items. items.now) result }
{
    if begins_block_item(next) {
        Some(statements::BLOCK_ITEMS[0].items)
    } else if is_right_brace(next) {
        Some(statements::BLOCK_ITEMS[1].items)
    } else {
        None
    }
}

/// A declaration or a statement of a body.
pub(crate) fn choose_block_item(
    next: TokenClass,
    behind: TokenClass,
) -> Option<&'static [ProductionItem]>
    ensures { choice symbols.BlockItem next behind ≡ option_map (λ items. items.now) result }
{
    if begins_label(next, behind) {
        Some(statements::BLOCK_ITEM[0].items)
    } else if begins_assertion(next) {
        Some(statements::BLOCK_ITEM[1].items)
    } else if begins_declaration(next, behind) {
        Some(statements::BLOCK_ITEM[2].items)
    } else if begins_other_statement(next, behind) {
        Some(statements::BLOCK_ITEM[3].items)
    } else {
        None
    }
}

/// A declaration in a body or a `for` (6.7).
pub(crate) fn choose_declaration(next: TokenClass) -> Option<&'static [ProductionItem]>
    ensures { (behind : TokenClass) → choice symbols.Declaration next behind ≡ option_map (λ items. items.now) result }
{
    match next {
        TokenClass::Semicolon
        | TokenClass::TypedefKeyword
        | TokenClass::ExternKeyword
        | TokenClass::StaticKeyword
        | TokenClass::AutoKeyword
        | TokenClass::RegisterKeyword
        | TokenClass::InlineKeyword
        | TokenClass::NoreturnKeyword
        | TokenClass::ConstKeyword
        | TokenClass::VolatileKeyword
        | TokenClass::RestrictKeyword
        | TokenClass::VoidKeyword
        | TokenClass::CharKeyword
        | TokenClass::ShortKeyword
        | TokenClass::IntKeyword
        | TokenClass::LongKeyword
        | TokenClass::SignedKeyword
        | TokenClass::UnsignedKeyword
        | TokenClass::BoolKeyword
        | TokenClass::StructKeyword => Some(statements::DECLARATION[0].items),
        TokenClass::UnionKeyword
        | TokenClass::EnumKeyword
        | TokenClass::TypeofKeyword
        | TokenClass::TypedefName
        | TokenClass::AttributeKeyword
        | TokenClass::Star
        | TokenClass::LeftParenthesis
        | TokenClass::Identifier => Some(statements::DECLARATION[0].items),
        _ => None,
    }
}

/// What stands behind the specifiers of a declaration in a body.
pub(crate) fn choose_declarators(next: TokenClass) -> Option<&'static [ProductionItem]>
    ensures { (behind : TokenClass) → choice symbols.Declarators next behind ≡ option_map (λ items. items.now) result }
{
    match next {
        TokenClass::Semicolon => Some(statements::DECLARATORS[0].items),
        TokenClass::Star
        | TokenClass::LeftParenthesis
        | TokenClass::Identifier
        | TokenClass::TypedefName => Some(statements::DECLARATORS[1].items),
        _ => None,
    }
}

/// A statement (6.8).
pub(crate) fn choose_statement(
    next: TokenClass,
    behind: TokenClass,
) -> Option<&'static [ProductionItem]>
    ensures { choice symbols.Statement next behind ≡ option_map (λ items. items.now) result }
{
    match next {
        TokenClass::Identifier => match behind {
            TokenClass::Colon => Some(statements::STATEMENT[0].items),
            _ => Some(statements::STATEMENT[15].items),
        },
        TokenClass::TypedefName => Some(statements::STATEMENT[0].items),
        TokenClass::CaseKeyword => Some(statements::STATEMENT[1].items),
        TokenClass::DefaultKeyword => Some(statements::STATEMENT[2].items),
        TokenClass::LeftBrace => Some(statements::STATEMENT[3].items),
        TokenClass::IfKeyword => Some(statements::STATEMENT[4].items),
        TokenClass::SwitchKeyword => Some(statements::STATEMENT[5].items),
        TokenClass::WhileKeyword => Some(statements::STATEMENT[6].items),
        TokenClass::DoKeyword => Some(statements::STATEMENT[7].items),
        TokenClass::ForKeyword => Some(statements::STATEMENT[8].items),
        TokenClass::GotoKeyword => Some(statements::STATEMENT[9].items),
        TokenClass::ContinueKeyword => Some(statements::STATEMENT[10].items),
        TokenClass::BreakKeyword => Some(statements::STATEMENT[11].items),
        TokenClass::ReturnKeyword => Some(statements::STATEMENT[12].items),
        TokenClass::ContextKeyword => Some(statements::STATEMENT[13].items),
        TokenClass::AttributeKeyword => Some(statements::STATEMENT[14].items),
        TokenClass::Semicolon
        | TokenClass::LeftParenthesis
        | TokenClass::Number
        | TokenClass::Character
        | TokenClass::String
        | TokenClass::Ampersand
        | TokenClass::Star
        | TokenClass::Plus
        | TokenClass::Minus
        | TokenClass::Tilde
        | TokenClass::Exclamation
        | TokenClass::PlusPlus
        | TokenClass::MinusMinus
        | TokenClass::SizeofKeyword
        | TokenClass::AlignofKeyword
        | TokenClass::BuiltinExpectKeyword
        | TokenClass::BuiltinOffsetofKeyword => Some(statements::STATEMENT[15].items),
        _ => None,
    }
}

/// `else` and a statement, or nothing.
pub(crate) fn choose_optional_else(next: TokenClass) -> Option<&'static [ProductionItem]>
    ensures { (behind : TokenClass) → choice symbols.OptionalElse next behind ≡ option_map (λ items. items.now) result }
{
    match next {
        TokenClass::ElseKeyword => Some(statements::OPTIONAL_ELSE[0].items),
        _ => Some(statements::OPTIONAL_ELSE[1].items),
    }
}

/// What a `for` begins with, with its semicolon (6.8.5.3).
pub(crate) fn choose_for_initialization(next: TokenClass) -> Option<&'static [ProductionItem]>
    ensures { (behind : TokenClass) → choice symbols.ForInitialization next behind ≡ option_map (λ items. items.now) result }
{
    match next {
        TokenClass::TypedefKeyword
        | TokenClass::ExternKeyword
        | TokenClass::StaticKeyword
        | TokenClass::AutoKeyword
        | TokenClass::RegisterKeyword
        | TokenClass::InlineKeyword
        | TokenClass::NoreturnKeyword
        | TokenClass::ConstKeyword
        | TokenClass::VolatileKeyword
        | TokenClass::RestrictKeyword
        | TokenClass::VoidKeyword
        | TokenClass::CharKeyword
        | TokenClass::ShortKeyword
        | TokenClass::IntKeyword
        | TokenClass::LongKeyword
        | TokenClass::SignedKeyword
        | TokenClass::UnsignedKeyword
        | TokenClass::BoolKeyword
        | TokenClass::StructKeyword
        | TokenClass::UnionKeyword => Some(statements::FOR_INITIALIZATION[0].items),
        TokenClass::EnumKeyword
        | TokenClass::TypeofKeyword
        | TokenClass::TypedefName
        | TokenClass::AttributeKeyword => Some(statements::FOR_INITIALIZATION[0].items),
        TokenClass::Semicolon
        | TokenClass::Identifier
        | TokenClass::LeftParenthesis
        | TokenClass::Number
        | TokenClass::Character
        | TokenClass::String
        | TokenClass::Ampersand
        | TokenClass::Star
        | TokenClass::Plus
        | TokenClass::Minus
        | TokenClass::Tilde
        | TokenClass::Exclamation
        | TokenClass::PlusPlus
        | TokenClass::MinusMinus
        | TokenClass::SizeofKeyword
        | TokenClass::AlignofKeyword
        | TokenClass::BuiltinExpectKeyword
        | TokenClass::BuiltinOffsetofKeyword => Some(statements::FOR_INITIALIZATION[1].items),
        _ => None,
    }
}

/// An expression, or nothing.
pub(crate) fn choose_optional_expression(next: TokenClass) -> Option<&'static [ProductionItem]>
    ensures { (behind : TokenClass) → choice symbols.OptionalExpression next behind ≡ option_map (λ items. items.now) result }
{
    match next {
        TokenClass::Semicolon | TokenClass::RightParenthesis => Some(
            statements::OPTIONAL_EXPRESSION[0].items,
        ),
        TokenClass::Identifier
        | TokenClass::LeftParenthesis
        | TokenClass::Number
        | TokenClass::Character
        | TokenClass::String
        | TokenClass::Ampersand
        | TokenClass::Star
        | TokenClass::Plus
        | TokenClass::Minus
        | TokenClass::Tilde
        | TokenClass::Exclamation
        | TokenClass::PlusPlus
        | TokenClass::MinusMinus
        | TokenClass::SizeofKeyword
        | TokenClass::AlignofKeyword
        | TokenClass::BuiltinExpectKeyword
        | TokenClass::BuiltinOffsetofKeyword => Some(statements::OPTIONAL_EXPRESSION[1].items),
        _ => None,
    }
}
