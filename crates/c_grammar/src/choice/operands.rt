// Which row of casts, unary, postfix and primary expressions is taken: the next classes arrive, and one row of
// `rows/operands.rt` leaves, or none. What the row says isn't known here.
ghost use Rattle.std.specs.Prelude.{◌≡◌, option_map};
ghost use Rattle.meaning_grammar.specs.Choice.{choice};
ghost use Rattle.vocabulary.specs.declared.symbol.Symbol.TheVariants as symbols;
ghost use Rattle.vocabulary.specs.declared.token_class.TokenClass.{TokenClass};

use crate::classes::{begins_expression, is_left_brace, is_right_parenthesis};
use crate::rows::operands;
use vocabulary::{ProductionItem, TokenClass};

/// A cast expression (6.5.4).
pub(crate) fn choose_cast_expression(
    next: TokenClass,
    behind: TokenClass,
) -> Option<&'static [ProductionItem]>
    ensures { choice symbols.CastExpression next behind ≡ option_map (λ items. items.now) result }
{
    match next {
        TokenClass::LeftParenthesis => match behind {
            TokenClass::TypedefKeyword
            | TokenClass::ExternKeyword
            | TokenClass::StaticKeyword
            | TokenClass::AutoKeyword
            | TokenClass::RegisterKeyword
            | TokenClass::InlineKeyword
            | TokenClass::NoreturnKeyword
            | TokenClass::ConstKeyword
            | TokenClass::VolatileKeyword
            | TokenClass::RestrictKeyword
            | TokenClass::VoidKeyword
            | TokenClass::CharKeyword
            | TokenClass::ShortKeyword
            | TokenClass::IntKeyword
            | TokenClass::LongKeyword
            | TokenClass::SignedKeyword
            | TokenClass::UnsignedKeyword
            | TokenClass::BoolKeyword
            | TokenClass::StructKeyword
            | TokenClass::UnionKeyword
            | TokenClass::EnumKeyword
            | TokenClass::TypeofKeyword
            | TokenClass::TypedefName
            | TokenClass::AttributeKeyword => Some(operands::CAST_EXPRESSION[0].items),
            _ => Some(operands::CAST_EXPRESSION[1].items),
        },
        TokenClass::Identifier
        | TokenClass::Number
        | TokenClass::Character
        | TokenClass::String
        | TokenClass::Ampersand
        | TokenClass::Star
        | TokenClass::Plus
        | TokenClass::Minus
        | TokenClass::Tilde
        | TokenClass::Exclamation
        | TokenClass::PlusPlus
        | TokenClass::MinusMinus
        | TokenClass::SizeofKeyword
        | TokenClass::AlignofKeyword
        | TokenClass::BuiltinExpectKeyword
        | TokenClass::BuiltinOffsetofKeyword => Some(operands::CAST_EXPRESSION[1].items),
        _ => None,
    }
}

/// What stands behind a type in parentheses.
pub(crate) fn choose_cast_operand(next: TokenClass) -> Option<&'static [ProductionItem]>
    ensures { (behind : TokenClass) → choice symbols.CastOperand next behind ≡ option_map (λ items. items.now) result }
{
    if is_left_brace(next) {
        Some(operands::CAST_OPERAND[0].items)
    } else if begins_expression(next) {
        Some(operands::CAST_OPERAND[1].items)
    } else {
        None
    }
}

/// Initializers between braces (6.7.9).
pub(crate) fn choose_braced_initializer(next: TokenClass) -> Option<&'static [ProductionItem]>
    ensures { (behind : TokenClass) → choice symbols.BracedInitializer next behind ≡ option_map (λ items. items.now) result }
{
    match next {
        TokenClass::LeftBrace => Some(operands::BRACED_INITIALIZER[0].items),
        _ => None,
    }
}

/// A unary expression (6.5.3).
pub(crate) fn choose_unary_expression(next: TokenClass) -> Option<&'static [ProductionItem]>
    ensures { (behind : TokenClass) → choice symbols.UnaryExpression next behind ≡ option_map (λ items. items.now) result }
{
    match next {
        TokenClass::Ampersand => Some(operands::UNARY_EXPRESSION[0].items),
        TokenClass::Star => Some(operands::UNARY_EXPRESSION[1].items),
        TokenClass::Plus => Some(operands::UNARY_EXPRESSION[2].items),
        TokenClass::Minus => Some(operands::UNARY_EXPRESSION[3].items),
        TokenClass::Tilde => Some(operands::UNARY_EXPRESSION[4].items),
        TokenClass::Exclamation => Some(operands::UNARY_EXPRESSION[5].items),
        TokenClass::PlusPlus => Some(operands::UNARY_EXPRESSION[6].items),
        TokenClass::MinusMinus => Some(operands::UNARY_EXPRESSION[7].items),
        TokenClass::SizeofKeyword => Some(operands::UNARY_EXPRESSION[8].items),
        TokenClass::AlignofKeyword => Some(operands::UNARY_EXPRESSION[9].items),
        TokenClass::Identifier
        | TokenClass::Number
        | TokenClass::Character
        | TokenClass::String
        | TokenClass::LeftParenthesis
        | TokenClass::BuiltinExpectKeyword
        | TokenClass::BuiltinOffsetofKeyword => Some(operands::UNARY_EXPRESSION[10].items),
        _ => None,
    }
}

/// A type in parentheses, or an expression (6.5.3.4).
pub(crate) fn choose_sizeof_operand(
    next: TokenClass,
    behind: TokenClass,
) -> Option<&'static [ProductionItem]>
    ensures { choice symbols.SizeofOperand next behind ≡ option_map (λ items. items.now) result }
{
    match next {
        TokenClass::LeftParenthesis => match behind {
            TokenClass::TypedefKeyword
            | TokenClass::ExternKeyword
            | TokenClass::StaticKeyword
            | TokenClass::AutoKeyword
            | TokenClass::RegisterKeyword
            | TokenClass::InlineKeyword
            | TokenClass::NoreturnKeyword
            | TokenClass::ConstKeyword
            | TokenClass::VolatileKeyword
            | TokenClass::RestrictKeyword
            | TokenClass::VoidKeyword
            | TokenClass::CharKeyword
            | TokenClass::ShortKeyword
            | TokenClass::IntKeyword
            | TokenClass::LongKeyword
            | TokenClass::SignedKeyword
            | TokenClass::UnsignedKeyword
            | TokenClass::BoolKeyword
            | TokenClass::StructKeyword
            | TokenClass::UnionKeyword
            | TokenClass::EnumKeyword
            | TokenClass::TypeofKeyword
            | TokenClass::TypedefName
            | TokenClass::AttributeKeyword => Some(operands::SIZEOF_OPERAND[0].items),
            _ => Some(operands::SIZEOF_OPERAND[1].items),
        },
        TokenClass::Identifier
        | TokenClass::Number
        | TokenClass::Character
        | TokenClass::String
        | TokenClass::Ampersand
        | TokenClass::Star
        | TokenClass::Plus
        | TokenClass::Minus
        | TokenClass::Tilde
        | TokenClass::Exclamation
        | TokenClass::PlusPlus
        | TokenClass::MinusMinus
        | TokenClass::SizeofKeyword
        | TokenClass::AlignofKeyword
        | TokenClass::BuiltinExpectKeyword
        | TokenClass::BuiltinOffsetofKeyword => Some(operands::SIZEOF_OPERAND[1].items),
        _ => None,
    }
}

/// The braces that make a compound literal of the type, or nothing.
pub(crate) fn choose_sizeof_type_end(next: TokenClass) -> Option<&'static [ProductionItem]>
    ensures { (behind : TokenClass) → choice symbols.SizeofTypeEnd next behind ≡ option_map (λ items. items.now) result }
{
    match next {
        TokenClass::LeftBrace => Some(operands::SIZEOF_TYPE_END[0].items),
        _ => Some(operands::SIZEOF_TYPE_END[1].items),
    }
}

/// Postfix operators (6.5.2).
pub(crate) fn choose_postfix_tail(next: TokenClass) -> Option<&'static [ProductionItem]>
    ensures { (behind : TokenClass) → choice symbols.PostfixTail next behind ≡ option_map (λ items. items.now) result }
{
    match next {
        TokenClass::LeftBracket => Some(operands::POSTFIX_TAIL[0].items),
        TokenClass::LeftParenthesis => Some(operands::POSTFIX_TAIL[1].items),
        TokenClass::Dot => Some(operands::POSTFIX_TAIL[2].items),
        TokenClass::Arrow => Some(operands::POSTFIX_TAIL[3].items),
        TokenClass::PlusPlus => Some(operands::POSTFIX_TAIL[4].items),
        TokenClass::MinusMinus => Some(operands::POSTFIX_TAIL[5].items),
        _ => Some(operands::POSTFIX_TAIL[6].items),
    }
}

/// The arguments of a call, or none.
pub(crate) fn choose_arguments(next: TokenClass) -> Option<&'static [ProductionItem]>
    ensures { (behind : TokenClass) → choice symbols.Arguments next behind ≡ option_map (λ items. items.now) result }
{
    if is_right_parenthesis(next) {
        Some(operands::ARGUMENTS[0].items)
    } else if begins_expression(next) {
        Some(operands::ARGUMENTS[1].items)
    } else {
        None
    }
}

/// The arguments behind a comma, or nothing.
pub(crate) fn choose_further_arguments(next: TokenClass) -> Option<&'static [ProductionItem]>
    ensures { (behind : TokenClass) → choice symbols.FurtherArguments next behind ≡ option_map (λ items. items.now) result }
{
    match next {
        TokenClass::Comma => Some(operands::FURTHER_ARGUMENTS[0].items),
        _ => Some(operands::FURTHER_ARGUMENTS[1].items),
    }
}

/// A primary expression (6.5.1), or a builtin.
pub(crate) fn choose_primary_expression(next: TokenClass) -> Option<&'static [ProductionItem]>
    ensures { (behind : TokenClass) → choice symbols.PrimaryExpression next behind ≡ option_map (λ items. items.now) result }
{
    match next {
        TokenClass::Identifier => Some(operands::PRIMARY_EXPRESSION[0].items),
        TokenClass::Number => Some(operands::PRIMARY_EXPRESSION[1].items),
        TokenClass::Character => Some(operands::PRIMARY_EXPRESSION[2].items),
        TokenClass::String => Some(operands::PRIMARY_EXPRESSION[3].items),
        TokenClass::LeftParenthesis => Some(operands::PRIMARY_EXPRESSION[4].items),
        TokenClass::BuiltinExpectKeyword => Some(operands::PRIMARY_EXPRESSION[5].items),
        TokenClass::BuiltinOffsetofKeyword => Some(operands::PRIMARY_EXPRESSION[6].items),
        _ => None,
    }
}

/// The designators behind the first member of `__builtin_offsetof`.
pub(crate) fn choose_offsetof_designators(next: TokenClass) -> Option<&'static [ProductionItem]>
    ensures { (behind : TokenClass) → choice symbols.OffsetofDesignators next behind ≡ option_map (λ items. items.now) result }
{
    match next {
        TokenClass::Dot => Some(operands::OFFSETOF_DESIGNATORS[0].items),
        TokenClass::LeftBracket => Some(operands::OFFSETOF_DESIGNATORS[1].items),
        _ => Some(operands::OFFSETOF_DESIGNATORS[2].items),
    }
}

/// What stands behind the parenthesis of an operand.
pub(crate) fn choose_parenthesized_expression(next: TokenClass) -> Option<&'static [ProductionItem]>
    ensures { (behind : TokenClass) → choice symbols.ParenthesizedExpression next behind ≡ option_map (λ items. items.now) result }
{
    if is_left_brace(next) {
        Some(operands::PARENTHESIZED_EXPRESSION[0].items)
    } else if begins_expression(next) {
        Some(operands::PARENTHESIZED_EXPRESSION[1].items)
    } else {
        None
    }
}

/// String literals one behind the other (6.4.5).
pub(crate) fn choose_string_literals(next: TokenClass) -> Option<&'static [ProductionItem]>
    ensures { (behind : TokenClass) → choice symbols.StringLiterals next behind ≡ option_map (λ items. items.now) result }
{
    match next {
        TokenClass::String => Some(operands::STRING_LITERALS[0].items),
        _ => None,
    }
}

/// Further string literals, or none.
pub(crate) fn choose_further_string_literals(next: TokenClass) -> Option<&'static [ProductionItem]>
    ensures { (behind : TokenClass) → choice symbols.FurtherStringLiterals next behind ≡ option_map (λ items. items.now) result }
{
    match next {
        TokenClass::String => Some(operands::FURTHER_STRING_LITERALS[0].items),
        TokenClass::RefusedString => None,
        _ => Some(operands::FURTHER_STRING_LITERALS[1].items),
    }
}
