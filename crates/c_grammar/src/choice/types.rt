// Which row of attributes, `typeof` and type names is taken: the next classes arrive, and one row of `rows/types.rt` leaves,
// or none. What the row says isn't known here.
ghost use Rattle.std.specs.Prelude.{◌≡◌, option_map};
ghost use Rattle.meaning_grammar.specs.Choice.{choice};
ghost use Rattle.vocabulary.specs.declared.symbol.Symbol.TheVariants as symbols;
ghost use Rattle.vocabulary.specs.declared.token_class.TokenClass.{TokenClass};

use crate::classes::{begins_expression, begins_parameter, begins_type, is_attribute_word};
use crate::rows::types;
use vocabulary::{ProductionItem, TokenClass};

/// Attribute lists, or none.
pub(crate) fn choose_attribute_lists(next: TokenClass) -> Option<&'static [ProductionItem]>
    ensures { (behind : TokenClass) → choice symbols.AttributeLists next behind ≡ option_map (λ items. items.now) result }
{
    match next {
        TokenClass::AttributeKeyword => Some(types::ATTRIBUTE_LISTS[0].items),
        _ => Some(types::ATTRIBUTE_LISTS[1].items),
    }
}

/// `__attribute__` and its words between double parentheses.
pub(crate) fn choose_attribute_list(next: TokenClass) -> Option<&'static [ProductionItem]>
    ensures { (behind : TokenClass) → choice symbols.AttributeList next behind ≡ option_map (λ items. items.now) result }
{
    match next {
        TokenClass::AttributeKeyword => Some(types::ATTRIBUTE_LIST[0].items),
        _ => None,
    }
}

/// The words of an attribute list behind a comma, or nothing.
pub(crate) fn choose_further_attributes(next: TokenClass) -> Option<&'static [ProductionItem]>
    ensures { (behind : TokenClass) → choice symbols.FurtherAttributes next behind ≡ option_map (λ items. items.now) result }
{
    match next {
        TokenClass::Comma => Some(types::FURTHER_ATTRIBUTES[0].items),
        _ => Some(types::FURTHER_ATTRIBUTES[1].items),
    }
}

/// A word of an attribute list, or nothing.
pub(crate) fn choose_attribute(next: TokenClass) -> Option<&'static [ProductionItem]>
    ensures { (behind : TokenClass) → choice symbols.Attribute next behind ≡ option_map (λ items. items.now) result }
{
    if is_attribute_word(next) {
        Some(types::ATTRIBUTE[0].items)
    } else {
        Some(types::ATTRIBUTE[1].items)
    }
}

/// The arguments of an attribute, or nothing.
pub(crate) fn choose_attribute_arguments(next: TokenClass) -> Option<&'static [ProductionItem]>
    ensures { (behind : TokenClass) → choice symbols.AttributeArguments next behind ≡ option_map (λ items. items.now) result }
{
    match next {
        TokenClass::LeftParenthesis => Some(types::ATTRIBUTE_ARGUMENTS[0].items),
        _ => Some(types::ATTRIBUTE_ARGUMENTS[1].items),
    }
}

/// Tokens in which parentheses are balanced, or none.
pub(crate) fn choose_balanced_tokens(next: TokenClass) -> Option<&'static [ProductionItem]>
    ensures { (behind : TokenClass) → choice symbols.BalancedTokens next behind ≡ option_map (λ items. items.now) result }
{
    match next {
        TokenClass::LeftParenthesis => Some(types::BALANCED_TOKENS[0].items),
        TokenClass::RightParenthesis => Some(types::BALANCED_TOKENS[2].items),
        TokenClass::End => None,
        _ => Some(types::BALANCED_TOKENS[1].items),
    }
}

/// `typeof`.
pub(crate) fn choose_typeof_specifier(next: TokenClass) -> Option<&'static [ProductionItem]>
    ensures { (behind : TokenClass) → choice symbols.TypeofSpecifier next behind ≡ option_map (λ items. items.now) result }
{
    match next {
        TokenClass::TypeofKeyword => Some(types::TYPEOF_SPECIFIER[0].items),
        _ => None,
    }
}

/// What stands in the parentheses of `typeof`: a type name or an expression.
pub(crate) fn choose_typeof_operand(next: TokenClass) -> Option<&'static [ProductionItem]>
    ensures { (behind : TokenClass) → choice symbols.TypeofOperand next behind ≡ option_map (λ items. items.now) result }
{
    if begins_type(next) {
        Some(types::TYPEOF_OPERAND[0].items)
    } else if begins_expression(next) {
        Some(types::TYPEOF_OPERAND[1].items)
    } else {
        None
    }
}

/// A type name (6.7.7).
pub(crate) fn choose_type_name(next: TokenClass) -> Option<&'static [ProductionItem]>
    ensures { (behind : TokenClass) → choice symbols.TypeName next behind ≡ option_map (λ items. items.now) result }
{
    if begins_parameter(next) {
        Some(types::TYPE_NAME[0].items)
    } else {
        None
    }
}
