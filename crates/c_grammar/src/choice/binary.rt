// Which row of binary operators is taken: the next classes arrive, and one row of `rows/binary.rt` leaves, or none. What the
// row says isn't known here.
ghost use Rattle.std.specs.Prelude.{◌≡◌, option_map};
ghost use Rattle.meaning_grammar.specs.Choice.{choice};
ghost use Rattle.vocabulary.specs.declared.symbol.Symbol.TheVariants as symbols;
ghost use Rattle.vocabulary.specs.declared.token_class.TokenClass.{TokenClass};

use crate::classes::begins_expression;
use crate::rows::binary;
use vocabulary::{ProductionItem, TokenClass};

/// An expression of `||` (6.5.14).
pub(crate) fn choose_logical_or_expression(next: TokenClass) -> Option<&'static [ProductionItem]>
    ensures { (behind : TokenClass) → choice symbols.LogicalOrExpression next behind ≡ option_map (λ items. items.now) result }
{
    if begins_expression(next) {
        Some(binary::LOGICAL_OR_EXPRESSION[0].items)
    } else {
        None
    }
}

/// Its operators, each with its right operand, or nothing.
pub(crate) fn choose_logical_or_tail(next: TokenClass) -> Option<&'static [ProductionItem]>
    ensures { (behind : TokenClass) → choice symbols.LogicalOrTail next behind ≡ option_map (λ items. items.now) result }
{
    match next {
        TokenClass::OrOr => Some(binary::LOGICAL_OR_TAIL[0].items),
        _ => Some(binary::LOGICAL_OR_TAIL[1].items),
    }
}

/// An expression of `&&` (6.5.13).
pub(crate) fn choose_logical_and_expression(next: TokenClass) -> Option<&'static [ProductionItem]>
    ensures { (behind : TokenClass) → choice symbols.LogicalAndExpression next behind ≡ option_map (λ items. items.now) result }
{
    if begins_expression(next) {
        Some(binary::LOGICAL_AND_EXPRESSION[0].items)
    } else {
        None
    }
}

/// Its operators, each with its right operand, or nothing.
pub(crate) fn choose_logical_and_tail(next: TokenClass) -> Option<&'static [ProductionItem]>
    ensures { (behind : TokenClass) → choice symbols.LogicalAndTail next behind ≡ option_map (λ items. items.now) result }
{
    match next {
        TokenClass::AndAnd => Some(binary::LOGICAL_AND_TAIL[0].items),
        _ => Some(binary::LOGICAL_AND_TAIL[1].items),
    }
}

/// An expression of `|` (6.5.12).
pub(crate) fn choose_inclusive_or_expression(next: TokenClass) -> Option<&'static [ProductionItem]>
    ensures { (behind : TokenClass) → choice symbols.InclusiveOrExpression next behind ≡ option_map (λ items. items.now) result }
{
    if begins_expression(next) {
        Some(binary::INCLUSIVE_OR_EXPRESSION[0].items)
    } else {
        None
    }
}

/// Its operators, each with its right operand, or nothing.
pub(crate) fn choose_inclusive_or_tail(next: TokenClass) -> Option<&'static [ProductionItem]>
    ensures { (behind : TokenClass) → choice symbols.InclusiveOrTail next behind ≡ option_map (λ items. items.now) result }
{
    match next {
        TokenClass::Bar => Some(binary::INCLUSIVE_OR_TAIL[0].items),
        _ => Some(binary::INCLUSIVE_OR_TAIL[1].items),
    }
}

/// An expression of `^` (6.5.11).
pub(crate) fn choose_exclusive_or_expression(next: TokenClass) -> Option<&'static [ProductionItem]>
    ensures { (behind : TokenClass) → choice symbols.ExclusiveOrExpression next behind ≡ option_map (λ items. items.now) result }
{
    if begins_expression(next) {
        Some(binary::EXCLUSIVE_OR_EXPRESSION[0].items)
    } else {
        None
    }
}

/// Its operators, each with its right operand, or nothing.
pub(crate) fn choose_exclusive_or_tail(next: TokenClass) -> Option<&'static [ProductionItem]>
    ensures { (behind : TokenClass) → choice symbols.ExclusiveOrTail next behind ≡ option_map (λ items. items.now) result }
{
    match next {
        TokenClass::Caret => Some(binary::EXCLUSIVE_OR_TAIL[0].items),
        _ => Some(binary::EXCLUSIVE_OR_TAIL[1].items),
    }
}

/// An expression of binary `&` (6.5.10).
pub(crate) fn choose_and_expression(next: TokenClass) -> Option<&'static [ProductionItem]>
    ensures { (behind : TokenClass) → choice symbols.AndExpression next behind ≡ option_map (λ items. items.now) result }
{
    if begins_expression(next) {
        Some(binary::AND_EXPRESSION[0].items)
    } else {
        None
    }
}

/// Its operators, each with its right operand, or nothing.
pub(crate) fn choose_and_tail(next: TokenClass) -> Option<&'static [ProductionItem]>
    ensures { (behind : TokenClass) → choice symbols.AndTail next behind ≡ option_map (λ items. items.now) result }
{
    match next {
        TokenClass::Ampersand => Some(binary::AND_TAIL[0].items),
        _ => Some(binary::AND_TAIL[1].items),
    }
}

/// An equality expression (6.5.9).
pub(crate) fn choose_equality_expression(next: TokenClass) -> Option<&'static [ProductionItem]>
    ensures { (behind : TokenClass) → choice symbols.EqualityExpression next behind ≡ option_map (λ items. items.now) result }
{
    if begins_expression(next) {
        Some(binary::EQUALITY_EXPRESSION[0].items)
    } else {
        None
    }
}

/// Its operators, each with its right operand, or nothing.
pub(crate) fn choose_equality_tail(next: TokenClass) -> Option<&'static [ProductionItem]>
    ensures { (behind : TokenClass) → choice symbols.EqualityTail next behind ≡ option_map (λ items. items.now) result }
{
    match next {
        TokenClass::EqualEqual => Some(binary::EQUALITY_TAIL[0].items),
        TokenClass::NotEqual => Some(binary::EQUALITY_TAIL[1].items),
        _ => Some(binary::EQUALITY_TAIL[2].items),
    }
}

/// A relational expression (6.5.8).
pub(crate) fn choose_relational_expression(next: TokenClass) -> Option<&'static [ProductionItem]>
    ensures { (behind : TokenClass) → choice symbols.RelationalExpression next behind ≡ option_map (λ items. items.now) result }
{
    if begins_expression(next) {
        Some(binary::RELATIONAL_EXPRESSION[0].items)
    } else {
        None
    }
}

/// Its operators, each with its right operand, or nothing.
pub(crate) fn choose_relational_tail(next: TokenClass) -> Option<&'static [ProductionItem]>
    ensures { (behind : TokenClass) → choice symbols.RelationalTail next behind ≡ option_map (λ items. items.now) result }
{
    match next {
        TokenClass::Less => Some(binary::RELATIONAL_TAIL[0].items),
        TokenClass::Greater => Some(binary::RELATIONAL_TAIL[1].items),
        TokenClass::LessEqual => Some(binary::RELATIONAL_TAIL[2].items),
        TokenClass::GreaterEqual => Some(binary::RELATIONAL_TAIL[3].items),
        _ => Some(binary::RELATIONAL_TAIL[4].items),
    }
}

/// A shift expression (6.5.7).
pub(crate) fn choose_shift_expression(next: TokenClass) -> Option<&'static [ProductionItem]>
    ensures { (behind : TokenClass) → choice symbols.ShiftExpression next behind ≡ option_map (λ items. items.now) result }
{
    if begins_expression(next) {
        Some(binary::SHIFT_EXPRESSION[0].items)
    } else {
        None
    }
}

/// Its operators, each with its right operand, or nothing.
pub(crate) fn choose_shift_tail(next: TokenClass) -> Option<&'static [ProductionItem]>
    ensures { (behind : TokenClass) → choice symbols.ShiftTail next behind ≡ option_map (λ items. items.now) result }
{
    match next {
        TokenClass::ShiftLeft => Some(binary::SHIFT_TAIL[0].items),
        TokenClass::ShiftRight => Some(binary::SHIFT_TAIL[1].items),
        _ => Some(binary::SHIFT_TAIL[2].items),
    }
}

/// An additive expression (6.5.6).
pub(crate) fn choose_additive_expression(next: TokenClass) -> Option<&'static [ProductionItem]>
    ensures { (behind : TokenClass) → choice symbols.AdditiveExpression next behind ≡ option_map (λ items. items.now) result }
{
    if begins_expression(next) {
        Some(binary::ADDITIVE_EXPRESSION[0].items)
    } else {
        None
    }
}

/// Its operators, each with its right operand, or nothing.
pub(crate) fn choose_additive_tail(next: TokenClass) -> Option<&'static [ProductionItem]>
    ensures { (behind : TokenClass) → choice symbols.AdditiveTail next behind ≡ option_map (λ items. items.now) result }
{
    match next {
        TokenClass::Plus => Some(binary::ADDITIVE_TAIL[0].items),
        TokenClass::Minus => Some(binary::ADDITIVE_TAIL[1].items),
        _ => Some(binary::ADDITIVE_TAIL[2].items),
    }
}

/// A multiplicative expression (6.5.5).
pub(crate) fn choose_multiplicative_expression(
    next: TokenClass,
) -> Option<&'static [ProductionItem]>
    ensures { (behind : TokenClass) → choice symbols.MultiplicativeExpression next behind ≡ option_map (λ items. items.now) result }
{
    if begins_expression(next) {
        Some(binary::MULTIPLICATIVE_EXPRESSION[0].items)
    } else {
        None
    }
}

/// Its operators, each with its right operand, or nothing.
pub(crate) fn choose_multiplicative_tail(next: TokenClass) -> Option<&'static [ProductionItem]>
    ensures { (behind : TokenClass) → choice symbols.MultiplicativeTail next behind ≡ option_map (λ items. items.now) result }
{
    match next {
        TokenClass::Star => Some(binary::MULTIPLICATIVE_TAIL[0].items),
        TokenClass::Slash => Some(binary::MULTIPLICATIVE_TAIL[1].items),
        TokenClass::Percent => Some(binary::MULTIPLICATIVE_TAIL[2].items),
        _ => Some(binary::MULTIPLICATIVE_TAIL[3].items),
    }
}
