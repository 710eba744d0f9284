// Which row of expressions and assignments is taken: the next classes arrive, and one row of `rows/expressions.rt` leaves, or
// none. What the row says isn't known here.
ghost use Rattle.std.specs.Prelude.{◌≡◌, option_map};
ghost use Rattle.meaning_grammar.specs.Choice.{choice};
ghost use Rattle.vocabulary.specs.declared.symbol.Symbol.TheVariants as symbols;
ghost use Rattle.vocabulary.specs.declared.token_class.TokenClass.{TokenClass};

use crate::classes::{begins_expression, is_colon};
use crate::rows::expressions;
use vocabulary::{ProductionItem, TokenClass};

/// An expression (6.5.17).
pub(crate) fn choose_expression(next: TokenClass) -> Option<&'static [ProductionItem]>
    ensures { (behind : TokenClass) → choice symbols.Expression next behind ≡ option_map (λ items. items.now) result }
{
    if begins_expression(next) {
        Some(expressions::EXPRESSION[0].items)
    } else {
        None
    }
}

/// `,` and another operand, any number of times.
pub(crate) fn choose_comma_tail(next: TokenClass) -> Option<&'static [ProductionItem]>
    ensures { (behind : TokenClass) → choice symbols.CommaTail next behind ≡ option_map (λ items. items.now) result }
{
    match next {
        TokenClass::Comma => Some(expressions::COMMA_TAIL[0].items),
        _ => Some(expressions::COMMA_TAIL[1].items),
    }
}

/// An assignment expression (6.5.16).
pub(crate) fn choose_assignment_expression(next: TokenClass) -> Option<&'static [ProductionItem]>
    ensures { (behind : TokenClass) → choice symbols.AssignmentExpression next behind ≡ option_map (λ items. items.now) result }
{
    if begins_expression(next) {
        Some(expressions::ASSIGNMENT_EXPRESSION[0].items)
    } else {
        None
    }
}

/// An assignment operator and its right side, or nothing.
pub(crate) fn choose_assignment_tail(next: TokenClass) -> Option<&'static [ProductionItem]>
    ensures { (behind : TokenClass) → choice symbols.AssignmentTail next behind ≡ option_map (λ items. items.now) result }
{
    match next {
        TokenClass::Assign => Some(expressions::ASSIGNMENT_TAIL[0].items),
        TokenClass::StarAssign => Some(expressions::ASSIGNMENT_TAIL[1].items),
        TokenClass::SlashAssign => Some(expressions::ASSIGNMENT_TAIL[2].items),
        TokenClass::PercentAssign => Some(expressions::ASSIGNMENT_TAIL[3].items),
        TokenClass::PlusAssign => Some(expressions::ASSIGNMENT_TAIL[4].items),
        TokenClass::MinusAssign => Some(expressions::ASSIGNMENT_TAIL[5].items),
        TokenClass::ShiftLeftAssign => Some(expressions::ASSIGNMENT_TAIL[6].items),
        TokenClass::ShiftRightAssign => Some(expressions::ASSIGNMENT_TAIL[7].items),
        TokenClass::AndAssign => Some(expressions::ASSIGNMENT_TAIL[8].items),
        TokenClass::XorAssign => Some(expressions::ASSIGNMENT_TAIL[9].items),
        TokenClass::OrAssign => Some(expressions::ASSIGNMENT_TAIL[10].items),
        _ => Some(expressions::ASSIGNMENT_TAIL[11].items),
    }
}

/// A conditional expression (6.5.15).
pub(crate) fn choose_conditional_expression(next: TokenClass) -> Option<&'static [ProductionItem]>
    ensures { (behind : TokenClass) → choice symbols.ConditionalExpression next behind ≡ option_map (λ items. items.now) result }
{
    if begins_expression(next) {
        Some(expressions::CONDITIONAL_EXPRESSION[0].items)
    } else {
        None
    }
}

/// `?`, `:` and their operands, or nothing.
pub(crate) fn choose_conditional_tail(next: TokenClass) -> Option<&'static [ProductionItem]>
    ensures { (behind : TokenClass) → choice symbols.ConditionalTail next behind ≡ option_map (λ items. items.now) result }
{
    match next {
        TokenClass::Question => Some(expressions::CONDITIONAL_TAIL[0].items),
        _ => Some(expressions::CONDITIONAL_TAIL[1].items),
    }
}

/// The operand between `?` and `:`, which may be left out.
pub(crate) fn choose_middle_operand(next: TokenClass) -> Option<&'static [ProductionItem]>
    ensures { (behind : TokenClass) → choice symbols.MiddleOperand next behind ≡ option_map (λ items. items.now) result }
{
    if is_colon(next) {
        Some(expressions::MIDDLE_OPERAND[0].items)
    } else if begins_expression(next) {
        Some(expressions::MIDDLE_OPERAND[1].items)
    } else {
        None
    }
}
