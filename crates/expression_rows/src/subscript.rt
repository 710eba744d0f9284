// Subscripts (C11 6.5.2.1).
ghost use Rattle.std.specs.Prelude.{◌≡◌, ◌&&◌, IfSome, None, Some, is_some, option_map};
ghost use Rattle.vocabulary.specs.declared.operator.Operator.TheVariants as operators;
ghost use Rattle.meaning_operands.specs.Answers.{operator_answer};
ghost use Rattle.meaning_typing.specs.Expressions as meaning;
ghost use Rattle.meaning_typing.specs.Facts.{operand_of, type_of_value};
ghost use Rattle.c_types.specs.Table.{IsTypeId, type_at};
ghost use Rattle.node_facts.specs.Facts.{IsKnownFact, addressed_seen, fact_seen};
ghost use Rattle.expression_rows.specs.Facts.{IsValued, valued_part, valued_seen};
ghost use Rattle.expression_rows.specs.Parts.{element_given, elements_of, restricted_in, subscript_with};
ghost use Rattle.expression_rows.specs.Rows.{IsKnownFailure, IsKnownRow, failure_listed, row_seen, told};

use crate::operand::{
    is_array, is_integer_value, is_restricted_value, number_of, operand_of, target_of_value,
    void_used,
};
use crate::row::{Row, RowFailures, broken_at, failed, lesser};
use crate::value::Valued;
use bitwise_rules::operator_rule;
use c_types::Types;
use node_facts::{Addressed, ExpressionFact, ExpressionMarks};
use sparse_model::{ErrorKind, Failure, RuleCode, TypeId};
use vocabulary::Operator;

/// Where a subscript stands: the token of the `[`, and those of the operands.
#[derive(Clone, Copy)]
pub struct SubscriptTokens {
    pub token: u32,
    pub first: u32,
    pub second: u32,
}

fn element_address(is_constant: bool, address: Addressed) -> Addressed
    ensures { addressed_seen result ≡ meaning.element_address is_constant (addressed_seen address) }
{
    match (is_constant, address) {
        (true, Addressed::ConstantPlace) => Addressed::ConstantPlace,
        _ => Addressed::NotAddress,
    }
}

// A place of array type: its elements lie in it.
fn is_array_place(types: &Types, array: ExpressionFact) -> bool
    requires { IsKnownFact types.now array }
    ensures { result ≡ meaning.is_array_place (fact_seen types.now array) }
{
    array.marks.is_place && is_array(types, array.node.of)
}

// What is known of an element.
fn element_of(
    types: &Types,
    array: ExpressionFact,
    index: ExpressionFact,
    element: TypeId,
) -> ExpressionFact
    requires array { IsKnownFact types.now array }
    requires index { IsKnownFact types.now index }
    ensures element { fact_seen types.now result ≡ meaning.element_of (fact_seen types.now array) (fact_seen types.now index) (type_at types.now element) }
    ensures same { result.node.of ≡ element }
{
    let in_place = is_array_place(types, array);
    let is_constant = number_of(types, index).is_some();
    let marks = ExpressionMarks {
        is_place: true,
        is_register: in_place && array.marks.is_register,
        address: element_address(in_place && is_constant, array.marks.address),
        ..ExpressionMarks::none()
    };
    ExpressionFact {
        marks,
        ..ExpressionFact::value(element)
    }
}

/// The first restricted one of two operands.
pub fn restricted_of(types: &Types, left: Valued, right: Valued) -> TypeId
    requires left { IsValued types.now left }
    requires right { IsValued types.now right }
    ensures restricted { type_at types.now result ≡ restricted_in (type_of_value (valued_seen types.now left)) (type_of_value (valued_seen types.now right)) }
    ensures known { IsTypeId types.now result }
{
    if is_restricted_value(types, left) {
        left.value
    } else {
        right.value
    }
}

// A restricted index is told.
fn index_failure(
    types: &Types,
    token: u32,
    left: Valued,
    right: Valued,
    rule: Option<RuleCode>,
) -> Option<Failure>
    requires left { IsValued types.now left }
    requires right { IsValued types.now right }
    ensures failure { failure_listed types.now result ≡ meaning.index_failures token (valued_seen types.now left) (valued_seen types.now right) rule }
    ensures known { IfSome result (IsKnownFailure types.now) }
{
    match rule {
        None => None,
        Some(rule) => Some(failed(
            rule,
            token,
            0,
            Some(restricted_of(types, left, right)),
            None,
        )),
    }
}

// The rule that the operands break.
fn subscript_rule(types: &Types, left: Valued, right: Valued) -> Option<RuleCode>
    requires left { IsValued types.now left }
    requires right { IsValued types.now right }
    ensures { result ≡ (operator_answer operators.Subscript (operand_of (valued_seen types.now left)) (operand_of (valued_seen types.now right))).rule }
{
    operator_rule(
        types,
        Operator::Subscript,
        operand_of(types, left),
        operand_of(types, right),
    )
    .rule
}

// An element of this type, of an array and at an index that are the two operands in either order.
fn element_row(types: &Types, token: u32, left: Valued, right: Valued, fact: ExpressionFact) -> Row
    requires left { IsValued types.now left }
    requires right { IsValued types.now right }
    requires fact { IsKnownFact types.now fact }
    ensures row { row_seen types.now result ≡ told (element_given token (valued_seen types.now left) (valued_seen types.now right) (fact_seen types.now fact)) }
    ensures known { IsKnownRow types.now result }
{
    let rule = subscript_rule(types, left, right);
    let failure = index_failure(types, token, left, right, rule);
    Row::gives(fact, None, RowFailures::only(failure))
}

// Neither is a pointer beside an integer.
fn no_element(types: &Types, at: SubscriptTokens, left: Valued, right: Valued) -> Row
    requires left { IsValued types.now left }
    requires right { IsValued types.now right }
    ensures row { row_seen types.now result ≡ told (meaning.no_element at.token at.first at.second (valued_seen types.now left) (valued_seen types.now right)) }
    ensures known { IsKnownRow types.now result }
{
    let used = lesser(
        void_used(types, at.first, left),
        void_used(types, at.second, right),
    );
    Row::breaks(
        lesser(broken_at(ErrorKind::CannotDereference, at.token), used),
        RowFailures::none(),
    )
}

// The elements to which a value points, where the other one is an integer.
fn elements_of(types: &Types, of: Valued, other: Valued) -> Option<TypeId>
    requires of { IsValued types.now of }
    requires other { IsValued types.now other }
    ensures elements { option_map (type_at types.now) result ≡ elements_of (type_of_value (valued_seen types.now of)) (type_of_value (valued_seen types.now other)) }
    ensures known { IfSome result (IsTypeId types.now) }
{
    if is_integer_value(types, other) {
        target_of_value(types, of)
    } else {
        None
    }
}

// By the elements to which either operand points.
fn subscript_with(
    types: &Types,
    at: SubscriptTokens,
    left: Valued,
    right: Valued,
    elements: (Option<TypeId>, Option<TypeId>),
) -> Row
    requires left { IsValued types.now left }
    requires right { IsValued types.now right }
    requires first { IfSome elements.0 (IsTypeId types.now) }
    requires second { IfSome elements.1 (IsTypeId types.now) }
    ensures row { row_seen types.now result ≡ told (subscript_with at.token at.first at.second (valued_seen types.now left) (valued_seen types.now right) (option_map (type_at types.now) elements.0) (option_map (type_at types.now) elements.1)) }
    ensures known { IsKnownRow types.now result }
{
    match elements {
        (Some(element), _) => {
            let fact = element_of(types, left.fact, right.fact, element);
            element_row(types, at.token, left, right, fact)
        }
        (None, Some(element)) => {
            let fact = element_of(types, right.fact, left.fact, element);
            element_row(types, at.token, left, right, fact)
        }
        (None, None) => no_element(types, at, left, right),
    }
}

// The row of two operands of which something is known.
#[tactic(auto, using(crate::proofs::PartLemmas::subscript_told))]
fn subscript_of(types: &Types, at: SubscriptTokens, left: Valued, right: Valued) -> Row
    requires left { IsValued types.now left }
    requires right { IsValued types.now right }
    ensures row { row_seen types.now result ≡ told (meaning.subscript_row at.token at.first at.second (valued_part types.now (Some left)) (valued_part types.now (Some right))) }
    ensures known { IsKnownRow types.now result }
{
    let elements = (
        elements_of(types, left, right),
        elements_of(types, right, left),
    );
    subscript_with(types, at, left, right, elements)
}

/// The row of a subscript.
pub fn judge_subscript(
    types: &Types,
    at: SubscriptTokens,
    left: Option<Valued>,
    right: Option<Valued>,
) -> Row
    requires left { IfSome left (IsValued types.now) }
    requires right { IfSome right (IsValued types.now) }
    ensures row { row_seen types.now result ≡ told (meaning.subscript_row at.token at.first at.second (valued_part types.now left) (valued_part types.now right)) }
    ensures known { IsKnownRow types.now result }
{
    match (left, right) {
        (Some(left), Some(right)) => subscript_of(types, at, left, right),
        (Some(_), None) => Row::nothing(),
        (None, _) => Row::nothing(),
    }
}
