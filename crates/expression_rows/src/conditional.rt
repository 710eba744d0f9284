// `?:` (C11 6.5.15).
ghost use Rattle.std.specs.Prelude.{◌≡◌, [], IfOk, IfSome, None, OnOk, Some};
ghost use Rattle.meaning_typing.specs.Rows.{gives};
ghost use Rattle.meaning_typing.specs.Conditionals as meaning;
ghost use Rattle.node_facts.specs.Facts.{addressed_seen};
ghost use Rattle.node_facts.specs.Growing.{TypesJoin};
ghost use Rattle.c_types.specs.Table.{IsTypeId, type_at};
ghost use Rattle.expression_rows.specs.Arms.{IsKnownArms, arms_seen, no_arms};
ghost use Rattle.expression_rows.specs.Facts.{IsValued, valued_part, valued_seen};
ghost use Rattle.expression_rows.specs.Outcomes.{IsKnownOutcome, IsKnownType, given_seen, outcome_seen, type_given};
ghost use Rattle.expression_rows.specs.Rows.{IsKnownFailure, IsKnownRow, failure_listed, row_seen, told};
ghost use Rattle.expression_rows.specs.Sorts.{sort_seen};

use crate::binary::{integers_type, value_address};
use crate::law::{
    answer_of, are_unlike, is_zero, meet_as_pointers, operands_failure, pointer_meets,
    points_to_void, unlike,
};
use crate::logical::{condition_broken, condition_failure};
use crate::operand::number_of;
use crate::outcome::{Given, GivenType, Outcome, finish};
use crate::row::{Broken, Row, RowFailures, broken_at, lesser};
use crate::sort::{ValueSort, value_sort};
use crate::value::Valued;
use c_types::Types;
use node_facts::Addressed;
use sparse_model::{ErrorKind, Failure, IntKind, TypeId};
use std::alloc::AllocError;
use vocabulary::Operator;

/// Where `?:` stands, and its operands.
#[derive(Clone, Copy)]
pub struct ConditionalTokens {
    pub token: u32,
    pub first: u32,
    pub second: u32,
    pub third: u32,
}

/// What two arms say.
#[derive(Clone, Copy)]
pub struct Arms {
    pub given: Option<Given>,
    pub broken: Option<Broken>,
    pub failure: Option<Failure>,
}

// Arms of which nothing is known.
fn no_arms(broken: Option<Broken>) -> Arms
    ensures { result ≡ no_arms broken }
{
    Arms {
        given: None,
        broken,
        failure: None,
    }
}

fn is_address(address: Addressed) -> bool
    ensures { result ≡ meaning.is_address (addressed_seen address) }
{
    match address {
        Addressed::ConstantAddress => true,
        _ => false,
    }
}

/// Whether a constant may begin a static object.
pub fn is_constant(types: &Types, of: Valued) -> bool
    requires { IsValued types.now of }
    ensures { result ≡ meaning.is_constant (valued_seen types.now of) }
{
    number_of(types, of.fact).is_some()
        || (of.fact.marks.is_null || is_address(value_address(types, of.fact)))
}

/// The address that is constant, if it is.
pub fn address_if(is_constant: bool) -> Addressed
    ensures { addressed_seen result ≡ meaning.address_if is_constant }
{
    if is_constant {
        Addressed::ConstantAddress
    } else {
        Addressed::NotAddress
    }
}

// The arm that this number chooses.
fn chosen_address_by(types: &Types, number: i128, left: Valued, right: Valued) -> Addressed
    requires left { IsValued types.now left }
    requires right { IsValued types.now right }
    ensures { addressed_seen result ≡ meaning.chosen_address (Some number) (valued_seen types.now left) (valued_seen types.now right) }
{
    if number == 0 {
        address_if(is_constant(types, right))
    } else {
        address_if(is_constant(types, left))
    }
}

// The arm that a constant condition chooses may be a constant address.
fn chosen_address(types: &Types, condition: Option<i128>, left: Valued, right: Valued) -> Addressed
    requires left { IsValued types.now left }
    requires right { IsValued types.now right }
    ensures { addressed_seen result ≡ meaning.chosen_address condition (valued_seen types.now left) (valued_seen types.now right) }
{
    match condition {
        None => Addressed::NotAddress,
        Some(number) => chosen_address_by(types, number, left, right),
    }
}

// What is known of the chosen arm, in this type.
fn arm_given(
    types: &Types,
    condition: Option<i128>,
    left: Valued,
    right: Valued,
    of: GivenType,
) -> Given
    requires left { IsValued types.now left }
    requires right { IsValued types.now right }
    requires of { IsKnownType types.now of }
    ensures given { given_seen types.now result ≡ meaning.arm_given condition (valued_seen types.now left) (valued_seen types.now right) (type_given types.now of) }
    ensures known { IsKnownType types.now result.of }
{
    let fouled = answer_of(types, Operator::Conditional, left, right).fouled;
    Given {
        fouled,
        address: chosen_address(types, condition, left, right),
        ..Given::value(of)
    }
}

// An arm in this type, where this fails.
fn arms_given(
    types: &Types,
    condition: Option<i128>,
    arms: (Valued, Valued),
    of: GivenType,
    failure: Option<Failure>,
) -> Arms
    requires left { IsValued types.now arms.0 }
    requires right { IsValued types.now arms.1 }
    requires of { IsKnownType types.now of }
    requires failure { IfSome failure (IsKnownFailure types.now) }
    ensures arms { arms_seen types.now result ≡ told (gives (meaning.arm_given condition (valued_seen types.now arms.0) (valued_seen types.now arms.1) (type_given types.now of)) [] (failure_listed types.now failure)) }
    ensures known { IsKnownArms types.now result }
{
    let given = arm_given(types, condition, arms.0, arms.1, of);
    Arms {
        given: Some(given),
        broken: None,
        failure,
    }
}

// The type of two pointers.
fn pointers_type(types: &Types, left: Valued, right: Valued) -> TypeId
    requires left { IsValued types.now left }
    requires right { IsValued types.now right }
    ensures of { type_at types.now result ≡ meaning.pointers_type (valued_seen types.now left) (valued_seen types.now right) }
    ensures known { IsTypeId types.now result }
{
    if right.fact.marks.is_null {
        left.value
    } else if left.fact.marks.is_null {
        right.value
    } else if points_to_void(types, left) {
        left.value
    } else if points_to_void(types, right) {
        right.value
    } else {
        left.value
    }
}

// Two pointers.
fn pointer_arms(
    types: &Types,
    condition: Option<i128>,
    token: u32,
    left: Valued,
    right: Valued,
) -> Arms
    requires left { IsValued types.now left }
    requires right { IsValued types.now right }
    ensures arms { arms_seen types.now result ≡ told (meaning.pointer_arms condition token (valued_seen types.now left) (valued_seen types.now right)) }
    ensures known { IsKnownArms types.now result }
{
    let of = GivenType::Same(pointers_type(types, left, right));
    if are_unlike(types, left, right) {
        let failure = unlike(types, token, left, right);
        arms_given(types, condition, (left, right), of, Some(failure))
    } else if meet_as_pointers(types, left, right) {
        arms_given(types, condition, (left, right), of, None)
    } else {
        no_arms(broken_at(ErrorKind::WrongOperandTypes, token))
    }
}

// A pointer and an integer.
fn pointer_and_integer(
    types: &Types,
    condition: Option<i128>,
    token: u32,
    arms: (Valued, Valued),
    pointer: Valued,
    zero: bool,
) -> Arms
    requires left { IsValued types.now arms.0 }
    requires right { IsValued types.now arms.1 }
    requires pointer { IsValued types.now pointer }
    ensures arms { arms_seen types.now result ≡ told (meaning.pointer_and_integer condition token (valued_seen types.now arms.0) (valued_seen types.now arms.1) (valued_seen types.now pointer) zero) }
    ensures known { IsKnownArms types.now result }
{
    let failure = pointer_meets(types, token, arms.0, arms.1, zero);
    let of = if zero { pointer.value } else { arms.0.value };
    arms_given(types, condition, arms, GivenType::Same(of), Some(failure))
}

// Aggregates, and what isn't taken beside them.
fn aggregate_arms(
    types: &Types,
    condition: Option<i128>,
    token: u32,
    left: Valued,
    right: Valued,
) -> Arms
    requires left { IsValued types.now left }
    requires right { IsValued types.now right }
    ensures arms { arms_seen types.now result ≡ told (meaning.aggregate_arms condition token (valued_seen types.now left) (valued_seen types.now right)) }
    ensures known { IsKnownArms types.now result }
{
    if types.same(left.value, right.value) {
        arms_given(
            types,
            condition,
            (left, right),
            GivenType::Same(left.value),
            None,
        )
    } else {
        no_arms(broken_at(ErrorKind::IncompatibleTypes, token))
    }
}

// Two integers of these kinds.
fn integer_arms(
    types: &Types,
    condition: Option<i128>,
    token: u32,
    arms: (Valued, Valued),
    kind: IntKind,
    other: IntKind,
) -> Arms
    requires left { IsValued types.now arms.0 }
    requires right { IsValued types.now arms.1 }
    ensures arms { arms_seen types.now result ≡ told (meaning.integer_arms condition token (valued_seen types.now arms.0) (valued_seen types.now arms.1) kind other) }
    ensures known { IsKnownArms types.now result }
{
    let (left, right) = arms;
    let op = Operator::Conditional;
    let of = integers_type(types, op, left, right, kind, other);
    let rule = answer_of(types, op, left, right).rule;
    let failure = operands_failure(types, token, left, right, rule);
    arms_given(types, condition, arms, of, failure)
}

// By what the arms are.
fn arms_of(
    types: &Types,
    condition: Option<i128>,
    at: ConditionalTokens,
    left: Valued,
    right: Valued,
    of: ValueSort,
    other: ValueSort,
) -> Arms
    requires left { IsValued types.now left }
    requires right { IsValued types.now right }
    ensures arms { arms_seen types.now result ≡ told (meaning.arms_of condition at.token at.second at.third (valued_seen types.now left) (valued_seen types.now right) (sort_seen of) (sort_seen other)) }
    ensures known { IsKnownArms types.now result }
{
    match (of, other) {
        (ValueSort::Void, ValueSort::Void) => Arms {
            given: Some(Given::value(GivenType::Void)),
            broken: None,
            failure: None,
        },
        (ValueSort::Void, _) => no_arms(broken_at(ErrorKind::VoidValueUsed, at.second)),
        (_, ValueSort::Void) => no_arms(broken_at(ErrorKind::VoidValueUsed, at.third)),
        (ValueSort::Integer(kind), ValueSort::Integer(another)) => {
            integer_arms(types, condition, at.token, (left, right), kind, another)
        }
        (ValueSort::Pointer, ValueSort::Pointer) => {
            pointer_arms(types, condition, at.token, left, right)
        }
        (ValueSort::Pointer, ValueSort::Integer(_)) => {
            let zero = is_zero(types, right);
            pointer_and_integer(types, condition, at.token, (left, right), left, zero)
        }
        (ValueSort::Integer(_), ValueSort::Pointer) => {
            let zero = is_zero(types, left);
            pointer_and_integer(types, condition, at.token, (left, right), right, zero)
        }
        _ => aggregate_arms(types, condition, at.token, left, right),
    }
}

// Of arms of which something may be known.
fn arms_if(
    types: &Types,
    condition: Option<i128>,
    at: ConditionalTokens,
    left: Option<Valued>,
    right: Option<Valued>,
) -> Arms
    requires left { IfSome left (IsValued types.now) }
    requires right { IfSome right (IsValued types.now) }
    ensures arms { arms_seen types.now result ≡ told (meaning.arms_row condition at.token at.second at.third (valued_part types.now left) (valued_part types.now right)) }
    ensures known { IsKnownArms types.now result }
{
    match (left, right) {
        (Some(left), Some(right)) => {
            let of = value_sort(types, left);
            let other = value_sort(types, right);
            arms_of(types, condition, at, left, right, of, other)
        }
        (Some(_), None) => no_arms(None),
        (None, _) => no_arms(None),
    }
}

// The condition is tested besides.
fn conditional_of(
    types: &Types,
    at: ConditionalTokens,
    condition: Valued,
    left: Option<Valued>,
    right: Option<Valued>,
) -> Outcome
    requires condition { IsValued types.now condition }
    requires left { IfSome left (IsValued types.now) }
    requires right { IfSome right (IsValued types.now) }
    ensures row { outcome_seen types.now result ≡ told (meaning.conditional_row at.token at.first at.second at.third (valued_part types.now (Some condition)) (valued_part types.now left) (valued_part types.now right)) }
    ensures known { IsKnownOutcome types.now result }
{
    let arms = arms_if(types, number_of(types, condition.fact), at, left, right);
    Outcome {
        given: arms.given,
        broken: lesser(condition_broken(types, at.first, condition), arms.broken),
        failures: RowFailures {
            first: arms.failure,
            second: condition_failure(types, at.token, condition),
        },
    }
}

// Where nothing is known of the condition.
fn without_condition(
    types: &Types,
    at: ConditionalTokens,
    left: Option<Valued>,
    right: Option<Valued>,
) -> Outcome
    requires left { IfSome left (IsValued types.now) }
    requires right { IfSome right (IsValued types.now) }
    ensures row { outcome_seen types.now result ≡ told (meaning.conditional_row at.token at.first at.second at.third (valued_part types.now None) (valued_part types.now left) (valued_part types.now right)) }
    ensures known { IsKnownOutcome types.now result }
{
    let arms = arms_if(types, None, at, left, right);
    Outcome {
        given: None,
        broken: arms.broken,
        failures: RowFailures::only(arms.failure),
    }
}

// Of a condition of which something may be known.
fn conditional_if(
    types: &Types,
    at: ConditionalTokens,
    condition: Option<Valued>,
    left: Option<Valued>,
    right: Option<Valued>,
) -> Outcome
    requires condition { IfSome condition (IsValued types.now) }
    requires left { IfSome left (IsValued types.now) }
    requires right { IfSome right (IsValued types.now) }
    ensures row { outcome_seen types.now result ≡ told (meaning.conditional_row at.token at.first at.second at.third (valued_part types.now condition) (valued_part types.now left) (valued_part types.now right)) }
    ensures known { IsKnownOutcome types.now result }
{
    match condition {
        Some(condition) => conditional_of(types, at, condition, left, right),
        None => without_condition(types, at, left, right),
    }
}

/// The row of `?:`, whose operands stand at their own tokens. Without a middle operand the first is that too. It takes a
/// few steps.
pub fn judge_conditional(
    types: &mut Types,
    at: ConditionalTokens,
    condition: Option<Valued>,
    left: Option<Valued>,
    right: Option<Valued>,
) -> Result<Row, AllocError>
    requires condition { IfSome condition (IsValued types.old) }
    requires left { IfSome left (IsValued types.old) }
    requires right { IfSome right (IsValued types.old) }
    ensures row { IfOk result (λ row. row_seen types.new row ≡ told (meaning.conditional_row at.token at.first at.second at.third (valued_part types.old condition) (valued_part types.old left) (valued_part types.old right))) }
    ensures known { IfOk result (IsKnownRow types.new) }
    ensures keeps { OnOk result (TypesJoin types.old types.new) }
{
    let outcome = conditional_if(types, at, condition, left, right);
    finish(types, outcome)
}
