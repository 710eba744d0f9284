// What operators say by their laws, and how two operands meet.
ghost use Rattle.std.specs.Prelude.{◌≡◌, ◌&&◌, ◌||◌, IfSome, not, option_map};
ghost use Rattle.meaning_rules.specs.Rules.{least_broken};
ghost use Rattle.meaning_typing.specs.Facts.{operand_of, type_of_value};
ghost use Rattle.meaning_typing.specs.Declarators.{is_function};
ghost use Rattle.meaning_types.specs.Spaces.{is_void};
ghost use Rattle.meaning_typing.specs.Operators as meaning;
ghost use Rattle.c_types.specs.Layouts.{told_in};
ghost use Rattle.c_types.specs.Table.{IsTypeId, pointed_at, type_at};
ghost use Rattle.expression_rows.specs.Facts.{IsValued, valued_seen};
ghost use Rattle.expression_rows.specs.Rows.{IsKnownFailure, broken_seen, failure_listed};
ghost use Rattle.expression_rows.specs.Sorts.{target_broken_if, target_if};

use crate::operand::{is_function, is_void, operand_of, target_of_value};
use crate::row::{Broken, broken_at, failed};
use crate::sort::has_no_size;
use crate::subscript::restricted_of;
use crate::value::Valued;
use bitwise_rules::{RuleAnswer, operator_rule};
use c_types::Types;
use space_rules::{have_other_targets, mix_spaces};
use sparse_model::{ErrorKind, Failure, RuleCode, TypeId};
use vocabulary::Operator;

/// What the law of an operator says of its operands.
pub fn answer_of(types: &Types, op: Operator, left: Valued, right: Valued) -> RuleAnswer
    requires left { IsValued types.now left }
    requires right { IsValued types.now right }
    ensures rule { result.rule ≡ (meaning.answer_of op (valued_seen types.now left) (valued_seen types.now right)).rule }
    ensures tested { result.tested ≡ (meaning.answer_of op (valued_seen types.now left) (valued_seen types.now right)).tested }
    ensures fouled { result.fouled ≡ (meaning.answer_of op (valued_seen types.now left) (valued_seen types.now right)).fouled }
{
    operator_rule(types, op, operand_of(types, left), operand_of(types, right))
}

/// Whether a value is the constant 0 of a plain type.
pub fn is_zero(types: &Types, of: Valued) -> bool
    requires { IsValued types.now of }
    ensures { result ≡ (operand_of (valued_seen types.now of)).zero }
{
    operand_of(types, of).zero
}

/// The rule that two operands break: unlike ones are told both, else the first restricted one is.
pub fn operands_failure(
    types: &Types,
    token: u32,
    left: Valued,
    right: Valued,
    rule: Option<RuleCode>,
) -> Option<Failure>
    requires left { IsValued types.now left }
    requires right { IsValued types.now right }
    ensures failure { failure_listed types.now result ≡ meaning.operands_failures token (type_of_value (valued_seen types.now left)) (type_of_value (valued_seen types.now right)) rule }
    ensures known { IfSome result (IsKnownFailure types.now) }
{
    match rule {
        None => None,
        Some(RuleCode::B2) => Some(failed(
            RuleCode::B2,
            token,
            0,
            Some(left.value),
            Some(right.value),
        )),
        Some(rule) => Some(failed(
            rule,
            token,
            0,
            Some(restricted_of(types, left, right)),
            None,
        )),
    }
}

/// A fouled operand is compared or tested.
pub fn tested_failure(
    types: &Types,
    token: u32,
    left: Valued,
    right: Valued,
    tested: bool,
) -> Option<Failure>
    requires left { IsValued types.now left }
    requires right { IsValued types.now right }
    ensures failure { failure_listed types.now result ≡ meaning.tested_failures token (type_of_value (valued_seen types.now left)) (type_of_value (valued_seen types.now right)) tested }
    ensures known { IfSome result (IsKnownFailure types.now) }
{
    if tested {
        Some(failed(
            RuleCode::B5,
            token,
            0,
            Some(restricted_of(types, left, right)),
            None,
        ))
    } else {
        None
    }
}

/// Beside a pointer one of both fails at most.
pub fn failure_beside_pointer(
    types: &Types,
    token: u32,
    left: Valued,
    right: Valued,
    rule: Option<RuleCode>,
    tested: bool,
) -> Option<Failure>
    requires left { IsValued types.now left }
    requires right { IsValued types.now right }
    ensures failure { failure_listed types.now result ≡ meaning.failures_if token (type_of_value (valued_seen types.now left)) (type_of_value (valued_seen types.now right)) rule tested }
    ensures known { IfSome result (IsKnownFailure types.now) }
{
    match rule {
        None => tested_failure(types, token, left, right, tested),
        Some(rule) => operands_failure(types, token, left, right, Some(rule)),
    }
}

/// Two that are unlike meet.
pub fn unlike(types: &Types, token: u32, left: Valued, right: Valued) -> Failure
    requires left { IsValued types.now left }
    requires right { IsValued types.now right }
    ensures failure { failure_listed types.now (Some result) ≡ meaning.unlike token (type_of_value (valued_seen types.now left)) (type_of_value (valued_seen types.now right)) }
    ensures known { IsKnownFailure types.now result }
{
    failed(RuleCode::A3, token, 0, Some(left.value), Some(right.value))
}

/// A pointer meets an integer: the constant 0 becomes a null pointer.
pub fn pointer_meets(types: &Types, token: u32, left: Valued, right: Valued, zero: bool) -> Failure
    requires left { IsValued types.now left }
    requires right { IsValued types.now right }
    ensures failure { failure_listed types.now (Some result) ≡ meaning.pointer_meets token (type_of_value (valued_seen types.now left)) (type_of_value (valued_seen types.now right)) zero }
    ensures known { IsKnownFailure types.now result }
{
    if zero {
        failed(RuleCode::N1, token, 0, None, None)
    } else {
        unlike(types, token, left, right)
    }
}

/// Whether two pointers are unlike: a null pointer constant of type `void *` is unlike none.
pub fn are_unlike(types: &Types, left: Valued, right: Valued) -> bool
    requires left { IsValued types.now left }
    requires right { IsValued types.now right }
    ensures { result ≡ meaning.are_unlike (valued_seen types.now left) (valued_seen types.now right) }
{
    !(left.fact.marks.is_null || right.fact.marks.is_null)
        && (mix_spaces(types, left.value, right.value)
            || have_other_targets(types, left.value, right.value))
}

fn is_void_target(types: &Types, target: Option<TypeId>) -> bool
    requires { IfSome target (IsTypeId types.now) }
    ensures { result ≡ target_if is_void (option_map (type_at types.now) target) }
{
    match target {
        None => false,
        Some(target) => is_void(types, target),
    }
}

fn is_function_target(types: &Types, target: Option<TypeId>) -> bool
    requires { IfSome target (IsTypeId types.now) }
    ensures { result ≡ target_if is_function (option_map (type_at types.now) target) }
{
    match target {
        None => false,
        Some(target) => is_function(types, target),
    }
}

/// Whether a value points to void.
#[tactic(auto, using(crate::proofs::SortLemmas::points_to_void_told))]
pub fn points_to_void(types: &Types, of: Valued) -> bool
    requires { IsValued types.now of }
    ensures { result ≡ meaning.points_to_void (type_of_value (valued_seen types.now of)) }
{
    is_void_target(types, target_of_value(types, of))
}

// Whether a value points to a function.
#[tactic(auto, using(crate::proofs::SortLemmas::points_to_function_told))]
fn points_to_function(types: &Types, of: Valued) -> bool
    requires { IsValued types.now of }
    ensures { result ≡ meaning.points_to_function (type_of_value (valued_seen types.now of)) }
{
    is_function_target(types, target_of_value(types, of))
}

/// Whether two pointers that aren't unlike are compared.
pub fn meet_as_pointers(types: &Types, left: Valued, right: Valued) -> bool
    requires left { IsValued types.now left }
    requires right { IsValued types.now right }
    ensures { result ≡ meaning.meet_as_pointers (valued_seen types.now left) (valued_seen types.now right) }
{
    (left.fact.marks.is_null || right.fact.marks.is_null)
        || (!(points_to_void(types, left) && points_to_function(types, right))
            && !(points_to_function(types, left) && points_to_void(types, right)))
}

fn target_broken_if(types: &Types, token: u32, target: Option<TypeId>) -> Option<Broken>
    requires { IfSome target (IsTypeId types.now) }
    ensures { option_map broken_seen result ≡ least_broken (target_broken_if (told_in types.now) token (option_map (type_at types.now) target)) }
{
    match target {
        None => None,
        Some(target) => {
            if has_no_size(types, target) {
                broken_at(ErrorKind::IncompleteType, token)
            } else {
                None
            }
        }
    }
}

/// Elements to which a pointer is moved have a size.
#[tactic(auto, using(crate::proofs::SortLemmas::target_broken_told))]
pub fn target_broken(types: &Types, token: u32, of: Valued) -> Option<Broken>
    requires { IsValued types.now of }
    ensures { option_map broken_seen result ≡ least_broken (meaning.target_broken (told_in types.now) token (type_of_value (valued_seen types.now of))) }
{
    target_broken_if(types, token, target_of_value(types, of))
}
