// Casts (C11 6.5.4): to void from anything, else between scalar types.
ghost use Rattle.std.specs.Prelude.{◌≡◌, ◌++◌, IfOk, IfSome, OnOk, false, option_map};
ghost use Rattle.meaning_typing.specs.Casts as meaning;
ghost use Rattle.meaning_typing.specs.Declarators.{is_plain_void};
ghost use Rattle.meaning_typing.specs.Facts.{operand_of, place, type_of_value};
ghost use Rattle.meaning_typing.specs.Operators.{IntegerSort, PointerSort, sort_of};
ghost use Rattle.node_facts.specs.Growing.{TypesJoin};
ghost use Rattle.c_types.specs.Table.{IsTypeId, type_at};
ghost use Rattle.expression_rows.specs.Casts.{as_loaded, is_bare_level, named_part};
ghost use Rattle.expression_rows.specs.Facts.{IsValued, valued_part, valued_seen};
ghost use Rattle.expression_rows.specs.Outcomes.{IsKnownOutcome, IsKnownType, given_seen, outcome_seen};
ghost use Rattle.expression_rows.specs.Rows.{IsKnownFailure, IsKnownRow, failure_listed, failures_seen, row_seen, told};
ghost use Rattle.expression_rows.specs.Sorts.{sort_seen, target_if};

use crate::conditional::{address_if, is_constant};
use crate::law::is_zero;
use crate::operand::{is_void, is_zero_number, number_of};
use crate::outcome::{Given, GivenType, Outcome, finish};
use crate::row::{Row, RowFailures, broken_at};
use crate::sort::{ValueSort, sort_of, value_sort};
use crate::spaces::{identity_failure, space_failure};
use crate::truncation::constant_failure;
use crate::value::Valued;
use c_types::Types;
use sparse_model::{ErrorKind, Failure, IntKind, TypeId};
use std::alloc::AllocError;

// Where a cast stands, whether `force` is said in its type name, and the type that is named.
#[derive(Clone, Copy)]
struct Cast {
    token: u32,
    is_forced: bool,
    to: TypeId,
}

// Whether the outermost level of a type is neither const nor volatile.
fn is_unqualified(types: &Types, t: TypeId) -> bool
    requires { IsTypeId types.now t }
    ensures { result ≡ is_bare_level (type_at types.now t) }
{
    let shape = types.shape(t);
    !shape.is_const && !shape.is_volatile
}

// Whether a type is void, without qualifiers and flags.
#[tactic(auto, using(crate::proofs::CastLemmas::plain_void_told))]
fn is_plain_void(types: &Types, t: TypeId) -> bool
    requires { IsTypeId types.now t }
    ensures { result ≡ is_plain_void (type_at types.now t) }
{
    is_void(types, t) && is_unqualified(types, t) && !types.has_flag(t)
}

fn is_plain_void_target(types: &Types, target: Option<TypeId>) -> bool
    requires { IfSome target (IsTypeId types.now) }
    ensures { result ≡ target_if is_plain_void (option_map (type_at types.now) target) }
{
    match target {
        None => false,
        Some(target) => is_plain_void(types, target),
    }
}

// Whether a type is `void *` itself, of which a cast of the constant 0 is a null pointer constant (6.3.2.3 p3).
#[tactic(auto, using(crate::proofs::CastLemmas::void_pointer_told))]
fn is_void_pointer(types: &Types, t: TypeId) -> bool
    requires { IsTypeId types.now t }
    ensures { result ≡ meaning.is_void_pointer (type_at types.now t) }
{
    is_plain_void_target(types, types.target(t)) && is_unqualified(types, t) && !types.has_flag(t)
}

fn is_integer_sort(of: ValueSort) -> bool
    ensures { result ≡ meaning.is_integer_sort (sort_seen of) }
{
    match of {
        ValueSort::Integer(_) => true,
        _ => false,
    }
}

// What is known of a value that is cast to a scalar type.
fn cast_given(types: &Types, to: TypeId, of: Valued) -> Given
    requires to { IsTypeId types.now to }
    requires of { IsValued types.now of }
    ensures given { given_seen types.now result ≡ record (meaning.cast_fact (type_at types.now to) (valued_seen types.now of)) { type_ = type_of_value (place (type_at types.now to)) } }
    ensures known { IsKnownType types.now result.of }
{
    let is_null = is_void_pointer(types, to)
        && is_integer_sort(value_sort(types, of))
        && is_zero_number(number_of(types, of.fact));
    Given {
        is_null,
        address: address_if(is_constant(types, of)),
        ..Given::value(GivenType::Loaded(to))
    }
}

// A restricted type is left or entered, which `force` allows.
fn integer_failure(types: &Types, cast: Cast, of: Valued) -> Option<Failure>
    requires to { IsTypeId types.now cast.to }
    requires of { IsValued types.now of }
    ensures failure { failure_listed types.now result ≡ meaning.unless_forced cast.is_forced (meaning.identity_failures cast.token (operand_of (valued_seen types.now of)).zero (type_of_value (valued_seen types.now of)) (type_at types.now cast.to)) }
    ensures known { IfSome result (IsKnownFailure types.now) }
{
    if cast.is_forced {
        None
    } else {
        identity_failure(types, cast.token, is_zero(types, of), of, cast.to)
    }
}

// An integer of this kind is cast.
fn integer_cast(types: &Types, cast: Cast, of: Valued, kind: IntKind, target: ValueSort) -> Outcome
    requires to { IsTypeId types.now cast.to }
    requires of { IsValued types.now of }
    ensures row { outcome_seen types.now result ≡ told (as_loaded (type_at types.now cast.to) (meaning.scalar_cast cast.token cast.is_forced (type_at types.now cast.to) (valued_seen types.now of) (IntegerSort kind) (sort_seen target))) }
    ensures known { IsKnownOutcome types.now result }
{
    let failures = RowFailures {
        first: integer_failure(types, cast, of),
        second: constant_failure(types, cast.token, of, kind, target),
    };
    Outcome::gives(cast_given(types, cast.to, of), None, failures)
}

// A space is removed or added, or a restricted type entered, which `force` allows.
fn pointer_failures(types: &Types, cast: Cast, of: Valued) -> RowFailures
    requires to { IsTypeId types.now cast.to }
    requires of { IsValued types.now of }
    ensures failures { failures_seen types.now result ≡ meaning.unless_forced cast.is_forced (meaning.space_failures cast.token (type_of_value (valued_seen types.now of)) (type_at types.now cast.to) (meaning.space_behind (type_of_value (valued_seen types.now of))) ++ meaning.identity_failures cast.token false (type_of_value (valued_seen types.now of)) (type_at types.now cast.to)) }
    ensures first { IfSome result.first (IsKnownFailure types.now) }
    ensures second { IfSome result.second (IsKnownFailure types.now) }
{
    if cast.is_forced {
        RowFailures::none()
    } else {
        RowFailures {
            first: space_failure(types, cast.token, of, cast.to),
            second: identity_failure(types, cast.token, false, of, cast.to),
        }
    }
}

// A pointer is cast.
fn pointer_cast(types: &Types, cast: Cast, of: Valued, target: ValueSort) -> Outcome
    requires to { IsTypeId types.now cast.to }
    requires of { IsValued types.now of }
    ensures row { outcome_seen types.now result ≡ told (as_loaded (type_at types.now cast.to) (meaning.scalar_cast cast.token cast.is_forced (type_at types.now cast.to) (valued_seen types.now of) PointerSort (sort_seen target))) }
    ensures known { IsKnownOutcome types.now result }
{
    let failures = pointer_failures(types, cast, of);
    Outcome::gives(cast_given(types, cast.to, of), None, failures)
}

// By what is cast, where a scalar type is named.
fn scalar_cast(types: &Types, cast: Cast, of: Valued, from: ValueSort, target: ValueSort) -> Outcome
    requires to { IsTypeId types.now cast.to }
    requires of { IsValued types.now of }
    ensures row { outcome_seen types.now result ≡ told (as_loaded (type_at types.now cast.to) (meaning.scalar_cast cast.token cast.is_forced (type_at types.now cast.to) (valued_seen types.now of) (sort_seen from) (sort_seen target))) }
    ensures known { IsKnownOutcome types.now result }
{
    match from {
        ValueSort::Integer(kind) => integer_cast(types, cast, of, kind, target),
        ValueSort::Pointer => pointer_cast(types, cast, of, target),
        _ => Outcome::breaks(broken_at(ErrorKind::BadCast, cast.token)),
    }
}

// By what is named.
fn cast_of(types: &Types, cast: Cast, of: Valued, target: ValueSort) -> Outcome
    requires to { IsTypeId types.now cast.to }
    requires of { IsValued types.now of }
    ensures row { outcome_seen types.now result ≡ told (as_loaded (type_at types.now cast.to) (meaning.cast_of cast.token cast.is_forced (type_at types.now cast.to) (valued_seen types.now of) (sort_seen target))) }
    ensures known { IsKnownOutcome types.now result }
{
    match target {
        ValueSort::Void => Outcome::gives(
            Given::value(GivenType::Loaded(cast.to)),
            None,
            RowFailures::none(),
        ),
        ValueSort::Integer(_) => { scalar_cast(types, cast, of, value_sort(types, of), target) }
        ValueSort::Pointer => scalar_cast(types, cast, of, value_sort(types, of), target),
        ValueSort::Other => Outcome::breaks(broken_at(ErrorKind::BadCast, cast.token)),
    }
}

// An operand of which this is known.
#[tactic(auto, using(crate::proofs::CastLemmas::cast_told))]
fn cast_known(types: &Types, cast: Cast, of: Valued) -> Outcome
    requires to { IsTypeId types.now cast.to }
    requires of { IsValued types.now of }
    ensures row { outcome_seen types.now result ≡ told (meaning.cast_of cast.token cast.is_forced (type_at types.now cast.to) (valued_seen types.now of) (sort_of (type_at types.now cast.to))) }
    ensures known { IsKnownOutcome types.now result }
{
    cast_of(types, cast, of, sort_of(types, cast.to))
}

// A type that nothing can be cast to is told of any operand.
fn cast_unknown(types: &Types, token: u32, target: ValueSort) -> Outcome
    ensures row { outcome_seen types.now result ≡ told (meaning.cast_unknown token (sort_seen target)) }
    ensures known { IsKnownOutcome types.now result }
{
    match target {
        ValueSort::Other => Outcome::breaks(broken_at(ErrorKind::BadCast, token)),
        _ => Outcome::nothing(),
    }
}

// Of a type and an operand of which something may be known.
fn cast_if(
    types: &Types,
    token: u32,
    is_forced: bool,
    named: Option<TypeId>,
    operand: Option<Valued>,
) -> Outcome
    requires named { IfSome named (IsTypeId types.now) }
    requires operand { IfSome operand (IsValued types.now) }
    ensures row { outcome_seen types.now result ≡ told (meaning.cast_row token is_forced (named_part types.now named) (valued_part types.now operand)) }
    ensures known { IsKnownOutcome types.now result }
{
    match (named, operand) {
        (Some(to), Some(of)) => {
            let cast = Cast {
                token,
                is_forced,
                to,
            };
            cast_known(types, cast, of)
        }
        (Some(to), None) => cast_unknown(types, token, sort_of(types, to)),
        (None, _) => Outcome::nothing(),
    }
}

/// The row of a cast at this token, with `force` in its type name or without, by the type that is named and by what is known of
/// the operand. It takes a few steps.
pub fn judge_cast(
    types: &mut Types,
    token: u32,
    is_forced: bool,
    named: Option<TypeId>,
    operand: Option<Valued>,
) -> Result<Row, AllocError>
    requires named { IfSome named (IsTypeId types.old) }
    requires operand { IfSome operand (IsValued types.old) }
    ensures row { IfOk result (λ row. row_seen types.new row ≡ told (meaning.cast_row token is_forced (named_part types.old named) (valued_part types.old operand))) }
    ensures known { IfOk result (IsKnownRow types.new) }
    ensures keeps { OnOk result (TypesJoin types.old types.new) }
{
    let outcome = cast_if(types, token, is_forced, named, operand);
    finish(types, outcome)
}
