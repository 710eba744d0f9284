// The steps of `__builtin_offsetof`: to a member, and to an element (C11 7.19 p3).
ghost use Rattle.std.specs.Prelude.{◌≡◌, IfSome, Some, is_some, option_map};
ghost use Rattle.meaning_typing.specs.Facts.{type_of_value};
ghost use Rattle.meaning_typing.specs.OffsetRows as meaning;
ghost use Rattle.meaning_typing.specs.OffsetRows.{ToElement, ToMember};
ghost use Rattle.c_types.specs.Layouts.{told_in};
ghost use Rattle.c_types.specs.Members.{found_seen};
ghost use Rattle.c_types.specs.Table.{IsTypeId, integer_kind, type_at, types_in};
ghost use Rattle.expression_rows.specs.Facts.{IsValued, valued_part, valued_seen};
ghost use Rattle.expression_rows.specs.Rows.{IsKnownFailure, failure_listed};
ghost use Rattle.member_rows.specs.Aggregates.{aggregates_in};
ghost use Rattle.member_rows.specs.Selections.{IsKnownSelection, selection_seen};
ghost use Rattle.member_rows.specs.Steps.{IsKnownReached, IsKnownOffsetStep, element_at_index, element_at_number, element_reached, member_reached, reached_seen, step_seen, to_element_if, to_element_of, walk_told};
ghost use Rattle.node_facts.specs.Facts.{name_seen};

use crate::broken::broken_named;
use crate::element::{bytes_to_element, bytes_to_member};
use crate::reached::{OffsetStep, Reached};
use crate::selection::{Selection, selection_of};
use c_types::{FoundMember, Types};
use expression_rows::{Valued, broken_at, lesser, number_of, void_used};
use node_facts::{ExpressionFact, element_of};
use sparse_model::{ErrorKind, Failure, NameId, RuleCode, TypeId};

// A member that was found.
fn at_member(types: &Types, name: NameId, reached: Reached, found: FoundMember) -> Reached
    requires { IsKnownReached types.now reached }
    ensures seen { reached_seen types.now result ≡ member_reached (aggregates_in types.now) (name_seen name) (reached_seen types.now reached) (found_seen (types_in types.now) found) }
    ensures same { result.of ≡ found.of }
{
    Reached {
        of: found.of,
        width: found.width,
        bytes: bytes_to_member(types, name, reached.of, reached.bytes),
        is_known: reached.is_known,
    }
}

// By what the name names.
fn to_member(
    types: &Types,
    token: u32,
    name: NameId,
    reached: Reached,
    selection: Selection,
) -> OffsetStep
    requires reached { IsKnownReached types.now reached }
    requires selection { IsKnownSelection types.now selection }
    ensures step { step_seen types.now result ≡ walk_told (meaning.to_member (aggregates_in types.now) token (name_seen name) (reached_seen types.now reached) (selection_seen types.now selection)) }
    ensures known { IsKnownOffsetStep types.now result }
{
    match selection {
        Selection::NotAggregate => {
            OffsetStep::stopped(broken_at(ErrorKind::NoAggregate, token), None)
        }
        Selection::NotComplete => {
            OffsetStep::stopped(broken_at(ErrorKind::IncompleteType, token), None)
        }
        Selection::Selected(_, None) => {
            OffsetStep::stopped(broken_named(ErrorKind::NoSuchMember, token, name), None)
        }
        Selection::Selected(_, Some(found)) => {
            OffsetStep::goes_to(at_member(types, name, reached, found), None)
        }
    }
}

/// A step to the member with this name, at the token of its `.`, or at the word for the first one. It takes no memory, and a few
/// steps.
pub fn step_to_member(types: &Types, token: u32, name: NameId, reached: Reached) -> OffsetStep
    requires { IsKnownReached types.now reached }
    ensures step { step_seen types.now result ≡ walk_told (meaning.step_to (aggregates_in types.now) (reached_seen types.now reached) (ToMember token (name_seen name))) }
    ensures known { IsKnownOffsetStep types.now result }
{
    let selection = selection_of(types, name, reached.of);
    to_member(types, token, name, reached, selection)
}

// A restricted index is told.
#[tactic(auto, using(expression_rows::proofs::OperandLemmas::is_restricted_told))]
fn restricted_index(types: &Types, token: u32, index: Valued) -> Option<Failure>
    requires { IsValued types.now index }
    ensures failure { failure_listed types.now result ≡ meaning.restricted_index token (type_of_value (valued_seen types.now index)) }
    ensures known { IfSome result (IsKnownFailure types.now) }
{
    if types.identity(index.value).is_some() {
        Some(Failure {
            token,
            rule: RuleCode::B1,
            part: 0,
            first: Some(index.value),
            second: None,
            name: NameId(0),
            number: 0,
            wanted: 0,
        })
    } else {
        None
    }
}

// An element, before which so many bytes lie.
fn at_element(reached: Reached, element: TypeId, bytes: Option<u64>, is_known: bool) -> Reached
    ensures { result ≡ element_reached reached element bytes is_known }
{
    Reached {
        of: element,
        width: None,
        bytes,
        is_known: reached.is_known && is_known,
    }
}

// An index leads so far, or further than an object has bytes.
fn led_to(
    types: &Types,
    token: u32,
    failure: Option<Failure>,
    reached: Reached,
    element: TypeId,
    bytes: Option<u64>,
) -> OffsetStep
    requires failure { IfSome failure (IsKnownFailure types.now) }
    requires element { IsTypeId types.now element }
    ensures step { step_seen types.now result ≡ walk_told (meaning.led_to token (failure_listed types.now failure) (reached_seen types.now reached) (type_at types.now element) bytes) }
    ensures known { IsKnownOffsetStep types.now result }
{
    match bytes {
        None => OffsetStep::stopped(broken_at(ErrorKind::BadDesignator, token), failure),
        Some(bytes) => {
            OffsetStep::goes_to(at_element(reached, element, Some(bytes), true), failure)
        }
    }
}

// An index is a constant that isn't below 0.
fn element_at_number(
    types: &Types,
    token: u32,
    failure: Option<Failure>,
    reached: Reached,
    element: TypeId,
    number: Option<i128>,
) -> OffsetStep
    requires failure { IfSome failure (IsKnownFailure types.now) }
    requires element { IsTypeId types.now element }
    ensures step { step_seen types.now result ≡ walk_told (element_at_number (told_in types.now) token (failure_listed types.now failure) (reached_seen types.now reached) (type_at types.now element) number) }
    ensures known { IsKnownOffsetStep types.now result }
{
    match number {
        None => OffsetStep::stopped(broken_at(ErrorKind::BadDesignator, token), failure),
        Some(number) => numbered_element(types, token, failure, reached, element, number),
    }
}

fn numbered_element(
    types: &Types,
    token: u32,
    failure: Option<Failure>,
    reached: Reached,
    element: TypeId,
    number: i128,
) -> OffsetStep
    requires failure { IfSome failure (IsKnownFailure types.now) }
    requires element { IsTypeId types.now element }
    ensures step { step_seen types.now result ≡ walk_told (element_at_number (told_in types.now) token (failure_listed types.now failure) (reached_seen types.now reached) (type_at types.now element) (Some number)) }
    ensures known { IsKnownOffsetStep types.now result }
{
    if number < 0 {
        return OffsetStep::stopped(broken_at(ErrorKind::BadDesignator, token), failure);
    }
    let bytes = bytes_to_element(types, element, number.unsigned_abs(), reached.bytes);
    led_to(types, token, failure, reached, element, bytes)
}

// An index of which something is known is of an integer type.
fn element_at_index(
    types: &Types,
    token: u32,
    standing: u32,
    reached: Reached,
    element: TypeId,
    index: Valued,
) -> OffsetStep
    requires index { IsValued types.now index }
    requires element { IsTypeId types.now element }
    ensures step { step_seen types.now result ≡ walk_told (element_at_index (told_in types.now) token standing (reached_seen types.now reached) (type_at types.now element) (valued_seen types.now index) (meaning.restricted_index token (type_of_value (valued_seen types.now index))) (is_some (integer_kind (type_of_value (valued_seen types.now index))))) }
    ensures known { IsKnownOffsetStep types.now result }
{
    if !types.is_integer(index.value) {
        let broken = lesser(
            broken_at(ErrorKind::CannotDereference, token),
            void_used(types, standing, index),
        );
        return OffsetStep::stopped(broken, None);
    }
    let failure = restricted_index(types, token, index);
    let number = number_of(types, index.fact);
    element_at_number(types, token, failure, reached, element, number)
}

// To an element of this type. Where nothing is known of an index, it counts as 0.
fn to_element_of(
    types: &Types,
    token: u32,
    standing: u32,
    reached: Reached,
    element: TypeId,
    index: Option<Valued>,
) -> OffsetStep
    requires index { IfSome index (IsValued types.now) }
    requires element { IsTypeId types.now element }
    ensures step { step_seen types.now result ≡ walk_told (to_element_of (told_in types.now) token standing (reached_seen types.now reached) (type_at types.now element) (valued_part types.now index)) }
    ensures known { IsKnownOffsetStep types.now result }
{
    match index {
        None => OffsetStep::goes_to(at_element(reached, element, reached.bytes, false), None),
        Some(index) => element_at_index(types, token, standing, reached, element, index),
    }
}

// By the element of the array, if it is one.
fn to_element(
    types: &Types,
    token: u32,
    standing: u32,
    reached: Reached,
    element: Option<TypeId>,
    index: Option<Valued>,
) -> OffsetStep
    requires index { IfSome index (IsValued types.now) }
    requires element { IfSome element (IsTypeId types.now) }
    ensures step { step_seen types.now result ≡ walk_told (to_element_if (told_in types.now) token standing (reached_seen types.now reached) (option_map (type_at types.now) element) (valued_part types.now index)) }
    ensures known { IsKnownOffsetStep types.now result }
{
    match element {
        None => OffsetStep::stopped(broken_at(ErrorKind::CannotDereference, token), None),
        Some(element) => to_element_of(types, token, standing, reached, element, index),
    }
}

/// A step to an element at the token of its `[`, by an index that stands at its own token. It takes no memory, and a few steps.
#[tactic(auto, using(crate::proofs::OffsetLemmas::element_told))]
pub fn step_to_element(
    types: &Types,
    token: u32,
    standing: u32,
    index: Option<Valued>,
    reached: Reached,
) -> OffsetStep
    requires index { IfSome index (IsValued types.now) }
    requires reached { IsKnownReached types.now reached }
    ensures step { step_seen types.now result ≡ walk_told (meaning.step_to (aggregates_in types.now) (reached_seen types.now reached) (ToElement token standing (valued_part types.now index))) }
    ensures known { IsKnownOffsetStep types.now result }
{
    let element = element_of(types, reached.of);
    to_element(types, token, standing, reached, element, index)
}
