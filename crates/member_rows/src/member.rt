// Members of places and of values: `.` and `->` (C11 6.5.2.3).
ghost use Rattle.std.specs.Prelude.{◌≡◌, [], IfOk, IfSome, None, OnOk, option_map};
ghost use Rattle.meaning_typing.specs.Expressions.{is_array};
ghost use Rattle.meaning_typing.specs.Members as meaning;
ghost use Rattle.meaning_typing.specs.Rows.{gives};
ghost use Rattle.c_types.specs.Members.{found_seen};
ghost use Rattle.c_types.specs.Table.{IsTypeId, type_at, types_in};
ghost use Rattle.expression_rows.specs.Facts.{IsKnownPart, IsValued, part_seen, valued_part, valued_seen};
ghost use Rattle.expression_rows.specs.Rows.{IsKnownRow, broken_row, given_row, no_failures, row_seen, told};
ghost use Rattle.member_rows.specs.Aggregates.{aggregates_in};
ghost use Rattle.member_rows.specs.Marks.{flags_seen, member_with, qualifiers_seen};
ghost use Rattle.member_rows.specs.Members.{pointed_by_target, selected_if_any};
ghost use Rattle.member_rows.specs.Selections.{IsKnownSelection, selection_seen};
ghost use Rattle.node_facts.specs.Facts.{IsKnownFact, fact_seen, name_seen};
ghost use Rattle.node_facts.specs.Growing.{TypesJoin};

use crate::broken::{broken_named, void_value_used};
use crate::marks::PlaceMarks;
use crate::selection::{Selection, selection_of};
use crate::typed::{loaded_type, type_of_member};
use c_types::{FoundMember, NodeType, NodeValue, Types};
use expression_rows::{Broken, Row, RowFailures, Valued, broken_at, is_array, lesser, void_used};
use node_facts::{Addressed, ExpressionFact, ExpressionMarks};
use sparse_model::{ErrorKind, NameId, TypeId};
use std::alloc::AllocError;

// A place of this type and width, which may be `register` or constant.
fn member_with(
    of: TypeId,
    width: Option<u32>,
    is_register: bool,
    address: Addressed,
) -> ExpressionFact
    ensures { result ≡ member_with of width is_register address }
{
    ExpressionFact {
        node: NodeType {
            of,
            value: NodeValue {
                fouled: false,
                width,
                constant: None,
            },
        },
        marks: ExpressionMarks {
            is_place: true,
            is_register,
            address,
            ..ExpressionMarks::none()
        },
    }
}

// This is broken, and nothing is known.
fn breaks(broken: Option<Broken>) -> Row
    ensures { result ≡ broken_row broken no_failures }
{
    Row::breaks(broken, RowFailures::none())
}

// This is known.
fn gives(fact: ExpressionFact) -> Row
    ensures { result ≡ given_row fact None no_failures }
{
    Row::gives(fact, None, RowFailures::none())
}

// A member of a place with these marks. One of a `register` object is one of it, and one of a constant place is constant.
fn member_of_place(
    types: &mut Types,
    aggregate: ExpressionFact,
    marks: PlaceMarks,
    found: FoundMember,
) -> Result<Row, AllocError>
    requires aggregate { IsKnownFact types.old aggregate }
    requires found { IsTypeId types.old found.of }
    ensures row { IfOk result (λ row. row_seen types.new row ≡ told (gives (meaning.member_of_place (fact_seen types.old aggregate) (qualifiers_seen marks) (flags_seen marks) (found_seen (types_in types.old) found)) [] [])) }
    ensures known { IfOk result (IsKnownRow types.new) }
    ensures keeps { OnOk result (TypesJoin types.old types.new) }
{
    let of = type_of_member(types, marks, found)?;
    Ok(gives(member_with(
        of,
        found.width,
        aggregate.marks.is_register,
        aggregate.marks.address,
    )))
}

// A member of a value is one, so it is no array.
fn member_of_value(types: &mut Types, token: u32, found: FoundMember) -> Result<Row, AllocError>
    requires { IsTypeId types.old found.of }
    ensures row { IfOk result (λ row. row_seen types.new row ≡ told (meaning.selected_from_value token (found_seen (types_in types.old) found))) }
    ensures known { IfOk result (IsKnownRow types.new) }
    ensures keeps { OnOk result (TypesJoin types.old types.new) }
{
    if is_array(types, found.of) {
        return Ok(breaks(broken_at(ErrorKind::WrongOperandTypes, token)));
    }
    let of = loaded_type(types, found)?;
    Ok(gives(ExpressionFact::value(of)))
}

// A member of what is a place or a value.
fn selected_from(
    types: &mut Types,
    token: u32,
    aggregate: ExpressionFact,
    marks: PlaceMarks,
    found: FoundMember,
) -> Result<Row, AllocError>
    requires aggregate { IsKnownFact types.old aggregate }
    requires found { IsTypeId types.old found.of }
    ensures row { IfOk result (λ row. row_seen types.new row ≡ told (meaning.selected_from token (fact_seen types.old aggregate) (qualifiers_seen marks) (flags_seen marks) (found_seen (types_in types.old) found))) }
    ensures known { IfOk result (IsKnownRow types.new) }
    ensures keeps { OnOk result (TypesJoin types.old types.new) }
{
    if aggregate.marks.is_place {
        member_of_place(types, aggregate, marks, found)
    } else {
        member_of_value(types, token, found)
    }
}

// The member with this name, if there is one.
fn selected_if_any(
    types: &mut Types,
    token: u32,
    name: NameId,
    aggregate: ExpressionFact,
    marks: PlaceMarks,
    found: Option<FoundMember>,
) -> Result<Row, AllocError>
    requires aggregate { IsKnownFact types.old aggregate }
    requires found { IfSome found (λ found. IsTypeId types.old found.of) }
    ensures row { IfOk result (λ row. row_seen types.new row ≡ told (selected_if_any token (name_seen name) (fact_seen types.old aggregate) (qualifiers_seen marks) (flags_seen marks) (option_map (found_seen (types_in types.old)) found))) }
    ensures known { IfOk result (IsKnownRow types.new) }
    ensures keeps { OnOk result (TypesJoin types.old types.new) }
{
    match found {
        None => Ok(breaks(broken_named(ErrorKind::NoSuchMember, token, name))),
        Some(found) => selected_from(types, token, aggregate, marks, found),
    }
}

// The row of `.` by what the name names.
#[tactic(auto, using(crate::proofs::MemberLemmas::selected_told))]
fn selected(
    types: &mut Types,
    token: u32,
    standing: u32,
    name: NameId,
    aggregate: ExpressionFact,
    selection: Selection,
) -> Result<Row, AllocError>
    requires aggregate { IsKnownFact types.old aggregate }
    requires selection { IsKnownSelection types.old selection }
    ensures row { IfOk result (λ row. row_seen types.new row ≡ told (meaning.selected token standing (name_seen name) (fact_seen types.old aggregate) (selection_seen types.old selection))) }
    ensures known { IfOk result (IsKnownRow types.new) }
    ensures keeps { OnOk result (TypesJoin types.old types.new) }
{
    match selection {
        Selection::NotAggregate => Ok(breaks(lesser(
            broken_at(ErrorKind::NoAggregate, token),
            void_value_used(types, standing, aggregate),
        ))),
        Selection::NotComplete => Ok(breaks(broken_at(ErrorKind::IncompleteType, token))),
        Selection::Selected(marks, found) => {
            selected_if_any(types, token, name, aggregate, marks, found)
        }
    }
}

/// The row of `.` at this token, whose operand stands at its own and is taken as it is, a place or a value. It takes a few steps,
/// and those of an array's levels where a member is one and the place adds something to it.
pub fn judge_member(
    types: &mut Types,
    token: u32,
    standing: u32,
    name: NameId,
    operand: Option<ExpressionFact>,
) -> Result<Row, AllocError>
    requires { IsKnownPart types.old operand }
    ensures row { IfOk result (λ row. row_seen types.new row ≡ told (meaning.member_row (aggregates_in types.old) token standing (name_seen name) (part_seen types.old operand))) }
    ensures known { IfOk result (IsKnownRow types.new) }
    ensures keeps { OnOk result (TypesJoin types.old types.new) }
{
    match operand {
        None => Ok(Row::nothing()),
        Some(aggregate) => {
            let selection = selection_of(types, name, aggregate.node.of);
            selected(types, token, standing, name, aggregate, selection)
        }
    }
}

// A member of what a pointer points to.
fn member_behind(
    types: &mut Types,
    marks: PlaceMarks,
    found: FoundMember,
) -> Result<Row, AllocError>
    requires { IsTypeId types.old found.of }
    ensures row { IfOk result (λ row. row_seen types.new row ≡ told (gives (meaning.member_place (qualifiers_seen marks) (flags_seen marks) (found_seen (types_in types.old) found)) [] [])) }
    ensures known { IfOk result (IsKnownRow types.new) }
    ensures keeps { OnOk result (TypesJoin types.old types.new) }
{
    let of = type_of_member(types, marks, found)?;
    Ok(gives(member_with(of, found.width, false, Addressed::NotAddress)))
}

// The member with this name, if there is one.
fn behind_if_any(
    types: &mut Types,
    token: u32,
    name: NameId,
    marks: PlaceMarks,
    found: Option<FoundMember>,
) -> Result<Row, AllocError>
    requires { IfSome found (λ found. IsTypeId types.old found.of) }
    ensures row { IfOk result (λ row. row_seen types.new row ≡ told (meaning.pointed_to token (name_seen name) (meaning.Selected (qualifiers_seen marks) (flags_seen marks) (option_map (found_seen (types_in types.old)) found)))) }
    ensures known { IfOk result (IsKnownRow types.new) }
    ensures keeps { OnOk result (TypesJoin types.old types.new) }
{
    match found {
        None => Ok(breaks(broken_named(ErrorKind::NoSuchMember, token, name))),
        Some(found) => member_behind(types, marks, found),
    }
}

// The row of `->` by what the name names behind the pointer: no address that leads through it is constant.
fn pointed_to(
    types: &mut Types,
    token: u32,
    name: NameId,
    selection: Selection,
) -> Result<Row, AllocError>
    requires { IsKnownSelection types.old selection }
    ensures row { IfOk result (λ row. row_seen types.new row ≡ told (meaning.pointed_to token (name_seen name) (selection_seen types.old selection))) }
    ensures known { IfOk result (IsKnownRow types.new) }
    ensures keeps { OnOk result (TypesJoin types.old types.new) }
{
    match selection {
        Selection::NotAggregate => Ok(breaks(broken_at(ErrorKind::NoAggregate, token))),
        Selection::NotComplete => Ok(breaks(broken_at(ErrorKind::IncompleteType, token))),
        Selection::Selected(marks, found) => behind_if_any(types, token, name, marks, found),
    }
}

// By the type to which the operand points, if it is a pointer.
fn pointed_by(
    types: &mut Types,
    token: u32,
    standing: u32,
    name: NameId,
    operand: Valued,
    target: Option<TypeId>,
) -> Result<Row, AllocError>
    requires operand { IsValued types.old operand }
    requires target { IfSome target (IsTypeId types.old) }
    ensures row { IfOk result (λ row. row_seen types.new row ≡ told (pointed_by_target (aggregates_in types.old) token standing (name_seen name) (valued_seen types.old operand) (option_map (type_at types.old) target))) }
    ensures known { IfOk result (IsKnownRow types.new) }
    ensures keeps { OnOk result (TypesJoin types.old types.new) }
{
    match target {
        Some(target) => {
            let selection = selection_of(types, name, target);
            pointed_to(types, token, name, selection)
        }
        None => Ok(breaks(lesser(
            broken_at(ErrorKind::CannotDereference, token),
            void_used(types, standing, operand),
        ))),
    }
}

/// The row of `->` at this token, whose operand stands at its own and is taken as a value. It takes the steps of `.`.
#[tactic(auto, using(crate::proofs::MemberLemmas::pointer_told))]
pub fn judge_pointer_member(
    types: &mut Types,
    token: u32,
    standing: u32,
    name: NameId,
    operand: Option<Valued>,
) -> Result<Row, AllocError>
    requires { IfSome operand (IsValued types.old) }
    ensures row { IfOk result (λ row. row_seen types.new row ≡ told (meaning.pointer_member_row (aggregates_in types.old) token standing (name_seen name) (valued_part types.old operand))) }
    ensures known { IfOk result (IsKnownRow types.new) }
    ensures keeps { OnOk result (TypesJoin types.old types.new) }
{
    match operand {
        None => Ok(Row::nothing()),
        Some(operand) => {
            let target = types.target(operand.value);
            pointed_by(types, token, standing, name, operand, target)
        }
    }
}
