// Types of members in a place with qualifiers and flags, and of members that are loaded (C11 6.5.2.3 p3, 6.3.2.1 p2).
ghost use Rattle.std.specs.Prelude.{◌≡◌, IfOk, None, OnOk, false, true};
ghost use Rattle.meaning_constants.specs.Nodes.{loaded_type};
ghost use Rattle.meaning_types.specs.Marks.{both, later_space, member_type};
ghost use Rattle.meaning_types.specs.Types.{TypeTrees, value_type};
ghost use Rattle.meaning_typing.specs.Declarators.{is_function};
ghost use Rattle.meaning_typing.specs.Expressions.{is_array};
ghost use Rattle.meaning_typing.specs.Facts.{decays};
ghost use Rattle.meaning_typing.specs.Members.{type_of_member};
ghost use Rattle.meaning_typing.specs.OffsetRows.{element_in};
ghost use Rattle.c_types.specs.Members.{found_seen};
ghost use Rattle.c_types.specs.Table.{IsOuterOver, IsShapeOver, IsTypeId, flags_of_shape, qualifiers_of_shape, space_of, type_at, type_of_outer, type_of_shape, types_in};
ghost use Rattle.member_rows.specs.Marks.{base_of_level, flags_in_place, flags_seen, innermost_space, is_plain_level, marks_of_level, place_with, qualifiers_seen, space_in_place, space_over};
ghost use Rattle.node_facts.specs.Growing.{TypesJoin};

use crate::marks::{PlaceMarks, later_space};
use c_types::{
    FoundMember, NodeType, NodeValue, OuterBase, OuterShape, Outline, ShapeBase, TypeShape, Types,
};
use expression_rows::type_of_value;
use node_facts::{ExpressionFact, ExpressionMarks, element_of};
use sparse_model::{Space, TypeId};
use std::alloc::AllocError;

/// The type of this shape, which joins the table if it is new.
pub fn make(types: &mut Types, shape: TypeShape) -> Result<TypeId, AllocError>
    requires { IsShapeOver (types_in types.old) shape.base }
    ensures made { IfOk result (λ id. type_at types.new id ≡ type_of_shape types.old shape) }
    ensures known { IfOk result (IsTypeId types.new) }
    ensures keeps { OnOk result (TypesJoin types.old types.new) }
{
    let id = types.make(shape)?;
    Ok(id)
}

// The own space of a type that is no array.
fn own_space(types: &Types, t: TypeId) -> Space
    requires known { IsTypeId types.now t }
    requires single { element_in (type_at types.now t) ≡ None }
    ensures { space_of result ≡ innermost_space (type_at types.now t) }
{
    types.shape(t).space
}

// The space at the innermost level of a type: a step for each array within another.
fn inner_space(types: &Types, t: TypeId) -> Space
    requires { IsTypeId types.now t }
    ensures { space_of result ≡ innermost_space (type_at types.now t) }
{
    let mut level = t;
    'levels: while let Some(element) = element_of(types, level) {
        level = element;
    }
    own_space(types, level)
}

// The space that is added to an element in a place of this one.
fn space_over(types: &Types, place: Space, element: TypeId) -> Space
    requires { IsTypeId types.now element }
    ensures { space_of result ≡ space_over (space_of place) (innermost_space (type_at types.now element)) }
{
    match place {
        Space::None => Space::None,
        Space::Number(_) => later_space(place, inner_space(types, element)),
        Space::Named(_) => later_space(place, inner_space(types, element)),
    }
}

// The space of a level that is made in a place of this one.
fn space_in_place(types: &Types, place: Space, shape: OuterShape) -> Space
    requires { IsOuterOver (types_in types.now) shape.base }
    ensures { space_of result ≡ space_in_place (types_in types.now) (space_of place) (space_of shape.space) shape.base }
{
    match shape.base {
        OuterBase::Array(element, _) => space_over(types, place, element),
        _ => later_space(place, shape.space),
    }
}

// Whether an outermost level has neither qualifiers nor flags.
fn is_plain(shape: OuterShape) -> bool
    ensures { result ≡ is_plain_level shape }
{
    match shape.space {
        Space::None => !shape.is_const && !shape.is_volatile && !shape.noderef,
        Space::Number(_) => false,
        Space::Named(_) => false,
    }
}

// The base of a level. What is said of an array is said of its element, so no array has qualifiers and flags of its own; one that
// has them can't be made again.
fn base_of_level(plain: bool, base: OuterBase) -> Option<ShapeBase>
    ensures { result ≡ base_of_level plain base }
{
    match (base, plain) {
        (OuterBase::Void, _) => Some(ShapeBase::Void),
        (OuterBase::Integer(kind, own), _) => Some(ShapeBase::Integer(kind, own)),
        (OuterBase::Pointer(target), _) => Some(ShapeBase::Pointer(target)),
        (OuterBase::Array(element, length), true) => Some(ShapeBase::Array(element, length)),
        (OuterBase::Array(_, _), false) => None,
        (OuterBase::Function(_, _, _), _) => None,
        (OuterBase::Aggregate(number, is_union), _) => {
            Some(ShapeBase::Aggregate(number, is_union))
        }
    }
}

// A level on this base, of a member in a place with these marks.
fn level_in_place(types: &Types, marks: PlaceMarks, own: OuterShape, base: ShapeBase) -> TypeShape
    requires { IsOuterOver (types_in types.now) own.base }
    ensures base { result.base ≡ base }
    ensures qualifiers { qualifiers_of_shape result ≡ both (qualifiers_seen (marks_of_level own)) (qualifiers_seen marks) }
    ensures flags { flags_of_shape result ≡ flags_in_place (types_in types.now) marks own }
{
    TypeShape {
        base,
        is_const: own.is_const || marks.is_const,
        is_volatile: own.is_volatile || marks.is_volatile,
        noderef: marks.noderef || own.noderef,
        space: space_in_place(types, marks.space, own),
    }
}

// The type of a member of this outermost level, which is none of a function, in a place with these marks.
fn make_level(types: &mut Types, marks: PlaceMarks, shape: OuterShape) -> Result<TypeId, AllocError>
    requires { IsOuterOver (types_in types.old) shape.base }
    ensures made { (parameters : TypeTrees) → IfOk result (λ id. type_at types.new id ≡ member_type (qualifiers_seen marks) (flags_seen marks) (type_of_outer (types_in types.old) parameters shape)) }
    ensures known { IfOk result (IsTypeId types.new) }
    ensures keeps { OnOk result (TypesJoin types.old types.new) }
{
    match base_of_level(is_plain(shape), shape.base) {
        Some(base) => {
            let made = level_in_place(types, marks, shape, base);
            make(types, made)
        }
        None => Err(AllocError),
    }
}

// The same of a type that is no function.
fn mark_level(types: &mut Types, marks: PlaceMarks, of: TypeId) -> Result<TypeId, AllocError>
    requires { IsTypeId types.old of }
    ensures made { IfOk result (λ id. type_at types.new id ≡ member_type (qualifiers_seen marks) (flags_seen marks) (type_at types.old of)) }
    ensures known { IfOk result (IsTypeId types.new) }
    ensures keeps { OnOk result (TypesJoin types.old types.new) }
{
    let shape = types.shape(of);
    make_level(types, marks, shape)
}

// A member's type in a place with these marks.
fn member_type(types: &mut Types, marks: PlaceMarks, of: TypeId) -> Result<TypeId, AllocError>
    requires { IsTypeId types.old of }
    ensures made { IfOk result (λ id. type_at types.new id ≡ member_type (qualifiers_seen marks) (flags_seen marks) (type_at types.old of)) }
    ensures known { IfOk result (IsTypeId types.new) }
    ensures keeps { OnOk result (TypesJoin types.old types.new) }
{
    if marks.are_none() {
        return Ok(of);
    }
    match types.outline(of) {
        Outline::Function => Ok(of),
        _ => mark_level(types, marks, of),
    }
}

/// The type of a member that was found in a place with these marks: a space of its own stays. It takes a few steps, and those of an
/// array's levels where the place has a space, or something is added to the array for the first time.
pub fn type_of_member(
    types: &mut Types,
    marks: PlaceMarks,
    found: FoundMember,
) -> Result<TypeId, AllocError>
    requires { IsTypeId types.old found.of }
    ensures made { IfOk result (λ id. type_at types.new id ≡ type_of_member (qualifiers_seen marks) (flags_seen marks) (found_seen (types_in types.old) found)) }
    ensures known { IfOk result (IsTypeId types.new) }
    ensures keeps { OnOk result (TypesJoin types.old types.new) }
{
    member_type(types, marks.around(found), found.of)
}

// A place of this type and width, whose value is asked for.
fn place_with(of: TypeId, width: Option<u32>) -> ExpressionFact
    ensures { result ≡ place_with of width }
{
    ExpressionFact {
        node: NodeType {
            of,
            value: NodeValue {
                fouled: false,
                width,
                constant: None,
            },
        },
        marks: ExpressionMarks {
            is_place: true,
            ..ExpressionMarks::none()
        },
    }
}

// The type of what is loaded from a place that is no array and no function.
fn loaded_place(types: &mut Types, of: TypeId, width: Option<u32>) -> Result<TypeId, AllocError>
    requires known { IsTypeId types.old of }
    requires loads { decays (type_at types.old of) ≡ false }
    ensures made { IfOk result (λ id. type_at types.new id ≡ value_type (loaded_type width (type_at types.old of))) }
    ensures known { IfOk result (IsTypeId types.new) }
    ensures keeps { OnOk result (TypesJoin types.old types.new) }
{
    type_of_value(types, place_with(of, width))
}

// A function as a value. What is said of a function is dropped, so none has qualifiers and flags.
fn bare_function(types: &Types, of: TypeId) -> Result<TypeId, AllocError>
    requires known { IsTypeId types.now of }
    requires function { is_function (type_at types.now of) ≡ true }
    ensures made { IfOk result (λ id. type_at types.now id ≡ value_type (type_at types.now of)) }
    ensures known { IfOk result (IsTypeId types.now) }
{
    if is_plain(types.shape(of)) {
        Ok(of)
    } else {
        Err(AllocError)
    }
}

/// The type of what is loaded of a member that is no array: of a bit-field that of fewer bits (C11 6.3.1.1 p2).
pub fn loaded_type(types: &mut Types, found: FoundMember) -> Result<TypeId, AllocError>
    requires known { IsTypeId types.old found.of }
    requires loads { is_array (type_at types.old found.of) ≡ false }
    ensures made { IfOk result (λ id. type_at types.new id ≡ value_type (loaded_type found.width (type_at types.old found.of))) }
    ensures known { IfOk result (IsTypeId types.new) }
    ensures keeps { OnOk result (TypesJoin types.old types.new) }
{
    match types.outline(found.of) {
        Outline::Function => bare_function(types, found.of),
        _ => loaded_place(types, found.of, found.width),
    }
}
