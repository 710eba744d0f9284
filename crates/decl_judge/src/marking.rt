// Types to which qualifiers and attributes are added, and types of parameters.
ghost use Rattle.std.specs.Prelude.{◌≡◌, IfOk, OnOk, true};
ghost use Rattle.meaning_types.specs.Marks.{both, later_space, with_flags};
ghost use Rattle.meaning_types.specs.Types.{TypeTrees, pointer_to};
ghost use Rattle.meaning_typing.specs.Declarators as meaning;
ghost use Rattle.meaning_typing.specs.Declarators.{adjusted, array_type, is_plain_void};
ghost use Rattle.meaning_typing.specs.Specifiers.{with_marks};
ghost use Rattle.c_types.specs.Table.{IsOuterOver, IsShapeOver, IsTypeId, flags_of_shape, qualifiers_of_shape, space_of, type_at, type_of_outer, type_of_shape, types_in};
ghost use Rattle.node_facts.specs.Growing.{TypesJoin};
ghost use Rattle.decl_judge.specs.Marking.{added_to, adjusted_shape, base_told, identity_added, is_plain_outer, level_told, nothing_added, outer_flags, outer_qualifiers, plain_shape, qualifiers_added, unqualified_shape};
ghost use Rattle.decl_judge.specs.Seen.{marks_seen};

use crate::marks::Marks;
use c_types::{OuterBase, OuterShape, Outline, ShapeBase, TypeShape, Types};
use sparse_model::{Restrict, Space, TypeId};
use std::alloc::AllocError;

/// What is added to a type: qualifiers, and what attributes add.
#[derive(Clone, Copy, Debug, PartialEq, Eq)]
pub struct Added {
    pub is_const: bool,
    pub is_volatile: bool,
    pub marks: Marks,
}

impl Added {
    ghost use Rattle.decl_judge.specs.Marking.{only_marks};

    // What attributes add, and no qualifiers.
    fn by_attributes(marks: Marks) -> Added
        ensures { result ≡ only_marks marks }
    {
        Added {
            is_const: false,
            is_volatile: false,
            marks,
        }
    }

    // Whether it is nothing.
    fn is_nothing(self) -> bool
        ensures { result ≡ true → self ≡ nothing_added }
    {
        match self {
            Added {
                is_const: false,
                is_volatile: false,
                marks: Marks {
                    noderef: false,
                    space: Space::None,
                    is_bitwise: false,
                },
            } => true,
            _ => false,
        }
    }
}

/// The type of this shape, which joins the table if it is new.
pub fn make(types: &mut Types, shape: TypeShape) -> Result<TypeId, AllocError>
    requires { IsShapeOver (types_in types.old) shape.base }
    ensures made { IfOk result (λ id. type_at types.new id ≡ type_of_shape types.old shape) }
    ensures known { IfOk result (IsTypeId types.new) }
    ensures keeps { OnOk result (TypesJoin types.old types.new) }
{
    let id = types.make(shape)?;
    Ok(id)
}

// A level without qualifiers and flags.
fn plain(base: ShapeBase) -> TypeShape
    ensures { result ≡ plain_shape base }
{
    TypeShape {
        base,
        is_const: false,
        is_volatile: false,
        noderef: false,
        space: Space::None,
    }
}

/// The type on this base, without qualifiers and flags.
pub fn make_plain(types: &mut Types, base: ShapeBase) -> Result<TypeId, AllocError>
    requires { IsShapeOver (types_in types.old) base }
    ensures made { IfOk result (λ id. type_at types.new id ≡ type_of_shape types.old (plain_shape base)) }
    ensures known { IfOk result (IsTypeId types.new) }
    ensures keeps { OnOk result (TypesJoin types.old types.new) }
{
    make(types, plain(base))
}

/// A pointer to a type.
pub fn pointer_to(types: &mut Types, target: TypeId) -> Result<TypeId, AllocError>
    requires { IsTypeId types.old target }
    ensures made { IfOk result (λ id. type_at types.new id ≡ pointer_to (type_at types.old target)) }
    ensures known { IfOk result (IsTypeId types.new) }
    ensures keeps { OnOk result (TypesJoin types.old types.new) }
{
    make_plain(types, ShapeBase::Pointer(target))
}

/// An array of such elements, with a length if it is known.
pub fn array_type(
    types: &mut Types,
    element: TypeId,
    length: Option<u64>,
) -> Result<TypeId, AllocError>
    requires { IsTypeId types.old element }
    ensures made { IfOk result (λ id. type_at types.new id ≡ array_type (type_at types.old element) length) }
    ensures known { IfOk result (IsTypeId types.new) }
    ensures keeps { OnOk result (TypesJoin types.old types.new) }
{
    make_plain(types, ShapeBase::Array(element, length))
}

// The later space, if it is one.
fn later_space(earlier: Space, later: Space) -> Space
    ensures { space_of result ≡ later_space (space_of earlier) (space_of later) }
{
    match later {
        Space::None => earlier,
        Space::Number(number) => Space::Number(number),
        Space::Named(name) => Space::Named(name),
    }
}

// Whether the outermost level of a type has neither qualifiers nor flags.
fn is_plain(shape: OuterShape) -> bool
    ensures { result ≡ is_plain_outer shape }
{
    match shape.space {
        Space::None => !shape.is_const && !shape.is_volatile && !shape.noderef,
        Space::Number(_) => false,
        Space::Named(_) => false,
    }
}

// The base of a type, unless it is a function: an integer has another identity, if one is told.
fn base_of(base: OuterBase, identity: Option<Restrict>) -> Option<ShapeBase>
    ensures { result ≡ base_told base identity }
{
    match (base, identity) {
        (OuterBase::Void, _) => Some(ShapeBase::Void),
        (OuterBase::Integer(kind, own), None) => Some(ShapeBase::Integer(kind, own)),
        (OuterBase::Integer(kind, _), Some(other)) => Some(ShapeBase::Integer(kind, Some(other))),
        (OuterBase::Pointer(target), _) => Some(ShapeBase::Pointer(target)),
        (OuterBase::Array(element, length), _) => Some(ShapeBase::Array(element, length)),
        (OuterBase::Function(_, _, _), _) => None,
        (OuterBase::Aggregate(number, is_union), _) => {
            Some(ShapeBase::Aggregate(number, is_union))
        }
    }
}

// The same of an outermost level. What is said of an array is said of its element, so no array has qualifiers and flags of its
// own; one that has them can't be made again.
fn level_base(shape: OuterShape, identity: Option<Restrict>) -> Option<ShapeBase>
    ensures { result ≡ level_told shape.base (is_plain_outer shape) identity }
{
    let plain = is_plain(shape);
    match (shape.base, plain) {
        (OuterBase::Array(_, _), false) => None,
        (base, _) => base_of(base, identity),
    }
}

// A level on this base with what is added to its own qualifiers and flags.
fn level_shape(base: ShapeBase, own: OuterShape, added: Added) -> TypeShape
    ensures base { result.base ≡ base }
    ensures qualifiers { qualifiers_of_shape result ≡ both (outer_qualifiers own) (qualifiers_added added) }
    ensures flags { flags_of_shape result ≡ with_flags (outer_flags own) (marks_seen added.marks).flags }
{
    TypeShape {
        base,
        is_const: own.is_const || added.is_const,
        is_volatile: own.is_volatile || added.is_volatile,
        noderef: own.noderef || added.marks.noderef,
        space: later_space(own.space, added.marks.space),
    }
}

// The identity that is added in a declaration that begins at this token.
fn identity_of(added: Added, token: u32) -> Option<Restrict>
    ensures { result ≡ identity_added added token }
{
    if added.marks.is_bitwise {
        Some(Restrict(token))
    } else {
        None
    }
}

// The type of this outermost level, which is none of a function, with what is added to it.
fn make_level(
    types: &mut Types,
    token: u32,
    added: Added,
    shape: OuterShape,
) -> Result<TypeId, AllocError>
    requires { IsOuterOver (types_in types.old) shape.base }
    ensures made { (parameters : TypeTrees) → IfOk result (λ id. type_at types.new id ≡ added_to token added (type_of_outer (types_in types.old) parameters shape)) }
    ensures known { IfOk result (IsTypeId types.new) }
    ensures keeps { OnOk result (TypesJoin types.old types.new) }
{
    match level_base(shape, identity_of(added, token)) {
        Some(base) => make(types, level_shape(base, shape, added)),
        None => Err(AllocError),
    }
}

// A type that is no function, with what is added to it.
fn mark_level(types: &mut Types, token: u32, added: Added, of: TypeId) -> Result<TypeId, AllocError>
    requires { IsTypeId types.old of }
    ensures made { IfOk result (λ id. type_at types.new id ≡ added_to token added (type_at types.old of)) }
    ensures known { IfOk result (IsTypeId types.new) }
    ensures keeps { OnOk result (TypesJoin types.old types.new) }
{
    let shape = types.shape(of);
    make_level(types, token, added, shape)
}

/// A pointer to a type, with what is added to the pointer in a declaration that begins at this token.
pub fn pointer_with(
    types: &mut Types,
    token: u32,
    added: Added,
    target: TypeId,
) -> Result<TypeId, AllocError>
    requires { IsTypeId types.old target }
    ensures made { IfOk result (λ id. type_at types.new id ≡ added_to token added (pointer_to (type_at types.old target))) }
    ensures known { IfOk result (IsTypeId types.new) }
    ensures keeps { OnOk result (TypesJoin types.old types.new) }
{
    let pointer = OuterShape {
        base: OuterBase::Pointer(target),
        is_const: false,
        is_volatile: false,
        noderef: false,
        space: Space::None,
    };
    make_level(types, token, added, pointer)
}

/// A type with what is added to it in a declaration that begins at this token. What is said of a function is dropped (C11 6.7.3
/// p9). It takes a few steps, and those of an array's levels when something is added to it for the first time.
pub fn with_added(
    types: &mut Types,
    token: u32,
    added: Added,
    of: TypeId,
) -> Result<TypeId, AllocError>
    requires { IsTypeId types.old of }
    ensures made { IfOk result (λ id. type_at types.new id ≡ added_to token added (type_at types.old of)) }
    ensures known { IfOk result (IsTypeId types.new) }
    ensures keeps { OnOk result (TypesJoin types.old types.new) }
{
    if added.is_nothing() {
        return Ok(of);
    }
    match types.outline(of) {
        Outline::Function => Ok(of),
        _ => mark_level(types, token, added, of),
    }
}

/// A type with what attributes add to it in a declaration that begins at this token.
pub fn with_marks(
    types: &mut Types,
    token: u32,
    marks: Marks,
    of: TypeId,
) -> Result<TypeId, AllocError>
    requires { IsTypeId types.old of }
    ensures made { IfOk result (λ id. type_at types.new id ≡ with_marks token (marks_seen marks) (type_at types.old of)) }
    ensures known { IfOk result (IsTypeId types.new) }
    ensures keeps { OnOk result (TypesJoin types.old types.new) }
{
    with_added(types, token, Added::by_attributes(marks), of)
}

// A level on this base with its own flags and no qualifiers.
fn unqualified_shape(base: ShapeBase, own: OuterShape) -> TypeShape
    ensures { result ≡ unqualified_shape base own }
{
    TypeShape {
        base,
        is_const: false,
        is_volatile: false,
        noderef: own.noderef,
        space: own.space,
    }
}

// The base of what a parameter that is no function is adjusted to, and its flags.
fn adjusted_shape(shape: OuterShape) -> Option<TypeShape>
    ensures { result ≡ adjusted_shape shape }
{
    match shape.base {
        OuterBase::Array(element, _) => Some(plain(ShapeBase::Pointer(element))),
        base => match base_of(base, None) {
            Some(base) => Some(unqualified_shape(base, shape)),
            None => None,
        },
    }
}

// The type of a parameter that is no function.
fn adjusted_level(types: &mut Types, of: TypeId) -> Result<TypeId, AllocError>
    requires { IsTypeId types.old of }
    ensures made { IfOk result (λ id. type_at types.new id ≡ adjusted (type_at types.old of)) }
    ensures known { IfOk result (IsTypeId types.new) }
    ensures keeps { OnOk result (TypesJoin types.old types.new) }
{
    match adjusted_shape(types.shape(of)) {
        Some(shape) => make(types, shape),
        None => Err(AllocError),
    }
}

/// The type of a parameter: a pointer in the place of an array or a function, and no qualifiers of its own (6.7.6.3 p7, p8, p15).
pub fn adjusted(types: &mut Types, of: TypeId) -> Result<TypeId, AllocError>
    requires { IsTypeId types.old of }
    ensures made { IfOk result (λ id. type_at types.new id ≡ adjusted (type_at types.old of)) }
    ensures known { IfOk result (IsTypeId types.new) }
    ensures keeps { OnOk result (TypesJoin types.old types.new) }
{
    match types.outline(of) {
        Outline::Function => pointer_to(types, of),
        _ => adjusted_level(types, of),
    }
}

/// Whether a type is void, without qualifiers and flags.
pub fn is_plain_void(types: &Types, of: TypeId) -> bool
    requires { IsTypeId types.now of }
    ensures { result ≡ is_plain_void (type_at types.now of) }
{
    match types.outline(of) {
        Outline::Void => is_plain(types.shape(of)),
        _ => false,
    }
}
