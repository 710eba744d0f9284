// The type of the value of an expression: that of what is loaded, or a pointer to what isn't (C11 6.3.2.1).
ghost use Rattle.std.specs.Prelude.{◌≡◌, IfOk, IfSome, OnOk, option_map};
ghost use Rattle.meaning_types.specs.Types.{pointer_to};
ghost use Rattle.c_types.specs.Table.{IsOuterOver, IsShapeOver, IsTypeId, type_at, type_of_shape, types_in};
ghost use Rattle.node_facts.specs.Facts.{IsKnownFact};
ghost use Rattle.expression_rows.specs.Facts.{IsKnownPart, IsValueOf, IsValued};
ghost use Rattle.node_facts.specs.Growing.{TypesJoin};
ghost use Rattle.expression_rows.specs.Values.{plain_shape, value_by_base, value_in};

use crate::operand::is_function;
use c_types::{OuterBase, ShapeBase, TypeShape, Types};
use node_facts::{ExpressionFact, loaded_kind};
use sparse_model::{Space, TypeId};
use std::alloc::AllocError;

/// What is known of an expression, and the type of its value.
#[derive(Clone, Copy, Debug, PartialEq, Eq)]
pub struct Valued {
    pub fact: ExpressionFact,
    pub value: TypeId,
}

/// The type on this base, without qualifiers and flags.
pub fn make(types: &mut Types, base: ShapeBase) -> Result<TypeId, AllocError>
    requires { IsShapeOver (types_in types.old) base }
    ensures made { IfOk result (λ id. type_at types.new id ≡ type_of_shape types.old (plain_shape base)) }
    ensures known { IfOk result (IsTypeId types.new) }
    ensures keeps { OnOk result (TypesJoin types.old types.new) }
{
    let id = types.make(TypeShape {
        base,
        is_const: false,
        is_volatile: false,
        noderef: false,
        space: Space::None,
    })?;
    Ok(id)
}

/// A pointer to a type.
pub fn pointer_to(types: &mut Types, target: TypeId) -> Result<TypeId, AllocError>
    requires { IsTypeId types.old target }
    ensures made { IfOk result (λ id. type_at types.new id ≡ pointer_to (type_at types.old target)) }
    ensures known { IfOk result (IsTypeId types.new) }
    ensures keeps { OnOk result (TypesJoin types.old types.new) }
{
    make(types, ShapeBase::Pointer(target))
}

// By the outermost level of its type.
fn value_by_base(
    types: &mut Types,
    of: TypeId,
    width: Option<u32>,
    base: OuterBase,
) -> Result<TypeId, AllocError>
    requires of { IsTypeId types.old of }
    requires base { IsOuterOver (types_in types.old) base }
    ensures made { IfOk result (λ id. type_at types.new id ≡ value_by_base (types_in types.old) (type_at types.old of) width base) }
    ensures known { IfOk result (IsTypeId types.new) }
    ensures keeps { OnOk result (TypesJoin types.old types.new) }
{
    match base {
        OuterBase::Void => make(types, ShapeBase::Void),
        OuterBase::Integer(kind, None) => {
            make(types, ShapeBase::Integer(loaded_kind(width, kind), None))
        }
        OuterBase::Integer(kind, Some(identity)) => {
            make(types, ShapeBase::Integer(kind, Some(identity)))
        }
        OuterBase::Pointer(target) => pointer_to(types, target),
        OuterBase::Array(element, _) => pointer_to(types, element),
        OuterBase::Function(_, _, _) => pointer_to(types, of),
        OuterBase::Aggregate(number, is_union) => {
            make(types, ShapeBase::Aggregate(number, is_union))
        }
    }
}

// The type of the value of what is no function: the outermost level of one is told with a step for each parameter.
fn value_of_level(types: &mut Types, of: TypeId, width: Option<u32>) -> Result<TypeId, AllocError>
    requires { IsTypeId types.old of }
    ensures made { IfOk result (λ id. type_at types.new id ≡ value_in width (type_at types.old of)) }
    ensures known { IfOk result (IsTypeId types.new) }
    ensures keeps { OnOk result (TypesJoin types.old types.new) }
{
    let shape = types.shape(of);
    value_by_base(types, of, width, shape.base)
}

/// The type of the value of an expression. It takes a few steps.
pub fn type_of_value(types: &mut Types, fact: ExpressionFact) -> Result<TypeId, AllocError>
    requires { IsKnownFact types.old fact }
    ensures value { IfOk result (IsValueOf types.new fact) }
    ensures keeps { OnOk result (TypesJoin types.old types.new) }
{
    let of = fact.node.of;
    if is_function(types, of) {
        pointer_to(types, of)
    } else {
        value_of_level(types, of, fact.node.value.width)
    }
}

/// What is known of a part, with the type of its value, which joins the table if it is new.
pub fn with_value(
    types: &mut Types,
    part: Option<ExpressionFact>,
) -> Result<Option<Valued>, AllocError>
    requires { IsKnownPart types.old part }
    ensures same { IfOk result (λ found. option_map (λ valued. valued.fact) found ≡ part) }
    ensures valued { IfOk result (λ found. IfSome found (IsValued types.new)) }
    ensures keeps { OnOk result (TypesJoin types.old types.new) }
{
    match part {
        None => Ok(None),
        Some(fact) => Ok(Some(fact_with_value(types, fact)?)),
    }
}

// An expression of which something is known, with the type of its value.
fn fact_with_value(types: &mut Types, fact: ExpressionFact) -> Result<Valued, AllocError>
    requires { IsKnownFact types.old fact }
    ensures same { IfOk result (λ found. found.fact ≡ fact) }
    ensures valued { IfOk result (IsValued types.new) }
    ensures keeps { OnOk result (TypesJoin types.old types.new) }
{
    let value = type_of_value(types, fact)?;
    Ok(Valued { fact, value })
}
