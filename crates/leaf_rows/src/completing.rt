// The type that an object has once it is initialized: an array without a length gets one (C11 6.7.9 p22).
ghost use Rattle.std.specs.Prelude.{◌≡◌, IfOk, IfSome, None, OnOk, Some, option_map};
ghost use Rattle.meaning_initializers.specs.Filling.{completed};
ghost use Rattle.meaning_typing.specs.Declarators.{array_type};
ghost use Rattle.c_types.specs.Table.{IsOuterOver, IsTypeId, type_at, types_in};
ghost use Rattle.node_facts.specs.Growing.{TypesJoin};
ghost use Rattle.leaf_rows.specs.Completing.{element_in, element_of};

use c_types::{OuterBase, ShapeBase, TypeShape, Types};
use expression_rows::is_array;
use sparse_model::{Space, TypeId};
use std::alloc::AllocError;

// An array of so many such elements.
fn array_of(types: &mut Types, element: TypeId, length: u64) -> Result<TypeId, AllocError>
    requires { IsTypeId types.old element }
    ensures made { IfOk result (λ id. type_at types.new id ≡ array_type (type_at types.old element) (Some length)) }
    ensures known { IfOk result (IsTypeId types.new) }
    ensures keeps { OnOk result (TypesJoin types.old types.new) }
{
    let id = types.make(TypeShape {
        base: ShapeBase::Array(element, Some(length)),
        is_const: false,
        is_volatile: false,
        noderef: false,
        space: Space::None,
    })?;
    Ok(id)
}

// An array without a length, of these elements: the one type of it and of another that has this length.
fn with_length(
    types: &mut Types,
    object: TypeId,
    element: TypeId,
    length: u64,
) -> Result<TypeId, AllocError>
    requires object { IsTypeId types.old object }
    requires element { IsTypeId types.old element }
    requires open { element_of (type_at types.old object) ≡ Some (type_at types.old element) }
    ensures made { IfOk result (λ id. type_at types.new id ≡ completed (type_at types.old object) length) }
    ensures known { IfOk result (IsTypeId types.new) }
    ensures keeps { OnOk result (TypesJoin types.old types.new) }
{
    let array = array_of(types, element, length)?;
    match types.composite(object, array)? {
        Some(complete) => Ok(complete),
        None => Ok(object),
    }
}

// The elements of an array without a length, by an outermost level.
fn open_element(types: &Types, base: OuterBase) -> Option<TypeId>
    requires { IsOuterOver (types_in types.now) base }
    ensures element { option_map (type_at types.now) result ≡ element_in (types_in types.now) base }
    ensures known { IfSome result (IsTypeId types.now) }
{
    match base {
        OuterBase::Array(element, None) => Some(element),
        _ => None,
    }
}

// The same of a type. The outermost level is asked of an array alone, since of a function it takes a step for each parameter.
#[tactic(auto, using(crate::proofs::CompletingLemmas::no_element))]
fn element_of(types: &Types, object: TypeId) -> Option<TypeId>
    requires { IsTypeId types.now object }
    ensures element { option_map (type_at types.now) result ≡ element_of (type_at types.now object) }
    ensures known { IfSome result (IsTypeId types.now) }
{
    if is_array(types, object) {
        open_element(types, types.shape(object).base)
    } else {
        None
    }
}

/// The type of an object that is initialized, where an array without a length has this one. It takes a few steps.
pub fn completed(types: &mut Types, object: TypeId, length: u64) -> Result<TypeId, AllocError>
    requires { IsTypeId types.old object }
    ensures made { IfOk result (λ id. type_at types.new id ≡ completed (type_at types.old object) length) }
    ensures known { IfOk result (IsTypeId types.new) }
    ensures keeps { OnOk result (TypesJoin types.old types.new) }
{
    match element_of(types, object) {
        Some(element) => with_length(types, object, element, length),
        None => Ok(object),
    }
}
