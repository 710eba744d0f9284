// A type without the qualifiers and flags of its outermost level (C11 6.3.2.1 p2), whatever it is.
ghost use Rattle.std.specs.Prelude.{◌≡◌, ◌<◌, All, IfOk, OnOk, length};
ghost use Rattle.meaning_types.specs.Types.{value_type};
ghost use Rattle.c_types.specs.Rows.{base_of, parameter_types, types_numbered};
ghost use Rattle.c_types.specs.Table.{IsShapeOver, IsTypeId, base_of_shape, type_at, types_in};
ghost use Rattle.node_facts.specs.Growing.{TypesJoin};

use crate::value::make;
use c_types::{OuterBase, ShapeBase, TypeIdList, Types};
use sparse_model::TypeId;
use std::alloc::{AllocError, Global};

// The parameters of a function type; another type has none.
fn parameters_of(alloc: Global, types: &Types, function: TypeId) -> Result<TypeIdList, AllocError>
    requires { IsTypeId types.now function }
    ensures parameters { IfOk result (λ ids. types_numbered (types_in types.now) ids ≡ parameter_types (type_at types.now function)) }
    ensures known { IfOk result (λ ids. All (λ id. id.0 < length (types_in types.now)) ids) }
{
    let mut found = TypeIdList::new(alloc);
    let mut rest = function;
    'parameters: while let Some((first, behind)) = types.first_parameter(rest) {
        if let Err((fault, _)) = found.push(first) {
            return Err(fault);
        }
        rest = behind;
    }
    Ok(found)
}

// What a type is, apart from its qualifiers and flags, as a type is made of it.
fn base_of(alloc: Global, types: &Types, of: TypeId) -> Result<ShapeBase, AllocError>
    requires { IsTypeId types.now of }
    ensures base { IfOk result (λ base. base_of_shape (types_in types.now) base ≡ base_of (type_at types.now of)) }
    ensures known { IfOk result (IsShapeOver (types_in types.now)) }
{
    match types.shape(of).base {
        OuterBase::Void => Ok(ShapeBase::Void),
        OuterBase::Integer(kind, identity) => Ok(ShapeBase::Integer(kind, identity)),
        OuterBase::Pointer(target) => Ok(ShapeBase::Pointer(target)),
        OuterBase::Array(element, count) => Ok(ShapeBase::Array(element, count)),
        OuterBase::Function(answer, _, variadic) => {
            let parameters = parameters_of(alloc, types, of)?;
            Ok(ShapeBase::Function(answer, parameters, variadic))
        }
        OuterBase::Aggregate(number, is_union) => Ok(ShapeBase::Aggregate(number, is_union)),
    }
}

/// The type without qualifiers and flags. It takes a few steps, and one for each parameter of a function.
pub fn plain_type(alloc: Global, types: &mut Types, of: TypeId) -> Result<TypeId, AllocError>
    requires { IsTypeId types.old of }
    ensures made { IfOk result (λ id. type_at types.new id ≡ value_type (type_at types.old of)) }
    ensures known { IfOk result (IsTypeId types.new) }
    ensures keeps { OnOk result (TypesJoin types.old types.new) }
{
    let base = base_of(alloc, types, of)?;
    let id = make(types, base)?;
    Ok(id)
}
