// The type of a structure or a union: its number in, its type out.
ghost use Rattle.std.specs.Prelude.{◌≡◌, IfOk, OnOk};
ghost use Rattle.meaning_types.specs.Types.{AggregateTree};
ghost use Rattle.meaning_typing.specs.Specifiers.{plain_type};
ghost use Rattle.c_types.specs.Table.{IsTypeId, type_at};
ghost use Rattle.node_facts.specs.Growing.{TypesJoin};

use c_types::{ShapeBase, TypeShape, Types};
use sparse_model::{Space, TypeId};
use std::alloc::AllocError;

fn make_aggregate(types: &mut Types, number: u32, is_union: bool) -> Result<TypeId, AllocError>
    ensures made { IfOk result (λ id. type_at types.new id ≡ plain_type (AggregateTree number is_union)) }
    ensures known { IfOk result (IsTypeId types.new) }
    ensures keeps { OnOk result (TypesJoin types.old types.new) }
{
    let id = types.make(TypeShape {
        base: ShapeBase::Aggregate(number, is_union),
        is_const: false,
        is_volatile: false,
        noderef: false,
        space: Space::None,
    })?;
    Ok(id)
}

/// The structure or the union with this number, which no qualifier and no attribute is added to. A number of more than 32 bits,
/// which no specifier has that was read, is want of memory.
pub fn aggregate_type(types: &mut Types, number: u64, is_union: bool) -> Result<TypeId, AllocError>
    ensures made { IfOk result (λ id. type_at types.new id ≡ plain_type (AggregateTree number is_union)) }
    ensures known { IfOk result (IsTypeId types.new) }
    ensures keeps { OnOk result (TypesJoin types.old types.new) }
{
    match u32::try_from(number) {
        Ok(number) => make_aggregate(types, number, is_union),
        Err(_) => Err(AllocError),
    }
}
