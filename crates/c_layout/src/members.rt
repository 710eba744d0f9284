// Where the members of structures and unions lie.
ghost use Rattle.std.specs.Prelude.{◌≡◌};
ghost use Rattle.c_types.specs.Telling.{field_in, layout_in, offset_in};
ghost use Rattle.c_types.specs.Layouts.{HasMember, bit_seen, told_in, width_among, width_in};
ghost use Rattle.c_types.specs.Table.{IsTypeId, body_in, type_at, types_in};
ghost use Rattle.c_layout.specs.Seen.{field_seen};

use c_types::{LayoutFault, Types};
use sparse_model::TypeId;

/// The bits of a bit-field.
#[derive(Clone, Copy, Debug, PartialEq, Eq)]
pub struct FieldBits {
    /// From the begin of its structure or union.
    pub start: u64,
    pub width: u32,
}

/// How many bytes lie before a member of a structure or a union; of a bit-field, before the byte in which it
/// starts. It refuses exactly as [`size_of`](crate::size_of) does.
pub fn offset_of(types: &Types, aggregate: TypeId, member: u32) -> Result<u64, LayoutFault>
    requires known { IsTypeId types.now aggregate }
    requires member { HasMember types.now (type_at types.now aggregate) member }
    ensures { bit_seen result ≡ offset_in member (layout_in (told_in types.now) (type_at types.now aggregate)) }
{
    match types.outline(aggregate).aggregate() {
        Some((number, is_union)) => match types.first_bit(number, is_union, member) {
            Ok(bit) => Ok(bit / 8),
            Err(fault) => Err(fault),
        },
        None => Err(LayoutFault::Incomplete),
    }
}

/// The bits of a member of a structure or a union that has a size; none exactly where the member is no
/// bit-field. Where [`size_of`](crate::size_of) refuses, no member has a place, and there are none.
pub fn field_bits(types: &Types, aggregate: TypeId, member: u32) -> Option<FieldBits>
    requires known { IsTypeId types.now aggregate }
    requires member { HasMember types.now (type_at types.now aggregate) member }
    ensures { field_seen result ≡ field_in (width_in types.now (type_at types.now aggregate) member) member (layout_in (told_in types.now) (type_at types.now aggregate)) }
{
    let Some((number, is_union)) = types.outline(aggregate).aggregate() else {
        return None;
    };
    let Some(width) = field_width(types, number, member) else {
        return None;
    };
    match types.first_bit(number, is_union, member) {
        Ok(start) => Some(FieldBits { start, width }),
        Err(_) => None,
    }
}

// How many bits a member has, if it is a bit-field.
fn field_width(types: &Types, aggregate: u32, member: u32) -> Option<u32>
    ensures { result ≡ width_among (types_in types.now) member (body_in types.now aggregate) }
{
    let Some(body) = types.body(aggregate) else {
        return None;
    };
    let Some(member) = body.members.as_slice().get(member as usize) else {
        return None;
    };
    if types.is_integer(member.of) {
        member.width
    } else {
        None
    }
}
