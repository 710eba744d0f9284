// What types take, and where members lie, as one line.
ghost use Rattle.std.specs.Prelude.{◌≡◌, true};
ghost use Rattle.c_types.specs.Layouts.{HasMember};
ghost use Rattle.c_types.specs.Table.{IsTypeId, type_at};

use crate::shown_types::push_number;
use c_layout::{LayoutFault, align_of, field_bits, offset_of, size_of};
use c_types::Types;
use sparse_model::TypeId;
use std::alloc::AllocError;

/// Appends the size and the alignment of a type, or why it has none.
pub fn push_extent(shown: &mut Vec<u8>, types: &Types, t: TypeId) -> Result<(), AllocError>
    requires { IsTypeId types.now t }
{
    push_line_of_extent(shown, types, t)?;
    shown.push(b'\n')?;
    Ok(())
}

/// Appends them, and behind them the byte in which each member begins, with the first bit and the width of a
/// bit-field.
pub fn push_layout(shown: &mut Vec<u8>, types: &Types, t: TypeId) -> Result<(), AllocError>
    requires { IsTypeId types.now t }
{
    push_line_of_extent(shown, types, t)?;
    for member in 0..member_count(types, t) {
        push_member(shown, types, t, member)?;
    }
    shown.push(b'\n')?;
    Ok(())
}

fn push_line_of_extent(shown: &mut Vec<u8>, types: &Types, t: TypeId) -> Result<(), AllocError>
    requires { IsTypeId types.now t }
{
    push_bytes(shown, size_of(types, t))?;
    shown.extend_from_slice(b", ")?;
    push_bytes(shown, align_of(types, t))
}

// A number of bytes, or why there is none.
fn push_bytes(shown: &mut Vec<u8>, bytes: Result<u64, LayoutFault>) -> Result<(), AllocError> {
    match bytes {
        Ok(bytes) => push_number(shown, bytes),
        Err(LayoutFault::Incomplete) => shown.extend_from_slice(b"incomplete"),
        Err(LayoutFault::TooLarge) => shown.extend_from_slice(b"too large"),
    }
}

// How many members were told of an aggregate; none of another type.
fn member_count(types: &Types, t: TypeId) -> u32
    requires { IsTypeId types.now t }
{
    let Some((number, _)) = types.outline(t).aggregate() else {
        return 0;
    };
    let Some(body) = types.body(number) else {
        return 0;
    };
    match u32::try_from(body.members.len()) {
        Ok(count) => count,
        Err(_) => 0,
    }
}

// Whether the calls may be asked for a member.
fn has_member(types: &Types, t: TypeId, member: u32) -> bool
    requires { IsTypeId types.now t }
    ensures { result ≡ true → HasMember types.now (type_at types.now t) member }
{
    let Some((number, _)) = types.outline(t).aggregate() else {
        return true;
    };
    match types.body(number) {
        Some(body) => (member as usize) < body.members.len(),
        None => true,
    }
}

fn push_member(shown: &mut Vec<u8>, types: &Types, t: TypeId, member: u32) -> Result<(), AllocError>
    requires { IsTypeId types.now t }
{
    if !has_member(types, t, member) {
        return Ok(());
    }
    shown.extend_from_slice(b"; ")?;
    push_bytes(shown, offset_of(types, t, member))?;
    let Some(bits) = field_bits(types, t, member) else {
        return Ok(());
    };
    shown.extend_from_slice(b" bit ")?;
    push_number(shown, bits.start)?;
    shown.extend_from_slice(b" of ")?;
    push_number(shown, u64::from(bits.width))
}
