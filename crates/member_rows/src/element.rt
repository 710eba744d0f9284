// How many bytes lie before a member or an element (C11 7.19 p3).
ghost use Rattle.std.specs.Prelude.{◌≡◌};
ghost use Rattle.std.specs.Option.{option_and_then};
ghost use Rattle.meaning_constants.specs.Sizes.{NamedMember};
ghost use Rattle.meaning_constants.specs.Sizes as sizes;
ghost use Rattle.meaning_typing.specs.OffsetRows as meaning;
ghost use Rattle.c_types.specs.Layouts.{told_in};
ghost use Rattle.c_types.specs.Table.{IsTypeId, type_at};
ghost use Rattle.member_rows.specs.Aggregates.{aggregates_in, bytes_in, bytes_within};
ghost use Rattle.member_rows.specs.Steps.{bytes_to_element};
ghost use Rattle.node_facts.specs.Facts.{name_seen};

use c_types::Types;
use node_facts::asked_size;
use sparse_model::{NameId, TypeId};

/// The most bytes that an object may have: 2^40.
const MOST_BYTES: u128 = 1 << 40;

// So many bytes, unless that is more than an object may have.
fn bytes_within(bytes: u128) -> Option<u64>
    ensures { result ≡ bytes_within bytes }
{
    if bytes <= MOST_BYTES {
        Some(bytes as u64)
    } else {
        None
    }
}

// How many bytes lie before a member of an aggregate, of which so many lie before.
fn bytes_in(types: &Types, name: NameId, of: TypeId, bytes: u64) -> Option<u64>
    requires { IsTypeId types.now of }
    ensures { result ≡ bytes_in types.now name (type_at types.now of) bytes }
{
    let (number, is_union) = types.outline(of).aggregate()?;
    let found = types.member(number, name)?;
    let bit = types.member_bits(number, is_union, &found)?;
    bytes_within(u128::from(bytes) + u128::from(bit / 8))
}

/// How many bytes lie before the member with this name, where so many lie before an object of this type. It takes a few steps.
#[tactic(auto, using(crate::proofs::OffsetLemmas::member_told))]
pub fn bytes_to_member(types: &Types, name: NameId, of: TypeId, bytes: Option<u64>) -> Option<u64>
    requires { IsTypeId types.now of }
    ensures { result ≡ option_and_then (meaning.bytes_to (aggregates_in types.now) (NamedMember (name_seen name)) (type_at types.now of)) bytes }
{
    match bytes {
        None => None,
        Some(bytes) => bytes_in(types, name, of, bytes),
    }
}

// How many bytes lie before the element with this index, where so many lie before its array.
fn bytes_at(types: &Types, element: TypeId, index: u128, bytes: u64) -> Option<u64>
    requires { IsTypeId types.now element }
    ensures { result ≡ bytes_to_element (told_in types.now) (type_at types.now element) index bytes }
{
    let size = asked_size(types, element)?;
    if size == 0 {
        return bytes_within(u128::from(bytes));
    }
    if index > MOST_BYTES {
        return None;
    }
    bytes_within(u128::from(bytes) + index * u128::from(size))
}

/// The same, where it may not be known how many lie before the array.
pub fn bytes_to_element(
    types: &Types,
    element: TypeId,
    index: u128,
    bytes: Option<u64>,
) -> Option<u64>
    requires { IsTypeId types.now element }
    ensures { result ≡ option_and_then (bytes_to_element (told_in types.now) (type_at types.now element) index) bytes }
{
    bytes_at(types, element, index, bytes?)
}
