// Types that the tests share.
ghost use Rattle.std.specs.Prelude.{◌≡◌};

use c_types::{ShapeBase, TypeShape, Types};
use sparse_model::{IntKind, Restrict, Space, TypeId};
use std::alloc::AllocError;
use std::process::Abort;

// The type on this base in a space.
fn shape(base: ShapeBase, space: Space) -> TypeShape
    ensures { result.base ≡ base }
{
    TypeShape {
        base,
        is_const: false,
        is_volatile: false,
        noderef: false,
        space,
    }
}

/// An int in a space.
pub fn int_in(types: &mut Types, space: Space) -> Result<TypeId, AllocError> {
    types.make(shape(ShapeBase::Integer(IntKind::Int, None), space))
}

/// A restricted unsigned short.
pub fn restricted(types: &mut Types, identity: Restrict) -> Result<TypeId, AllocError> {
    let base = ShapeBase::Integer(IntKind::UShort, Some(identity));
    types.make(shape(base, Space::None))
}

/// A pointer to a type.
pub fn pointer_to(
    rt: &impl Abort,
    types: &mut Types,
    target: TypeId,
) -> Result<TypeId, AllocError> {
    assert!(rt; types.knows(target));
    types.make(shape(ShapeBase::Pointer(target), Space::None))
}

/// An array of so many of a type, or of an unknown number.
pub fn array_of(
    rt: &impl Abort,
    types: &mut Types,
    element: TypeId,
    count: Option<u64>,
) -> Result<TypeId, AllocError> {
    assert!(rt; types.knows(element));
    types.make(shape(ShapeBase::Array(element, count), Space::None))
}
