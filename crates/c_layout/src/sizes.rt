// What types take.
ghost use Rattle.std.specs.Prelude.{◌≡◌};
ghost use Rattle.c_types.specs.Sizes.{extent_of};
ghost use Rattle.c_types.specs.Telling.{align_in, size_in};
ghost use Rattle.c_types.specs.Layouts.{number_seen, told_in};
ghost use Rattle.c_types.specs.Table.{IsTypeId, type_at};

use c_types::{LayoutFault, Types};
use sparse_model::TypeId;

/// The size of a type, in bytes. It is Incomplete for void, a function, an array without a length, an
/// aggregate whose members weren't told, and what is made of such a type (C11 6.2.5 p1), and TooLarge where
/// it would pass 2^40.
pub fn size_of(types: &Types, t: TypeId) -> Result<u64, LayoutFault>
    requires { IsTypeId types.now t }
    ensures { number_seen result ≡ size_in (extent_of (told_in types.now) (type_at types.now t)) }
{
    Ok(types.extent(t)?.size)
}

/// The alignment of a type, in bytes (C11 6.2.8). It refuses exactly as [`size_of`] does.
pub fn align_of(types: &Types, t: TypeId) -> Result<u64, LayoutFault>
    requires { IsTypeId types.now t }
    ensures { number_seen result ≡ align_in (extent_of (told_in types.now) (type_at types.now t)) }
{
    Ok(types.extent(t)?.align)
}
