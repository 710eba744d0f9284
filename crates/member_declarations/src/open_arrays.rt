// Arrays without a length (C11 6.7.2.1 p18): a type and the table in, whether the last member of a structure may have it out. Where
// a member stands isn't known here.
ghost use Rattle.std.specs.Prelude.{◌≡◌};
ghost use Rattle.meaning_typing.specs.MemberRows as meaning;
ghost use Rattle.c_types.specs.Layouts.{told_in};
ghost use Rattle.c_types.specs.Table.{IsTypeId, type_at};
ghost use Rattle.member_declarations.specs.OpenArrays as specs;

use c_types::{OuterBase, Types};
use declaration_rows::is_no_object;
use expression_rows::is_array;
use sparse_model::TypeId;

// The element of an array without a length.
fn open_element(base: OuterBase) -> Option<TypeId>
    ensures { result ≡ specs.open_element base }
{
    match base {
        OuterBase::Array(element, None) => Some(element),
        _ => None,
    }
}

/// Whether a type is an array without a length, of elements that an object may be.
pub fn is_flexible(types: &Types, of: TypeId) -> bool
    requires { IsTypeId types.now of }
    ensures { result ≡ meaning.is_flexible (told_in types.now) (type_at types.now of) }
{
    // The outermost level of a function is told with a step for each parameter.
    if !is_array(types, of) {
        return false;
    }
    match open_element(types.shape(of).base) {
        Some(element) => !is_no_object(types, element),
        None => false,
    }
}
