// The forms of types: arrays by their elements, and all others as they are.
ghost use Rattle.std.specs.Prelude.{◌≡◌, IfSome, option_map};
ghost use Rattle.c_types.specs.Table.{IsTypeId, type_at};
ghost use Rattle.linked_names.specs.Forms.{array_in, array_seen, have_one_form, is_open_array};

use c_types::{OuterBase, Outline, Types};
use sparse_model::TypeId;

/// The element of an array, and its length where it is known. It takes no memory, and one step.
fn array(types: &Types, t: TypeId) -> Option<(TypeId, Option<u64>)>
    requires { IsTypeId types.now t }
    ensures array { option_map (array_seen types.now) result ≡ array_in (type_at types.now t) }
    ensures known { IfSome result (λ parts. IsTypeId types.now parts.0) }
{
    // Only arrays are looked into, since the shape of a function takes a step for each parameter.
    match types.outline(t) {
        Outline::Array => match types.shape(t).base {
            OuterBase::Array(element, length) => Some((element, length)),
            _ => None,
        },
        _ => None,
    }
}

/// Whether a type is an array without a length. It takes no memory, and one step.
pub(crate) fn is_open_array(types: &Types, t: TypeId) -> bool
    requires { IsTypeId types.now t }
    ensures { result ≡ is_open_array (type_at types.now t) }
{
    match array(types, t) {
        Some((_, None)) => true,
        _ => false,
    }
}

/// Whether both are arrays of the same element, or other types that are the same. It takes no memory, and a few steps.
pub(crate) fn have_one_form(types: &Types, t: TypeId, other: TypeId) -> bool
    requires first { IsTypeId types.now t }
    requires second { IsTypeId types.now other }
    ensures { result ≡ have_one_form (type_at types.now t) (type_at types.now other) }
{
    match (array(types, t), array(types, other)) {
        (Some((element, _)), Some((another, _))) => types.same(element, another),
        _ => types.same(t, other),
    }
}
