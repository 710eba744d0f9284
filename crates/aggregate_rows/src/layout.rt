// Whether an object of a structure or a union is too large (C11 5.2.4.1): its body in, and the layouts that the table was told. The
// body itself needn't be told yet, nor any other of its tag.
ghost use Rattle.std.specs.Prelude.{◌≡◌, ℕ, IfOk, IfSome, option_map};
ghost use Rattle.meaning_typing.specs.MemberRows.{is_too_large_body};
ghost use Rattle.c_types.specs.Layouts.{told_in};
ghost use Rattle.c_types.specs.Table.{IsBodyOver, types_in};
ghost use Rattle.body_members.specs.Seen.{bodies_if, body_seen};

use c_types::{AggregateBody, LayoutFault, Types};
use std::alloc::AllocError;

/// Whether a structure or a union with this body would be too large; without a body none is.
pub fn is_too_large(
    types: &Types,
    body: Option<&AggregateBody>,
    is_union: bool,
) -> Result<bool, AllocError>
    requires { IfSome body (λ body. IsBodyOver (types_in types.now) body.now) }
    ensures { IfOk result (λ is. (number : ℕ) → is ≡ is_too_large_body (told_in types.now) is_union (bodies_if number (option_map (λ body. body_seen types.now body.now) body.entry))) }
{
    let Some(body) = body else {
        return Ok(false);
    };
    match types.body_extent(body, is_union)? {
        Ok(_) => Ok(false),
        Err(LayoutFault::Incomplete) => Ok(false),
        Err(LayoutFault::TooLarge) => Ok(true),
    }
}
