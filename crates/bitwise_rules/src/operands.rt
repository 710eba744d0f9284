// What is asked of operands, by their types.
ghost use Rattle.std.specs.Prelude.{◌≡◌};
ghost use Rattle.meaning_operands.specs.Operands.{are_integers, complement_fouls, is_integer, is_pointer, is_restricted, is_unsigned_and_narrow};
ghost use Rattle.c_types.specs.Operands.{typed_operand};
ghost use Rattle.c_types.specs.Table.{IsTypeId, type_at};
ghost use Rattle.bitwise_rules.specs.Outlines.{fouls_in};

use c_types::{Operand, Outline, Types, bits, has_sign};
use sparse_model::{IntKind, TypeId};

/// Whether a type is one of integers, restricted or not.
#[tactic(auto, using(crate::proofs::OutlineLemmas::is_integer_told))]
pub fn is_integer(types: &Types, t: TypeId) -> bool
    requires { IsTypeId types.now t }
    ensures { result ≡ is_integer (type_at types.now t) }
{
    types.is_integer(t)
}

/// Whether a type is that of a pointer.
#[tactic(auto, using(crate::proofs::OutlineLemmas::is_pointer_told))]
pub fn is_pointer(types: &Types, t: TypeId) -> bool
    requires { IsTypeId types.now t }
    ensures { result ≡ is_pointer (type_at types.now t) }
{
    types.outline(t).is_pointer()
}

/// Whether a type is restricted.
pub fn is_restricted(types: &Types, t: TypeId) -> bool
    requires { IsTypeId types.now t }
    ensures { result ≡ is_restricted (type_at types.now t) }
{
    types.identity(t).is_some()
}

/// Whether both operands are integers.
pub fn are_integers(types: &Types, left: Operand, right: Operand) -> bool
    requires left { IsTypeId types.now left.of }
    requires right { IsTypeId types.now right.of }
    ensures { result ≡ are_integers (typed_operand types.now left) (typed_operand types.now right) }
{
    is_integer(types, left.of) && is_integer(types, right.of)
}

// Whether `~` sets bits that an unsigned kind, which is promoted, doesn't have.
fn is_unsigned_and_narrow(kind: IntKind) -> bool
    ensures { result ≡ is_unsigned_and_narrow kind }
{
    !has_sign(kind) && bits(kind) < bits(IntKind::Int)
}

// Whether `~` of a value of a type that is so is fouled.
fn outline_fouls(outline: Outline) -> bool
    ensures { result ≡ fouls_in outline }
{
    match outline {
        Outline::Restricted(kind, _) => is_unsigned_and_narrow(kind),
        _ => false,
    }
}

/// Whether `~` of a value of this type is fouled.
#[tactic(auto, using(crate::proofs::OutlineLemmas::complement_fouls_told))]
pub fn complement_fouls(types: &Types, t: TypeId) -> bool
    requires { IsTypeId types.now t }
    ensures { result ≡ complement_fouls (type_at types.now t) }
{
    outline_fouls(types.outline(t))
}
