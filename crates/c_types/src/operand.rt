// What a rule sees of an operand.
ghost use Rattle.std.specs.Prelude.{◌≡◌};
ghost use Rattle.meaning_operands.specs.Operands.{are_one_identity};
ghost use Rattle.c_types.specs.Operands.{identity_seen};

use sparse_model::{Restrict, TypeId};

/// An operand of an operator, or what is converted.
#[derive(Clone, Copy)]
pub struct Operand {
    /// Its type as a value.
    pub of: TypeId,
    /// Whether bits may be set that its restricted type doesn't have.
    pub fouled: bool,
    /// Whether it is the constant 0: an integer constant expression of that value and of a plain type (C11 6.6 p6).
    pub zero: bool,
}

/// Whether both are one restricted type, or both plain.
pub fn are_one_identity(left: Option<Restrict>, right: Option<Restrict>) -> bool
    ensures { result ≡ are_one_identity (identity_seen left) (identity_seen right) }
{
    match (left, right) {
        (None, None) => true,
        (Some(restrict), Some(other)) => restrict.0 == other.0,
        _ => false,
    }
}
