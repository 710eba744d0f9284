// What an access says.
ghost use Rattle.std.specs.Prelude.{◌≡◌};
ghost use Rattle.meaning_operands.specs.Accesses.{access_answer};
ghost use Rattle.c_types.specs.Table.{IsTypeId, type_at};

use c_types::Types;
use sparse_model::{RuleCode, TypeId};

/// The rule that a load from a place of this type, or a store to it, breaks. It takes no memory.
pub fn access_rule(types: &Types, t: TypeId) -> Option<RuleCode>
    requires { IsTypeId types.now t }
    ensures { result ≡ access_answer (type_at types.now t) }
{
    if types.has_flag(t) {
        Some(RuleCode::A4)
    } else {
        None
    }
}
