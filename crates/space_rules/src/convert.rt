// The answer of a conversion.
ghost use Rattle.std.specs.Prelude.{◌≡◌};
ghost use Rattle.meaning_operands.specs.Conversions.{conversion_answer};
ghost use Rattle.c_types.specs.Operands.{typed_operand};
ghost use Rattle.c_types.specs.Table.{IsTypeId, type_at};
ghost use Rattle.c_types.specs.Outlines.{outline_of};
ghost use Rattle.space_rules.specs.Outlines.{becomes};
ghost use Rattle.space_rules.specs.Seen.{convert_seen};

use crate::rows::{convert_aggregate, convert_integer, convert_pointer};
use c_types::{Operand, Outline, Types};
use sparse_model::{RuleCode, TypeId};

/// Where a conversion stands.
#[derive(Clone, Copy, Debug, PartialEq, Eq)]
pub enum Position {
    Assignment,
    /// The number of the argument, from 1.
    Argument(u16),
    Initializer,
    Return,
}

/// What a conversion says.
#[derive(Clone, Copy, Debug, PartialEq, Eq)]
pub enum ConvertAnswer {
    /// Nothing fails.
    Fine,
    /// This rule fails.
    Fails(RuleCode),
    /// It is none: a void value, or an aggregate and another type.
    Constraint,
}

/// What the conversion of an operand to a type says, as by assignment (C11 6.5.16.1), wherever it stands; `null` says
/// that the operand is a null pointer constant of type `void *`. It takes no memory.
#[tactic(auto, using(crate::proofs::OutlineLemmas::conversion_told))]
pub fn convert_rule(
    types: &Types,
    from: Operand,
    null: bool,
    to: TypeId,
    _how: Position,
) -> ConvertAnswer
    requires from { IsTypeId types.now from.of }
    requires to { IsTypeId types.now to }
    ensures { convert_seen result ≡ conversion_answer (typed_operand types.now from) null (type_at types.now to) }
{
    convert_outlines(types, from, null, to, types.outline(from.of))
}

// By what the operand is.
fn convert_outlines(
    types: &Types,
    from: Operand,
    null: bool,
    to: TypeId,
    outline: Outline,
) -> ConvertAnswer
    requires from { IsTypeId types.now from.of }
    requires to { IsTypeId types.now to }
    ensures { convert_seen result ≡ becomes (typed_operand types.now from) null (type_at types.now to) outline (outline_of (type_at types.now to)) }
{
    let target = types.outline(to);
    match outline {
        Outline::Pointer => convert_pointer(types, null, from.of, to, target),
        Outline::Integer(_) => convert_integer(types, from, to, target),
        Outline::Restricted(_, _) => convert_integer(types, from, to, target),
        Outline::Aggregate(number, is_union) => convert_aggregate(number, is_union, target),
        _ => ConvertAnswer::Constraint,
    }
}
