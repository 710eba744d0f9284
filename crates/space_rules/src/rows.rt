// The rows of a conversion, by what is converted to what.
ghost use Rattle.std.specs.Prelude.{◌≡◌};
ghost use Rattle.meaning_types.specs.Types.{IntegerTree};
ghost use Rattle.meaning_operands.specs.Conversions.{aggregates_answer, from_pointer_answer, integers_answer, pointers_answer, to_pointer_answer};
ghost use Rattle.c_types.specs.Operands.{typed_operand};
ghost use Rattle.c_types.specs.Table.{IsTypeId, type_at};
ghost use Rattle.space_rules.specs.Outlines.{aggregate_becomes, integer_becomes, pointer_becomes};
ghost use Rattle.space_rules.specs.Seen.{convert_seen};

use crate::convert::ConvertAnswer;
use crate::targets::{have_other_targets, mix_spaces};
use c_types::{Operand, Outline, Types, are_one_identity};
use sparse_model::{IntKind, RuleCode, TypeId};

// A pointer becomes a pointer; a null pointer constant of type `void *` becomes any.
fn convert_pointers(types: &Types, null: bool, from: TypeId, to: TypeId) -> ConvertAnswer
    requires from { IsTypeId types.now from }
    requires to { IsTypeId types.now to }
    ensures { convert_seen result ≡ pointers_answer null (type_at types.now from) (type_at types.now to) }
{
    if null {
        ConvertAnswer::Fine
    } else if mix_spaces(types, from, to) {
        ConvertAnswer::Fails(RuleCode::A1)
    } else if have_other_targets(types, from, to) {
        ConvertAnswer::Fails(RuleCode::A2)
    } else {
        ConvertAnswer::Fine
    }
}

// An integer becomes a pointer.
fn to_pointer(zero: bool) -> ConvertAnswer
    ensures { convert_seen result ≡ to_pointer_answer zero }
{
    if zero {
        ConvertAnswer::Fails(RuleCode::N1)
    } else {
        ConvertAnswer::Fails(RuleCode::A2)
    }
}

// A pointer becomes a plain integer: `_Bool` alone.
fn from_pointer(kind: IntKind) -> ConvertAnswer
    ensures { convert_seen result ≡ from_pointer_answer (IntegerTree kind) }
{
    match kind {
        IntKind::Bool => ConvertAnswer::Fine,
        _ => ConvertAnswer::Fails(RuleCode::A2),
    }
}

// An integer becomes an integer: of one restricted type, or both plain, unless it is the constant 0.
fn convert_integers(types: &Types, from: Operand, to: TypeId) -> ConvertAnswer
    requires from { IsTypeId types.now from.of }
    requires to { IsTypeId types.now to }
    ensures { convert_seen result ≡ integers_answer (typed_operand types.now from) (type_at types.now to) }
{
    if from.zero || are_one_identity(types.identity(from.of), types.identity(to)) {
        ConvertAnswer::Fine
    } else {
        ConvertAnswer::Fails(RuleCode::B3)
    }
}

// An aggregate becomes an aggregate: itself alone.
fn convert_aggregates(
    number: u32,
    other: u32,
    is_union: bool,
    is_other_union: bool,
) -> ConvertAnswer
    ensures { convert_seen result ≡ aggregates_answer number other is_union is_other_union }
{
    if number == other && is_union == is_other_union {
        ConvertAnswer::Fine
    } else {
        ConvertAnswer::Constraint
    }
}

/// A pointer becomes a value of a type that is so.
pub fn convert_pointer(
    types: &Types,
    null: bool,
    from: TypeId,
    to: TypeId,
    target: Outline,
) -> ConvertAnswer
    requires from { IsTypeId types.now from }
    requires to { IsTypeId types.now to }
    ensures { convert_seen result ≡ pointer_becomes null (type_at types.now from) (type_at types.now to) target }
{
    match target {
        Outline::Pointer => convert_pointers(types, null, from, to),
        Outline::Integer(kind) => from_pointer(kind),
        Outline::Restricted(_, _) => ConvertAnswer::Fails(RuleCode::A2),
        _ => ConvertAnswer::Constraint,
    }
}

/// An integer becomes a value of a type that is so.
pub fn convert_integer(types: &Types, from: Operand, to: TypeId, target: Outline) -> ConvertAnswer
    requires from { IsTypeId types.now from.of }
    requires to { IsTypeId types.now to }
    ensures { convert_seen result ≡ integer_becomes (typed_operand types.now from) (type_at types.now to) target }
{
    match target {
        Outline::Pointer => to_pointer(from.zero),
        Outline::Integer(_) => convert_integers(types, from, to),
        Outline::Restricted(_, _) => convert_integers(types, from, to),
        _ => ConvertAnswer::Constraint,
    }
}

/// An aggregate becomes a value of a type that is so.
pub fn convert_aggregate(number: u32, is_union: bool, target: Outline) -> ConvertAnswer
    ensures { convert_seen result ≡ aggregate_becomes number is_union target }
{
    match target {
        Outline::Aggregate(other, is_other_union) => {
            convert_aggregates(number, other, is_union, is_other_union)
        }
        _ => ConvertAnswer::Constraint,
    }
}
