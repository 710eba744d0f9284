// The row of `__builtin_offsetof` behind its steps (C11 7.19 p3).
ghost use Rattle.std.specs.Prelude.{◌≡◌, IfOk, OnOk, option_map};
ghost use Rattle.meaning_rules.specs.Rules.{least_broken};
ghost use Rattle.meaning_typing.specs.OffsetRows as meaning;
ghost use Rattle.meaning_typing.specs.Operators.{integer};
ghost use Rattle.vocabulary.specs.declared.int_kind.IntKind.TheVariants as integers;
ghost use Rattle.c_types.specs.Table.{TypeTable, IsTypeId, type_at};
ghost use Rattle.expression_rows.specs.Arguments.{without_failures};
ghost use Rattle.expression_rows.specs.Rows.{IsKnownRow, broken_seen, row_seen, told};
ghost use Rattle.member_rows.specs.Steps.{IsWalked, broken_by_width, offset_with, reached_seen};
ghost use Rattle.node_facts.specs.Growing.{TypesJoin};

use crate::reached::Reached;
use crate::typed::make;
use c_types::{ShapeBase, TypeShape, Types};
use expression_rows::{Broken, Row, RowFailures, broken_at, lesser};
use node_facts::ExpressionFact;
use sparse_model::{ErrorKind, IntKind, Space, TypeId};
use std::alloc::AllocError;

// A bit-field has no address of its own.
fn field_broken(token: u32, reached: Option<Reached>) -> Option<Broken>
    ensures { (table : TypeTable) → option_map broken_seen result ≡ least_broken (meaning.field_broken token (option_map (reached_seen table) reached)) }
{
    match reached {
        None => None,
        Some(reached) => broken_by_width(token, reached.width),
    }
}

fn broken_by_width(token: u32, width: Option<u32>) -> Option<Broken>
    ensures { option_map broken_seen result ≡ least_broken (broken_by_width token width) }
{
    match width {
        None => None,
        Some(_) => broken_at(ErrorKind::CannotTakeAddress, token),
    }
}

// Whether the steps have led somewhere, by indices that are known.
fn is_led(reached: Option<Reached>) -> bool
    ensures { (table : TypeTable) → result ≡ meaning.is_led (option_map (reached_seen table) reached) }
{
    match reached {
        None => false,
        Some(reached) => reached.is_known,
    }
}

// An unsigned long, without qualifiers and flags.
fn unsigned_long(types: &mut Types) -> Result<TypeId, AllocError>
    ensures made { IfOk result (λ id. type_at types.new id ≡ integer integers.ULong) }
    ensures known { IfOk result (IsTypeId types.new) }
    ensures keeps { OnOk result (TypesJoin types.old types.new) }
{
    make(
        types,
        TypeShape {
            base: ShapeBase::Integer(IntKind::ULong, None),
            is_const: false,
            is_volatile: false,
            noderef: false,
            space: Space::None,
        },
    )
}

// By the least constraint, and by whether the steps have led somewhere.
fn offset_with(types: &mut Types, broken: Option<Broken>, is_led: bool) -> Result<Row, AllocError>
    ensures row { IfOk result (λ row. row_seen types.new row ≡ offset_with (option_map broken_seen broken) is_led) }
    ensures known { IfOk result (IsKnownRow types.new) }
    ensures keeps { OnOk result (TypesJoin types.old types.new) }
{
    if broken.is_some() || !is_led {
        return Ok(Row::breaks(broken, RowFailures::none()));
    }
    let of = unsigned_long(types)?;
    Ok(Row::gives(ExpressionFact::value(of), None, RowFailures::none()))
}

/// The row of `__builtin_offsetof` at this token, but for the failures and the constant, by the least constraint that its steps break
/// and by where they have led. Its failures are those of its steps, in their order.
pub fn judge_offset(
    types: &mut Types,
    token: u32,
    broken: Option<Broken>,
    reached: Option<Reached>,
) -> Result<Row, AllocError>
    ensures row { IfOk result (λ row. (walk : meaning.Walk) → IsWalked types.old broken reached walk → row_seen types.new row ≡ told (without_failures (meaning.offset_by token walk))) }
    ensures known { IfOk result (IsKnownRow types.new) }
    ensures keeps { OnOk result (TypesJoin types.old types.new) }
{
    let least = lesser(broken, field_broken(token, reached));
    offset_with(types, least, is_led(reached))
}
