// `__builtin_expect`: both operands become longs, as arguments of a function.
ghost use Rattle.std.specs.Prelude.{◌≡◌, IfOk, OnOk};
ghost use Rattle.meaning_typing.specs.Casts as meaning;
ghost use Rattle.c_types.specs.Table.{IsTypeId, type_at};
ghost use Rattle.node_facts.specs.Growing.{TypesJoin};
ghost use Rattle.expression_rows.specs.Arguments.{IsKnownArgument};
ghost use Rattle.expression_rows.specs.Expected.{expected_as};
ghost use Rattle.expression_rows.specs.Facts.{valued_part};
ghost use Rattle.expression_rows.specs.Rows.{IsKnownRow, row_seen, told};

use crate::call::{Argument, passed_as};
use crate::row::{Row, RowFailures, lesser};
use crate::value::make;
use c_types::{ShapeBase, Types};
use node_facts::ExpressionFact;
use sparse_model::{IntKind, TypeId};
use std::alloc::AllocError;

// Both operands become values of this type.
fn expected(types: &Types, first: Argument, second: Argument, long: TypeId) -> Row
    requires first { IsKnownArgument types.now first }
    requires second { IsKnownArgument types.now second }
    requires long { IsTypeId types.now long }
    ensures row { row_seen types.now result ≡ told (expected_as first.token second.token (valued_part types.now first.part) (valued_part types.now second.part) (type_at types.now long)) }
    ensures known { IsKnownRow types.now result }
{
    let left = passed_as(types, 1, first, long);
    let right = passed_as(types, 2, second, long);
    let failures = RowFailures {
        first: left.failure,
        second: right.failure,
    };
    Row::gives(
        ExpressionFact::value(long),
        lesser(left.broken, right.broken),
        failures,
    )
}

/// The row of `__builtin_expect`, whose operands stand at their own tokens. It takes a few steps.
pub fn judge_expect(types: &mut Types, first: Argument, second: Argument) -> Result<Row, AllocError>
    requires first { IsKnownArgument types.old first }
    requires second { IsKnownArgument types.old second }
    ensures row { IfOk result (λ row. row_seen types.new row ≡ told (meaning.expect_row first.token second.token (valued_part types.old first.part) (valued_part types.old second.part))) }
    ensures known { IfOk result (IsKnownRow types.new) }
    ensures keeps { OnOk result (TypesJoin types.old types.new) }
{
    let long = make(types, ShapeBase::Integer(IntKind::Long, None))?;
    Ok(expected(types, first, second, long))
}
