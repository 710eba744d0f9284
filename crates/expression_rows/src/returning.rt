// `return` (C11 6.8.6.4).
ghost use Rattle.std.specs.Prelude.{◌≡◌, IfSome, Some, option_map};
ghost use Rattle.meaning_typing.specs.Statements as meaning;
ghost use Rattle.c_types.specs.Table.{IsTypeId, type_at};
ghost use Rattle.expression_rows.specs.Facts.{IsValued, valued_seen};
ghost use Rattle.expression_rows.specs.Parts.{IsKnownReturn, returned_as, returned_from_void, returned_seen};
ghost use Rattle.expression_rows.specs.Rows.{IsKnownRow, row_seen, told};

use crate::convert::{Standing, convert_part};
use crate::operand::{is_void, is_void_value};
use crate::row::{Row, RowFailures, broken_at};
use crate::value::Valued;
use c_types::Types;
use space_rules::Position;
use sparse_model::{ErrorKind, TypeId};

/// What stands behind `return`.
#[derive(Clone, Copy)]
pub enum Returned {
    Nothing,
    /// An expression, of which something may be known.
    Value(Option<Valued>),
}

// Without an expression.
fn returns_nothing(types: &Types, token: u32, answer: TypeId) -> Row
    requires { IsTypeId types.now answer }
    ensures row { row_seen types.now result ≡ told (meaning.returns_nothing token (type_at types.now answer)) }
    ensures known { IsKnownRow types.now result }
{
    if is_void(types, answer) {
        Row::nothing()
    } else {
        Row::breaks(
            broken_at(ErrorKind::ReturnWithoutValue, token),
            RowFailures::none(),
        )
    }
}

// With one, from a function that returns nothing.
fn returned_from_void(types: &Types, token: u32, from: Valued) -> Row
    requires { IsValued types.now from }
    ensures row { row_seen types.now result ≡ told (returned_from_void token (valued_seen types.now from)) }
    ensures known { IsKnownRow types.now result }
{
    if is_void_value(types, from) {
        Row::nothing()
    } else {
        Row::breaks(
            broken_at(ErrorKind::ValueReturnedFromVoid, token),
            RowFailures::none(),
        )
    }
}

// As a value of the function's result.
fn returned_as(types: &Types, at: Standing, from: Valued, answer: TypeId) -> Row
    requires from { IsValued types.now from }
    requires answer { IsTypeId types.now answer }
    ensures row { row_seen types.now result ≡ told (returned_as at.token at.part at.value (valued_seen types.now from) (type_at types.now answer)) }
    ensures known { IsKnownRow types.now result }
{
    let conversion = convert_part(types, at, from, answer, Position::Return);
    Row::breaks(conversion.broken, RowFailures::only(conversion.failure))
}

// With one.
fn value_returned(types: &Types, token: u32, standing: u32, from: Valued, answer: TypeId) -> Row
    requires from { IsValued types.now from }
    requires answer { IsTypeId types.now answer }
    ensures row { row_seen types.now result ≡ told (meaning.returned token standing (valued_seen types.now from) (type_at types.now answer)) }
    ensures known { IsKnownRow types.now result }
{
    if is_void(types, answer) {
        returned_from_void(types, token, from)
    } else {
        let at = Standing {
            token,
            part: 0,
            value: standing,
        };
        returned_as(types, at, from, answer)
    }
}

// In a function whose result is known.
fn returned_in(types: &Types, token: u32, standing: u32, value: Returned, answer: TypeId) -> Row
    requires value { IsKnownReturn types.now value }
    requires answer { IsTypeId types.now answer }
    ensures row { row_seen types.now result ≡ told (meaning.return_row token standing (returned_seen types.now value) (Some (type_at types.now answer))) }
    ensures known { IsKnownRow types.now result }
{
    match value {
        Returned::Nothing => returns_nothing(types, token, answer),
        Returned::Value(None) => Row::nothing(),
        Returned::Value(Some(from)) => value_returned(types, token, standing, from, answer),
    }
}

/// The row of `return` at this token, whose expression, if there is one, stands at its own; `answer` is the result of
/// the function around it, if that is known.
pub fn judge_return(
    types: &Types,
    token: u32,
    standing: u32,
    value: Returned,
    answer: Option<TypeId>,
) -> Row
    requires value { IsKnownReturn types.now value }
    requires answer { IfSome answer (IsTypeId types.now) }
    ensures row { row_seen types.now result ≡ told (meaning.return_row token standing (returned_seen types.now value) (option_map (type_at types.now) answer)) }
    ensures known { IsKnownRow types.now result }
{
    match answer {
        None => Row::nothing(),
        Some(answer) => returned_in(types, token, standing, value, answer),
    }
}
