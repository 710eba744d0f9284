// Unary `*` and `&` (C11 6.5.3.2).
ghost use Rattle.std.specs.Prelude.{◌≡◌, IfOk, IfSome, OnOk, option_map};
ghost use Rattle.meaning_typing.specs.Expressions as meaning;
ghost use Rattle.meaning_typing.specs.Facts.{Expression};
ghost use Rattle.c_types.specs.Table.{IsTypeId, type_at};
ghost use Rattle.node_facts.specs.Facts.{IsKnownFact, addressed_seen, fact_seen};
ghost use Rattle.expression_rows.specs.Facts.{IsKnownPart, IsValued, part_seen, valued_part, valued_seen};
ghost use Rattle.node_facts.specs.Growing.{TypesJoin};
ghost use Rattle.expression_rows.specs.Parts.{has_address_in, indirection_with};
ghost use Rattle.expression_rows.specs.Rows.{IsKnownRow, row_seen, told};

use crate::operand::{target_of_value, void_used};
use crate::row::{Row, RowFailures, broken_at, lesser};
use crate::value::{Valued, pointer_to};
use c_types::Types;
use node_facts::{Addressed, ExpressionFact, ExpressionMarks};
use sparse_model::{ErrorKind, TypeId};
use std::alloc::AllocError;

// By the type to which the operand points, if it is a pointer.
fn indirection_with(
    types: &Types,
    token: u32,
    standing: u32,
    operand: Valued,
    target: Option<TypeId>,
) -> Row
    requires operand { IsValued types.now operand }
    requires target { IfSome target (IsTypeId types.now) }
    ensures row { row_seen types.now result ≡ told (indirection_with token standing (valued_seen types.now operand) (option_map (type_at types.now) target)) }
    ensures known { IsKnownRow types.now result }
{
    match target {
        Some(target) => Row::gives(ExpressionFact::place(target), None, RowFailures::none()),
        None => Row::breaks(
            lesser(
                broken_at(ErrorKind::CannotDereference, token),
                void_used(types, standing, operand),
            ),
            RowFailures::none(),
        ),
    }
}

/// The row of `*` at this token, whose operand stands at its own.
#[tactic(auto, using(crate::proofs::PartLemmas::indirection_told))]
pub fn judge_indirection(types: &Types, token: u32, standing: u32, operand: Option<Valued>) -> Row
    requires { IfSome operand (IsValued types.now) }
    ensures row { row_seen types.now result ≡ told (meaning.indirection_row token standing (valued_part types.now operand)) }
    ensures known { IsKnownRow types.now result }
{
    match operand {
        None => Row::nothing(),
        Some(operand) => indirection_with(
            types,
            token,
            standing,
            operand,
            target_of_value(types, operand),
        ),
    }
}

// A place that is no bit-field and was not declared `register`.
fn has_address(operand: ExpressionFact) -> bool
    ensures { result ≡ has_address_in operand }
{
    operand.marks.is_place && !operand.node.value.width.is_some() && !operand.marks.is_register
}

fn address_taken(address: Addressed) -> Addressed
    ensures { addressed_seen result ≡ meaning.address_taken (addressed_seen address) }
{
    match address {
        Addressed::ConstantPlace => Addressed::ConstantAddress,
        Addressed::NotAddress => Addressed::NotAddress,
        Addressed::ConstantAddress => Addressed::NotAddress,
    }
}

// The row of `&` at this token.
fn address_of(types: &mut Types, token: u32, operand: ExpressionFact) -> Result<Row, AllocError>
    requires { IsKnownFact types.old operand }
    ensures row { IfOk result (λ row. row_seen types.new row ≡ told (meaning.address_row token (Expression (fact_seen types.old operand)))) }
    ensures known { IfOk result (IsKnownRow types.new) }
    ensures keeps { OnOk result (TypesJoin types.old types.new) }
{
    if !has_address(operand) {
        return Ok(Row::breaks(
            broken_at(ErrorKind::CannotTakeAddress, token),
            RowFailures::none(),
        ));
    }
    let of = pointer_to(types, operand.node.of)?;
    let marks = ExpressionMarks {
        address: address_taken(operand.marks.address),
        ..ExpressionMarks::none()
    };
    Ok(Row::gives(
        ExpressionFact {
            marks,
            ..ExpressionFact::value(of)
        },
        None,
        RowFailures::none(),
    ))
}

/// The row of `&` at this token.
pub fn judge_address(
    types: &mut Types,
    token: u32,
    operand: Option<ExpressionFact>,
) -> Result<Row, AllocError>
    requires { IsKnownPart types.old operand }
    ensures row { IfOk result (λ row. row_seen types.new row ≡ told (meaning.address_row token (part_seen types.old operand))) }
    ensures known { IfOk result (IsKnownRow types.new) }
    ensures keeps { OnOk result (TypesJoin types.old types.new) }
{
    match operand {
        None => Ok(Row::nothing()),
        Some(operand) => address_of(types, token, operand),
    }
}
