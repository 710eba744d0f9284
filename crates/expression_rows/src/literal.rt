// Literals (C11 6.4.4, 6.4.5).
ghost use Rattle.std.specs.Prelude.{◌≡◌, IfOk, OnOk, None, Some};
ghost use Rattle.vocabulary.specs.declared.int_kind.IntKind.TheVariants as kinds;
ghost use Rattle.meaning_types.specs.Types.{IntegerTree};
ghost use Rattle.meaning_typing.specs.Declarators.{array_type};
ghost use Rattle.meaning_typing.specs.Expressions as meaning;
ghost use Rattle.meaning_typing.specs.Specifiers.{plain_type};
ghost use Rattle.c_types.specs.Table.{IsTypeId, type_at};
ghost use Rattle.node_facts.specs.Growing.{TypesJoin};
ghost use Rattle.expression_rows.specs.Rows.{IsKnownRow, given_row, no_failures, row_seen, told};

use crate::row::{Row, RowFailures};
use crate::value::make;
use c_types::{ShapeBase, Types};
use node_facts::{Addressed, ExpressionFact, ExpressionMarks};
use sparse_model::{IntKind, TypeId};
use std::alloc::AllocError;

// A row of an expression that breaks nothing and of which nothing fails.
fn known(fact: ExpressionFact) -> Row
    ensures { result ≡ given_row fact None no_failures }
{
    Row::gives(fact, None, RowFailures::none())
}

/// The row of an integer or a character of this kind.
pub fn judge_literal(types: &mut Types, kind: IntKind) -> Result<Row, AllocError>
    ensures row { IfOk result (λ row. row_seen types.new row ≡ told (meaning.literal_row (plain_type (IntegerTree kind)))) }
    ensures known { IfOk result (IsKnownRow types.new) }
    ensures keeps { OnOk result (TypesJoin types.old types.new) }
{
    let of = make(types, ShapeBase::Integer(kind, None))?;
    Ok(known(ExpressionFact::value(of)))
}

// An array of characters.
#[tactic(auto, using(crate::proofs::GrowthLemmas::joins_on))]
fn characters(types: &mut Types, length: u64) -> Result<TypeId, AllocError>
    ensures made { IfOk result (λ id. type_at types.new id ≡ array_type (plain_type (IntegerTree kinds.Char)) (Some length)) }
    ensures known { IfOk result (IsTypeId types.new) }
    ensures keeps { OnOk result (TypesJoin types.old types.new) }
{
    let element = make(types, ShapeBase::Integer(IntKind::Char, None))?;
    let array = make(types, ShapeBase::Array(element, Some(length)))?;
    Ok(array)
}

/// The row of a string literal of so many elements, the last zero among them.
pub fn judge_string(types: &mut Types, length: u64) -> Result<Row, AllocError>
    ensures row { IfOk result (λ row. row_seen types.new row ≡ told (meaning.string_row length)) }
    ensures known { IfOk result (IsKnownRow types.new) }
    ensures keeps { OnOk result (TypesJoin types.old types.new) }
{
    let of = characters(types, length)?;
    let marks = ExpressionMarks {
        is_place: true,
        is_string: true,
        address: Addressed::ConstantAddress,
        ..ExpressionMarks::none()
    };
    Ok(known(ExpressionFact {
        marks,
        ..ExpressionFact::value(of)
    }))
}
