// The row of an enumerator (C11 6.7.2.2 p2, p3), by what is known of its expression, or else of the enumerator before it. Of its
// enumeration nothing else is known here.
ghost use Rattle.std.specs.Prelude.{◌≡◌, IfOk, IfSome, OnOk, Some, option_map};
ghost use Rattle.meaning_typing.specs.EnumRows as meaning;
ghost use Rattle.meaning_typing.specs.Facts.{Expression};
ghost use Rattle.node_facts.specs.Facts.{IsKnownFact, IsKnownNodeFact, fact_seen, node_seen};
ghost use Rattle.node_facts.specs.Growing.{TypesJoin};
ghost use Rattle.expression_rows.specs.Rows.{told};
ghost use Rattle.enum_rows.specs.Rows.{IsKnownRow, row_seen};
ghost use Rattle.enum_rows.specs.Values.{IsKept, counted_row, next_if, value_row, valued_row};

use crate::row::EnumRow;
use crate::types::make_constant;
use crate::values::{EnumeratorValue, first_counted, value_in, value_of_expression};
use c_types::Types;
use node_facts::{ExpressionFact, NodeFact};
use sparse_model::ErrorKind;
use std::alloc::AllocError;

// An enumerator with this value.
fn value_row(types: &mut Types, value: EnumeratorValue) -> Result<EnumRow, AllocError>
    requires { IsKept value }
    ensures row { IfOk result (λ row. row_seen types.new row ≡ told (value_row value)) }
    ensures known { IfOk result (IsKnownRow types.new) }
    ensures keeps { OnOk result (TypesJoin types.old types.new) }
{
    let fact = make_constant(types, value)?;
    Ok(EnumRow::known(fact))
}

// Without an expression, if a type has the number; where none has it, its enumeration says so.
fn counted_row(types: &mut Types, value: Option<EnumeratorValue>) -> Result<EnumRow, AllocError>
    requires { IfSome value IsKept }
    ensures row { IfOk result (λ row. row_seen types.new row ≡ told (counted_row value)) }
    ensures known { IfOk result (IsKnownRow types.new) }
    ensures keeps { OnOk result (TypesJoin types.old types.new) }
{
    match value {
        Some(value) => value_row(types, value),
        None => Ok(EnumRow::nothing()),
    }
}

// With an expression that has this value, if it is an integer constant.
fn valued_row(
    types: &mut Types,
    token: u32,
    value: Option<EnumeratorValue>,
) -> Result<EnumRow, AllocError>
    ensures row { IfOk result (λ row. row_seen types.new row ≡ told (valued_row token value)) }
    ensures known { IfOk result (IsKnownRow types.new) }
    ensures keeps { OnOk result (TypesJoin types.old types.new) }
{
    match value {
        Some(value) => value_row(types, value.settled()),
        None => Ok(EnumRow::breaks(ErrorKind::EnumeratorIsNotConstant, token)),
    }
}

// With this expression.
fn valued_expression(
    types: &mut Types,
    token: u32,
    expression: ExpressionFact,
) -> Result<EnumRow, AllocError>
    requires { IsKnownFact types.old expression }
    ensures row { IfOk result (λ row. row_seen types.new row ≡ told (meaning.valued_enumerator_row token (Expression (fact_seen types.old expression)))) }
    ensures known { IfOk result (IsKnownRow types.new) }
    ensures keeps { OnOk result (TypesJoin types.old types.new) }
{
    let value = value_of_expression(types, expression);
    let row = valued_row(types, token, value)?;
    Ok(row)
}

// With an expression of which this is known.
fn valued_enumerator(
    types: &mut Types,
    token: u32,
    expression: NodeFact,
) -> Result<EnumRow, AllocError>
    requires { IsKnownNodeFact types.old expression }
    ensures row { IfOk result (λ row. row_seen types.new row ≡ told (meaning.valued_enumerator_row token (node_seen types.old expression))) }
    ensures known { IfOk result (IsKnownRow types.new) }
    ensures keeps { OnOk result (TypesJoin types.old types.new) }
{
    match expression {
        NodeFact::Expression(expression) => valued_expression(types, token, expression),
        _ => Ok(EnumRow::nothing()),
    }
}

fn next_if(before: Option<EnumeratorValue>) -> Option<EnumeratorValue>
    ensures next { result ≡ next_if before }
    ensures kept { IfSome result IsKept }
{
    match before {
        Some(before) => before.next(),
        None => None,
    }
}

// What comes behind an enumerator of which this is known.
fn counted_next(types: &Types, before: NodeFact) -> Option<EnumeratorValue>
    requires { IsKnownNodeFact types.now before }
    ensures row { counted_row result ≡ meaning.counted_enumerator_row (Some (node_seen types.now before)) }
    ensures kept { IfSome result IsKept }
{
    next_if(value_in(types, before))
}

// What comes behind it, or is the first.
fn counted_behind(types: &Types, before: Option<NodeFact>) -> Option<EnumeratorValue>
    requires { IfSome before (IsKnownNodeFact types.now) }
    ensures row { counted_row result ≡ meaning.counted_enumerator_row (option_map (node_seen types.now) before) }
    ensures kept { IfSome result IsKept }
{
    match before {
        Some(before) => counted_next(types, before),
        None => first_counted(),
    }
}

/// The row of an enumerator whose name stands at this token: by its expression, if it has one, or else by the enumerator before
/// it, if there is one. It takes a few steps.
pub fn judge_enumerator(
    types: &mut Types,
    token: u32,
    expression: Option<NodeFact>,
    before: Option<NodeFact>,
) -> Result<EnumRow, AllocError>
    requires expression { IfSome expression (IsKnownNodeFact types.old) }
    requires before { IfSome before (IsKnownNodeFact types.old) }
    ensures row { IfOk result (λ row. row_seen types.new row ≡ told (meaning.enumerator_by token (option_map (node_seen types.old) expression) (option_map (node_seen types.old) before))) }
    ensures known { IfOk result (IsKnownRow types.new) }
    ensures keeps { OnOk result (TypesJoin types.old types.new) }
{
    match expression {
        Some(expression) => valued_enumerator(types, token, expression),
        None => {
            let value = counted_behind(types, before);
            counted_row(types, value)
        }
    }
}
