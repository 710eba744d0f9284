// Assignments (C11 6.5.16.1).
ghost use Rattle.std.specs.Prelude.{◌≡◌, [], None, false, IfOk, IfSome, OnOk, option_map};
ghost use Rattle.meaning_types.specs.Types.{value_type};
ghost use Rattle.meaning_typing.specs.Expressions as meaning;
ghost use Rattle.meaning_typing.specs.Facts.{Expression, decays, value};
ghost use Rattle.meaning_typing.specs.Rows.{gives};
ghost use Rattle.c_types.specs.Table.{IsTypeId, type_at};
ghost use Rattle.node_facts.specs.Facts.{IsKnownFact, fact_seen, value_of};
ghost use Rattle.expression_rows.specs.Facts.{IsKnownPart, IsValued, part_seen, valued_part, valued_seen};
ghost use Rattle.node_facts.specs.Growing.{TypesJoin};
ghost use Rattle.expression_rows.specs.Parts.{assigned_as, listed};
ghost use Rattle.expression_rows.specs.Rows.{IsKnownRow, broken_seen, given_row, no_failures, row_seen, told};

use crate::convert::{Standing, convert_part};
use crate::operand::{decays, is_void, void_used};
use crate::row::{Broken, Row, RowFailures, broken_at, lesser};
use crate::value::{Valued, type_of_value};
use c_types::Types;
use node_facts::ExpressionFact;
use space_rules::Position;
use sparse_model::{ErrorKind, TypeId};
use std::alloc::AllocError;

fn is_const(types: &Types, t: TypeId) -> bool
    requires { IsTypeId types.now t }
    ensures { result ≡ meaning.is_const (type_at types.now t) }
{
    types.shape(t).is_const
}

/// A place that can be written.
pub fn is_modifiable(types: &Types, left: ExpressionFact) -> bool
    requires { IsKnownFact types.now left }
    ensures { result ≡ meaning.is_modifiable (fact_seen types.now left) }
{
    left.marks.is_place && !decays(types, left.node.of) && !is_const(types, left.node.of)
}

// What a store to the left side breaks.
fn store_broken(types: &Types, token: u32, left: ExpressionFact) -> Option<Broken>
    requires { IsKnownFact types.now left }
    ensures { listed (option_map broken_seen result) ≡ meaning.store_broken token (fact_seen types.now left) }
{
    if !is_modifiable(types, left) {
        broken_at(ErrorKind::NotModifiable, token)
    } else if is_void(types, left.node.of) {
        broken_at(ErrorKind::IncompleteType, token)
    } else {
        None
    }
}

// The right side becomes a value of the left one's type, which is this as a value.
fn assigned_as(
    types: &Types,
    at: Standing,
    left: ExpressionFact,
    right: Valued,
    stored: TypeId,
) -> Row
    requires left { IsKnownFact types.now left }
    requires right { IsValued types.now right }
    requires stored { IsTypeId types.now stored }
    ensures row { row_seen types.now result ≡ told (assigned_as at.token at.part at.value (fact_seen types.now left) (valued_seen types.now right) (type_at types.now stored)) }
    ensures known { IsKnownRow types.now result }
{
    let conversion = convert_part(types, at, right, left.node.of, Position::Assignment);
    Row::gives(
        ExpressionFact::value(stored),
        conversion.broken,
        RowFailures::only(conversion.failure),
    )
}

// The right side is stored.
fn stored(
    types: &mut Types,
    at: Standing,
    left: ExpressionFact,
    right: Valued,
) -> Result<Row, AllocError>
    requires left { IsKnownFact types.old left }
    requires right { IsValued types.old right }
    requires modifiable { decays (type_at types.old left.node.of) ≡ false }
    ensures row { IfOk result (λ row. row_seen types.new row ≡ told (assigned_as at.token at.part at.value (fact_seen types.old left) (valued_seen types.old right) (value_type (type_at types.old left.node.of)))) }
    ensures known { IfOk result (IsKnownRow types.new) }
    ensures keeps { OnOk result (TypesJoin types.old types.new) }
{
    let value = type_of_value(types, ExpressionFact::place(left.node.of))?;
    Ok(assigned_as(types, at, left, right, value))
}

// A value of this type, to which an unknown right side is converted.
fn given(of: TypeId) -> Row
    ensures { result ≡ given_row (value_of of) None no_failures }
{
    Row::gives(ExpressionFact::value(of), None, RowFailures::none())
}

// A right side of which nothing is known is stored.
fn stored_unknown(types: &mut Types, left: ExpressionFact) -> Result<Row, AllocError>
    requires left { IsKnownFact types.old left }
    requires modifiable { decays (type_at types.old left.node.of) ≡ false }
    ensures row { IfOk result (λ row. row_seen types.new row ≡ told (gives (value (value_type (type_at types.old left.node.of))) [] [])) }
    ensures known { IfOk result (IsKnownRow types.new) }
    ensures keeps { OnOk result (TypesJoin types.old types.new) }
{
    let value = type_of_value(types, ExpressionFact::place(left.node.of))?;
    Ok(given(value))
}

// Of a left side, where nothing is known of the right one: nothing but a conversion is asked of that.
fn assigned_unknown(types: &mut Types, token: u32, left: ExpressionFact) -> Result<Row, AllocError>
    requires left { IsKnownFact types.old left }
    ensures row { IfOk result (λ row. row_seen types.new row ≡ told (gives (value (value_type (type_at types.old left.node.of))) (meaning.store_broken token (fact_seen types.old left)) [])) }
    ensures known { IfOk result (IsKnownRow types.new) }
    ensures keeps { OnOk result (TypesJoin types.old types.new) }
{
    match store_broken(types, token, left) {
        Some(broken) => Ok(Row::breaks(Some(broken), RowFailures::none())),
        None => stored_unknown(types, left),
    }
}

// Of two sides of which something is known.
fn assigned(
    types: &mut Types,
    token: u32,
    standing: u32,
    left: ExpressionFact,
    right: Valued,
) -> Result<Row, AllocError>
    requires left { IsKnownFact types.old left }
    requires right { IsValued types.old right }
    ensures row { IfOk result (λ row. row_seen types.new row ≡ told (meaning.assignment_row token standing (Expression (fact_seen types.old left)) (Expression (valued_seen types.old right)))) }
    ensures known { IfOk result (IsKnownRow types.new) }
    ensures keeps { OnOk result (TypesJoin types.old types.new) }
{
    let at = Standing {
        token,
        part: 0,
        value: standing,
    };
    match store_broken(types, token, left) {
        Some(broken) => Ok(Row::breaks(
            lesser(Some(broken), void_used(types, standing, right)),
            RowFailures::none(),
        )),
        None => stored(types, at, left, right),
    }
}

/// The row of an assignment at this token, whose right side stands at its own. Its type is that of the left side, also where
/// nothing is known of the right one.
pub fn judge_assignment(
    types: &mut Types,
    token: u32,
    standing: u32,
    left: Option<ExpressionFact>,
    right: Option<Valued>,
) -> Result<Row, AllocError>
    requires left { IsKnownPart types.old left }
    requires right { IfSome right (IsValued types.old) }
    ensures row { IfOk result (λ row. row_seen types.new row ≡ told (meaning.assignment_row token standing (part_seen types.old left) (valued_part types.old right))) }
    ensures known { IfOk result (IsKnownRow types.new) }
    ensures keeps { OnOk result (TypesJoin types.old types.new) }
{
    match (left, right) {
        (Some(left), Some(right)) => assigned(types, token, standing, left, right),
        (Some(left), None) => assigned_unknown(types, token, left),
        (None, _) => Ok(Row::nothing()),
    }
}
