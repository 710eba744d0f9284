// `return` (C11 6.8.6.4), where a void function that hands a void value on is told besides (our choice).
ghost use Rattle.std.specs.Prelude.{◌≡◌, IfSome, Some, option_map};
ghost use Rattle.meaning_types.specs.Spaces.{is_void};
ghost use Rattle.meaning_typing.specs.Facts.{type_of_value};
ghost use Rattle.meaning_statements.specs.Statements as meaning;
ghost use Rattle.c_types.specs.Table.{IsTypeId, type_at};
ghost use Rattle.expression_rows.specs.Facts.{IsValued, valued_seen};
ghost use Rattle.expression_rows.specs.Parts.{IsKnownReturn, returned_seen};
ghost use Rattle.expression_rows.specs.Rows.{IsKnownRow, row_seen, told};

use crate::condition::failed;
use c_types::Types;
use expression_rows::{Returned, Row, RowFailures, Valued, is_void, judge_return};
use sparse_model::{RuleCode, TypeId};

fn is_void_value(types: &Types, of: Valued) -> bool
    requires { IsValued types.now of }
    ensures { result ≡ is_void (type_of_value (valued_seen types.now of)) }
{
    is_void(types, of.value)
}

// From a function whose result is known.
fn hands_on(types: &Types, value: Returned, answer: TypeId) -> bool
    requires value { IsKnownReturn types.now value }
    requires answer { IsTypeId types.now answer }
    ensures { result ≡ meaning.hands_void_on (returned_seen types.now value) (Some (type_at types.now answer)) }
{
    match value {
        Returned::Value(Some(from)) => is_void(types, answer) && is_void_value(types, from),
        _ => false,
    }
}

fn hands_void_on(types: &Types, value: Returned, answer: Option<TypeId>) -> bool
    requires value { IsKnownReturn types.now value }
    requires answer { IfSome answer (IsTypeId types.now) }
    ensures { result ≡ meaning.hands_void_on (returned_seen types.now value) (option_map (type_at types.now) answer) }
{
    match answer {
        None => false,
        Some(answer) => hands_on(types, value, answer),
    }
}

/// The row of `return` at this token, whose expression, if there is one, stands at its own; `answer` is the result of the function around
/// it, if that is known. It takes a few steps, and no memory.
#[tactic(auto, using(crate::proofs::ReturnLemmas::void_on, crate::proofs::ReturnLemmas::not_on))]
pub fn judge_return_statement(
    types: &Types,
    token: u32,
    standing: u32,
    value: Returned,
    answer: Option<TypeId>,
) -> Row
    requires value { IsKnownReturn types.now value }
    requires answer { IfSome answer (IsTypeId types.now) }
    ensures row { row_seen types.now result ≡ told (meaning.whole_return_row token standing (returned_seen types.now value) (option_map (type_at types.now) answer)) }
    ensures known { IsKnownRow types.now result }
{
    if hands_void_on(types, value, answer) {
        let failure = failed(RuleCode::S4, token, None, None);
        Row::breaks(None, RowFailures::only(Some(failure)))
    } else {
        judge_return(types, token, standing, value, answer)
    }
}
