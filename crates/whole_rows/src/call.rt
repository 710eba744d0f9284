// Calls (C11 6.5.2.2).
ghost use Rattle.std.specs.Prelude.{◌≡◌, All, IfOk, IfSome, OnOk, length, map, option_map};
ghost use Rattle.c_types.specs.Layouts.{told_in};
ghost use Rattle.c_types.specs.Table.{IsTypeId, type_at};
ghost use Rattle.expression_rows.specs.Arguments.{Appends, IsKnownArgument, argument_seen, without_failures};
ghost use Rattle.expression_rows.specs.Facts.{IsValued, valued_part, valued_seen};
ghost use Rattle.expression_rows.specs.Rows.{IsKnownRow, broken_seen, row_seen, told};
ghost use Rattle.meaning_rules.specs.Rules.{least_broken};
ghost use Rattle.meaning_typing.specs.Facts.{type_of_value};
ghost use Rattle.meaning_typing.specs.Wholes as meaning;
ghost use Rattle.node_facts.specs.Growing.{TypesJoin};
ghost use Rattle.whole_rows.specs.Rows.{result_taken, sized_if, taken_broken};

use crate::incomplete::{and_breaks, sized_broken};
use c_types::Types;
use expression_rows::{Argument, Broken, Row, Valued, called_function, judge_call, result_with};
use sparse_model::{FailureList, TypeId};
use std::alloc::{AllocError, Global};

// The result of the function that is called, if it takes so many arguments: a step for each of them.
fn result_taken(types: &Types, callee: Valued, count: usize) -> Option<TypeId>
    requires { IsValued types.now callee }
    ensures result { option_map (type_at types.now) result ≡ result_taken count (type_of_value (valued_seen types.now callee)) }
    ensures known { IfSome result (IsTypeId types.now) }
{
    match called_function(types, callee) {
        None => None,
        Some(function) => result_with(types, function, count),
    }
}

// A type without a size, if there is one.
fn sized_if(types: &Types, token: u32, t: Option<TypeId>) -> Option<Broken>
    requires { IfSome t (IsTypeId types.now) }
    ensures { option_map broken_seen result ≡ least_broken (sized_if (told_in types.now) token (option_map (type_at types.now) t)) }
{
    match t {
        None => None,
        Some(t) => sized_broken(types, token, t),
    }
}

// The result of a call has a size. Where the function doesn't take so many arguments, that is told before.
fn taken_broken(types: &Types, token: u32, callee: Option<Valued>, count: usize) -> Option<Broken>
    requires { IfSome callee (IsValued types.now) }
    ensures { option_map broken_seen result ≡ least_broken (taken_broken (told_in types.now) token count (valued_part types.now callee)) }
{
    match callee {
        None => None,
        Some(callee) => sized_if(types, token, result_taken(types, callee, count)),
    }
}

/// The row of a call at this token, whose callee stands at its own: the result has a size. Its failures are appended. It takes a few
/// steps for each argument; more than 65,535 of them are want of memory.
pub fn judge_whole_call(
    alloc: Global,
    types: &mut Types,
    token: u32,
    standing: u32,
    callee: Option<Valued>,
    arguments: &[Argument],
    found: &mut FailureList,
) -> Result<Row, AllocError>
    requires callee { IfSome callee (IsValued types.old) }
    requires arguments { All (IsKnownArgument types.old) arguments.now }
    ensures row { IfOk result (λ row. row_seen types.new row ≡ told (without_failures (meaning.whole_call_row (told_in types.old) token standing (valued_part types.old callee) (map (argument_seen types.old) arguments.now)))) }
    ensures failures { OnOk result (Appends types.old found.old found.new (meaning.whole_call_row (told_in types.old) token standing (valued_part types.old callee) (map (argument_seen types.old) arguments.now)).failures) }
    ensures known { IfOk result (IsKnownRow types.new) }
    ensures keeps { OnOk result (TypesJoin types.old types.new) }
{
    let broken = taken_broken(types, token, callee, arguments.len());
    let row = judge_call(alloc, types, token, standing, callee, arguments, found)?;
    Ok(and_breaks(row, broken))
}
