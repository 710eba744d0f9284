// Calls (C11 6.5.2.2).
ghost use Rattle.std.specs.Prelude.{◌≡◌, ◌+◌, ◌++◌, true, All, IfOk, IfSome, OnOk, map, option_map};
ghost use Rattle.meaning_types.specs.Types.{NoTypes};
ghost use Rattle.meaning_rules.specs.Rules.{least_broken};
ghost use Rattle.meaning_typing.specs.Declarators.{is_function};
ghost use Rattle.meaning_typing.specs.Expressions as meaning;
ghost use Rattle.meaning_typing.specs.Facts.{Expression, type_of_value};
ghost use Rattle.c_types.specs.Rows.{parameter_types};
ghost use Rattle.c_types.specs.Table.{IsOuterOver, IsTypeId, pointed_at, type_at, types_in};
ghost use Rattle.expression_rows.specs.Arguments.{Appends, IsKnownArgument, argument_seen, call_with, called_as, first_of, function_if, function_through, listed_failure, passed_all, passed_to, rest_of, result_by, result_with, without_failures};
ghost use Rattle.expression_rows.specs.Facts.{IsValued, valued_part, valued_seen};
ghost use Rattle.node_facts.specs.Growing.{TypesJoin};
ghost use Rattle.expression_rows.specs.Rows.{IsKnownConversion, IsKnownRow, broken_seen, converted_seen, converted_told, row_seen, told};

use crate::convert::{Converted, Standing, convert_part};
use crate::operand::{is_function, target_of_value, void_used};
use crate::plain::plain_type;
use crate::row::{Broken, Row, RowFailures, broken_at, lesser};
use crate::value::Valued;
use c_types::{OuterBase, Types};
use node_facts::ExpressionFact;
use space_rules::Position;
use sparse_model::{ErrorKind, Failure, FailureList, TypeId};
use std::alloc::{AllocError, Global};

/// An argument: the token at which it stands, and what is known of it.
#[derive(Clone, Copy)]
pub struct Argument {
    pub token: u32,
    pub part: Option<Valued>,
}

// A type itself, if it is one of functions.
fn function_if(types: &Types, target: TypeId) -> Option<TypeId>
    requires { IsTypeId types.now target }
    ensures function { option_map (type_at types.now) result ≡ function_if (type_at types.now target) }
    ensures known { IfSome result (IsTypeId types.now) }
    ensures is_one { IfSome result (λ function. is_function (type_at types.now function) ≡ true) }
{
    if is_function(types, target) {
        Some(target)
    } else {
        None
    }
}

// The same of a type, if there is one.
fn function_of(types: &Types, target: Option<TypeId>) -> Option<TypeId>
    requires { IfSome target (IsTypeId types.now) }
    ensures function { option_map (type_at types.now) result ≡ function_through (option_map (type_at types.now) target) }
    ensures known { IfSome result (IsTypeId types.now) }
    ensures is_one { IfSome result (λ function. is_function (type_at types.now function) ≡ true) }
{
    match target {
        None => None,
        Some(target) => function_if(types, target),
    }
}

/// The function to which a value points, if it does.
pub fn called_function(types: &Types, callee: Valued) -> Option<TypeId>
    requires { IsValued types.now callee }
    ensures function { option_map (type_at types.now) result ≡ function_through (pointed_at (type_of_value (valued_seen types.now callee))) }
    ensures known { IfSome result (IsTypeId types.now) }
    ensures is_one { IfSome result (λ function. is_function (type_at types.now function) ≡ true) }
{
    function_of(types, target_of_value(types, callee))
}

// An argument that no parameter takes is used.
fn passed_freely(types: &Types, argument: Argument) -> Converted
    requires { IsKnownArgument types.now argument }
    ensures converted { converted_seen types.now result ≡ converted_told (meaning.passed_freely argument.token (valued_part types.now argument.part)) }
    ensures known { IsKnownConversion types.now result }
{
    match argument.part {
        None => Converted::fine(),
        Some(value) => Converted {
            broken: void_used(types, argument.token, value),
            failure: None,
        },
    }
}

/// An argument becomes a value of its parameter's type.
pub fn passed_as(types: &Types, part: u16, argument: Argument, to: TypeId) -> Converted
    requires argument { IsKnownArgument types.now argument }
    requires to { IsTypeId types.now to }
    ensures converted { converted_seen types.now result ≡ converted_told (meaning.passed_as part argument.token (valued_part types.now argument.part) (type_at types.now to)) }
    ensures known { IsKnownConversion types.now result }
{
    match argument.part {
        None => Converted::fine(),
        Some(from) => {
            let at = Standing {
                token: argument.token,
                part,
                value: argument.token,
            };
            convert_part(types, at, from, to, Position::Argument(part))
        }
    }
}

// It is passed to its parameter, if there is one.
fn passed_to(types: &Types, part: u16, argument: Argument, parameter: Option<TypeId>) -> Converted
    requires argument { IsKnownArgument types.now argument }
    requires parameter { IfSome parameter (IsTypeId types.now) }
    ensures converted { converted_seen types.now result ≡ converted_told (passed_to part argument.token (valued_part types.now argument.part) (option_map (type_at types.now) parameter)) }
    ensures known { IsKnownConversion types.now result }
{
    match parameter {
        None => passed_freely(types, argument),
        Some(to) => passed_as(types, part, argument, to),
    }
}

// The first parameter that is left of a function, and what is left behind it: the function itself where none is.
fn next_parameter(types: &Types, function: TypeId) -> (Option<TypeId>, TypeId)
    requires { IsTypeId types.now function }
    ensures first { option_map (type_at types.now) result.0 ≡ first_of (parameter_types (type_at types.now function)) }
    ensures rest { parameter_types (type_at types.now result.1) ≡ rest_of (parameter_types (type_at types.now function)) }
    ensures first_known { IfSome result.0 (IsTypeId types.now) }
    ensures rest_known { IsTypeId types.now result.1 }
{
    match types.first_parameter(function) {
        Some((first, rest)) => (Some(first), rest),
        None => (None, function),
    }
}

// Appends a failure, if there is one.
fn append(found: &mut FailureList, failure: Option<Failure>) -> Result<(), AllocError>
    ensures { OnOk result (found.new ≡ found.old ++ listed_failure failure) }
{
    if let Some(failure) = failure
        && let Err((fault, _)) = found.push(failure)
    {
        return Err(fault);
    }
    Ok(())
}

// The number of the next part.
fn next_part(part: u16) -> Result<u16, AllocError>
    ensures { IfOk result (λ next. next ≡ part + 1) }
{
    match part.checked_add(1) {
        Some(next) => Ok(next),
        None => Err(AllocError),
    }
}

// Passes the arguments of a call to the parameters of this function: the failures are appended, and the least
// constraint that is broken is told. More arguments than parts have numbers are want of memory.
fn pass_arguments(
    types: &Types,
    arguments: &[Argument],
    function: TypeId,
    found: &mut FailureList,
) -> Result<Option<Broken>, AllocError>
    requires function { IsTypeId types.now function }
    requires arguments { All (IsKnownArgument types.now) arguments.now }
    ensures broken { IfOk result (λ broken. option_map broken_seen broken ≡ least_broken (passed_all types.now arguments.now 0 function).broken) }
    ensures failures { OnOk result (Appends types.now found.old found.new (passed_all types.now arguments.now 0 function).failures) }
{
    let mut rest = arguments;
    let mut parameters = function;
    let mut broken = None;
    let mut part = 0;
    'arguments: while let Some((argument, others)) = rest.split_first() {
        part = next_part(part)?;
        let (parameter, left) = next_parameter(types, parameters);
        let passing = passed_to(types, part, *argument, parameter);
        broken = lesser(broken, passing.broken);
        append(found, passing.failure)?;
        parameters = left;
        rest = others;
    }
    Ok(broken)
}

// The result that a function without parameters tells, if it takes so many arguments.
fn result_by(types: &Types, base: OuterBase, count: usize) -> Option<TypeId>
    requires { IsOuterOver (types_in types.now) base }
    ensures answer { option_map (type_at types.now) result ≡ result_by (types_in types.now) count base }
    ensures known { IfSome result (IsTypeId types.now) }
{
    match base {
        OuterBase::Function(answer, _, variadic) => {
            if count == 0 || variadic {
                Some(answer)
            } else {
                None
            }
        }
        _ => None,
    }
}

// The result of a function without parameters, if it takes so many arguments.
fn result_at(types: &Types, function: TypeId, count: usize) -> Option<TypeId>
    requires known { IsTypeId types.now function }
    requires parameters { parameter_types (type_at types.now function) ≡ NoTypes }
    requires function { is_function (type_at types.now function) ≡ true }
    ensures answer { option_map (type_at types.now) result ≡ result_with count (type_at types.now function) }
    ensures known { IfSome result (IsTypeId types.now) }
{
    result_by(types, types.shape(function).base, count)
}

/// The result of a function, if it takes so many arguments: a step for each of them.
pub fn result_with(types: &Types, function: TypeId, count: usize) -> Option<TypeId>
    requires known { IsTypeId types.now function }
    requires function { is_function (type_at types.now function) ≡ true }
    ensures answer { option_map (type_at types.now) result ≡ result_with count (type_at types.now function) }
    ensures known { IfSome result (IsTypeId types.now) }
{
    let mut rest = function;
    let mut left = count;
    'parameters: while let Some((_, behind)) = types.first_parameter(rest) {
        if left == 0 {
            return None;
        }
        rest = behind;
        left -= 1;
    }
    result_at(types, rest, left)
}

// The row of a call whose arguments break this, by the result of a function that takes so many of them.
fn called_as(
    alloc: Global,
    types: &mut Types,
    token: u32,
    passed: Option<Broken>,
    answer: Option<TypeId>,
) -> Result<Row, AllocError>
    requires { IfSome answer (IsTypeId types.old) }
    ensures row { IfOk result (λ row. row_seen types.new row ≡ called_as token (option_map broken_seen passed) (option_map (type_at types.old) answer)) }
    ensures known { IfOk result (IsKnownRow types.new) }
    ensures keeps { OnOk result (TypesJoin types.old types.new) }
{
    match answer {
        None => {
            let broken = lesser(broken_at(ErrorKind::WrongNumberOfArguments, token), passed);
            Ok(Row::breaks(broken, RowFailures::none()))
        }
        Some(answer) => {
            let of = plain_type(alloc, types, answer)?;
            Ok(Row::gives(ExpressionFact::value(of), passed, RowFailures::none()))
        }
    }
}

// The row of a call of a function.
fn call_of(
    alloc: Global,
    types: &mut Types,
    token: u32,
    function: TypeId,
    arguments: &[Argument],
    found: &mut FailureList,
) -> Result<Row, AllocError>
    requires known { IsTypeId types.old function }
    requires function { is_function (type_at types.old function) ≡ true }
    requires arguments { All (IsKnownArgument types.old) arguments.now }
    ensures row { IfOk result (λ row. row_seen types.new row ≡ told (without_failures (call_with token (map (argument_seen types.old) arguments.now) (type_at types.old function)))) }
    ensures failures { OnOk result (Appends types.old found.old found.new (call_with token (map (argument_seen types.old) arguments.now) (type_at types.old function)).failures) }
    ensures known { IfOk result (IsKnownRow types.new) }
    ensures keeps { OnOk result (TypesJoin types.old types.new) }
{
    let passed = pass_arguments(types, arguments, function, found)?;
    let answer = result_with(types, function, arguments.len());
    let row = called_as(alloc, types, token, passed, answer)?;
    Ok(row)
}

// Of a callee of which something is known.
fn call_through(
    alloc: Global,
    types: &mut Types,
    token: u32,
    standing: u32,
    callee: Valued,
    arguments: &[Argument],
    found: &mut FailureList,
) -> Result<Row, AllocError>
    requires callee { IsValued types.old callee }
    requires arguments { All (IsKnownArgument types.old) arguments.now }
    ensures row { IfOk result (λ row. row_seen types.new row ≡ told (without_failures (meaning.call_row token standing (Expression (valued_seen types.old callee)) (map (argument_seen types.old) arguments.now)))) }
    ensures failures { OnOk result (Appends types.old found.old found.new (meaning.call_row token standing (Expression (valued_seen types.old callee)) (map (argument_seen types.old) arguments.now)).failures) }
    ensures known { IfOk result (IsKnownRow types.new) }
    ensures keeps { OnOk result (TypesJoin types.old types.new) }
{
    match called_function(types, callee) {
        Some(function) => call_of(alloc, types, token, function, arguments, found),
        None => Ok(Row::breaks(
            lesser(
                broken_at(ErrorKind::CalledObjectIsNoFunction, token),
                void_used(types, standing, callee),
            ),
            RowFailures::none(),
        )),
    }
}

/// The row of a call at this token, whose callee stands at its own. Its failures are appended, since each argument may
/// add one. It takes a few steps for each argument; more than 65,535 of them are want of memory.
pub fn judge_call(
    alloc: Global,
    types: &mut Types,
    token: u32,
    standing: u32,
    callee: Option<Valued>,
    arguments: &[Argument],
    found: &mut FailureList,
) -> Result<Row, AllocError>
    requires callee { IfSome callee (IsValued types.old) }
    requires arguments { All (IsKnownArgument types.old) arguments.now }
    ensures row { IfOk result (λ row. row_seen types.new row ≡ told (without_failures (meaning.call_row token standing (valued_part types.old callee) (map (argument_seen types.old) arguments.now)))) }
    ensures failures { OnOk result (Appends types.old found.old found.new (meaning.call_row token standing (valued_part types.old callee) (map (argument_seen types.old) arguments.now)).failures) }
    ensures known { IfOk result (IsKnownRow types.new) }
    ensures keeps { OnOk result (TypesJoin types.old types.new) }
{
    match callee {
        None => Ok(Row::nothing()),
        Some(callee) => call_through(alloc, types, token, standing, callee, arguments, found),
    }
}
