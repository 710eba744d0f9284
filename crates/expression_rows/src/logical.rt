// Tests: `!`, `&&`, `||` and conditions (C11 6.5.3.3, 6.5.13, 6.5.14), and the last of several values (6.5.17).
ghost use Rattle.std.specs.Prelude.{◌≡◌, IfOk, IfSome, OnOk, Some, option_map};
ghost use Rattle.meaning_rules.specs.Rules.{least_broken};
ghost use Rattle.meaning_typing.specs.Operators as meaning;
ghost use Rattle.node_facts.specs.Growing.{TypesJoin};
ghost use Rattle.expression_rows.specs.Facts.{IsValued, valued_part, valued_seen};
ghost use Rattle.expression_rows.specs.Outcomes.{IsKnownOutcome, outcome_seen, tested_outcome};
ghost use Rattle.expression_rows.specs.Parts.{IsKnownReturn, returned_seen};
ghost use Rattle.expression_rows.specs.Rows.{IsKnownFailure, IsKnownRow, broken_seen, failure_listed, row_seen, told};
ghost use Rattle.expression_rows.specs.Sorts.{sort_seen};

use crate::law::{answer_of, tested_failure};
use crate::outcome::{Given, GivenType, Outcome, finish};
use crate::returning::Returned;
use crate::row::{Broken, Row, RowFailures, broken_at, lesser};
use crate::sort::{BinaryTokens, ValueSort, value_sort};
use crate::value::Valued;
use c_types::Types;
use sparse_model::{ErrorKind, Failure, IntKind};
use std::alloc::AllocError;
use vocabulary::Operator;

fn sort_broken(standing: u32, of: ValueSort) -> Option<Broken>
    ensures { option_map broken_seen result ≡ least_broken (meaning.condition_broken standing (sort_seen of)) }
{
    match of {
        ValueSort::Void => broken_at(ErrorKind::VoidValueUsed, standing),
        ValueSort::Integer(_) => None,
        ValueSort::Pointer => None,
        ValueSort::Other => broken_at(ErrorKind::ConditionIsNotScalar, standing),
    }
}

/// What a condition breaks, which stands at its own token.
pub fn condition_broken(types: &Types, standing: u32, condition: Valued) -> Option<Broken>
    requires { IsValued types.now condition }
    ensures { option_map broken_seen result ≡ least_broken (meaning.condition_broken standing (meaning.value_sort (valued_seen types.now condition))) }
{
    sort_broken(standing, value_sort(types, condition))
}

/// What fails where a value is tested at this token.
pub fn condition_failure(types: &Types, token: u32, condition: Valued) -> Option<Failure>
    requires { IsValued types.now condition }
    ensures failure { failure_listed types.now result ≡ meaning.condition_failures token (valued_seen types.now condition) }
    ensures known { IfSome result (IsKnownFailure types.now) }
{
    let tested = answer_of(types, Operator::LogicalNot, condition, condition).tested;
    tested_failure(types, token, condition, condition, tested)
}

// An int, where this is broken and this fails.
fn tested(broken: Option<Broken>, failure: Option<Failure>) -> Outcome
    ensures { result ≡ tested_outcome broken failure }
{
    Outcome::gives(
        Given::value(GivenType::Integer(IntKind::Int)),
        broken,
        RowFailures::only(failure),
    )
}

// `!` of what is known.
#[tactic(auto, using(crate::proofs::LeastLemmas::unless_told))]
fn not_of(types: &Types, token: u32, standing: u32, operand: Valued) -> Outcome
    requires { IsValued types.now operand }
    ensures row { outcome_seen types.now result ≡ told (meaning.not_row token standing (valued_part types.now (Some operand))) }
    ensures known { IsKnownOutcome types.now result }
{
    tested(
        condition_broken(types, standing, operand),
        condition_failure(types, token, operand),
    )
}

// Of an operand of which something may be known.
fn not_if(types: &Types, token: u32, standing: u32, operand: Option<Valued>) -> Outcome
    requires { IfSome operand (IsValued types.now) }
    ensures row { outcome_seen types.now result ≡ told (meaning.not_row token standing (valued_part types.now operand)) }
    ensures known { IsKnownOutcome types.now result }
{
    match operand {
        None => Outcome::nothing(),
        Some(operand) => not_of(types, token, standing, operand),
    }
}

/// The row of `!` at this token, whose operand stands at its own. It takes a few steps.
pub fn judge_not(
    types: &mut Types,
    token: u32,
    standing: u32,
    operand: Option<Valued>,
) -> Result<Row, AllocError>
    requires { IfSome operand (IsValued types.old) }
    ensures row { IfOk result (λ row. row_seen types.new row ≡ told (meaning.not_row token standing (valued_part types.old operand))) }
    ensures known { IfOk result (IsKnownRow types.new) }
    ensures keeps { OnOk result (TypesJoin types.old types.new) }
{
    let outcome = not_if(types, token, standing, operand);
    finish(types, outcome)
}

// `&&` or `||` of what is known.
#[tactic(auto, using(crate::proofs::LeastLemmas::unless_told, crate::proofs::LeastLemmas::least_both))]
fn logical_of(types: &Types, op: Operator, at: BinaryTokens, left: Valued, right: Valued) -> Outcome
    requires left { IsValued types.now left }
    requires right { IsValued types.now right }
    ensures row { outcome_seen types.now result ≡ told (meaning.logical_row op at.token at.first at.second (valued_part types.now (Some left)) (valued_part types.now (Some right))) }
    ensures known { IsKnownOutcome types.now result }
{
    let broken = lesser(
        condition_broken(types, at.first, left),
        condition_broken(types, at.second, right),
    );
    let fails = answer_of(types, op, left, right).tested;
    tested(broken, tested_failure(types, at.token, left, right, fails))
}

// Of operands of which something may be known.
fn logical_if(
    types: &Types,
    op: Operator,
    at: BinaryTokens,
    left: Option<Valued>,
    right: Option<Valued>,
) -> Outcome
    requires left { IfSome left (IsValued types.now) }
    requires right { IfSome right (IsValued types.now) }
    ensures row { outcome_seen types.now result ≡ told (meaning.logical_row op at.token at.first at.second (valued_part types.now left) (valued_part types.now right)) }
    ensures known { IsKnownOutcome types.now result }
{
    match (left, right) {
        (Some(left), Some(right)) => logical_of(types, op, at, left, right),
        (Some(left), None) => Outcome::breaks(condition_broken(types, at.first, left)),
        (None, Some(right)) => Outcome::breaks(condition_broken(types, at.second, right)),
        (None, None) => Outcome::nothing(),
    }
}

/// The row of `&&` or `||`, whose operands stand at their own tokens. It takes a few steps.
pub fn judge_logical(
    types: &mut Types,
    op: Operator,
    at: BinaryTokens,
    left: Option<Valued>,
    right: Option<Valued>,
) -> Result<Row, AllocError>
    requires left { IfSome left (IsValued types.old) }
    requires right { IfSome right (IsValued types.old) }
    ensures row { IfOk result (λ row. row_seen types.new row ≡ told (meaning.logical_row op at.token at.first at.second (valued_part types.old left) (valued_part types.old right))) }
    ensures known { IfOk result (IsKnownRow types.new) }
    ensures keeps { OnOk result (TypesJoin types.old types.new) }
{
    let outcome = logical_if(types, op, at, left, right);
    finish(types, outcome)
}

// The last of several values

// What is kept of a value: its type and its mark.
fn kept(types: &Types, of: Valued) -> Outcome
    requires { IsValued types.now of }
    ensures row { outcome_seen types.now result ≡ told (meaning.comma_row (valued_part types.now (Some of))) }
    ensures known { IsKnownOutcome types.now result }
{
    let given = Given {
        fouled: of.fact.node.value.fouled,
        ..Given::value(GivenType::Same(of.value))
    };
    Outcome::gives(given, None, RowFailures::none())
}

// Of a value of which something may be known.
fn kept_if(types: &Types, of: Option<Valued>) -> Outcome
    requires { IfSome of (IsValued types.now) }
    ensures row { outcome_seen types.now result ≡ told (meaning.comma_row (valued_part types.now of)) }
    ensures known { IsKnownOutcome types.now result }
{
    match of {
        None => Outcome::nothing(),
        Some(of) => kept(types, of),
    }
}

/// The row of a comma by its right operand: of the left one nothing is asked. It takes a few steps.
pub fn judge_comma(types: &mut Types, right: Option<Valued>) -> Result<Row, AllocError>
    requires { IfSome right (IsValued types.old) }
    ensures row { IfOk result (λ row. row_seen types.new row ≡ told (meaning.comma_row (valued_part types.old right))) }
    ensures known { IfOk result (IsKnownRow types.new) }
    ensures keeps { OnOk result (TypesJoin types.old types.new) }
{
    let outcome = kept_if(types, right);
    finish(types, outcome)
}

// By the last statement of a statement expression.
fn last_of(types: &Types, last: Returned) -> Outcome
    requires { IsKnownReturn types.now last }
    ensures row { outcome_seen types.now result ≡ told (meaning.statement_expression_row (returned_seen types.now last)) }
    ensures known { IsKnownOutcome types.now result }
{
    match last {
        Returned::Nothing => Outcome::gives(
            Given::value(GivenType::Void),
            None,
            RowFailures::none(),
        ),
        Returned::Value(part) => kept_if(types, part),
    }
}

/// The row of a statement expression, whose last statement is or isn't an expression. It takes a few steps.
pub fn judge_statement_expression(types: &mut Types, last: Returned) -> Result<Row, AllocError>
    requires { IsKnownReturn types.old last }
    ensures row { IfOk result (λ row. row_seen types.new row ≡ told (meaning.statement_expression_row (returned_seen types.old last))) }
    ensures known { IfOk result (IsKnownRow types.new) }
    ensures keeps { OnOk result (TypesJoin types.old types.new) }
{
    let outcome = last_of(types, last);
    finish(types, outcome)
}
