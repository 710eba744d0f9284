// `case` and `default` (C11 6.8.1 p2, 6.8.4.2 p3), by what is known of a label and of the switch value, and by what was read before. Which
// switch is around a label isn't known here.
ghost use Rattle.std.specs.Prelude.{◌≡◌, IfSome, Some, option_map};
ghost use Rattle.meaning_rules.specs.Rules.{least_broken};
ghost use Rattle.meaning_typing.specs.Facts.{operand_of};
ghost use Rattle.meaning_typing.specs.Operators as operators;
ghost use Rattle.meaning_statements.specs.Statements as meaning;
ghost use Rattle.c_types.specs.Operands.{typed_operand};
ghost use Rattle.c_types.specs.Table.{IsTypeId, TypeTable};
ghost use Rattle.expression_rows.specs.Facts.{IsValued, valued_part, valued_seen};
ghost use Rattle.expression_rows.specs.Outlines.{is_integer_outline};
ghost use Rattle.expression_rows.specs.Rows.{IsKnownFailure, IsKnownRow, broken_seen, failure_listed, failures_seen, row_seen, told};
ghost use Rattle.statement_rows.specs.Rows.{AreKnownFailures, met_failures, not_constant};

use crate::condition::{failed, tested_failure};
use crate::numbers::constant_of;
use bitwise_rules::operator_rule;
use c_types::{Operand, Outline, Types};
use expression_rows::{Broken, Row, RowFailures, Valued, broken_at, lesser, number_of, void_used};
use sparse_model::{ErrorKind, Failure, RuleCode};
use vocabulary::Operator;

/// Where a `case` stands.
#[derive(Clone, Copy)]
pub struct CasePlace {
    /// The token of `case`.
    pub token: u32,
    /// The token of its label.
    pub value: u32,
    /// The switch to which it belongs, if one is around it.
    pub switch: Option<u32>,
    /// It stands in a statement expression that isn't around its switch.
    pub enters: bool,
}

// What is broken

/// The later of two tokens.
pub fn later(token: u32, other: u32) -> u32
    ensures { result ≡ meaning.later token other }
{
    if token < other { other } else { token }
}

fn again_at(constraint: ErrorKind, token: u32, earliest: Option<u32>) -> Option<Broken>
    ensures { option_map broken_seen result ≡ least_broken (meaning.again_at constraint token earliest) }
{
    match earliest {
        None => None,
        Some(other) => broken_at(constraint, later(token, other)),
    }
}

fn entered(token: u32, enters: bool) -> Option<Broken>
    ensures { option_map broken_seen result ≡ least_broken (meaning.label_placed token (Some 0) enters) }
{
    if enters {
        broken_at(ErrorKind::JumpIntoStatementExpression, token)
    } else {
        None
    }
}

fn label_placed(token: u32, switch: Option<u32>, enters: bool) -> Option<Broken>
    ensures { option_map broken_seen result ≡ least_broken (meaning.label_placed token switch enters) }
{
    match switch {
        None => broken_at(ErrorKind::LabelOutsideSwitch, token),
        Some(_) => entered(token, enters),
    }
}

fn not_constant(value: u32, constant: Option<i128>) -> Option<Broken>
    ensures { option_map broken_seen result ≡ least_broken (not_constant value constant) }
{
    match constant {
        Some(_) => None,
        None => broken_at(ErrorKind::CaseLabelIsNotConstant, value),
    }
}

// Of a label that is known: a void one is used as a value besides.
fn label_broken(types: &Types, value: u32, label: Valued) -> Option<Broken>
    requires { IsValued types.now label }
    ensures { option_map broken_seen result ≡ least_broken (meaning.constant_broken value (valued_part types.now (Some label))) }
{
    lesser(
        void_used(types, value, label),
        not_constant(value, constant_of(types, label)),
    )
}

fn constant_broken(types: &Types, value: u32, label: Option<Valued>) -> Option<Broken>
    requires { IfSome label (IsValued types.now) }
    ensures { option_map broken_seen result ≡ least_broken (meaning.constant_broken value (valued_part types.now label)) }
{
    match label {
        None => None,
        Some(label) => label_broken(types, value, label),
    }
}

// Which rules fail

fn is_integer_outline(outline: Outline) -> bool
    ensures { result ≡ is_integer_outline outline }
{
    match outline {
        Outline::Integer(_) => true,
        _ => false,
    }
}

// The constant 0 of a plain type.
#[tactic(auto, using(expression_rows::proofs::OperandLemmas::is_plain_integer_told))]
fn is_zero(types: &Types, of: Valued) -> bool
    requires { IsValued types.now of }
    ensures { result ≡ (operand_of (valued_seen types.now of)).zero }
{
    is_integer_outline(types.outline(of.value)) && number_of(types, of.fact) == Some(0)
}

fn operand(types: &Types, of: Valued) -> Operand
    requires { IsValued types.now of }
    ensures operand { typed_operand types.now result ≡ operand_of (valued_seen types.now of) }
    ensures known { IsTypeId types.now result.of }
{
    Operand {
        of: of.value,
        fouled: of.fact.node.value.fouled,
        zero: is_zero(types, of),
    }
}

fn met_if(
    types: &Types,
    token: u32,
    label: Valued,
    switched: Valued,
    rule: Option<RuleCode>,
) -> Option<Failure>
    requires label { IsValued types.now label }
    requires switched { IsValued types.now switched }
    ensures failure { failure_listed types.now result ≡ meaning.met_by token (valued_seen types.now label) (valued_seen types.now switched) rule }
    ensures known { IfSome result (IsKnownFailure types.now) }
{
    match rule {
        None => None,
        Some(_) => Some(failed(RuleCode::B6, token, Some(label.value), Some(switched.value))),
    }
}

// A label meets its switch value as an operand of `==` does.
fn met(types: &Types, token: u32, label: Valued, switched: Valued) -> Option<Failure>
    requires label { IsValued types.now label }
    requires switched { IsValued types.now switched }
    ensures failure { failure_listed types.now result ≡ met_failures token (valued_seen types.now label) (valued_seen types.now switched) }
    ensures known { IfSome result (IsKnownFailure types.now) }
{
    let answer = operator_rule(
        types,
        Operator::Equal,
        operand(types, label),
        operand(types, switched),
    );
    met_if(types, token, label, switched, answer.rule)
}

fn label_failures(
    types: &Types,
    token: u32,
    label: Option<Valued>,
    switched: Option<Valued>,
) -> RowFailures
    requires label { IfSome label (IsValued types.now) }
    requires switched { IfSome switched (IsValued types.now) }
    ensures failures { failures_seen types.now result ≡ meaning.label_failures token (valued_part types.now label) (valued_part types.now switched) }
    ensures known { AreKnownFailures types.now result }
{
    match (label, switched) {
        (Some(label), Some(switched)) => RowFailures {
            first: tested_failure(types, token, label),
            second: met(types, token, label, switched),
        },
        (Some(label), None) => RowFailures::only(tested_failure(types, token, label)),
        _ => RowFailures::none(),
    }
}

/// The row of a `case`, by what is known of its label and of the switch value, and by the token of the earliest label with the same
/// number that was read before it in its switch. It takes a few steps, and no memory.
pub fn judge_case(
    types: &Types,
    at: CasePlace,
    label: Option<Valued>,
    switched: Option<Valued>,
    earliest: Option<u32>,
) -> Row
    requires label { IfSome label (IsValued types.now) }
    requires switched { IfSome switched (IsValued types.now) }
    ensures row { row_seen types.now result ≡ told (meaning.case_row at.token at.value at.switch at.enters (valued_part types.now label) (valued_part types.now switched) earliest) }
    ensures known { IsKnownRow types.now result }
{
    let placed = label_placed(at.token, at.switch, at.enters);
    let constant = constant_broken(types, at.value, label);
    let again = again_at(ErrorKind::CaseValueUsedTwice, at.value, earliest);
    Row::breaks(
        lesser(lesser(placed, constant), again),
        label_failures(types, at.token, label, switched),
    )
}

/// The row of a `default` at this token, in this switch, if one is around it; `enters` says whether it stands in a statement expression
/// that isn't around its switch, and `earliest` where the earliest one stands that was read before it there. It takes a few steps.
#[tactic(auto, using(expression_rows::proofs::LeastLemmas::least_both))]
pub fn judge_default(token: u32, switch: Option<u32>, enters: bool, earliest: Option<u32>) -> Row
    ensures row { (table : TypeTable) → row_seen table result ≡ told (meaning.default_row token switch enters earliest) }
    ensures known { (table : TypeTable) → IsKnownRow table result }
{
    let placed = label_placed(token, switch, enters);
    let again = again_at(ErrorKind::TwoDefaultLabels, token, earliest);
    Row::breaks(lesser(placed, again), RowFailures::none())
}
