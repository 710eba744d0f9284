// Unary `+`, `-` and `~` (C11 6.5.3.3).
ghost use Rattle.std.specs.Prelude.{◌≡◌, IfOk, IfSome, OnOk, option_map};
ghost use Rattle.meaning_rules.specs.Rules.{least_broken};
ghost use Rattle.meaning_typing.specs.Facts.{type_of_value};
ghost use Rattle.meaning_typing.specs.Operators as meaning;
ghost use Rattle.meaning_typing.specs.Rows.{breaks_at};
ghost use Rattle.vocabulary.specs.declared.error_kind.ErrorKind.TheVariants.{WrongOperandTypes};
ghost use Rattle.node_facts.specs.Growing.{TypesJoin};
ghost use Rattle.expression_rows.specs.Facts.{IsValued, valued_part, valued_seen};
ghost use Rattle.expression_rows.specs.Outcomes.{IsKnownOutcome, IsKnownType, outcome_seen, type_given, unary_given};
ghost use Rattle.expression_rows.specs.Rows.{IsKnownRow, broken_seen, row_seen, told};
ghost use Rattle.expression_rows.specs.Sorts.{sort_seen};

use crate::binary::keeps_identity;
use crate::law::{answer_of, operands_failure};
use crate::operand::is_restricted_value;
use crate::outcome::{Given, GivenType, Outcome, finish};
use crate::row::{Broken, Row, RowFailures, broken_at};
use crate::sort::{ValueSort, or_else, value_sort, void_alone};
use crate::value::Valued;
use c_types::{Types, promoted_kind};
use sparse_model::{ErrorKind, IntKind};
use std::alloc::AllocError;
use vocabulary::Operator;

// The type of an integer of this kind under an operator.
fn integer_type(types: &Types, op: Operator, operand: Valued, kind: IntKind) -> GivenType
    requires { IsValued types.now operand }
    ensures of { type_given types.now result ≡ meaning.integer_type op (type_of_value (valued_seen types.now operand)) kind }
    ensures known { IsKnownType types.now result }
{
    if keeps_identity(op) && is_restricted_value(types, operand) {
        GivenType::Same(operand.value)
    } else {
        GivenType::Integer(promoted_kind(kind))
    }
}

// What an integer gives, in this type.
fn integer_row(types: &Types, op: Operator, token: u32, operand: Valued, of: GivenType) -> Outcome
    requires operand { IsValued types.now operand }
    requires of { IsKnownType types.now of }
    ensures row { outcome_seen types.now result ≡ told (unary_given op token (valued_seen types.now operand) (type_given types.now of)) }
    ensures known { IsKnownOutcome types.now result }
{
    let answer = answer_of(types, op, operand, operand);
    let given = Given {
        fouled: answer.fouled,
        ..Given::value(of)
    };
    let failure = operands_failure(types, token, operand, operand, answer.rule);
    Outcome::gives(given, None, RowFailures::only(failure))
}

// An operand that isn't taken: of a void one nothing but that is told.
#[tactic(auto, using(crate::proofs::SortLemmas::or_else_told))]
pub fn one_not_taken(token: u32, standing: u32, of: ValueSort) -> Option<Broken>
    ensures { option_map broken_seen result ≡ least_broken (meaning.or_else (meaning.void_alone standing (sort_seen of)) (breaks_at WrongOperandTypes token)) }
{
    or_else(
        void_alone(standing, of),
        broken_at(ErrorKind::WrongOperandTypes, token),
    )
}

// By what the operand is.
fn unary_of(
    types: &Types,
    op: Operator,
    token: u32,
    standing: u32,
    operand: Valued,
    of: ValueSort,
) -> Outcome
    requires { IsValued types.now operand }
    ensures row { outcome_seen types.now result ≡ told (meaning.unary_of op token standing (valued_seen types.now operand) (sort_seen of)) }
    ensures known { IsKnownOutcome types.now result }
{
    match of {
        ValueSort::Integer(kind) => {
            let type_of = integer_type(types, op, operand, kind);
            integer_row(types, op, token, operand, type_of)
        }
        other => Outcome::breaks(one_not_taken(token, standing, other)),
    }
}

// Of an operand of which something may be known.
fn unary_if(
    types: &Types,
    op: Operator,
    token: u32,
    standing: u32,
    operand: Option<Valued>,
) -> Outcome
    requires { IfSome operand (IsValued types.now) }
    ensures row { outcome_seen types.now result ≡ told (meaning.unary_row op token standing (valued_part types.now operand)) }
    ensures known { IsKnownOutcome types.now result }
{
    match operand {
        None => Outcome::nothing(),
        Some(operand) => {
            let of = value_sort(types, operand);
            unary_of(types, op, token, standing, operand, of)
        }
    }
}

/// The row of unary `+`, `-` or `~` at this token, whose operand stands at its own. It takes a few steps.
pub fn judge_unary(
    types: &mut Types,
    op: Operator,
    token: u32,
    standing: u32,
    operand: Option<Valued>,
) -> Result<Row, AllocError>
    requires { IfSome operand (IsValued types.old) }
    ensures row { IfOk result (λ row. row_seen types.new row ≡ told (meaning.unary_row op token standing (valued_part types.old operand))) }
    ensures known { IfOk result (IsKnownRow types.new) }
    ensures keeps { OnOk result (TypesJoin types.old types.new) }
{
    let outcome = unary_if(types, op, token, standing, operand);
    finish(types, outcome)
}
