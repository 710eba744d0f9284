// Operators that change a place: compound assignments, `++` and `--` (C11 6.5.2.4, 6.5.3.1, 6.5.16.2).
ghost use Rattle.std.specs.Prelude.{◌≡◌, IfOk, IfSome, OnOk, option_map, true};
ghost use Rattle.meaning_rules.specs.Rules.{least_broken};
ghost use Rattle.meaning_typing.specs.Facts.{type_of_value, value};
ghost use Rattle.meaning_typing.specs.Expressions.{is_modifiable};
ghost use Rattle.meaning_typing.specs.Changes as meaning;
ghost use Rattle.c_types.specs.Layouts.{told_in};
ghost use Rattle.node_facts.specs.Growing.{TypesJoin};
ghost use Rattle.expression_rows.specs.Changes.{compound_taking, left_alone, moved_broken, not_changed, not_stepped, step_row, stored_given, written_type};
ghost use Rattle.expression_rows.specs.Facts.{IsValued, valued_part, valued_seen};
ghost use Rattle.expression_rows.specs.Outcomes.{IsKnownOutcome, IsKnownType, given_seen, outcome_seen};
ghost use Rattle.expression_rows.specs.Rows.{IsKnownFailure, IsKnownRow, broken_seen, failure_listed, row_seen, told};
ghost use Rattle.expression_rows.specs.Sorts.{sort_seen};

use crate::assignment::is_modifiable;
use crate::binary::{Taken, taken_by};
use crate::law::{answer_of, operands_failure, target_broken};
use crate::outcome::{Given, GivenType, Outcome, finish};
use crate::row::{Broken, Row, RowFailures, broken_at, lesser};
use crate::sort::{BinaryTokens, ValueSort, or_else, value_sort, void_alone, void_among};
use crate::value::Valued;
use c_types::Types;
use sparse_model::{ErrorKind, Failure};
use std::alloc::AllocError;
use vocabulary::Operator;

/// Only a place that can be written is changed.
pub fn place_broken(types: &Types, token: u32, of: Valued) -> Option<Broken>
    requires { IsValued types.now of }
    ensures { option_map broken_seen result ≡ least_broken (meaning.place_broken token (valued_seen types.now of)) }
{
    if is_modifiable(types, of.fact) {
        None
    } else {
        broken_at(ErrorKind::NotModifiable, token)
    }
}

// A pointer that is moved has elements with a size.
fn moved_broken(types: &Types, token: u32, of: Valued, moves: bool) -> Option<Broken>
    requires { IsValued types.now of }
    ensures { option_map broken_seen result ≡ least_broken (moved_broken (told_in types.now) token (type_of_value (valued_seen types.now of)) moves) }
{
    if moves {
        target_broken(types, token, of)
    } else {
        None
    }
}

// A place that can be written is changed, and gives its type, or that of its value before.
#[tactic(auto, using(crate::proofs::ChangeLemmas::written_loaded))]
fn written(types: &Types, place: Valued, before: bool) -> Given
    requires place { IsValued types.now place }
    requires modifiable { is_modifiable (valued_seen types.now place) ≡ true }
    ensures given { given_seen types.now result ≡ value (written_type (valued_seen types.now place) before) }
    ensures known { IsKnownType types.now result.of }
{
    if before {
        Given::value(GivenType::Loaded(place.fact.node.of))
    } else {
        Given::value(GivenType::Same(place.value))
    }
}

// A place is changed; a pointer is moved.
fn stored(
    types: &Types,
    token: u32,
    place: Valued,
    before: bool,
    moves: bool,
    failure: Option<Failure>,
) -> Outcome
    requires place { IsValued types.now place }
    requires failure { IfSome failure (IsKnownFailure types.now) }
    ensures row { outcome_seen types.now result ≡ told (stored_given (told_in types.now) token (valued_seen types.now place) before moves (failure_listed types.now failure)) }
    ensures known { IsKnownOutcome types.now result }
{
    let moved = moved_broken(types, token, place, moves);
    if is_modifiable(types, place.fact) {
        let given = written(types, place, before);
        Outcome::gives(given, moved, RowFailures::only(failure))
    } else {
        Outcome {
            given: None,
            broken: lesser(broken_at(ErrorKind::NotModifiable, token), moved),
            failures: RowFailures::only(failure),
        }
    }
}

// A place is changed by operands that are taken; a pointer is moved.
fn changed(
    types: &Types,
    op: Operator,
    token: u32,
    left: Valued,
    right: Valued,
    moves: bool,
) -> Outcome
    requires left { IsValued types.now left }
    requires right { IsValued types.now right }
    ensures row { outcome_seen types.now result ≡ told (meaning.changed op token (valued_seen types.now left) (valued_seen types.now right) (moved_broken (told_in types.now) token (type_of_value (valued_seen types.now left)) moves)) }
    ensures known { IsKnownOutcome types.now result }
{
    let rule = answer_of(types, op, left, right).rule;
    let failure = operands_failure(types, token, left, right, rule);
    stored(types, token, left, true, moves, failure)
}

// Operands that aren't taken.
#[tactic(auto, using(crate::proofs::SortLemmas::or_else_told, crate::proofs::LeastLemmas::least_both))]
fn not_changed(
    types: &Types,
    at: BinaryTokens,
    left: Valued,
    of: ValueSort,
    other: ValueSort,
) -> Option<Broken>
    requires { IsValued types.now left }
    ensures { option_map broken_seen result ≡ least_broken (not_changed at.token at.first at.second (valued_seen types.now left) (sort_seen of) (sort_seen other)) }
{
    or_else(
        lesser(
            place_broken(types, at.token, left),
            void_among(at.first, at.second, of, other),
        ),
        broken_at(ErrorKind::WrongOperandTypes, at.token),
    )
}

// With two integers.
fn integers_changed(
    types: &Types,
    op: Operator,
    at: BinaryTokens,
    left: Valued,
    right: Valued,
    of: ValueSort,
    other: ValueSort,
) -> Outcome
    requires left { IsValued types.now left }
    requires right { IsValued types.now right }
    ensures row { outcome_seen types.now result ≡ told (meaning.integers_changed op at.token at.first at.second (valued_seen types.now left) (valued_seen types.now right) (sort_seen of) (sort_seen other)) }
    ensures known { IsKnownOutcome types.now result }
{
    match (of, other) {
        (ValueSort::Integer(_), ValueSort::Integer(_)) => {
            changed(types, op, at.token, left, right, false)
        }
        _ => Outcome::breaks(not_changed(types, at, left, of, other)),
    }
}

// Or with a pointer that is moved.
fn moved(
    types: &Types,
    op: Operator,
    at: BinaryTokens,
    left: Valued,
    right: Valued,
    of: ValueSort,
    other: ValueSort,
) -> Outcome
    requires left { IsValued types.now left }
    requires right { IsValued types.now right }
    ensures row { outcome_seen types.now result ≡ told (meaning.moved (told_in types.now) op at.token at.first at.second (valued_seen types.now left) (valued_seen types.now right) (sort_seen of) (sort_seen other)) }
    ensures known { IsKnownOutcome types.now result }
{
    match (of, other) {
        (ValueSort::Pointer, ValueSort::Integer(_)) => {
            changed(types, op, at.token, left, right, true)
        }
        _ => integers_changed(types, op, at, left, right, of, other),
    }
}

// By what the operator takes.
fn compound_by(
    types: &Types,
    taken: Taken,
    op: Operator,
    at: BinaryTokens,
    left: Valued,
    right: Valued,
) -> Outcome
    requires left { IsValued types.now left }
    requires right { IsValued types.now right }
    ensures row { outcome_seen types.now result ≡ told (compound_taking taken (told_in types.now) op at.token at.first at.second (valued_seen types.now left) (valued_seen types.now right)) }
    ensures known { IsKnownOutcome types.now result }
{
    let of = value_sort(types, left);
    let other = value_sort(types, right);
    match taken {
        Taken::Integers => integers_changed(types, op, at, left, right, of, other),
        Taken::Step => moved(types, op, at, left, right, of, other),
        Taken::Sum => Outcome::nothing(),
        Taken::Difference => Outcome::nothing(),
        Taken::Compared => Outcome::nothing(),
        Taken::Other => Outcome::nothing(),
    }
}

// Where nothing is known of the right side.
#[tactic(auto, using(crate::proofs::LeastLemmas::least_both))]
fn left_alone(types: &Types, at: BinaryTokens, left: Valued) -> Outcome
    requires { IsValued types.now left }
    ensures row { outcome_seen types.now result ≡ told (left_alone at.token at.first (valued_seen types.now left)) }
    ensures known { IsKnownOutcome types.now result }
{
    let of = value_sort(types, left);
    Outcome::breaks(lesser(
        place_broken(types, at.token, left),
        void_alone(at.first, of),
    ))
}

// Of sides of which something may be known.
#[tactic(auto, using(crate::proofs::ChangeLemmas::compound_told))]
fn compound_of(
    types: &Types,
    op: Operator,
    at: BinaryTokens,
    left: Option<Valued>,
    right: Option<Valued>,
) -> Outcome
    requires left { IfSome left (IsValued types.now) }
    requires right { IfSome right (IsValued types.now) }
    ensures row { outcome_seen types.now result ≡ told (meaning.compound_row (told_in types.now) op at.token at.first at.second (valued_part types.now left) (valued_part types.now right)) }
    ensures known { IsKnownOutcome types.now result }
{
    match (left, right) {
        (Some(left), Some(right)) => compound_by(types, taken_by(op), op, at, left, right),
        (Some(left), None) => left_alone(types, at, left),
        (None, Some(right)) => {
            let of = value_sort(types, right);
            Outcome::breaks(void_alone(at.second, of))
        }
        (None, None) => Outcome::nothing(),
    }
}

/// The row of a compound assignment, whose sides stand at their own tokens. It takes a few steps.
pub fn judge_compound(
    types: &mut Types,
    op: Operator,
    at: BinaryTokens,
    left: Option<Valued>,
    right: Option<Valued>,
) -> Result<Row, AllocError>
    requires left { IfSome left (IsValued types.old) }
    requires right { IfSome right (IsValued types.old) }
    ensures row { IfOk result (λ row. row_seen types.new row ≡ told (meaning.compound_row (told_in types.old) op at.token at.first at.second (valued_part types.old left) (valued_part types.old right))) }
    ensures known { IfOk result (IsKnownRow types.new) }
    ensures keeps { OnOk result (TypesJoin types.old types.new) }
{
    let outcome = compound_of(types, op, at, left, right);
    finish(types, outcome)
}

// `++` and `--`

// No integer and no pointer.
#[tactic(auto, using(crate::proofs::SortLemmas::or_else_told, crate::proofs::LeastLemmas::least_both))]
fn not_stepped(
    types: &Types,
    token: u32,
    standing: u32,
    operand: Valued,
    of: ValueSort,
) -> Option<Broken>
    requires { IsValued types.now operand }
    ensures { option_map broken_seen result ≡ least_broken (not_stepped token standing (valued_seen types.now operand) (sort_seen of)) }
{
    or_else(
        lesser(
            place_broken(types, token, operand),
            void_alone(standing, of),
        ),
        broken_at(ErrorKind::WrongOperandTypes, token),
    )
}

// By what the operand is.
#[tactic(auto, using(crate::proofs::ChangeLemmas::stored_alone))]
fn stepped(
    types: &Types,
    op: Operator,
    at: (u32, u32),
    operand: Valued,
    before: bool,
    of: ValueSort,
) -> Outcome
    requires { IsValued types.now operand }
    ensures row { outcome_seen types.now result ≡ told (meaning.stepped (told_in types.now) op at.0 at.1 (valued_seen types.now operand) (written_type (valued_seen types.now operand) before) (sort_seen of)) }
    ensures known { IsKnownOutcome types.now result }
{
    let (token, standing) = at;
    match of {
        ValueSort::Integer(_) => {
            let rule = answer_of(types, op, operand, operand).rule;
            let failure = operands_failure(types, token, operand, operand, rule);
            stored(types, token, operand, before, false, failure)
        }
        ValueSort::Pointer => stored(types, token, operand, before, true, None),
        other => Outcome::breaks(not_stepped(types, token, standing, operand, other)),
    }
}

// Of an operand of which something may be known.
fn step_if(
    types: &Types,
    op: Operator,
    token: u32,
    standing: u32,
    operand: Option<Valued>,
    before: bool,
) -> Outcome
    requires { IfSome operand (IsValued types.now) }
    ensures row { outcome_seen types.now result ≡ told (step_row (told_in types.now) op token standing (valued_part types.now operand) before) }
    ensures known { IsKnownOutcome types.now result }
{
    match operand {
        None => Outcome::nothing(),
        Some(operand) => {
            let of = value_sort(types, operand);
            stepped(types, op, (token, standing), operand, before, of)
        }
    }
}

/// The row of `++` or `--` at this token, behind its operand, which stands at its own. It takes a few steps.
#[tactic(auto, using(crate::proofs::ChangeLemmas::step_behind_told))]
pub fn judge_step_behind(
    types: &mut Types,
    op: Operator,
    token: u32,
    standing: u32,
    operand: Option<Valued>,
) -> Result<Row, AllocError>
    requires { IfSome operand (IsValued types.old) }
    ensures row { IfOk result (λ row. row_seen types.new row ≡ told (meaning.step_behind_row (told_in types.old) op token standing (valued_part types.old operand))) }
    ensures known { IfOk result (IsKnownRow types.new) }
    ensures keeps { OnOk result (TypesJoin types.old types.new) }
{
    let outcome = step_if(types, op, token, standing, operand, false);
    finish(types, outcome)
}

/// The row of `++` or `--` at this token, before its operand, which stands at its own. It takes a few steps.
#[tactic(auto, using(crate::proofs::ChangeLemmas::step_before_told))]
pub fn judge_step_before(
    types: &mut Types,
    op: Operator,
    token: u32,
    standing: u32,
    operand: Option<Valued>,
) -> Result<Row, AllocError>
    requires { IfSome operand (IsValued types.old) }
    ensures row { IfOk result (λ row. row_seen types.new row ≡ told (meaning.step_before_row (told_in types.old) op token standing (valued_part types.old operand))) }
    ensures known { IfOk result (IsKnownRow types.new) }
    ensures keeps { OnOk result (TypesJoin types.old types.new) }
{
    let outcome = step_if(types, op, token, standing, operand, true);
    finish(types, outcome)
}
