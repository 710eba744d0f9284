// Binary operators (C11 6.5.5 to 6.5.12).
ghost use Rattle.std.specs.Prelude.{◌≡◌, IfOk, IfSome, OnOk};
ghost use Rattle.node_facts.specs.Constants.{is_comparison, is_shift, keeps_identity};
ghost use Rattle.meaning_operands.specs.Operators.{law_of};
ghost use Rattle.meaning_typing.specs.Facts.{type_of_value};
ghost use Rattle.meaning_typing.specs.Operators as meaning;
ghost use Rattle.c_types.specs.Layouts.{told_in};
ghost use Rattle.node_facts.specs.Facts.{IsKnownFact, addressed_seen, fact_seen};
ghost use Rattle.node_facts.specs.Growing.{TypesJoin};
ghost use Rattle.expression_rows.specs.Facts.{IsValued, valued_part, valued_seen};
ghost use Rattle.expression_rows.specs.Outcomes.{IsKnownOutcome, IsKnownType, binary_taking, compared_outcome, distance_given, given_seen, integers_given, moved_given, outcome_seen, taken_in, type_given};
ghost use Rattle.expression_rows.specs.Rows.{IsKnownFailure, IsKnownRow, failure_listed, row_seen, told};
ghost use Rattle.expression_rows.specs.Sorts.{plain_kind, sort_seen};

use crate::law::{
    answer_of, are_unlike, failure_beside_pointer, is_zero, meet_as_pointers, operands_failure,
    pointer_meets, target_broken, tested_failure, unlike,
};
use crate::operand::{decays, is_restricted_value, number_of, void_used};
use crate::outcome::{Given, GivenType, Outcome, finish};
use crate::row::{Row, RowFailures, broken_at, lesser};
use crate::sort::{BinaryTokens, ValueSort, not_taken, value_sort};
use crate::value::Valued;
use c_types::{Types, promoted_kind, usual_kind};
use node_facts::{Addressed, ExpressionFact};
use sparse_model::{ErrorKind, Failure, IntKind};
use std::alloc::AllocError;
use vocabulary::Operator;

// Two integers

/// Whether an operator keeps the restricted type of its operands.
pub fn keeps_identity(op: Operator) -> bool
    ensures { result ≡ keeps_identity (law_of op).gives }
{
    match op {
        Operator::Complement => true,
        Operator::BitwiseAnd => true,
        Operator::BitwiseExclusiveOr => true,
        Operator::BitwiseOr => true,
        Operator::Conditional => true,
        _ => false,
    }
}

fn is_comparison(op: Operator) -> bool
    ensures { result ≡ is_comparison op }
{
    match op {
        Operator::Less => true,
        Operator::Greater => true,
        Operator::LessOrEqual => true,
        Operator::GreaterOrEqual => true,
        Operator::Equal => true,
        Operator::NotEqual => true,
        _ => false,
    }
}

fn is_shift(op: Operator) -> bool
    ensures { result ≡ is_shift op }
{
    match op {
        Operator::LeftShift => true,
        Operator::RightShift => true,
        _ => false,
    }
}

// The kind of what two integers give of which no restricted type is kept.
fn plain_kind(op: Operator, kind: IntKind, other: IntKind) -> IntKind
    ensures { result ≡ plain_kind op kind other }
{
    if is_comparison(op) {
        IntKind::Int
    } else if is_shift(op) {
        promoted_kind(kind)
    } else {
        usual_kind(kind, other)
    }
}

/// The type of what two integers of these kinds give.
#[tactic(auto, using(crate::proofs::SortLemmas::plain_kind_told))]
pub fn integers_type(
    types: &Types,
    op: Operator,
    left: Valued,
    right: Valued,
    kind: IntKind,
    other: IntKind,
) -> GivenType
    requires left { IsValued types.now left }
    requires right { IsValued types.now right }
    ensures of { type_given types.now result ≡ meaning.integers_type op (type_of_value (valued_seen types.now left)) (type_of_value (valued_seen types.now right)) kind other }
    ensures known { IsKnownType types.now result }
{
    if keeps_identity(op) && is_restricted_value(types, left) {
        GivenType::Same(left.value)
    } else if keeps_identity(op) && is_restricted_value(types, right) {
        GivenType::Same(right.value)
    } else {
        GivenType::Integer(plain_kind(op, kind, other))
    }
}

// What two integers give.
fn integers_row(
    types: &Types,
    op: Operator,
    token: u32,
    left: Valued,
    right: Valued,
    of: GivenType,
) -> Outcome
    requires left { IsValued types.now left }
    requires right { IsValued types.now right }
    requires of { IsKnownType types.now of }
    ensures row { outcome_seen types.now result ≡ told (integers_given op token (valued_seen types.now left) (valued_seen types.now right) (type_given types.now of)) }
    ensures known { IsKnownOutcome types.now result }
{
    let answer = answer_of(types, op, left, right);
    let given = Given {
        fouled: answer.fouled,
        ..Given::value(of)
    };
    let failures = RowFailures {
        first: operands_failure(types, token, left, right, answer.rule),
        second: tested_failure(types, token, left, right, answer.tested),
    };
    Outcome::gives(given, None, failures)
}

// What two integers of these kinds give.
fn integers(
    types: &Types,
    op: Operator,
    token: u32,
    left: Valued,
    right: Valued,
    kind: IntKind,
    other: IntKind,
) -> Outcome
    requires left { IsValued types.now left }
    requires right { IsValued types.now right }
    ensures row { outcome_seen types.now result ≡ told (meaning.integers_row op token (valued_seen types.now left) (valued_seen types.now right) kind other) }
    ensures known { IsKnownOutcome types.now result }
{
    let of = integers_type(types, op, left, right, kind, other);
    integers_row(types, op, token, left, right, of)
}

// `*`, `/`, `%`, `<<`, `>>`, `&`, `^` and `|`.
fn arithmetic(
    types: &Types,
    op: Operator,
    at: BinaryTokens,
    left: Valued,
    right: Valued,
    of: ValueSort,
    other: ValueSort,
) -> Outcome
    requires left { IsValued types.now left }
    requires right { IsValued types.now right }
    ensures row { outcome_seen types.now result ≡ told (meaning.arithmetic_of op at.token at.first at.second (valued_seen types.now left) (valued_seen types.now right) (sort_seen of) (sort_seen other)) }
    ensures known { IsKnownOutcome types.now result }
{
    match (of, other) {
        (ValueSort::Integer(kind), ValueSort::Integer(another)) => {
            integers(types, op, at.token, left, right, kind, another)
        }
        _ => Outcome::breaks(not_taken(ErrorKind::WrongOperandTypes, at, of, other)),
    }
}

// Sums and differences

fn address_of_value(address: Addressed, decays: bool) -> Addressed
    ensures { addressed_seen result ≡ meaning.address_of_value (addressed_seen address) decays }
{
    match (address, decays) {
        (Addressed::ConstantPlace, true) => Addressed::ConstantAddress,
        (Addressed::ConstantPlace, false) => Addressed::NotAddress,
        (Addressed::ConstantAddress, _) => Addressed::ConstantAddress,
        (Addressed::NotAddress, _) => Addressed::NotAddress,
    }
}

/// How far the value of an expression is an address constant.
pub fn value_address(types: &Types, of: ExpressionFact) -> Addressed
    requires { IsKnownFact types.now of }
    ensures { addressed_seen result ≡ meaning.value_address (fact_seen types.now of) }
{
    address_of_value(of.marks.address, decays(types, of.node.of))
}

fn moved_address(address: Addressed, is_constant: bool) -> Addressed
    ensures { addressed_seen result ≡ meaning.moved_address (addressed_seen address) is_constant }
{
    match (address, is_constant) {
        (Addressed::ConstantAddress, true) => Addressed::ConstantAddress,
        _ => Addressed::NotAddress,
    }
}

// What is known of a pointer that is moved by an integer.
fn moved_pointer(types: &Types, pointer: Valued, count: Valued) -> Given
    requires pointer { IsValued types.now pointer }
    requires count { IsValued types.now count }
    ensures given { given_seen types.now result ≡ moved_given (valued_seen types.now pointer) (valued_seen types.now count) }
    ensures known { IsKnownType types.now result.of }
{
    let address = value_address(types, pointer.fact);
    let is_constant = number_of(types, count.fact).is_some();
    Given {
        address: moved_address(address, is_constant),
        ..Given::value(GivenType::Same(pointer.value))
    }
}

// A pointer that is moved, by operands of which this is known.
fn moved(
    types: &Types,
    op: Operator,
    token: u32,
    left: Valued,
    right: Valued,
    pointer: Valued,
    count: Valued,
) -> Outcome
    requires left { IsValued types.now left }
    requires right { IsValued types.now right }
    requires pointer { IsValued types.now pointer }
    requires count { IsValued types.now count }
    ensures row { outcome_seen types.now result ≡ told (meaning.moved_row (told_in types.now) op token (valued_seen types.now left) (valued_seen types.now right) (valued_seen types.now pointer) (valued_seen types.now count)) }
    ensures known { IsKnownOutcome types.now result }
{
    let rule = answer_of(types, op, left, right).rule;
    let failure = operands_failure(types, token, left, right, rule);
    Outcome::gives(
        moved_pointer(types, pointer, count),
        target_broken(types, token, pointer),
        RowFailures::only(failure),
    )
}

// `+`.
fn addition(
    types: &Types,
    at: BinaryTokens,
    left: Valued,
    right: Valued,
    of: ValueSort,
    other: ValueSort,
) -> Outcome
    requires left { IsValued types.now left }
    requires right { IsValued types.now right }
    ensures row { outcome_seen types.now result ≡ told (meaning.addition_of (told_in types.now) at.token at.first at.second (valued_seen types.now left) (valued_seen types.now right) (sort_seen of) (sort_seen other)) }
    ensures known { IsKnownOutcome types.now result }
{
    let op = Operator::Addition;
    match (of, other) {
        (ValueSort::Integer(kind), ValueSort::Integer(another)) => {
            integers(types, op, at.token, left, right, kind, another)
        }
        (ValueSort::Pointer, ValueSort::Integer(_)) => {
            moved(types, op, at.token, left, right, left, right)
        }
        (ValueSort::Integer(_), ValueSort::Pointer) => {
            moved(types, op, at.token, left, right, right, left)
        }
        (ValueSort::Pointer, ValueSort::Pointer) => {
            Outcome::breaks(not_taken(ErrorKind::WrongOperandTypes, at, of, other))
        }
        _ => Outcome::breaks(not_taken(ErrorKind::WrongOperandTypes, at, of, other)),
    }
}

// A long, where this is broken.
fn distance(
    types: &Types,
    token: u32,
    left: Valued,
    right: Valued,
    failure: Option<Failure>,
) -> Outcome
    requires left { IsValued types.now left }
    requires right { IsValued types.now right }
    requires failure { IfSome failure (IsKnownFailure types.now) }
    ensures row { outcome_seen types.now result ≡ told (distance_given (told_in types.now) token (valued_seen types.now left) (valued_seen types.now right) (failure_listed types.now failure)) }
    ensures known { IsKnownOutcome types.now result }
{
    let broken = lesser(
        target_broken(types, token, left),
        target_broken(types, token, right),
    );
    Outcome::gives(
        Given::value(GivenType::Integer(IntKind::Long)),
        broken,
        RowFailures::only(failure),
    )
}

// The difference of two pointers.
fn difference(types: &Types, token: u32, left: Valued, right: Valued) -> Outcome
    requires left { IsValued types.now left }
    requires right { IsValued types.now right }
    ensures row { outcome_seen types.now result ≡ told (meaning.difference_row (told_in types.now) token (valued_seen types.now left) (valued_seen types.now right)) }
    ensures known { IsKnownOutcome types.now result }
{
    if are_unlike(types, left, right) {
        let failure = unlike(types, token, left, right);
        distance(types, token, left, right, Some(failure))
    } else if types.same_without_flags(left.value, right.value) {
        distance(types, token, left, right, None)
    } else {
        Outcome::breaks(broken_at(ErrorKind::WrongOperandTypes, token))
    }
}

// A pointer is taken from an integer.
fn pointer_taken(types: &Types, token: u32, left: Valued, right: Valued, zero: bool) -> Outcome
    requires left { IsValued types.now left }
    requires right { IsValued types.now right }
    ensures row { outcome_seen types.now result ≡ told (meaning.pointer_taken token (valued_seen types.now left) (valued_seen types.now right) zero) }
    ensures known { IsKnownOutcome types.now result }
{
    if zero {
        return Outcome::breaks(broken_at(ErrorKind::WrongOperandTypes, token));
    }
    let rule = answer_of(types, Operator::Subtraction, left, right).rule;
    let failures = RowFailures {
        first: Some(unlike(types, token, left, right)),
        second: operands_failure(types, token, left, right, rule),
    };
    Outcome::gives(
        Given::value(GivenType::Integer(IntKind::Long)),
        None,
        failures,
    )
}

// `-`.
fn subtraction(
    types: &Types,
    at: BinaryTokens,
    left: Valued,
    right: Valued,
    of: ValueSort,
    other: ValueSort,
) -> Outcome
    requires left { IsValued types.now left }
    requires right { IsValued types.now right }
    ensures row { outcome_seen types.now result ≡ told (meaning.subtraction_of (told_in types.now) at.token at.first at.second (valued_seen types.now left) (valued_seen types.now right) (sort_seen of) (sort_seen other)) }
    ensures known { IsKnownOutcome types.now result }
{
    let op = Operator::Subtraction;
    match (of, other) {
        (ValueSort::Integer(kind), ValueSort::Integer(another)) => {
            integers(types, op, at.token, left, right, kind, another)
        }
        (ValueSort::Pointer, ValueSort::Integer(_)) => {
            moved(types, op, at.token, left, right, left, right)
        }
        (ValueSort::Pointer, ValueSort::Pointer) => difference(types, at.token, left, right),
        (ValueSort::Integer(_), ValueSort::Pointer) => {
            pointer_taken(types, at.token, left, right, is_zero(types, left))
        }
        _ => Outcome::breaks(not_taken(ErrorKind::WrongOperandTypes, at, of, other)),
    }
}

// Comparisons

// An int, where this fails.
fn compared(first: Option<Failure>, second: Option<Failure>) -> Outcome
    ensures { result ≡ compared_outcome first second }
{
    Outcome::gives(
        Given::value(GivenType::Integer(IntKind::Int)),
        None,
        RowFailures { first, second },
    )
}

// Two pointers.
fn compared_pointers(types: &Types, token: u32, left: Valued, right: Valued) -> Outcome
    requires left { IsValued types.now left }
    requires right { IsValued types.now right }
    ensures row { outcome_seen types.now result ≡ told (meaning.compared_pointers token (valued_seen types.now left) (valued_seen types.now right)) }
    ensures known { IsKnownOutcome types.now result }
{
    if are_unlike(types, left, right) {
        compared(Some(unlike(types, token, left, right)), None)
    } else if meet_as_pointers(types, left, right) {
        compared(None, None)
    } else {
        Outcome::breaks(broken_at(ErrorKind::WrongOperandTypes, token))
    }
}

// A pointer and an integer.
fn compared_with_integer(
    types: &Types,
    op: Operator,
    token: u32,
    left: Valued,
    right: Valued,
    zero: bool,
) -> Outcome
    requires left { IsValued types.now left }
    requires right { IsValued types.now right }
    ensures row { outcome_seen types.now result ≡ told (meaning.compared_with_integer op token (valued_seen types.now left) (valued_seen types.now right) zero) }
    ensures known { IsKnownOutcome types.now result }
{
    let answer = answer_of(types, op, left, right);
    let second = failure_beside_pointer(types, token, left, right, answer.rule, answer.tested);
    compared(Some(pointer_meets(types, token, left, right, zero)), second)
}

// An aggregate meets another type, or itself.
fn meeting_fault(types: &Types, left: Valued, right: Valued) -> ErrorKind
    requires left { IsValued types.now left }
    requires right { IsValued types.now right }
    ensures { result ≡ meaning.meeting_fault (type_of_value (valued_seen types.now left)) (type_of_value (valued_seen types.now right)) }
{
    if types.same(left.value, right.value) {
        ErrorKind::WrongOperandTypes
    } else {
        ErrorKind::IncompatibleTypes
    }
}

// `<`, `>`, `<=`, `>=`, `==` and `!=`.
fn comparison(
    types: &Types,
    op: Operator,
    at: BinaryTokens,
    left: Valued,
    right: Valued,
    of: ValueSort,
    other: ValueSort,
) -> Outcome
    requires left { IsValued types.now left }
    requires right { IsValued types.now right }
    ensures row { outcome_seen types.now result ≡ told (meaning.comparison_of op at.token at.first at.second (valued_seen types.now left) (valued_seen types.now right) (sort_seen of) (sort_seen other)) }
    ensures known { IsKnownOutcome types.now result }
{
    match (of, other) {
        (ValueSort::Integer(kind), ValueSort::Integer(another)) => {
            integers(types, op, at.token, left, right, kind, another)
        }
        (ValueSort::Pointer, ValueSort::Pointer) => compared_pointers(types, at.token, left, right),
        (ValueSort::Pointer, ValueSort::Integer(_)) => {
            compared_with_integer(types, op, at.token, left, right, is_zero(types, right))
        }
        (ValueSort::Integer(_), ValueSort::Pointer) => {
            compared_with_integer(types, op, at.token, left, right, is_zero(types, left))
        }
        _ => Outcome::breaks(not_taken(meeting_fault(types, left, right), at, of, other)),
    }
}

// All of them

/// What an operator takes.
#[derive(Clone, Copy)]
pub enum Taken {
    Integers,
    Sum,
    Difference,
    Compared,
    /// An integer, or a pointer that is moved by one.
    Step,
    Other,
}

/// What a binary operator or an assignment takes.
pub fn taken_by(op: Operator) -> Taken
    ensures { result ≡ taken_in (law_of op).operands }
{
    match op {
        Operator::Multiplication => Taken::Integers,
        Operator::Division => Taken::Integers,
        Operator::Remainder => Taken::Integers,
        Operator::Addition => Taken::Sum,
        Operator::Subtraction => Taken::Difference,
        Operator::LeftShift => Taken::Integers,
        Operator::RightShift => Taken::Integers,
        Operator::Less => Taken::Compared,
        Operator::Greater => Taken::Compared,
        Operator::LessOrEqual => Taken::Compared,
        Operator::GreaterOrEqual => Taken::Compared,
        Operator::Equal => Taken::Compared,
        Operator::NotEqual => Taken::Compared,
        Operator::BitwiseAnd => Taken::Integers,
        Operator::BitwiseExclusiveOr => Taken::Integers,
        Operator::BitwiseOr => Taken::Integers,
        Operator::MultiplicationAssignment => Taken::Integers,
        Operator::DivisionAssignment => Taken::Integers,
        Operator::RemainderAssignment => Taken::Integers,
        Operator::AdditionAssignment => Taken::Step,
        Operator::SubtractionAssignment => Taken::Step,
        Operator::LeftShiftAssignment => Taken::Integers,
        Operator::RightShiftAssignment => Taken::Integers,
        Operator::BitwiseAndAssignment => Taken::Integers,
        Operator::BitwiseExclusiveOrAssignment => Taken::Integers,
        Operator::BitwiseOrAssignment => Taken::Integers,
        Operator::UnaryPlus => Taken::Integers,
        Operator::Negation => Taken::Integers,
        Operator::Complement => Taken::Integers,
        _ => Taken::Other,
    }
}

// By what the operator takes.
fn binary_by(
    types: &Types,
    taken: Taken,
    op: Operator,
    at: BinaryTokens,
    left: Valued,
    right: Valued,
) -> Outcome
    requires left { IsValued types.now left }
    requires right { IsValued types.now right }
    ensures row { outcome_seen types.now result ≡ told (binary_taking taken (told_in types.now) op at.token at.first at.second (valued_seen types.now left) (valued_seen types.now right)) }
    ensures known { IsKnownOutcome types.now result }
{
    let of = value_sort(types, left);
    let other = value_sort(types, right);
    match taken {
        Taken::Integers => arithmetic(types, op, at, left, right, of, other),
        Taken::Sum => addition(types, at, left, right, of, other),
        Taken::Difference => subtraction(types, at, left, right, of, other),
        Taken::Compared => comparison(types, op, at, left, right, of, other),
        Taken::Step => Outcome::nothing(),
        Taken::Other => Outcome::nothing(),
    }
}

// Of operands of which something may be known.
#[tactic(auto, using(crate::proofs::SortLemmas::binary_told))]
fn binary_of(
    types: &Types,
    op: Operator,
    at: BinaryTokens,
    left: Option<Valued>,
    right: Option<Valued>,
) -> Outcome
    requires left { IfSome left (IsValued types.now) }
    requires right { IfSome right (IsValued types.now) }
    ensures row { outcome_seen types.now result ≡ told (meaning.binary_row (told_in types.now) op at.token at.first at.second (valued_part types.now left) (valued_part types.now right)) }
    ensures known { IsKnownOutcome types.now result }
{
    match (left, right) {
        (Some(left), Some(right)) => binary_by(types, taken_by(op), op, at, left, right),
        (Some(left), None) => Outcome::breaks(void_used(types, at.first, left)),
        (None, Some(right)) => Outcome::breaks(void_used(types, at.second, right)),
        (None, None) => Outcome::nothing(),
    }
}

/// The row of a binary operator of C11 6.5.5 to 6.5.12, whose operands stand at their own tokens. It takes a few steps.
pub fn judge_binary(
    types: &mut Types,
    op: Operator,
    at: BinaryTokens,
    left: Option<Valued>,
    right: Option<Valued>,
) -> Result<Row, AllocError>
    requires left { IfSome left (IsValued types.old) }
    requires right { IfSome right (IsValued types.old) }
    ensures row { IfOk result (λ row. row_seen types.new row ≡ told (meaning.binary_row (told_in types.old) op at.token at.first at.second (valued_part types.old left) (valued_part types.old right))) }
    ensures known { IfOk result (IsKnownRow types.new) }
    ensures keeps { OnOk result (TypesJoin types.old types.new) }
{
    let outcome = binary_of(types, op, at, left, right);
    finish(types, outcome)
}
