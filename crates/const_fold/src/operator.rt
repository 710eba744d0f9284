// What an operator gives, by its operands' types: the kind of the result, and whether it is fouled.
ghost use Rattle.std.specs.Prelude.{◌≡◌, ◌&&◌, if◌then◌else◌};
ghost use Rattle.meaning_types.specs.Conversions.{promoted};
ghost use Rattle.meaning_constants.specs.Operands.{is_restricted};
ghost use Rattle.meaning_constants.specs.Operators.{law_of};
ghost use Rattle.meaning_constants.specs.Constants.{binary_kind, conditional_kind, is_comparison, is_fouled_by, is_shift, keeps_identity, result_kind, unary_kind};
ghost use Rattle.const_fold.specs.Seen.{seen_part, seen_type};

use crate::part::{Part, PartType};
use c_types::{promoted_kind, usual_kind};
use sparse_model::IntKind;
use vocabulary::Operator;

/// Whether what an operator gives is fouled. A unary one has its operand on both sides.
pub fn is_fouled_by(op: Operator, left: Part, right: Part) -> bool
    ensures { result ≡ is_fouled_by op (seen_part left) (seen_part right) }
{
    match op {
        Operator::Complement => left.fouled || left.of.complement_fouls(),
        Operator::BitwiseAnd => left.fouled && right.fouled,
        Operator::BitwiseExclusiveOr => left.fouled || right.fouled,
        Operator::BitwiseOr => left.fouled || right.fouled,
        Operator::Conditional => left.fouled || right.fouled,
        Operator::Comma => right.fouled,
        _ => false,
    }
}

// Whether an operator keeps the restricted type of its operands.
fn keeps_identity(op: Operator) -> bool
    ensures { result ≡ keeps_identity (law_of op).gives }
{
    match op {
        Operator::Complement => true,
        Operator::BitwiseAnd => true,
        Operator::BitwiseExclusiveOr => true,
        Operator::BitwiseOr => true,
        Operator::Conditional => true,
        _ => false,
    }
}

pub fn is_comparison(op: Operator) -> bool
    ensures { result ≡ is_comparison op }
{
    match op {
        Operator::Less => true,
        Operator::Greater => true,
        Operator::LessOrEqual => true,
        Operator::GreaterOrEqual => true,
        Operator::Equal => true,
        Operator::NotEqual => true,
        _ => false,
    }
}

pub fn is_shift(op: Operator) -> bool
    ensures { result ≡ is_shift op }
{
    match op {
        Operator::LeftShift => true,
        Operator::RightShift => true,
        _ => false,
    }
}

// The kind of what two integers give: a restricted one's where its type is kept, else the common one (C11 6.3.1.8).
fn result_kind(
    op: Operator,
    left: PartType,
    right: PartType,
    kind: IntKind,
    other: IntKind,
) -> IntKind
    ensures { result ≡ result_kind (law_of op).gives (seen_type left) (seen_type right) kind other }
{
    if keeps_identity(op) && left.is_restricted() {
        kind
    } else if keeps_identity(op) && right.is_restricted() {
        other
    } else {
        usual_kind(kind, other)
    }
}

/// The kind of what a binary operator gives of integers.
pub fn binary_kind(
    op: Operator,
    left: PartType,
    right: PartType,
    kind: IntKind,
    other: IntKind,
) -> IntKind
    ensures { result ≡ binary_kind op (seen_type left) (seen_type right) kind other }
{
    if is_comparison(op) {
        IntKind::Int
    } else if is_shift(op) {
        promoted_kind(kind)
    } else {
        result_kind(op, left, right, kind, other)
    }
}

/// The kind of what `?:` gives of integers (6.5.15 p5).
pub fn conditional_kind(second: Part, third: Part, kind: IntKind, other: IntKind) -> IntKind
    ensures { result ≡ conditional_kind (seen_part second) (seen_part third) kind other }
{
    result_kind(Operator::Conditional, second.of, third.of, kind, other)
}

/// The kind of what a unary operator gives (6.5.3.3).
pub fn unary_kind(op: Operator, of: PartType, kind: IntKind) -> IntKind
    ensures { result ≡ unary_kind op (seen_type of) kind }
{
    match op {
        Operator::LogicalNot => IntKind::Int,
        _ => kept_kind(op, of, kind),
    }
}

// A restricted one's kind where its type is kept, else the promoted one.
fn kept_kind(op: Operator, of: PartType, kind: IntKind) -> IntKind
    ensures { result ≡ (if keeps_identity (law_of op).gives && is_restricted (seen_type of) then kind else promoted kind) }
{
    if keeps_identity(op) && of.is_restricted() {
        kind
    } else {
        promoted_kind(kind)
    }
}
