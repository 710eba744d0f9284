// The constant that comes of parts whose constants are known (C11 6.6).
ghost use Rattle.std.specs.Prelude.{◌≡◌, None, Some, option_map, pos};
ghost use Rattle.meaning_types.specs.Conversions.{promoted};
ghost use Rattle.meaning_constants.specs.Numbers.{truth_of};
ghost use Rattle.meaning_constants.specs.Operations.{operated_alone};
ghost use Rattle.meaning_constants.specs.Constants as meaning;
ghost use Rattle.const_fold.specs.Seen.{seen_constant, seen_part, seen_type};

use crate::number::{converted, truth_of, wrapped};
use crate::operation::{operated, operated_alone};
use crate::operator::{binary_kind, conditional_kind, is_fouled_by, is_shift, unary_kind};
use crate::part::{Part, PartType};
use c_types::{promoted_kind, usual_kind};
use sparse_model::IntKind;
use vocabulary::Operator;

/// An integer constant. A fouled one has a number of the promoted kind.
#[derive(Clone, Copy, Debug, PartialEq, Eq)]
pub struct Constant {
    pub kind: IntKind,
    pub number: i128,
}

// A number as one of this kind: a fouled one keeps the bits that its restricted type hasn't.
fn settled(fouled: bool, kind: IntKind, number: i128) -> Constant
    ensures { seen_constant result ≡ meaning.settled fouled kind number }
{
    let range = if fouled { promoted_kind(kind) } else { kind };
    Constant {
        kind,
        number: wrapped(range, number),
    }
}

fn settled_if(fouled: bool, kind: IntKind, number: Option<i128>) -> Option<Constant>
    ensures { option_map seen_constant result ≡ meaning.settled_if fouled kind number }
{
    match number {
        Some(number) => Some(settled(fouled, kind, number)),
        None => None,
    }
}

/// A literal, by the bits that are read of it (6.4.4).
pub fn literal_constant(kind: IntKind, bits: u64) -> Constant
    ensures { Some (seen_constant result) ≡ meaning.literal_constant kind bits }
{
    settled(false, kind, i128::from(bits))
}

// The most bytes that a size may have: 2^40.
const MOST_BYTES: u64 = 1 << 40;

/// A size, an alignment or an offset, if there is one (6.5.3.4, 7.19 p3).
pub fn size_constant(bytes: Option<u64>) -> Option<Constant>
    ensures { option_map seen_constant result ≡ meaning.size_constant bytes }
{
    match bytes {
        Some(bytes) => few_bytes(bytes),
        None => None,
    }
}

fn few_bytes(bytes: u64) -> Option<Constant>
    ensures { option_map seen_constant result ≡ meaning.size_constant (Some bytes) }
{
    if bytes <= MOST_BYTES {
        Some(settled(false, IntKind::ULong, i128::from(bytes)))
    } else {
        None
    }
}

/// An integer that is cast to an integer type (6.5.4).
#[tactic(auto, using(crate::proofs::PartLemmas::with_kind_told))]
pub fn cast_constant(to: PartType, part: Part) -> Option<Constant>
    ensures { option_map seen_constant result ≡ meaning.cast_constant (seen_type to) (seen_part part) }
{
    let kind = to.kind()?;
    let _source = part.of.kind()?;
    let number = part.number?;
    Some(Constant {
        kind,
        number: converted(kind, number),
    })
}

/// What is in parentheses, or stands for a name: the constant that it has itself.
#[tactic(auto, using(crate::proofs::PartLemmas::with_kind_told))]
pub fn own_constant(part: Part) -> Option<Constant>
    ensures { option_map seen_constant result ≡ meaning.own_constant (seen_part part) }
{
    let kind = part.of.kind()?;
    let number = part.number?;
    Some(Constant { kind, number })
}

// A unary operator on an integer with this kind and number.
fn operated_unary(op: Operator, part: Part, kind: IntKind, number: i128) -> Option<Constant>
    ensures { option_map seen_constant result
        ≡ meaning.settled_if (meaning.is_fouled_by op (seen_part part) (seen_part part)) (meaning.unary_kind op (seen_type part.of) kind) (operated_alone op (promoted kind) number) }
{
    settled_if(
        is_fouled_by(op, part, part),
        unary_kind(op, part.of, kind),
        operated_alone(op, promoted_kind(kind), number),
    )
}

/// The constant of a unary operator (6.5.3.3).
#[tactic(auto, using(crate::proofs::PartLemmas::with_kind_told))]
pub fn unary_constant(op: Operator, part: Part) -> Option<Constant>
    ensures { option_map seen_constant result ≡ meaning.unary_constant op (seen_part part) }
{
    let kind = part.of.kind()?;
    let number = part.number?;
    operated_unary(op, part, kind, number)
}

// A shift is one of the promoted left operand; all others take two numbers of the common kind.
fn numbers_operated(
    op: Operator,
    kind: IntKind,
    other: IntKind,
    left: i128,
    right: i128,
) -> Option<i128>
    ensures { result ≡ meaning.numbers_operated op kind other left right }
{
    if is_shift(op) {
        operated(op, promoted_kind(kind), left, right)
    } else {
        let common = usual_kind(kind, other);
        operated(op, common, wrapped(common, left), wrapped(common, right))
    }
}

// A binary operator on integers with these kinds and numbers.
fn operated_binary(
    op: Operator,
    left: Part,
    right: Part,
    kind: IntKind,
    other: IntKind,
    number: i128,
    second: i128,
) -> Option<Constant>
    ensures { option_map seen_constant result
        ≡ meaning.settled_if (meaning.is_fouled_by op (seen_part left) (seen_part right)) (meaning.binary_kind op (seen_type left.of) (seen_type right.of) kind other) (meaning.numbers_operated op kind other number second) }
{
    settled_if(
        is_fouled_by(op, left, right),
        binary_kind(op, left.of, right.of, kind, other),
        numbers_operated(op, kind, other, number, second),
    )
}

/// The constant of a binary operator (6.5.5 to 6.5.12).
#[tactic(auto, using(crate::proofs::PartLemmas::with_kind_told))]
pub fn binary_constant(op: Operator, left: Part, right: Part) -> Option<Constant>
    ensures { option_map seen_constant result ≡ meaning.binary_constant op (seen_part left) (seen_part right) }
{
    let kind = left.of.kind()?;
    let other = right.of.kind()?;
    let number = left.number?;
    let second = right.number?;
    operated_binary(op, left, right, kind, other, number, second)
}

fn int_constant(number: i128) -> Constant
    ensures { Some (seen_constant result) ≡ meaning.int_constant number }
{
    Constant {
        kind: IntKind::Int,
        number,
    }
}

// Whether a part is true, as an int.
#[tactic(auto, using(crate::proofs::PartLemmas::with_kind_told))]
fn tested(part: Part) -> Option<Constant>
    ensures { option_map seen_constant result
        ≡ meaning.with_kind (seen_part part).of (λ kind. meaning.with_number part.number (λ number. meaning.int_constant (truth_of number))) }
{
    let _kind = part.of.kind()?;
    let number = part.number?;
    Some(int_constant(truth_of(number)))
}

/// `&&`: a left operand that is 0 decides (6.5.13 p4).
#[tactic(auto, using(crate::proofs::PartLemmas::with_kind_told))]
pub fn and_constant(left: Part, right: Part) -> Option<Constant>
    ensures { option_map seen_constant result ≡ meaning.and_constant (seen_part left) (seen_part right) }
{
    let _kind = left.of.kind()?;
    let number = left.number?;
    if number == 0 {
        Some(int_constant(0))
    } else {
        tested(right)
    }
}

/// `||`: one that isn't 0 does (6.5.14 p4).
#[tactic(auto, using(crate::proofs::PartLemmas::with_kind_told))]
pub fn or_constant(left: Part, right: Part) -> Option<Constant>
    ensures { option_map seen_constant result ≡ meaning.or_constant (seen_part left) (seen_part right) }
{
    let _kind = left.of.kind()?;
    let number = left.number?;
    if number == 0 {
        tested(right)
    } else {
        Some(int_constant(1))
    }
}

// One of two arms, in the common kind (6.5.15 p5).
#[tactic(auto, using(crate::proofs::PartLemmas::with_kind_told))]
fn arm_constant(arm: Part, second: Part, third: Part) -> Option<Constant>
    ensures { option_map seen_constant result ≡ meaning.arm_constant (seen_part arm) (seen_part second) (seen_part third) }
{
    let kind = second.of.kind()?;
    let other = third.of.kind()?;
    settled_if(
        is_fouled_by(Operator::Conditional, second, third),
        conditional_kind(second, third, kind, other),
        arm.number,
    )
}

/// `?:`: the first operand tells which of the others is evaluated (6.5.15 p4).
#[tactic(auto, using(crate::proofs::PartLemmas::with_kind_told))]
pub fn conditional_constant(condition: Part, second: Part, third: Part) -> Option<Constant>
    ensures { option_map seen_constant result ≡ meaning.conditional_constant (seen_part condition) (seen_part second) (seen_part third) }
{
    let _kind = condition.of.kind()?;
    let number = condition.number?;
    if number == 0 {
        arm_constant(third, second, third)
    } else {
        arm_constant(second, second, third)
    }
}
