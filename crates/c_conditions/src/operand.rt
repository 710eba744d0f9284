//! Operands: what they come to, and whether they are unsigned. No operand knows whether it is evaluated:
//! what isn't wanted is dropped.
ghost use Rattle.std.specs.Prelude.{◌≡◌};
ghost use Rattle.meaning_conditions.specs.Values.{bits_of_one, choice, chosen, evaluated, is_decided, one, outcome_of_two, operand_of, truth, two};
ghost use Rattle.c_conditions.specs.Seen.{binary_seen, number_seen, operand_seen, outcome_seen, unary_seen};

use crate::fault::IfNumber;
use crate::numbers;
use crate::operators::{Binary, Unary};

/// What the evaluation of an expression comes to.
#[derive(Clone, Copy, Debug, PartialEq, Eq)]
pub(crate) enum Outcome {
    /// These bits.
    Is(u64),
    /// The operator with this index divides by 0.
    ZeroAt(u32),
}

/// What an operator knows of an operand.
#[derive(Clone, Copy, Debug, PartialEq, Eq)]
pub(crate) struct Operand {
    pub(crate) outcome: Outcome,
    pub(crate) unsigned: bool,
}

impl Operand {
    pub(crate) fn of(number: IfNumber) -> Operand
        ensures { operand_seen result ≡ operand_of (number_seen number) }
    {
        Operand {
            outcome: Outcome::Is(number.bits),
            unsigned: number.unsigned,
        }
    }

    /// Behind an operator (C11 6.5.3.3).
    pub(crate) fn one(operator: Unary, operand: Operand) -> Operand
        ensures { operand_seen result ≡ one (unary_seen operator) (operand_seen operand) }
    {
        let outcome = match operand.outcome {
            Outcome::Is(bits) => Outcome::Is(bits_of_one(operator, bits)),
            Outcome::ZeroAt(index) => Outcome::ZeroAt(index),
        };
        let unsigned = operator != Unary::Not && operand.unsigned;
        Operand { outcome, unsigned }
    }

    /// On both sides of an operator with this index (6.5.5 to 6.5.14).
    pub(crate) fn two(index: u32, operator: Binary, left: Operand, right: Operand) -> Operand
        ensures { operand_seen result
            ≡ two index (binary_seen operator) (operand_seen left) (operand_seen right) }
    {
        let taken = operator.is_taken_unsigned(left.unsigned, right.unsigned);
        Operand {
            outcome: evaluated(index, operator, taken, left.outcome, right.outcome),
            unsigned: !operator.gives_truth() && taken,
        }
    }

    /// The three of `?:` (6.5.15).
    pub(crate) fn choice(condition: Operand, middle: Operand, other: Operand) -> Operand
        ensures { operand_seen result
            ≡ choice (operand_seen condition) (operand_seen middle) (operand_seen other) }
    {
        Operand {
            outcome: chosen(condition.outcome, middle.outcome, other.outcome),
            unsigned: middle.unsigned || other.unsigned,
        }
    }
}

fn bits_of_one(operator: Unary, n: u64) -> u64
    ensures { result ≡ bits_of_one (unary_seen operator) n }
{
    match operator {
        Unary::Plus => n,
        Unary::Negative => numbers::negative(n),
        Unary::Complement => numbers::complement(n),
        Unary::Not => truth(n == 0),
    }
}

// 1 or 0.
fn truth(holds: bool) -> u64
    ensures { result ≡ truth holds }
{
    if holds { 1 } else { 0 }
}

// The right operand where the left one doesn't decide (6.5.13 p4, 6.5.14 p4).
fn evaluated(index: u32, operator: Binary, unsigned: bool, left: Outcome, right: Outcome) -> Outcome
    ensures { outcome_seen result
        ≡ evaluated index (binary_seen operator) unsigned (outcome_seen left) (outcome_seen right) }
{
    let Outcome::Is(a) = left else {
        return left;
    };
    if is_decided(operator, a) {
        return Outcome::Is(truth(a != 0));
    }
    match right {
        Outcome::Is(b) => outcome_of_two(index, operator, unsigned, a, b),
        Outcome::ZeroAt(other) => Outcome::ZeroAt(other),
    }
}

fn is_decided(operator: Binary, left: u64) -> bool
    ensures { result ≡ is_decided (binary_seen operator) left }
{
    match operator {
        Binary::And => left == 0,
        Binary::Or => left != 0,
        _ => false,
    }
}

// What an operator between two numbers makes, which are both unsigned or both signed.
fn outcome_of_two(index: u32, operator: Binary, unsigned: bool, a: u64, b: u64) -> Outcome
    ensures { outcome_seen result ≡ outcome_of_two index (binary_seen operator) unsigned a b }
{
    let bits = match operator {
        Binary::Divide | Binary::Remainder if b == 0 => return Outcome::ZeroAt(index),
        Binary::Divide => numbers::quotient(unsigned, a, b),
        Binary::Remainder => numbers::remainder(unsigned, a, b),
        Binary::Multiply => a.wrapping_mul(b),
        Binary::Add => a.wrapping_add(b),
        Binary::Subtract => a.wrapping_sub(b),
        Binary::LeftShift => numbers::shifted_left(a, b),
        Binary::RightShift => numbers::shifted_right(unsigned, a, b),
        Binary::Less => truth(numbers::is_less(unsigned, a, b)),
        Binary::Greater => truth(numbers::is_less(unsigned, b, a)),
        Binary::LessEqual => truth(!numbers::is_less(unsigned, b, a)),
        Binary::GreaterEqual => truth(!numbers::is_less(unsigned, a, b)),
        Binary::Equal => truth(a == b),
        Binary::NotEqual => truth(a != b),
        Binary::BitAnd => a & b,
        Binary::BitXor => a ^ b,
        Binary::BitOr => a | b,
        Binary::And => truth(a != 0 && b != 0),
        Binary::Or => truth(a != 0 || b != 0),
    };
    Outcome::Is(bits)
}

fn chosen(condition: Outcome, middle: Outcome, other: Outcome) -> Outcome
    ensures { outcome_seen result
        ≡ chosen (outcome_seen condition) (outcome_seen middle) (outcome_seen other) }
{
    match condition {
        Outcome::Is(bits) => { if bits != 0 { middle } else { other } }
        Outcome::ZeroAt(index) => Outcome::ZeroAt(index),
    }
}
