// What operators give of numbers that are converted to one kind.
ghost use Rattle.std.specs.Prelude.{◌≡◌, ◌<◌, ◌^◌, ◌+ℤ◌, ◌-ℤ◌, ◌*ℤ◌, if◌then◌else◌, IfSome, None, Some, int_div, int_rem, pos, unsigned_abs};
ghost use Rattle.std.specs.Int.{IsNonZero, int_shr, w128};
ghost use Rattle.meaning_constants.specs.Numbers.{wrapped};
ghost use Rattle.meaning_constants.specs.Operations.{if_in_width, is_in_width, operated, operated_alone, times_power_of_two, truth, unless_zero};

use crate::number::wrapped;
use c_types::bits;
use sparse_model::IntKind;
use vocabulary::Operator;

fn truth(holds: bool) -> i128
    ensures { result ≡ truth holds }
{
    if holds { 1 } else { 0 }
}

fn sum(kind: IntKind, left: i128, right: i128) -> i128
    ensures { result ≡ wrapped kind (left +ℤ right) }
{
    wrapped(kind, left.wrapping_add(right))
}

fn difference(kind: IntKind, left: i128, right: i128) -> i128
    ensures { result ≡ wrapped kind (left -ℤ right) }
{
    wrapped(kind, left.wrapping_sub(right))
}

fn product(kind: IntKind, left: i128, right: i128) -> i128
    ensures { result ≡ wrapped kind (left *ℤ right) }
{
    wrapped(kind, left.wrapping_mul(right))
}

// Cut toward 0 (C11 6.5.5 p6).
fn cut_quotient(kind: IntKind, left: i128, right: i128) -> i128
    requires { IsNonZero w128 right }
    ensures { result ≡ wrapped kind (int_div left right) }
{
    wrapped(kind, left.wrapping_div(right))
}

fn quotient(kind: IntKind, left: i128, right: i128) -> Option<i128>
    ensures { result ≡ unless_zero right (wrapped kind (int_div left right)) }
{
    if right == 0 {
        return None;
    }
    Some(cut_quotient(kind, left, right))
}

// With the sign of the dividend.
fn remainder(left: i128, right: i128) -> Option<i128>
    ensures { result ≡ unless_zero right (int_rem left right) }
{
    if right == 0 {
        return None;
    }
    Some(left.wrapping_rem(right))
}

// A count that is neither below 0 nor as great as the width (C11 6.5.7 p3).
fn count_in_width(kind: IntKind, count: i128) -> Option<u32>
    ensures count { result ≡ (if is_in_width kind count then Some (unsigned_abs count) else None) }
    ensures few { IfSome result (λ count. count < 64) }
{
    if 0 <= count && count < i128::from(bits(kind)) {
        Some(count as u32)
    } else {
        None
    }
}

fn power_of_two(count: u32) -> i128
    requires { count < 64 }
    ensures { result ≡ pos (2 ^ count) }
{
    1i128 << count
}

fn shifted_left(kind: IntKind, left: i128, count: i128) -> Option<i128>
    ensures { result ≡ if_in_width kind count (wrapped kind (times_power_of_two left count)) }
{
    let count = count_in_width(kind, count)?;
    Some(product(kind, left, power_of_two(count)))
}

// The sign is copied.
fn shifted_right(kind: IntKind, left: i128, count: i128) -> Option<i128>
    ensures { result ≡ if_in_width kind count (int_shr left (unsigned_abs count)) }
{
    let count = count_in_width(kind, count)?;
    Some(left >> count)
}

/// What a binary operator gives of two numbers that are converted to a kind; of a shift the left one is, the right
/// one is a count. There is nothing for a divisor that is 0, and for a count outside the width.
pub fn operated(op: Operator, kind: IntKind, left: i128, right: i128) -> Option<i128>
    ensures { result ≡ operated op kind left right }
{
    match op {
        Operator::Multiplication => Some(product(kind, left, right)),
        Operator::Division => quotient(kind, left, right),
        Operator::Remainder => remainder(left, right),
        Operator::Addition => Some(sum(kind, left, right)),
        Operator::Subtraction => Some(difference(kind, left, right)),
        Operator::LeftShift => shifted_left(kind, left, right),
        Operator::RightShift => shifted_right(kind, left, right),
        Operator::Less => Some(truth(left < right)),
        Operator::Greater => Some(truth(left > right)),
        Operator::LessOrEqual => Some(truth(left <= right)),
        Operator::GreaterOrEqual => Some(truth(left >= right)),
        Operator::Equal => Some(truth(left == right)),
        Operator::NotEqual => Some(truth(left != right)),
        Operator::BitwiseAnd => Some(left & right),
        Operator::BitwiseExclusiveOr => Some(left ^ right),
        Operator::BitwiseOr => Some(left | right),
        _ => None,
    }
}

/// What a unary operator gives of a number that is promoted to a kind.
pub fn operated_alone(op: Operator, kind: IntKind, number: i128) -> Option<i128>
    ensures { result ≡ operated_alone op kind number }
{
    match op {
        Operator::UnaryPlus => Some(number),
        Operator::Negation => Some(difference(kind, 0, number)),
        Operator::Complement => Some(difference(kind, -1, number)),
        Operator::LogicalNot => Some(truth(number == 0)),
        _ => None,
    }
}
