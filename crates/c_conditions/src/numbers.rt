//! Numbers of 64 bits, signed or unsigned. A signed number below 0 is 2^64 more here.
ghost use Rattle.std.specs.Prelude.{◌≡◌, ◌<◌};
ghost use Rattle.meaning_conditions.specs.Values as values;
ghost use Rattle.meaning_conditions.specs.Signs.{greatest_signed};

/// The greatest number of intmax_t.
pub(crate) const GREATEST_SIGNED: u64 = 9223372036854775807;

/// Whether a signed number is below 0.
fn is_negative(n: u64) -> bool
    ensures { result ≡ values.is_negative n }
{
    n > GREATEST_SIGNED
}

/// The other sign.
pub(crate) fn negative(n: u64) -> u64
    ensures { result ≡ values.negative n }
{
    n.wrapping_neg()
}

pub(crate) fn complement(n: u64) -> u64
    ensures { result ≡ values.complement n }
{
    u64::MAX - n
}

// How far a signed number is from 0.
fn size(n: u64) -> u64
    ensures { result ≡ values.size n }
{
    if is_negative(n) { negative(n) } else { n }
}

fn signed_as(is_below: bool, n: u64) -> u64
    ensures { result ≡ values.signed_as is_below n }
{
    if is_below { negative(n) } else { n }
}

/// Towards zero; the least number divided by -1 wraps (C11 6.5.5 p6).
pub(crate) fn quotient(unsigned: bool, a: u64, b: u64) -> u64
    requires { 0 < b }
    ensures { result ≡ values.quotient unsigned a b }
{
    if unsigned {
        return a / b;
    }
    signed_as(is_negative(a) != is_negative(b), size(a) / size(b))
}

/// With the sign of the dividend.
pub(crate) fn remainder(unsigned: bool, a: u64, b: u64) -> u64
    requires { 0 < b }
    ensures { result ≡ values.remainder unsigned a b }
{
    if unsigned {
        return a % b;
    }
    signed_as(is_negative(a), size(a) % size(b))
}

// A count is taken modulo the width.
fn shift_count(n: u64) -> u32
    ensures value { result ≡ values.shift_count n }
    ensures bound { result < 64 }
{
    (n % 64) as u32
}

pub(crate) fn shifted_left(n: u64, count: u64) -> u64
    ensures { result ≡ values.shifted_left n count }
{
    n << shift_count(count)
}

/// Copies of the sign come in.
pub(crate) fn shifted_right(unsigned: bool, n: u64, count: u64) -> u64
    ensures { result ≡ values.shifted_right unsigned n count }
{
    let places = shift_count(count);
    if !unsigned && is_negative(n) {
        return complement(complement(n) >> places);
    }
    n >> places
}

// Signed numbers in their order.
fn in_order(n: u64) -> u64
    ensures { result ≡ values.in_order n }
{
    n.wrapping_add(GREATEST_SIGNED + 1)
}

pub(crate) fn is_less(unsigned: bool, a: u64, b: u64) -> bool
    ensures { result ≡ values.is_less unsigned a b }
{
    if unsigned {
        return a < b;
    }
    in_order(a) < in_order(b)
}
