// Numbers and marks at the front of a text.
ghost use Rattle.std.specs.Prelude.{◌≡◌, ◌<◌, ◌≤◌, ◌+◌, ◌-◌, ◌*◌, ◌^◌, IfErr, IfOk, IfSome, MatchOption, length};
ghost use Rattle.flows.specs.Reading.{Reads, Fails, behind_spaces, digits_from, mark_at, negative_at, number_at, positive_at, signed_at};

use crate::wrong::{Fault, Wrong, fault_at};

/// The text behind the spaces at its front.
pub(crate) fn behind_spaces(text: &[u8]) -> &[u8]
    ensures text { result.now ≡ behind_spaces text.now }
    ensures shorter { length result.now ≤ length text.now }
{
    let mut rest = text;
    'spaces: while let Some((byte, others)) = rest.split_first() {
        if *byte != b' ' {
            return rest;
        }
        rest = others;
    }
    rest
}

/// The text behind this mark, which stands at its front.
pub(crate) fn behind_mark(text: &[u8], mark: u8, wrong: Wrong) -> Result<&[u8], Fault>
    ensures reads { IfOk result (λ rest. mark_at mark wrong text.now ≡ Reads tt rest.now) }
    ensures fails { IfErr result (λ fault. mark_at mark wrong text.now ≡ Fails fault.wrong fault.left) }
    ensures shorter { IfOk result (λ rest. length rest.now < length text.now) }
{
    match text.split_first() {
        Some((byte, others)) if *byte == mark => Ok(others),
        _ => Err(fault_at(text, wrong)),
    }
}

/// A number in decimal that is at most so large.
pub(crate) fn read_number(text: &[u8], most: u64) -> Result<(u64, &[u8]), Fault>
    ensures reads { IfOk result (λ read. number_at most text.now ≡ Reads read.0 read.1.now) }
    ensures fails { IfErr result (λ fault. number_at most text.now ≡ Fails fault.wrong fault.left) }
    ensures most { IfOk result (λ read. read.0 ≤ most) }
    ensures shorter { IfOk result (λ read. length read.1.now < length text.now) }
{
    let Some((digit, others)) = text.split_first() else {
        return Err(fault_at(text, Wrong::NoNumber));
    };
    if !digit.is_ascii_digit() {
        return Err(fault_at(text, Wrong::NoNumber));
    }
    match read_digits(u64::from(*digit - b'0'), others) {
        Some((number, rest)) if number <= most => Ok((number, rest)),
        _ => Err(fault_at(text, Wrong::LargeNumber)),
    }
}

// The number behind the digits at the front of a text, given the one before them, if it is below 2^64.
fn read_digits(first: u64, text: &[u8]) -> Option<(u64, &[u8])>
    ensures number { MatchOption result
        (2 ^ 64 ≤ (digits_from first text.now).0)
        (λ read. digits_from first text.now ≡ (read.0, read.1.now)) }
    ensures shorter { IfSome result (λ read. length read.1.now ≤ length text.now) }
{
    let mut number = first;
    let mut rest = text;
    'digits: while let Some((digit, others)) = rest.split_first() {
        if !digit.is_ascii_digit() {
            return Some((number, rest));
        }
        number = one_digit_more(number, *digit - b'0')?;
        rest = others;
    }
    Some((number, rest))
}

fn one_digit_more(number: u64, digit: u8) -> Option<u64>
    ensures { MatchOption result (2 ^ 64 ≤ number * 10 + digit) (λ more. more ≡ number * 10 + digit) }
{
    number.checked_mul(10)?.checked_add(u64::from(digit))
}

/// A number with a sign, or without one.
pub(crate) fn read_signed(text: &[u8]) -> Result<(i64, &[u8]), Fault>
    ensures reads { IfOk result (λ read. signed_at text.now ≡ Reads read.0 read.1.now) }
    ensures fails { IfErr result (λ fault. signed_at text.now ≡ Fails fault.wrong fault.left) }
    ensures shorter { IfOk result (λ read. length read.1.now < length text.now) }
{
    match text.split_first() {
        Some((b'-', digits)) => read_negative(digits),
        Some((b'+', digits)) => read_positive(digits),
        _ => read_positive(text),
    }
}

fn read_positive(digits: &[u8]) -> Result<(i64, &[u8]), Fault>
    ensures reads { IfOk result (λ read. positive_at digits.now ≡ Reads read.0 read.1.now) }
    ensures fails { IfErr result (λ fault. positive_at digits.now ≡ Fails fault.wrong fault.left) }
    ensures shorter { IfOk result (λ read. length read.1.now < length digits.now) }
{
    let (number, rest) = read_number(digits, 9_223_372_036_854_775_807)?;
    Ok((number as i64, rest))
}

fn read_negative(digits: &[u8]) -> Result<(i64, &[u8]), Fault>
    ensures reads { IfOk result (λ read. negative_at digits.now ≡ Reads read.0 read.1.now) }
    ensures fails { IfErr result (λ fault. negative_at digits.now ≡ Fails fault.wrong fault.left) }
    ensures shorter { IfOk result (λ read. length read.1.now < length digits.now) }
{
    let (number, rest) = read_number(digits, 9_223_372_036_854_775_808)?;
    Ok(((-i128::from(number)) as i64, rest))
}
