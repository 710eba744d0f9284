// Integer constants: a spelling in, a kind and a value out. Signs and places aren't known here.
ghost use Rattle.std.specs.Prelude.{◌≡◌, ◌↔◌, Some, Ok, Err, IfOk, IfErr, IsErrOf};
ghost use Rattle.std.specs.List.{list_any};
ghost use Rattle.meaning_literals.specs.Bytes.{is_one_of};
ghost use Rattle.meaning_literals.specs.Constants.{FloatingFault, BadDigitFault, BadSuffixFault, TooBigFault};
ghost use Rattle.meaning_literals.specs.Integers.{base_of, begins_with_digit, behind_prefix, constant_with, floating_marks, has_hexadecimal_prefix, integer_of, numeral_constant};
ghost use Rattle.meaning_literals.specs.Suffixes.{suffix_of};
ghost use Rattle.c_literals.specs.Seen.{base_seen, constant_answer, constant_seen, IsIntegerFault};

use crate::fault::LiteralFault;
use crate::numbers::{Base, digits_len, number};
use crate::suffix::{first_kind, read_suffix};
use sparse_model::IntConst;

/// The value of an integer constant, and the first kind that holds it (C11 6.4.4.1). A text without a
/// value is told the first of Floating, BadDigit, BadSuffix and TooBig that holds. It takes no memory.
pub fn read_integer(text: &[u8]) -> Result<IntConst, LiteralFault>
    ensures value { IfOk result (λ found. integer_of text.now ≡ Ok (constant_seen found)) }

    ensures floating { IsErrOf result LiteralFault.Floating
        ↔ (integer_of text.now ≡ Err FloatingFault) }
    ensures bad_digit { IsErrOf result LiteralFault.BadDigit
        ↔ (integer_of text.now ≡ Err BadDigitFault) }
    ensures bad_suffix { IsErrOf result LiteralFault.BadSuffix
        ↔ (integer_of text.now ≡ Err BadSuffixFault) }
    ensures too_big { IsErrOf result LiteralFault.TooBig
        ↔ (integer_of text.now ≡ Err TooBigFault) }

    // No other fault, and never want of memory.
    ensures only { IfErr result IsIntegerFault }
{
    let base = base_of(text);
    if is_floating(base, text) {
        return Err(LiteralFault::Floating);
    }
    read_numeral(base, behind_prefix(base, text))
}

// By the prefix (6.4.4.1 p3).
fn base_of(text: &[u8]) -> Base
    ensures { base_seen result ≡ base_of text.now }
{
    match text {
        [b'0', b'x' | b'X', ..] => Base::Hexadecimal,
        [b'0', ..] => Base::Octal,
        _ => Base::Decimal,
    }
}

// A period, or the letter of an exponent, stands somewhere.
fn is_floating(base: Base, text: &[u8]) -> bool
    ensures { result ≡ list_any (is_one_of (floating_marks (base_seen base))) text.now }
{
    text.iter().any(|&byte| is_floating_mark(base, byte))
}

fn is_floating_mark(base: Base, byte: u8) -> bool
    ensures { result ≡ is_one_of (floating_marks (base_seen base)) byte }
{
    match base {
        Base::Octal | Base::Decimal => matches!(byte, b'.' | b'e' | b'E'),
        Base::Hexadecimal => matches!(byte, b'.' | b'p' | b'P'),
    }
}

fn behind_prefix(base: Base, text: &[u8]) -> &[u8]
    ensures { result.now ≡ behind_prefix (base_seen base) text.now }
{
    match base {
        Base::Hexadecimal if text.len() >= 2 => &text[2..],
        Base::Hexadecimal => &[],
        Base::Octal | Base::Decimal => text,
    }
}

// The constant without its prefix.
fn read_numeral(base: Base, numeral: &[u8]) -> Result<IntConst, LiteralFault>
    ensures answer { constant_answer result
        ≡ Some (numeral_constant (base_seen base) numeral.now) }
    ensures only { IfErr result IsIntegerFault }
{
    let (digits, behind) = numeral.split_at(digits_len(base, numeral));
    if digits.is_empty() || begins_with_digit(behind) {
        return Err(LiteralFault::BadDigit);
    }
    read_parts(base, digits, behind)
}

fn begins_with_digit(text: &[u8]) -> bool
    ensures { result ≡ begins_with_digit text.now }
{
    matches!(text, [b'0'..=b'9', ..])
}

// The constant with these digits and this suffix.
fn read_parts(base: Base, digits: &[u8], suffix: &[u8]) -> Result<IntConst, LiteralFault>
    ensures answer { constant_answer result
        ≡ Some (constant_with (base_seen base) digits.now (suffix_of suffix.now)) }
    ensures only { IfErr result IsIntegerFault }
{
    let Some(suffix) = read_suffix(suffix) else {
        return Err(LiteralFault::BadSuffix);
    };
    let Some(value) = number(base, digits) else {
        return Err(LiteralFault::TooBig);
    };
    match first_kind(base, suffix, value) {
        Some(kind) => Ok(IntConst { kind, bits: value }),
        None => Err(LiteralFault::TooBig),
    }
}
