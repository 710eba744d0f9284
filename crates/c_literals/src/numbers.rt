//! Digits, and the numbers that they write.
ghost use Rattle.std.specs.Prelude.{◌≡◌, ◌+◌, ◌*◌, ◌^◌, ◌≤◌, MatchOption, length};
ghost use Rattle.std.specs.List.{prefix_len};
ghost use Rattle.std.specs.Char.{digit_value};
ghost use Rattle.meaning_literals.specs.Numbers.{is_digit_of, number, radix};
ghost use Rattle.c_literals.specs.Seen.{base_seen};

/// The base of a number.
#[derive(Clone, Copy, Debug, PartialEq, Eq)]
pub(crate) enum Base {
    Octal,
    Decimal,
    Hexadecimal,
}

impl Base {
    fn radix(self) -> u8
        ensures { result ≡ radix (base_seen self) }
    {
        match self {
            Base::Octal => 8,
            Base::Decimal => 10,
            Base::Hexadecimal => 16,
        }
    }
}

// The value of a digit or a letter, and 36 for any other byte.
fn digit_value(byte: u8) -> u8
    ensures { result ≡ digit_value byte }
{
    match byte {
        b'0'..=b'9' => byte - b'0',
        b'A'..=b'Z' => byte - b'A' + 10,
        b'a'..=b'z' => byte - b'a' + 10,
        _ => 36,
    }
}

/// A digit of the base.
pub(crate) fn is_digit(base: Base, byte: u8) -> bool
    ensures { result ≡ is_digit_of (base_seen base) byte }
{
    digit_value(byte) < base.radix()
}

/// How many digits stand at the front of the text.
pub(crate) fn digits_len(base: Base, text: &[u8]) -> usize
    ensures count { result ≡ prefix_len (is_digit_of (base_seen base)) text.now }
    ensures within { result ≤ length text.now }
{
    text.iter()
        .take_while(|&&byte| is_digit(base, byte))
        .count()
}

/// The number that the digits write, if it is below 2^64.
pub(crate) fn number(base: Base, digits: &[u8]) -> Option<u64>
    ensures { MatchOption result
        (2 ^ 64 ≤ number (base_seen base) digits.now)
        (λ value. value ≡ number (base_seen base) digits.now) }
{
    let mut value: u64 = 0;
    let mut rest = digits;
    'digits: while let Some((&byte, others)) = rest.split_first() {
        value = behind_digit(value, base, byte)?;
        rest = others;
    }
    Some(value)
}

// The number with one digit more at its end, if it is below 2^64.
fn behind_digit(value: u64, base: Base, byte: u8) -> Option<u64>
    ensures { MatchOption result
        (2 ^ 64 ≤ value * radix (base_seen base) + digit_value byte)
        (λ next. next ≡ value * radix (base_seen base) + digit_value byte) }
{
    value
        .checked_mul(u64::from(base.radix()))?
        .checked_add(u64::from(digit_value(byte)))
}
