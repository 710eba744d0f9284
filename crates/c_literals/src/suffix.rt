//! The suffixes of integer constants, and the kinds that they leave.
ghost use Rattle.std.specs.Prelude.{◌≡◌, option_map, pos};
ghost use Rattle.meaning_types.specs.Ranges.{greatest};
ghost use Rattle.meaning_literals.specs.Suffixes.{UL, ULL, is_spelling, suffix_of};
ghost use Rattle.meaning_literals.specs.Kinds.{decimal_kinds, first_that_holds, kinds_of, octal_kinds};
ghost use Rattle.c_literals.specs.Seen.{base_seen, suffix_seen};

use crate::numbers::Base;
use sparse_model::IntKind;

/// A suffix of an integer constant (C11 6.4.4.1 p1).
#[derive(Clone, Copy, Debug, PartialEq, Eq)]
pub(crate) enum Suffix {
    None,
    U,
    L,
    UL,
    LL,
    ULL,
}

/// The suffix that is spelled so.
pub(crate) fn read_suffix(text: &[u8]) -> Option<Suffix>
    ensures { option_map suffix_seen result ≡ suffix_of text.now }
{
    if text.is_empty() {
        Some(Suffix::None)
    } else if text == b"u".as_slice() || text == b"U".as_slice() {
        Some(Suffix::U)
    } else if text == b"l".as_slice() || text == b"L".as_slice() {
        Some(Suffix::L)
    } else if is_unsigned_long(text) {
        Some(Suffix::UL)
    } else if text == b"ll".as_slice() || text == b"LL".as_slice() {
        Some(Suffix::LL)
    } else if is_unsigned_long_long(text) {
        Some(Suffix::ULL)
    } else {
        None
    }
}

fn is_unsigned_long(text: &[u8]) -> bool
    ensures { result ≡ is_spelling UL text.now }
{
    text == b"ul".as_slice()
        || text == b"uL".as_slice()
        || text == b"Ul".as_slice()
        || text == b"UL".as_slice()
        || text == b"lu".as_slice()
        || text == b"lU".as_slice()
        || text == b"Lu".as_slice()
        || text == b"LU".as_slice()
}

fn is_unsigned_long_long(text: &[u8]) -> bool
    ensures { result ≡ is_spelling ULL text.now }
{
    text == b"ull".as_slice()
        || text == b"uLL".as_slice()
        || text == b"Ull".as_slice()
        || text == b"ULL".as_slice()
        || text == b"llu".as_slice()
        || text == b"llU".as_slice()
        || text == b"LLu".as_slice()
        || text == b"LLU".as_slice()
}

/// The first kind that holds the value, of those that the base and the suffix leave (6.4.4.1 p5).
pub(crate) fn first_kind(base: Base, suffix: Suffix, value: u64) -> Option<IntKind>
    ensures { result ≡ first_that_holds value (kinds_of (base_seen base) (suffix_seen suffix)) }
{
    let mut kinds = kinds_of(base, suffix);
    'kinds: while let Some((&kind, others)) = kinds.split_first() {
        if value <= greatest(kind) {
            return Some(kind);
        }
        kinds = others;
    }
    None
}

// The kinds in the order in which they are tried.
fn kinds_of(base: Base, suffix: Suffix) -> &'static [IntKind]
    ensures { result.now ≡ kinds_of (base_seen base) (suffix_seen suffix) }
{
    match base {
        Base::Decimal => decimal_kinds(suffix),
        Base::Octal | Base::Hexadecimal => octal_kinds(suffix),
    }
}

fn decimal_kinds(suffix: Suffix) -> &'static [IntKind]
    ensures { result.now ≡ decimal_kinds (suffix_seen suffix) }
{
    match suffix {
        Suffix::None => &[IntKind::Int, IntKind::Long, IntKind::LLong],
        Suffix::U => &[IntKind::UInt, IntKind::ULong, IntKind::ULLong],
        Suffix::L => &[IntKind::Long, IntKind::LLong],
        Suffix::UL => &[IntKind::ULong, IntKind::ULLong],
        Suffix::LL => &[IntKind::LLong],
        Suffix::ULL => &[IntKind::ULLong],
    }
}

fn octal_kinds(suffix: Suffix) -> &'static [IntKind]
    ensures { result.now ≡ octal_kinds (suffix_seen suffix) }
{
    match suffix {
        Suffix::None => &[
            IntKind::Int,
            IntKind::UInt,
            IntKind::Long,
            IntKind::ULong,
            IntKind::LLong,
            IntKind::ULLong,
        ],
        Suffix::U => &[IntKind::UInt, IntKind::ULong, IntKind::ULLong],
        Suffix::L => &[
            IntKind::Long,
            IntKind::ULong,
            IntKind::LLong,
            IntKind::ULLong,
        ],
        Suffix::UL => &[IntKind::ULong, IntKind::ULLong],
        Suffix::LL => &[IntKind::LLong, IntKind::ULLong],
        Suffix::ULL => &[IntKind::ULLong],
    }
}

// The greatest value of a kind (5.2.4.2.1), where long has 64 bits and char is signed.
fn greatest(kind: IntKind) -> u64
    ensures { pos result ≡ greatest kind }
{
    match kind {
        IntKind::Bool => 1,
        IntKind::Char | IntKind::SChar => 127,
        IntKind::UChar => 255,
        IntKind::Short => 32767,
        IntKind::UShort => 65535,
        IntKind::Int => 2147483647,
        IntKind::UInt => 4294967295,
        IntKind::Long | IntKind::LLong => 9223372036854775807,
        IntKind::ULong | IntKind::ULLong => 18446744073709551615,
    }
}
