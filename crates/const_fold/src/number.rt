// What becomes of a number in an integer kind.
ghost use Rattle.std.specs.Prelude.{◌≡◌, ◌≤◌, ◌+ℤ◌, ◌-ℤ◌, ◌*ℤ◌, ◌^◌, ℕ, pos, negsuc, neg_ℤ, int_div, unsigned_abs};
ghost use Rattle.meaning_types.specs.Ranges.{greatest};
ghost use Rattle.meaning_constants.specs.Bits.{bits_of_number};
ghost use Rattle.meaning_constants.specs.Numbers.{converted, label_number, number_count, truth_of, wrapped};
ghost use Rattle.const_fold.specs.Ranges.{IsCount};

use c_types::promoted_kind;
use sparse_model::IntKind;

// The numbers of a kind: the greatest, and how many there are.
#[derive(Clone, Copy)]
struct Range {
    greatest: i128,
    count: i128,
}

// The numbers of a kind.
fn range_of(kind: IntKind) -> Range
    ensures greatest { result.greatest ≡ greatest kind }
    ensures count { result.count ≡ number_count kind }
    ensures some { IsCount result.count }
{
    match kind {
        IntKind::Bool => Range {
            greatest: 1,
            count: 2,
        },
        IntKind::Char => Range {
            greatest: 127,
            count: 256,
        },
        IntKind::SChar => Range {
            greatest: 127,
            count: 256,
        },
        IntKind::UChar => Range {
            greatest: 255,
            count: 256,
        },
        IntKind::Short => Range {
            greatest: 32767,
            count: 65536,
        },
        IntKind::UShort => Range {
            greatest: 65535,
            count: 65536,
        },
        IntKind::Int => Range {
            greatest: 2147483647,
            count: 4294967296,
        },
        IntKind::UInt => Range {
            greatest: 4294967295,
            count: 4294967296,
        },
        IntKind::Long => Range {
            greatest: 9223372036854775807,
            count: 18446744073709551616,
        },
        IntKind::ULong => Range {
            greatest: 18446744073709551615,
            count: 18446744073709551616,
        },
        IntKind::LLong => Range {
            greatest: 9223372036854775807,
            count: 18446744073709551616,
        },
        IntKind::ULLong => Range {
            greatest: 18446744073709551615,
            count: 18446744073709551616,
        },
    }
}

/// The number of a kind that differs from this one by a multiple of how many it has (C11 6.3.1.3).
pub fn wrapped(kind: IntKind, number: i128) -> i128
    ensures { result ≡ wrapped kind number }
{
    let range = range_of(kind);
    let rest = number.wrapping_rem_euclid(range.count);
    if rest > range.greatest {
        rest - range.count
    } else {
        rest
    }
}

/// 0 or 1, as a number is 0 or another one (6.3.1.2).
pub fn truth_of(number: i128) -> i128
    ensures { result ≡ truth_of number }
{
    if number == 0 { 0 } else { 1 }
}

/// The number that a number becomes in a kind.
pub fn converted(kind: IntKind, number: i128) -> i128
    ensures { result ≡ converted kind number }
{
    match kind {
        IntKind::Bool => truth_of(number),
        _ => wrapped(kind, number),
    }
}

/// The number that a label has under a switch value whose base has this kind: two labels with one number are equal (6.8.4.2 p5).
pub fn label_number(kind: IntKind, number: i128) -> i128
    ensures { result ≡ label_number kind number }
{
    converted(promoted_kind(kind), number)
}

/// The number modulo 2^64.
pub fn bits_of_number(number: i128) -> u64
    ensures { result ≡ bits_of_number number }
{
    number.rem_euclid(18446744073709551616) as u64
}
