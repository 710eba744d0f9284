// What kinds of integers become before an operator takes them (C11 6.3.1).
ghost use Rattle.std.specs.Prelude.{◌≡◌};
ghost use Rattle.meaning_types.specs.Ranges.{width};
ghost use Rattle.meaning_types.specs.Equality.{kind_number};
ghost use Rattle.meaning_types.specs.Conversions.{common_kind, common_kind_of_signs, conversion_rank, higher_kind, is_signed, promoted, unsigned_of, usual};

use sparse_model::IntKind;

/// The number of a kind.
pub fn kind_number(kind: IntKind) -> u32
    ensures { result ≡ kind_number kind }
{
    match kind {
        IntKind::Bool => 0,
        IntKind::Char => 1,
        IntKind::SChar => 2,
        IntKind::UChar => 3,
        IntKind::Short => 4,
        IntKind::UShort => 5,
        IntKind::Int => 6,
        IntKind::UInt => 7,
        IntKind::Long => 8,
        IntKind::ULong => 9,
        IntKind::LLong => 10,
        IntKind::ULLong => 11,
    }
}

/// The rank of a kind (C11 6.3.1.1 p1).
pub fn rank(kind: IntKind) -> u32
    ensures { result ≡ conversion_rank kind }
{
    match kind {
        IntKind::Bool => 0,
        IntKind::Char => 1,
        IntKind::SChar => 1,
        IntKind::UChar => 1,
        IntKind::Short => 2,
        IntKind::UShort => 2,
        IntKind::Int => 3,
        IntKind::UInt => 3,
        IntKind::Long => 4,
        IntKind::ULong => 4,
        IntKind::LLong => 5,
        IntKind::ULLong => 5,
    }
}

/// Whether a kind holds numbers below 0.
pub fn has_sign(kind: IntKind) -> bool
    ensures { result ≡ is_signed kind }
{
    match kind {
        IntKind::Bool => false,
        IntKind::Char => true,
        IntKind::SChar => true,
        IntKind::UChar => false,
        IntKind::Short => true,
        IntKind::UShort => false,
        IntKind::Int => true,
        IntKind::UInt => false,
        IntKind::Long => true,
        IntKind::ULong => false,
        IntKind::LLong => true,
        IntKind::ULLong => false,
    }
}

/// How many bits tell a number of a kind from others, a sign among them (C11 6.2.6.2 p6).
pub fn bits(kind: IntKind) -> u32
    ensures { result ≡ width kind }
{
    match kind {
        IntKind::Bool => 1,
        IntKind::Char => 8,
        IntKind::SChar => 8,
        IntKind::UChar => 8,
        IntKind::Short => 16,
        IntKind::UShort => 16,
        IntKind::Int => 32,
        IntKind::UInt => 32,
        IntKind::Long => 64,
        IntKind::ULong => 64,
        IntKind::LLong => 64,
        IntKind::ULLong => 64,
    }
}

// The unsigned kind that goes with a kind (C11 6.2.5 p6).
fn without_sign(kind: IntKind) -> IntKind
    ensures { result ≡ unsigned_of kind }
{
    match kind {
        IntKind::Bool => IntKind::Bool,
        IntKind::Char => IntKind::UChar,
        IntKind::SChar => IntKind::UChar,
        IntKind::UChar => IntKind::UChar,
        IntKind::Short => IntKind::UShort,
        IntKind::UShort => IntKind::UShort,
        IntKind::Int => IntKind::UInt,
        IntKind::UInt => IntKind::UInt,
        IntKind::Long => IntKind::ULong,
        IntKind::ULong => IntKind::ULong,
        IntKind::LLong => IntKind::ULLong,
        IntKind::ULLong => IntKind::ULLong,
    }
}

/// What a kind is promoted to (C11 6.3.1.1 p2).
pub fn promoted_kind(kind: IntKind) -> IntKind
    ensures { result ≡ promoted kind }
{
    match kind {
        IntKind::Bool => IntKind::Int,
        IntKind::Char => IntKind::Int,
        IntKind::SChar => IntKind::Int,
        IntKind::UChar => IntKind::Int,
        IntKind::Short => IntKind::Int,
        IntKind::UShort => IntKind::Int,
        IntKind::Int => IntKind::Int,
        IntKind::UInt => IntKind::UInt,
        IntKind::Long => IntKind::Long,
        IntKind::ULong => IntKind::ULong,
        IntKind::LLong => IntKind::LLong,
        IntKind::ULLong => IntKind::ULLong,
    }
}

// The common kind of a signed and an unsigned one.
fn common_of_signs(signed: IntKind, unsigned: IntKind) -> IntKind
    ensures { result ≡ common_kind_of_signs signed unsigned }
{
    if rank(signed) <= rank(unsigned) {
        unsigned
    } else if bits(unsigned) < bits(signed) {
        signed
    } else {
        without_sign(signed)
    }
}

// The common kind of two promoted ones.
fn common(kind: IntKind, other: IntKind) -> IntKind
    ensures { result ≡ common_kind kind other }
{
    match (has_sign(kind), has_sign(other)) {
        (true, false) => common_of_signs(kind, other),
        (false, true) => common_of_signs(other, kind),
        (true, true) => higher(kind, other),
        (false, false) => higher(kind, other),
    }
}

// The kind of higher rank.
fn higher(kind: IntKind, other: IntKind) -> IntKind
    ensures { result ≡ higher_kind kind other }
{
    if rank(other) <= rank(kind) {
        kind
    } else {
        other
    }
}

/// What two kinds become together (C11 6.3.1.8).
pub fn usual_kind(kind: IntKind, other: IntKind) -> IntKind
    ensures { result ≡ usual kind other }
{
    common(promoted_kind(kind), promoted_kind(other))
}
