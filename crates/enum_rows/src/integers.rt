// Integer types without qualifiers and flags, and the kinds that have all numbers of a span (C11 6.7.2.2 p4). Neither the table
// of types nor enumerators are known here.
ghost use Rattle.std.specs.Prelude.{◌≡◌, ◌&&◌, int_le};
ghost use Rattle.vocabulary.specs.declared.int_kind.IntKind.TheVariants as kinds;
ghost use Rattle.enum_rows.specs.Integers.{has_span, integer_of_restricted, integer_with, kind_of_span, only_number, plain_integer};
ghost use Rattle.enum_rows.specs.Enumerations.{wider};

use c_types::Outline;
use node_facts::loaded_kind;
use sparse_model::{IntKind, Restrict};

/// An integer type.
#[derive(Clone, Copy)]
pub struct IntegerType {
    pub kind: IntKind,
    /// The identity of a restricted one.
    pub identity: Option<Restrict>,
}

/// A restricted integer type.
#[derive(Clone, Copy, Debug, PartialEq, Eq)]
pub struct RestrictedType {
    pub kind: IntKind,
    pub identity: Restrict,
}

impl IntegerType {
    /// One that isn't restricted.
    pub fn plain(kind: IntKind) -> IntegerType
        ensures { result ≡ plain_integer kind }
    {
        IntegerType {
            kind,
            identity: None,
        }
    }

    /// One that is.
    pub fn restricted(restricted: RestrictedType) -> IntegerType
        ensures { result ≡ integer_of_restricted restricted }
    {
        IntegerType {
            kind: restricted.kind,
            identity: Some(restricted.identity),
        }
    }

    /// What is loaded of a place of a type with this outline, if that is one of integers. A place of some bits has a width.
    pub fn loaded(width: Option<u32>, outline: Outline) -> Option<IntegerType>
        ensures { result ≡ integer_with width outline }
    {
        match outline {
            Outline::Integer(kind) => Some(IntegerType::plain(loaded_kind(width, kind))),
            Outline::Restricted(kind, identity) => Some(IntegerType {
                kind,
                identity: Some(identity),
            }),
            _ => None,
        }
    }
}

/// Numbers between two ends, both among them.
#[derive(Clone, Copy)]
pub struct Span {
    pub least: i128,
    pub greatest: i128,
}

const INT: Span = Span {
    least: -2147483648,
    greatest: 2147483647,
};

const UNSIGNED_INT: Span = Span {
    least: 0,
    greatest: 4294967295,
};

const LONG: Span = Span {
    least: -9223372036854775808,
    greatest: 9223372036854775807,
};

const UNSIGNED_LONG: Span = Span {
    least: 0,
    greatest: 18446744073709551615,
};

impl Span {
    /// One number.
    pub fn only(number: i128) -> Span
        ensures { result ≡ only_number number }
    {
        Span {
            least: number,
            greatest: number,
        }
    }

    /// With one more number.
    pub fn with(self, number: i128) -> Span
        ensures { result ≡ wider self number }
    {
        let least = if number < self.least {
            number
        } else {
            self.least
        };
        let greatest = if self.greatest < number {
            number
        } else {
            self.greatest
        };
        Span { least, greatest }
    }

    // Whether the other span has all its numbers.
    fn is_within(self, other: Span) -> bool
        ensures { result ≡ (int_le other.least self.least && int_le self.greatest other.greatest) }
    {
        other.least <= self.least && self.greatest <= other.greatest
    }

    /// Whether int has all its numbers.
    pub fn is_int(self) -> bool
        ensures { result ≡ has_span kinds.Int self }
    {
        self.is_within(INT)
    }

    /// The first of int, unsigned int, long and unsigned long that has all its numbers: our choice.
    pub fn first_kind(self) -> Option<IntKind>
        ensures { result ≡ kind_of_span self }
    {
        if self.is_within(INT) {
            Some(IntKind::Int)
        } else if self.is_within(UNSIGNED_INT) {
            Some(IntKind::UInt)
        } else if self.is_within(LONG) {
            Some(IntKind::Long)
        } else if self.is_within(UNSIGNED_LONG) {
            Some(IntKind::ULong)
        } else {
            None
        }
    }
}
