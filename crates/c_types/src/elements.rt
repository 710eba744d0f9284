// What types are made of for their sizes: an array is so many of what stands at its innermost level, so the
// size of an array of many levels is looked up like any other, and one whose element is told later has it then.
ghost use Rattle.std.specs.Prelude.{◌≡◌, ◌<◌, ◌≤◌, ◌^◌, ◌+◌, length, max};
ghost use Rattle.meaning_layout.specs.Repeats.{times_more};
ghost use Rattle.meaning_layout.specs.Sizes.{Told, extent_of};
ghost use Rattle.c_types.specs.Elements.{AreElements, aggregate_innermost, count_in, elements_extent, integer_innermost, most_in, once_of, repeats_in, single_in};
ghost use Rattle.c_types.specs.Rows.{AreRows, IsInside, form_seen, type_numbered, types_of};

use crate::form::Form;
use crate::rows::Rows;
use body_layout::MOST_BYTES;
use sparse_model::IntKind;

/// A type that is no array of a known length.
#[derive(Clone, Copy)]
pub enum Single {
    /// An integer or a pointer of so many bytes, which are its alignment too.
    Scalar(u64),
    /// Void, a function, or an array whose length isn't known.
    Sizeless,
    /// The token that names the aggregate first, and whether it is a union.
    Aggregate(u32, bool),
}

/// The same, but for the token.
#[derive(Clone, Copy)]
pub enum Innermost {
    OneByte,
    TwoBytes,
    FourBytes,
    EightBytes,
    Sizeless,
    Structure,
    Union,
}

/// So many of one type, in arrays within each other, in twelve bytes. Numbers are counted up to one more than an
/// object may have bytes.
#[derive(Clone, Copy)]
pub struct Elements {
    /// The token that names the aggregate first, if it is one.
    pub token: u32,
    /// The most that one of the arrays has, and 0 without one, in two parts: it has 41 bits at most.
    pub most_low: u32,
    pub most_high: u16,
    /// Whether there are none. Else there are as many as one of the arrays has at most, or one without an array.
    pub is_empty: bool,
    pub of: Innermost,
}

impl Elements {
    /// One, in no array.
    fn one(of: Innermost, token: u32) -> Elements
        ensures { result ≡ once_of of token }
    {
        Elements {
            token,
            most_low: 0,
            most_high: 0,
            is_empty: false,
            of,
        }
    }

    /// The most that one of the arrays has, and 0 without one.
    pub fn most(self) -> u64
        ensures { result ≡ most_in self }
    {
        u64::from(self.most_high) << 32 | u64::from(self.most_low)
    }

    /// How many there are.
    pub fn count(self) -> u64
        ensures count { result ≡ count_in self }
        ensures few { result ≤ max 1 (most_in self) }
    {
        if self.is_empty { 0 } else { self.most().max(1) }
    }

    /// What stands at the innermost level.
    pub fn single(self) -> Single
        ensures { result ≡ single_in self }
    {
        match self.of {
            Innermost::OneByte => Single::Scalar(1),
            Innermost::TwoBytes => Single::Scalar(2),
            Innermost::FourBytes => Single::Scalar(4),
            Innermost::EightBytes => Single::Scalar(8),
            Innermost::Sizeless => Single::Sizeless,
            Innermost::Structure => Single::Aggregate(self.token, false),
            Innermost::Union => Single::Aggregate(self.token, true),
        }
    }

    /// An array of so many of them.
    fn times(self, length: u64) -> Elements
        requires { most_in self ≤ 2 ^ 40 + 1 }
        ensures repeats { repeats_in result ≡ times_more length (repeats_in self) }
        ensures single { single_in result ≡ single_in self }
        ensures narrow { most_in result ≤ 2 ^ 40 + 1 }
    {
        let count = length.saturating_mul(self.count()).min(MOST_BYTES + 1);
        let most = self.most().max(count);
        Elements {
            token: self.token,
            most_low: (most % (1 << 32)) as u32,
            most_high: (most / (1 << 32)) as u16,
            is_empty: count == 0,
            of: self.of,
        }
    }
}

// An integer of this kind.
fn integer(kind: IntKind) -> Innermost
    ensures { result ≡ integer_innermost kind }
{
    match kind {
        IntKind::Bool => Innermost::OneByte,
        IntKind::Char => Innermost::OneByte,
        IntKind::SChar => Innermost::OneByte,
        IntKind::UChar => Innermost::OneByte,
        IntKind::Short => Innermost::TwoBytes,
        IntKind::UShort => Innermost::TwoBytes,
        IntKind::Int => Innermost::FourBytes,
        IntKind::UInt => Innermost::FourBytes,
        IntKind::Long => Innermost::EightBytes,
        IntKind::ULong => Innermost::EightBytes,
        IntKind::LLong => Innermost::EightBytes,
        IntKind::ULLong => Innermost::EightBytes,
    }
}

// A structure or a union.
fn aggregate(is_union: bool) -> Innermost
    ensures { result ≡ aggregate_innermost is_union }
{
    if is_union {
        Innermost::Union
    } else {
        Innermost::Structure
    }
}

impl Rows {
    /// What a type is made of.
    pub fn elements(&self, number: u32) -> Elements
        requires rows { AreRows self.now.rows.entries }
        requires known { number < length (types_of self.now.rows.entries) }
        ensures { (told : Told) → elements_extent told result ≡ extent_of told (type_numbered (types_of self.now.rows.entries) number) }
    {
        self.row(number).1.elements
    }

    /// What a type of this form is made of.
    pub fn elements_of(&self, form: Form) -> Elements
        requires rows { AreRows self.now.rows.entries }
        requires inside { IsInside (types_of self.now.rows.entries) form }
        ensures { AreElements (form_seen (types_of self.now.rows.entries) form) result }
    {
        match form {
            Form::Array(element, count) => self.row(element).1.elements.times(count),
            Form::Integer(kind) => Elements::one(integer(kind), 0),
            Form::Restricted(kind, _) => Elements::one(integer(kind), 0),
            // so many bytes has a pointer
            Form::Pointer(_) => Elements::one(Innermost::EightBytes, 0),
            Form::Aggregate(token, is_union) => Elements::one(aggregate(is_union), token),
            Form::Void => Elements::one(Innermost::Sizeless, 0),
            Form::OpenArray(_) => Elements::one(Innermost::Sizeless, 0),
            Form::Function(_, _) => Elements::one(Innermost::Sizeless, 0),
            Form::Parameter(_, _) => Elements::one(Innermost::Sizeless, 0),
        }
    }
}
