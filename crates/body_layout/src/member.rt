// A member as its layout sees it.
ghost use Rattle.std.specs.Prelude.{◌≡◌, ◌<◌, ◌≤◌, ◌^◌};
ghost use Rattle.meaning_layout.specs.Placing.{field_from, field_start};

use crate::multiple::next_multiple;

/// The most bytes that an object may have.
pub const MOST_BYTES: u64 = 1 << 40;

/// A member of a complete type, or an array without a length behind all others, which has the size 0.
#[derive(Clone, Copy)]
pub struct PlacedMember {
    /// Of its type, in bytes.
    pub size: u64,
    /// Of its type, in bytes.
    pub align: u64,
    /// Of a bit-field, in bits.
    pub width: Option<u32>,
    /// Whether it is no unnamed bit-field.
    pub named: bool,
    /// The alignment in bytes that is written, or 1.
    pub written: u32,
}

impl PlacedMember {
    ghost use Rattle.meaning_layout.specs.Bodies.{given_align, member_align};
    ghost use Rattle.meaning_layout.specs.Placing.{bits_of, first_bit};
    ghost use Rattle.body_layout.specs.Seen.{IsPlaced, member_seen};

    /// Its alignment in a body: that of its type, unless the body is packed, or a larger one that is written.
    pub fn align_in(self, packed: bool) -> u64
        ensures { result ≡ member_align packed (member_seen self) }
    {
        let own = if packed { 1 } else { self.align };
        own.max(u64::from(self.written))
    }

    /// The alignment that it gives to its body; an unnamed bit-field gives none.
    pub fn gives_align(self, packed: bool) -> u64
        ensures { result ≡ given_align packed (member_seen self) }
    {
        if self.named { self.align_in(packed) } else { 1 }
    }

    /// How many bits it has.
    pub fn bits(self) -> u64
        requires { IsPlaced self }
        ensures bits { result ≡ bits_of (member_seen self) }
        ensures few { result ≤ 2 ^ 43 }
    {
        match self.width {
            None => 8 * self.size,
            Some(width) => u64::from(width),
        }
    }

    /// Its first bit in a structure in which this bit is the next.
    pub fn first_bit(self, packed: bool, bit: u64) -> u64
        requires placed { IsPlaced self }
        requires bit { bit ≤ 2 ^ 43 }
        ensures first { result ≡ first_bit packed (member_seen self) bit }
        ensures few { result ≤ 2 ^ 45 }
    {
        match self.width {
            None => next_multiple(8 * self.align_in(packed), bit),
            Some(width) => field_from(
                8 * self.size,
                u64::from(width),
                field_start(self.written, bit),
            ),
        }
    }
}

// The next bit for a bit-field with this written alignment.
fn field_start(written: u32, bit: u64) -> u64
    requires some { 0 < written }
    requires bit { bit ≤ 2 ^ 43 }
    ensures start { result ≡ field_start written bit }
    ensures few { result ≤ 2 ^ 44 }
{
    if written == 1 {
        bit
    } else {
        next_multiple(8 * u64::from(written), bit)
    }
}

// Where a bit-field lies that may begin at this bit: there, unless it would cross a unit.
fn field_from(unit: u64, width: u64, bit: u64) -> u64
    requires some { 0 < unit }
    requires unit { unit ≤ 2 ^ 43 }
    requires width { width < 2 ^ 32 }
    requires bit { bit ≤ 2 ^ 44 }
    ensures from { result ≡ field_from unit width bit }
    ensures few { result ≤ 2 ^ 45 }
{
    if width > 0 && bit / unit == (bit + (width - 1)) / unit {
        bit
    } else {
        next_multiple(unit, bit)
    }
}
