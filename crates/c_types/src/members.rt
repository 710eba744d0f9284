// What a name names in an aggregate: a member that is declared there, or one of an anonymous structure or union in it. Which names
// there are isn't known here.
ghost use Rattle.std.specs.Prelude.{◌≡◌, ◌<◌, IfNone, IfSome, Some, false, length};
ghost use Rattle.meaning_layout.specs.Members.{bits_behind, first_bit_in, own_member};
ghost use Rattle.meaning_layout.specs.Telling.{or_incomplete};
ghost use Rattle.c_types.specs.Layouts.{told_kept};
ghost use Rattle.c_types.specs.Members.{anonymous_around, anonymous_type, bits_around, found_around, found_seen, inner_space, is_aggregate, member_declared};
ghost use Rattle.c_types.specs.Rows.{AreRows, type_numbered, types_of};

use crate::bodies::Member;
use crate::layouts::Layouts;
use crate::rows::Rows;
use sparse_model::{Space, TypeId};

/// What a name names in a structure or a union (C11 6.5.2.3 p3).
#[derive(Clone, Copy, Debug, PartialEq, Eq)]
pub struct FoundMember {
    /// Which of the aggregate's own members it is, or stands in as a member of anonymous ones, from 0 on.
    pub place: u32,
    /// How many bits lie before it in that one; none where an anonymous one around it has no layout.
    pub bits: Option<u64>,
    /// Its type as it is declared.
    pub of: TypeId,
    /// How many bits a bit-field has.
    pub width: Option<u32>,
    /// What the anonymous members around it add to its type.
    pub is_const: bool,
    pub is_volatile: bool,
    pub noderef: bool,
    pub space: Space,
}

/// An anonymous structure or union as a member of an aggregate around it: of the next one, or of one further out.
#[derive(Clone, Copy)]
pub struct Anonymous {
    pub number: u32,
    pub is_union: bool,
    /// Which of that aggregate's own members it is, or stands in.
    pub place: u32,
    /// How many bits lie before it in that one; none where one of those between has no layout.
    pub bits: Option<u64>,
    /// What it and those between add to the types of its members.
    pub is_const: bool,
    pub is_volatile: bool,
    pub noderef: bool,
    pub space: Space,
}

/// The bits of the largest object: 2^43.
const MOST_BITS: u64 = 1 << 43;

// So many bits further on, unless that is further than an object has.
fn bits_behind(bit: Option<u64>, bits: Option<u64>) -> Option<u64>
    ensures { result ≡ bits_behind bit bits }
{
    match (bit, bits) {
        (Some(bit), Some(bits)) => sum_of_bits(bit, bits),
        (Some(_), None) => None,
        (None, _) => None,
    }
}

fn sum_of_bits(bit: u64, bits: u64) -> Option<u64>
    ensures { result ≡ bits_behind (Some bit) (Some bits) }
{
    if bit <= MOST_BITS && bits <= MOST_BITS - bit {
        Some(bit + bits)
    } else {
        None
    }
}

// The inner space, if it is one.
fn inner_space(outer: Space, inner: Space) -> Space
    ensures { result ≡ inner_space outer inner }
{
    match inner {
        Space::None => outer,
        Space::Number(number) => Space::Number(number),
        Space::Named(name) => Space::Named(name),
    }
}

impl FoundMember {
    /// Where it begins in an aggregate, if that has a layout and such a member.
    pub fn bits_in(&self, layouts: &Layouts, aggregate: u32, is_union: bool) -> Option<u64>
        ensures { result ≡ bits_behind (first_bit_in self.now.place (or_incomplete (told_kept layouts.now.kept.entries aggregate is_union))) self.now.bits }
    {
        bits_behind(layouts.bit_of(aggregate, is_union, self.place), self.bits)
    }

    /// A member of an anonymous one as a member of the aggregate around.
    pub fn around(self, layouts: &Layouts, anonymous: Anonymous) -> FoundMember
        ensures { result ≡ found_around (told_kept layouts.now.kept.entries) anonymous self }
    {
        FoundMember {
            place: anonymous.place,
            bits: anonymous.bits_around(layouts, self.place, self.bits),
            of: self.of,
            width: self.width,
            is_const: anonymous.is_const || self.is_const,
            is_volatile: anonymous.is_volatile || self.is_volatile,
            noderef: anonymous.noderef || self.noderef,
            space: inner_space(anonymous.space, self.space),
        }
    }
}

impl Anonymous {
    // How many bits lie before one of its members in the aggregate around, with so many before it in the own member at this place.
    fn bits_around(&self, layouts: &Layouts, place: u32, bits: Option<u64>) -> Option<u64>
        ensures { result ≡ bits_around (told_kept layouts.now.kept.entries) self.now place bits }
    {
        let own = layouts.bit_of(self.number, self.is_union, place);
        bits_behind(self.bits, bits_behind(own, bits))
    }

    /// It as a member of an aggregate further out, in which the one around it stands so.
    pub fn around(self, layouts: &Layouts, outer: Anonymous) -> Anonymous
        ensures { result ≡ anonymous_around (told_kept layouts.now.kept.entries) outer self }
    {
        Anonymous {
            number: self.number,
            is_union: self.is_union,
            place: outer.place,
            bits: outer.bits_around(layouts, self.place, self.bits),
            is_const: outer.is_const || self.is_const,
            is_volatile: outer.is_volatile || self.is_volatile,
            noderef: outer.noderef || self.noderef,
            space: inner_space(outer.space, self.space),
        }
    }
}

impl Rows {
    /// A member with a name.
    pub fn own_member(&self, place: u32, member: Member) -> FoundMember
        requires rows { AreRows self.now.rows.entries }
        requires known { member.of.0 < length (types_of self.now.rows.entries) }
        ensures seen { found_seen (types_of self.now.rows.entries) result ≡ own_member place (member_declared (types_of self.now.rows.entries) member) }
        ensures of { result.of ≡ member.of }
    {
        FoundMember {
            place,
            bits: Some(0),
            of: member.of,
            width: self.field_width(member.of.0, member.width),
            is_const: false,
            is_volatile: false,
            noderef: false,
            space: Space::None,
        }
    }

    /// A member without a name and a width, if it is a structure or a union.
    pub fn anonymous(&self, place: u32, number: u32) -> Option<Anonymous>
        requires rows { AreRows self.now.rows.entries }
        requires known { number < length (types_of self.now.rows.entries) }
        ensures some { IfSome result (λ made. (type_numbered (types_of self.now.rows.entries) number ≡ anonymous_type made) × (made.place ≡ place) × (made.bits ≡ Some 0)) }
        ensures none { IfNone result (is_aggregate (type_numbered (types_of self.now.rows.entries) number) ≡ false) }
    {
        let (aggregate, is_union) = self.outline(number).aggregate()?;
        let shape = self.outer_shape(number);
        Some(Anonymous {
            number: aggregate,
            is_union,
            place,
            bits: Some(0),
            is_const: shape.is_const,
            is_volatile: shape.is_volatile,
            noderef: shape.noderef,
            space: shape.space,
        })
    }
}
