// Qualifiers and flags of a place, which are added to a member in it. Types aren't known here.
ghost use Rattle.std.specs.Prelude.{◌≡◌, true};
ghost use Rattle.meaning_types.specs.Marks.{both, later_space, with_flags};
ghost use Rattle.c_types.specs.Table.{space_of};
ghost use Rattle.member_rows.specs.Marks.{flags_around, flags_seen, marks_of_level, no_place_marks, qualifiers_around, qualifiers_seen};

use c_types::{FoundMember, OuterShape};
use sparse_model::Space;

/// Qualifiers and flags of a place.
#[derive(Clone, Copy, Debug, PartialEq, Eq)]
pub struct PlaceMarks {
    pub is_const: bool,
    pub is_volatile: bool,
    pub noderef: bool,
    pub space: Space,
}

/// The later space, if it is one.
pub fn later_space(earlier: Space, later: Space) -> Space
    ensures { space_of result ≡ later_space (space_of earlier) (space_of later) }
{
    match later {
        Space::None => earlier,
        Space::Number(number) => Space::Number(number),
        Space::Named(name) => Space::Named(name),
    }
}

impl PlaceMarks {
    /// Those of an outermost level.
    pub fn of(shape: OuterShape) -> PlaceMarks
        ensures { result ≡ marks_of_level shape }
    {
        PlaceMarks {
            is_const: shape.is_const,
            is_volatile: shape.is_volatile,
            noderef: shape.noderef,
            space: shape.space,
        }
    }

    /// With those of the anonymous members on the way to a member.
    pub fn around(self, found: FoundMember) -> PlaceMarks
        ensures qualifiers { qualifiers_seen result ≡ both (qualifiers_seen self) (qualifiers_around found) }
        ensures flags { flags_seen result ≡ with_flags (flags_seen self) (flags_around found) }
    {
        PlaceMarks {
            is_const: self.is_const || found.is_const,
            is_volatile: self.is_volatile || found.is_volatile,
            noderef: self.noderef || found.noderef,
            space: later_space(self.space, found.space),
        }
    }

    /// Whether there are none.
    pub fn are_none(self) -> bool
        ensures { result ≡ true → self ≡ no_place_marks }
    {
        match self {
            PlaceMarks {
                is_const: false,
                is_volatile: false,
                noderef: false,
                space: Space::None,
            } => true,
            _ => false,
        }
    }
}
