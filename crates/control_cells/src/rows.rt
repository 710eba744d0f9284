// The rows of cells: where control goes, said by the parts of a cell.
ghost use Rattle.std.specs.Prelude.{◌≡◌, ℕ, ◌<◌, List, if◌then◌else◌};
ghost use Rattle.sparse_model.specs.declared.ids.NameId.{NameId as Name};
ghost use Rattle.meaning_control.specs.Rows as meaning;
ghost use Rattle.control_cells.specs.Seen.{kind_seen, may_have_moment, way_seen};

use crate::kind::ControlKind;

/// A way in a cell.
#[derive(Clone, Copy, Debug, PartialEq, Eq)]
pub enum Way {
    /// Into the part at this place.
    Into(usize),
    /// To the cell's own moment.
    Moment,
    /// Out of the cell, which is left as true or false.
    Out(bool),
}

// Into the next of so many parts, or else this way.
fn next_or(parts: usize, place: usize, last: Way) -> Way
    requires { place < parts }
    ensures { way_seen result ≡ meaning.next_or parts place (way_seen last) }
{
    if place + 1 < parts {
        Way::Into(place + 1)
    } else {
        last
    }
}

// Behind the first part, and behind each other one.
fn first_or(place: usize, first: Way, other: Way) -> Way
    ensures { way_seen result ≡ meaning.first_or place (way_seen first) (way_seen other) }
{
    if place == 0 { first } else { other }
}

// One way where a part was left as true, the other where it was left as false.
fn either(outcome: bool, one: Way, other: Way) -> Way
    ensures { way_seen result ≡ (if outcome then way_seen one else way_seen other) }
{
    if outcome { one } else { other }
}

// Behind the parts of a `for`.
fn behind_for(place: usize, outcome: bool) -> Way
    ensures { way_seen result ≡ meaning.behind_for place outcome }
{
    match place {
        0 => Way::Moment,
        1 => either(outcome, Way::Into(3), Way::Out(true)),
        2 => Way::Moment,
        _ => Way::Into(2),
    }
}

/// Where control goes when the part at a place was left so.
pub fn behind(kind: ControlKind, parts: usize, place: usize, outcome: bool) -> Way
    requires { place < parts }
    ensures { (names : Name → List ℕ) (token : ℕ) → way_seen result ≡ meaning.behind (kind_seen names token kind) parts place outcome }
{
    match kind {
        ControlKind::Value(_) => next_or(parts, place, Way::Moment),
        ControlKind::Calling(_, _) => next_or(parts, place, Way::Moment),
        ControlKind::Not => Way::Out(!outcome),
        ControlKind::And => first_or(
            place,
            either(outcome, Way::Into(1), Way::Out(false)),
            Way::Out(outcome),
        ),
        ControlKind::Or => first_or(
            place,
            either(outcome, Way::Out(true), Way::Into(1)),
            Way::Out(outcome),
        ),
        ControlKind::Conditional => first_or(
            place,
            either(outcome, Way::Into(1), Way::Into(2)),
            Way::Out(outcome),
        ),
        ControlKind::Expect => first_or(
            place,
            either(outcome, Way::Into(1), Way::Into(2)),
            Way::Out(place == 1),
        ),
        ControlKind::If => first_or(
            place,
            either(outcome, Way::Into(1), Way::Into(2)),
            Way::Out(true),
        ),
        ControlKind::Switch(_) => first_or(place, Way::Moment, Way::Out(true)),
        ControlKind::While => first_or(
            place,
            either(outcome, Way::Into(1), Way::Out(true)),
            Way::Moment,
        ),
        ControlKind::Do(_) => first_or(
            place,
            Way::Moment,
            either(outcome, Way::Into(0), Way::Out(true)),
        ),
        ControlKind::For(_) => behind_for(place, outcome),
        ControlKind::Return => Way::Moment,
        _ => next_or(parts, place, Way::Out(outcome)),
    }
}

/// Whether a cell with so many parts may have a moment.
pub fn has_moment(kind: ControlKind, parts: usize) -> bool
    ensures { (names : Name → List ℕ) (token : ℕ) → result ≡ may_have_moment (kind_seen names token kind) parts }
{
    match kind {
        ControlKind::Value(_) => parts > 0,
        ControlKind::Calling(_, _) => true,
        ControlKind::Switch(_) => true,
        ControlKind::While => true,
        ControlKind::Do(_) => true,
        ControlKind::For(_) => true,
        ControlKind::Return => true,
        _ => false,
    }
}
