// Where control goes from a cell: behind what is passed where it is entered, and at its own moment.
ghost use Rattle.std.specs.Prelude.{◌≡◌, ℕ, suc, List};
ghost use Rattle.sparse_model.specs.declared.ids.NameId.{NameId as Name};
ghost use Rattle.meaning_control.specs.Rows as meaning;
ghost use Rattle.control_cells.specs.Passing.{goings_seen};
ghost use Rattle.control_cells.specs.Seen.{kind_seen};

use crate::kind::{ControlKind, Outcomes};
use crate::rows::Way;
use sparse_model::NameId;

/// Where control goes.
#[derive(Clone, Copy, Debug, PartialEq, Eq)]
pub enum Goings {
    Nowhere,
    /// On a way in the cell.
    On(Way),
    /// Out of it, in each of these ways.
    Outs(Outcomes),
    /// Out of the innermost body of a loop or a switch.
    Breaks,
    /// Out of the innermost body of a loop, and on in that loop.
    Continues,
    /// To the labels of this name.
    Jumps(NameId),
    /// To the labels of the switch, or past it.
    Picks,
}

/// From the entry of a cell without parts.
pub fn begins_without_parts(kind: ControlKind) -> Goings
    ensures { (names : Name → List ℕ) (token : ℕ) → goings_seen names result ≡ meaning.begins (kind_seen names token kind) 0 }
{
    match kind {
        ControlKind::While => Goings::On(Way::Moment),
        ControlKind::Goto(name) => Goings::Jumps(name),
        ControlKind::Break => Goings::Breaks,
        ControlKind::Continue => Goings::Continues,
        ControlKind::Value(outcomes) => Goings::Outs(outcomes),
        ControlKind::Calling(_, _) => Goings::On(Way::Moment),
        ControlKind::Return => Goings::On(Way::Moment),
        _ => Goings::On(Way::Out(true)),
    }
}

/// From the entry of a cell that has parts.
pub fn begins_with_parts(kind: ControlKind) -> Goings
    ensures { (names : Name → List ℕ) (token others : ℕ) → goings_seen names result ≡ meaning.begins (kind_seen names token kind) (suc others) }
{
    match kind {
        ControlKind::While => Goings::On(Way::Moment),
        ControlKind::Goto(name) => Goings::Jumps(name),
        ControlKind::Break => Goings::Breaks,
        ControlKind::Continue => Goings::Continues,
        _ => Goings::On(Way::Into(0)),
    }
}

/// From its moment.
pub fn onward(kind: ControlKind) -> Goings
    ensures { (names : Name → List ℕ) (token : ℕ) → goings_seen names result ≡ meaning.onward (kind_seen names token kind) }
{
    match kind {
        ControlKind::Value(outcomes) => Goings::Outs(outcomes),
        ControlKind::Calling(_, outcomes) => Goings::Outs(outcomes),
        ControlKind::Switch(_) => Goings::Picks,
        ControlKind::While => Goings::On(Way::Into(0)),
        ControlKind::Do(_) => Goings::On(Way::Into(1)),
        ControlKind::For(_) => Goings::On(Way::Into(1)),
        _ => Goings::Nowhere,
    }
}
