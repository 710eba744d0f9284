// The labels of each body, and those of each switch.
ghost use Rattle.std.specs.Prelude.{◌≡◌, ◌≤◌, [], ℕ, List, IfOk, OnOk, length, replicate};
ghost use Rattle.sparse_model.specs.declared.ids.NameId.{NameId as Name};
ghost use Rattle.control_cells.specs.Exits.{exits_at};
ghost use Rattle.control_cells.specs.Labels as meaning;
ghost use Rattle.control_cells.specs.Numbers.{most_cells};
ghost use Rattle.control_cells.specs.Seen.{cells_seen, kind_seen};

use crate::cell::Cell;
use crate::exits::Exits;
use crate::kind::ControlKind;
use std::alloc::{AllocError, Global};

/// So many empty lists.
pub(crate) fn empty_lists(alloc: Global, count: usize) -> Result<Vec<Vec<u32>>, AllocError>
    ensures { IfOk result (λ lists. meaning.rows lists.items ≡ replicate count []) }
{
    let mut lists = Vec::new(alloc);
    for _number in 0..count {
        lists.push(Vec::new(alloc))?;
    }
    Ok(lists)
}

/// One more number in a list, if the list is there.
pub(crate) fn push_to(lists: &mut Vec<Vec<u32>>, place: u32, number: u32) -> Result<(), AllocError>
    ensures { OnOk result (meaning.rows lists.new.items ≡ meaning.with_pushed (meaning.rows lists.old.items) place number) }
{
    match lists.get_mut(place as usize) {
        Some(list) => {
            list.push(number)?;
            Ok(())
        }
        None => Ok(()),
    }
}

/// The list at a place, if there is one.
pub(crate) fn row(lists: &[Vec<u32>], place: u32) -> &[u32]
    ensures { result.now ≡ meaning.row_at (meaning.rows lists.now) place }
{
    match lists.get(place as usize) {
        Some(list) => list.as_slice(),
        None => &[],
    }
}

// The cell whose label a cell with such exits is: of a label the body around it, of a `case` and a `default` the switch.
fn owner(kind: ControlKind, exits: Exits) -> Option<u32>
    ensures { (names : Name → List ℕ) (token : ℕ) → result ≡ meaning.owner (kind_seen names token kind) exits }
{
    match kind {
        ControlKind::Label(_) => exits.body,
        ControlKind::Case(_) => exits.chooser,
        ControlKind::Default => exits.chooser,
        _ => None,
    }
}

// What the exits of a cell are.
fn exits_at(exits: &[Exits], number: u32) -> Exits
    ensures { result ≡ exits_at exits.now number }
{
    match exits.get(number as usize) {
        Some(own) => *own,
        None => Exits {
            hit: 0,
            miss: 0,
            broken: 0,
            continued: 0,
            body: None,
            chooser: None,
        },
    }
}

// The cell whose label the cell with this number is.
fn owner_at(cells: &[Cell], exits: &[Exits], number: u32) -> Option<u32>
    ensures { (names : Name → List ℕ) → result ≡ meaning.owner_at (cells_seen names cells.now) exits.now number }
{
    let own = exits_at(exits, number);
    match cells.get(number as usize) {
        Some(cell) => owner(cell.kind, own),
        None => None,
    }
}

/// The labels of each body and the cases of each switch, by the numbers of their cells.
///
/// # Errors
/// Want of memory.
pub fn labels_of(
    alloc: Global,
    cells: &[Cell],
    exits: &[Exits],
) -> Result<Vec<Vec<u32>>, AllocError>
    requires few { length cells.now ≤ most_cells }
    requires numbered { length exits.now ≡ length cells.now }
    ensures { IfOk result (λ lists. (names : Name → List ℕ) → meaning.AreOwned (cells_seen names cells.now) exits.now (length cells.now) (meaning.rows lists.items)) }
{
    let mut lists = empty_lists(alloc, cells.len())?;
    for number in 0..cells.len() {
        match owner_at(cells, exits, number as u32) {
            Some(owner) => push_to(&mut lists, owner, number as u32)?,
            None => {}
        }
    }
    Ok(lists)
}
