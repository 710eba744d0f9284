// Where control goes when a cell is left, and in which body and switch it stands, from the last cell to the first: each cell tells
// its parts.
ghost use Rattle.std.specs.Prelude.{◌≡◌, ◌<◌, ◌≤◌, All, ℕ, List, IfOk, length, slice_get};
ghost use Rattle.sparse_model.specs.declared.ids.NameId.{NameId as Name};
ghost use Rattle.control_cells.specs.Exits as meaning;
ghost use Rattle.control_cells.specs.Numbers.{most_cells};
ghost use Rattle.control_cells.specs.Seen.{cell_seen, cells_seen, way_seen};

use crate::cell::Cell;
use crate::kind::{ends_cases, is_body, is_broken, is_loop_body};
use crate::numbers::BlockNumbers;
use crate::rows::{Way, behind};
use std::alloc::{AllocError, Global};

/// The blocks to which control goes where a cell is left, and what is around it.
#[derive(Clone, Copy, Debug, PartialEq, Eq)]
pub struct Exits {
    /// As true.
    pub hit: u32,
    /// As false.
    pub miss: u32,
    /// By a `break` inside.
    pub broken: u32,
    /// By a `continue` inside.
    pub continued: u32,
    /// The innermost body around it, by its cell.
    pub body: Option<u32>,
    /// The innermost `switch` or body around it: whose label a `case` is (C11 6.8.4.2 p4).
    pub chooser: Option<u32>,
}

// Before the part at a place; one that isn't there is passed.
fn entry_or(numbers: &[BlockNumbers], parts: &[u32], place: usize, otherwise: u32) -> u32
    requires { All (λ part. part < length numbers.now) parts.now }
    ensures { result ≡ meaning.entry_or numbers.now (slice_get parts.now place) otherwise }
{
    match parts.get(place) {
        Some(&part) => numbers[part as usize].entry,
        None => otherwise,
    }
}

/// The block to which a way leads in a cell with such a moment and such exits.
pub(crate) fn block_on(
    numbers: &[BlockNumbers],
    moment: u32,
    exits: Exits,
    parts: &[u32],
    way: Way,
) -> u32
    requires { All (λ part. part < length numbers.now) parts.now }
    ensures { result ≡ meaning.block_on numbers.now moment exits parts.now (way_seen way) }
{
    match way {
        Way::Into(place) => entry_or(numbers, parts, place, exits.hit),
        Way::Moment => moment,
        Way::Out(true) => exits.hit,
        Way::Out(false) => exits.miss,
    }
}

// Where the part at a place was left so.
fn block_behind(
    numbers: &[BlockNumbers],
    moment: u32,
    exits: Exits,
    cell: &Cell,
    place: usize,
    outcome: bool,
) -> u32
    requires parts { All (λ part. part < length numbers.now) cell.now.parts.items }
    requires place { place < length cell.now.parts.items }
    ensures { (names : Name → List ℕ) → result ≡ meaning.block_behind numbers.now moment exits (cell_seen names cell.now) place outcome }
{
    let way = behind(cell.kind, cell.parts.len(), place, outcome);
    block_on(numbers, moment, exits, cell.parts.as_slice(), way)
}

// The exits of the part at a place, by those of its cell, which has this number.
fn handed(numbers: &[BlockNumbers], number: u32, exits: Exits, cell: &Cell, place: usize) -> Exits
    requires number { number < length numbers.now }
    requires parts { All (λ part. part < length numbers.now) cell.now.parts.items }
    requires place { place < length cell.now.parts.items }
    ensures { (names : Name → List ℕ) → result ≡ meaning.handed numbers.now number exits (cell_seen names cell.now) place }
{
    let moment = numbers[number as usize].moment;
    let hit = block_behind(numbers, moment, exits, cell, place, true);
    Exits {
        hit,
        miss: block_behind(numbers, moment, exits, cell, place, false),
        broken: if is_broken(cell.kind, place) {
            exits.hit
        } else {
            exits.broken
        },
        continued: if is_loop_body(cell.kind, place) {
            hit
        } else {
            exits.continued
        },
        body: if is_body(cell.kind) {
            Some(number)
        } else {
            exits.body
        },
        chooser: if ends_cases(cell.kind) {
            Some(number)
        } else {
            exits.chooser
        },
    }
}

// Tells the parts of a cell where they lead.
fn hand_down(exits: &mut Vec<Exits>, numbers: &[BlockNumbers], number: u32, cell: &Cell)
    requires cell { number < length exits.old.items }
    requires numbered { length exits.old.items ≡ length numbers.now }
    requires parts { All (λ part. part < number) cell.now.parts.items }
    ensures { (names : Name → List ℕ) → exits.new.items
        ≡ meaning.with_handed numbers.now number (meaning.exits_at exits.old.items number) (cell_seen names cell.now) 0 cell.now.parts.items exits.old.items }
{
    let own = exits[number as usize];
    for place in 0..cell.parts.len() {
        let part = cell.parts[place] as usize;
        exits[part] = handed(numbers, number, own, cell, place);
    }
}

/// Where control goes when each cell is left: the last one leads to the closing brace, and each part as its cell says.
///
/// # Errors
/// Want of memory.
pub fn exits_of(
    alloc: Global,
    cells: &[Cell],
    numbers: &[BlockNumbers],
    closing: u32,
) -> Result<Vec<Exits>, AllocError>
    requires numbered { length cells.now ≡ length numbers.now }
    requires few { length cells.now ≤ most_cells }
    requires parts { (names : Name → List ℕ) → meaning.EachIsPartOnce (cells_seen names cells.now) }
    ensures { IfOk result (λ exits. (names : Name → List ℕ) → meaning.AreExits (cells_seen names cells.now) numbers.now closing exits.items) }
{
    let to_closing = Exits {
        hit: closing,
        miss: closing,
        broken: closing,
        continued: closing,
        body: None,
        chooser: None,
    };
    let mut exits = vec![in alloc; to_closing; cells.len()]?;
    for number in (0..cells.len()).rev() {
        hand_down(&mut exits, numbers, number as u32, &cells[number]);
    }
    Ok(exits)
}
