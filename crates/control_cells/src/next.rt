// The blocks behind a block, as they join its list.
ghost use Rattle.std.specs.Prelude.{◌≡◌, ◌<◌, ◌++◌, ◌∷◌, [], ℕ, List, OnOk};
ghost use Rattle.sparse_model.specs.declared.ids.NameId.{NameId as Name};
ghost use Rattle.meaning_control.specs.Choices.{or_else, picked, places_of};
ghost use Rattle.meaning_control.specs.Choices as choices;
ghost use Rattle.control_flow.specs.Seen.{targets};
ghost use Rattle.control_cells.specs.Blocks as meaning;
ghost use Rattle.control_cells.specs.Flows.{KeepsApart};
ghost use Rattle.control_cells.specs.Numbers.{numbers_at};
ghost use Rattle.control_cells.specs.Seen.{cell_at, cells_seen, kind_seen};

use crate::cell::Cell;
use crate::kind::ControlKind;
use crate::numbers::BlockNumbers;
use sparse_model::NameId;
use std::alloc::AllocError;
use tag_list::TagList;

/// A list keeps fewer numbers, and each is below this one.
const MOST: u32 = 1_073_741_824;

/// The tag of a block to which a `switch` goes.
const PICKED: u8 = 3;

/// Which labels are gone to.
#[derive(Clone, Copy)]
pub(crate) enum Wanted {
    Named(NameId),
    /// Those with this number, or with any.
    Chosen(Option<i128>),
    Default,
}

/// One more block.
pub(crate) fn push_next(next: &mut TagList, block: u32, tag: u8) -> Result<(), AllocError>
    requires { tag < 4 }
    ensures { OnOk result (targets next.new ≡ targets next.old ++ block ∷ []) }
{
    if block >= MOST || next.len() >= MOST {
        return Err(AllocError);
    }
    next.push(block, tag)
}

// Whether a node of this kind is a label of this name (C11 6.8.6.1 p1).
fn is_named(kind: ControlKind, name: NameId) -> bool
    ensures { (names : Name → List ℕ) → KeepsApart names → (token : ℕ) → result ≡ choices.is_named (names name) (kind_seen names token kind) }
{
    match kind {
        ControlKind::Label(other) => other.0 == name.0,
        _ => false,
    }
}

fn is_numbered(kind: ControlKind, number: i128) -> bool
    ensures { (names : Name → List ℕ) (token : ℕ) → result ≡ choices.is_numbered number (kind_seen names token kind) }
{
    match kind {
        ControlKind::Case(other) => other == number,
        _ => false,
    }
}

fn has_number(kind: ControlKind) -> bool
    ensures { (names : Name → List ℕ) (token : ℕ) → result ≡ choices.has_number (kind_seen names token kind) }
{
    match kind {
        ControlKind::Case(_) => true,
        _ => false,
    }
}

fn is_default(kind: ControlKind) -> bool
    ensures { (names : Name → List ℕ) (token : ℕ) → result ≡ choices.is_default (kind_seen names token kind) }
{
    match kind {
        ControlKind::Default => true,
        _ => false,
    }
}

fn is_wanted(kind: ControlKind, wanted: Wanted) -> bool
    ensures { (names : Name → List ℕ) → KeepsApart names → (token : ℕ) → result ≡ meaning.is_wanted names wanted (kind_seen names token kind) }
{
    match wanted {
        Wanted::Named(name) => is_named(kind, name),
        Wanted::Chosen(Some(number)) => is_numbered(kind, number),
        Wanted::Chosen(None) => has_number(kind),
        Wanted::Default => is_default(kind),
    }
}

// Whether the cell with this number is there, and is such a label.
fn is_label_wanted(cells: &[Cell], label: u32, wanted: Wanted) -> bool
    ensures { (names : Name → List ℕ) → KeepsApart names → result ≡ meaning.is_wanted names wanted (cell_at (cells_seen names cells.now) label).kind }
{
    match cells.get(label as usize) {
        Some(cell) => is_wanted(cell.kind, wanted),
        None => false,
    }
}

// The block before the cell with this number.
fn entry_at(numbers: &[BlockNumbers], number: u32) -> u32
    ensures { result ≡ (numbers_at numbers.now number).entry }
{
    match numbers.get(number as usize) {
        Some(own) => own.entry,
        None => 0,
    }
}

// The block before this label, if it is wanted.
fn push_if_wanted(
    next: &mut TagList,
    cells: &[Cell],
    numbers: &[BlockNumbers],
    label: u32,
    wanted: Wanted,
    tag: u8,
) -> Result<(), AllocError>
    requires { tag < 4 }
    ensures { OnOk result ((names : Name → List ℕ) → KeepsApart names
        → targets next.new ≡ targets next.old ++ places_of (meaning.is_wanted names wanted) (meaning.labelled_block (cells_seen names cells.now) numbers.now label ∷ [])) }
{
    if is_label_wanted(cells, label, wanted) {
        push_next(next, entry_at(numbers, label), tag)
    } else {
        Ok(())
    }
}

/// The blocks before those of some labels that are wanted.
pub(crate) fn push_wanted(
    next: &mut TagList,
    cells: &[Cell],
    numbers: &[BlockNumbers],
    labels: &[u32],
    wanted: Wanted,
    tag: u8,
) -> Result<(), AllocError>
    requires { tag < 4 }
    ensures { OnOk result ((names : Name → List ℕ) → KeepsApart names
        → targets next.new ≡ meaning.places_after (meaning.is_wanted names wanted) (targets next.old) (meaning.labelled (cells_seen names cells.now) numbers.now labels.now)) }
{
    for &label in labels {
        push_if_wanted(next, cells, numbers, label, wanted, tag)?;
    }
    Ok(())
}

// That before the `default` of a `switch`, or else the one past it.
fn push_default(
    next: &mut TagList,
    cells: &[Cell],
    numbers: &[BlockNumbers],
    labels: &[u32],
    past: u32,
) -> Result<(), AllocError>
    ensures { OnOk result ((names : Name → List ℕ) → KeepsApart names
        → targets next.new ≡ targets next.old ++ or_else (places_of choices.is_default (meaning.labelled (cells_seen names cells.now) numbers.now labels.now)) past) }
{
    let before = next.len();
    push_wanted(next, cells, numbers, labels, Wanted::Default, PICKED)?;
    if next.len() > before {
        return Ok(());
    }
    push_next(next, past, PICKED)
}

/// The blocks to which a `switch` with such labels goes, of which the value may be known (C11 6.8.4.2 p5).
pub(crate) fn push_picked(
    next: &mut TagList,
    cells: &[Cell],
    numbers: &[BlockNumbers],
    labels: &[u32],
    number: Option<i128>,
    past: u32,
) -> Result<(), AllocError>
    ensures { OnOk result ((names : Name → List ℕ) → KeepsApart names
        → targets next.new ≡ targets next.old ++ picked number (meaning.labelled (cells_seen names cells.now) numbers.now labels.now) past) }
{
    let before = next.len();
    push_wanted(next, cells, numbers, labels, Wanted::Chosen(number), PICKED)?;
    match number {
        None => push_default(next, cells, numbers, labels, past),
        Some(_) => {
            if next.len() > before {
                return Ok(());
            }
            push_default(next, cells, numbers, labels, past)
        }
    }
}
