// The numbers of blocks, from the first cell to the last.
ghost use Rattle.std.specs.Prelude.{◌≡◌, ◌<◌, ◌≤◌, ◌^◌, ℕ, All, List, IfOk, length};
ghost use Rattle.sparse_model.specs.declared.ids.NameId.{NameId as Name};
ghost use Rattle.meaning_control.specs.laws.Cells as law;
ghost use Rattle.control_cells.specs.Numbers as meaning;
ghost use Rattle.control_cells.specs.Seen.{cell_seen, cells_seen};

use crate::cell::Cell;
use crate::kind::is_statement;
use crate::rows::has_moment;
use std::alloc::{AllocError, Global};

/// The numbers of the blocks of a cell.
#[derive(Clone, Copy, Debug, PartialEq, Eq)]
pub struct BlockNumbers {
    /// Of the block before it: its own where something is passed or chosen there, else that of its first part.
    pub entry: u32,
    /// Of the block at its moment, where it has one.
    pub moment: u32,
}

/// The numbers of the blocks of all cells, and that of the block behind them, at the closing brace.
#[derive(Drop)]
pub struct Numbering {
    pub cells: Vec<BlockNumbers>,
    pub closing: u32,
}

/// Whether something is passed or chosen before the cell.
pub(crate) fn stops(cell: &Cell) -> bool
    ensures { (names : Name → List ℕ) → result ≡ law.stops (cell_seen names cell.now) }
{
    is_statement(cell.kind) || cell.parts.is_empty()
}

fn one_if(test: bool) -> u32
    ensures value { result ≡ meaning.one_if test }
    ensures small { result ≤ 1 }
{
    if test { 1 } else { 0 }
}

// Where control goes into the first of these parts.
fn entry_of_first(numbers: &[BlockNumbers], parts: &[u32]) -> u32
    requires { All (λ part. part < length numbers.now) parts.now }
    ensures { result ≡ meaning.entry_of_first numbers.now parts.now }
{
    match parts.first() {
        Some(&first) => numbers[first as usize].entry,
        None => 0,
    }
}

// The numbers of a cell whose blocks begin with this one.
fn row(numbers: &[BlockNumbers], next: u32, cell: &Cell) -> BlockNumbers
    requires before { All (λ part. part < length numbers.now) cell.now.parts.items }
    requires small { next < 2 ^ 31 }
    ensures { (names : Name → List ℕ) → result ≡ meaning.numbers_row numbers.now next (cell_seen names cell.now) }
{
    let own = stops(cell);
    BlockNumbers {
        entry: if own {
            next
        } else {
            entry_of_first(numbers, cell.parts.as_slice())
        },
        moment: next + one_if(own),
    }
}

// How many blocks the cell has.
fn blocks_in(cell: &Cell) -> u32
    ensures value { (names : Name → List ℕ) → result ≡ meaning.blocks_in (cell_seen names cell.now) }
    ensures small { result ≤ 2 }
{
    one_if(stops(cell)) + one_if(has_moment(cell.kind, cell.parts.len()))
}

/// The numbers of the blocks of all cells: those of a cell stand behind those of the cells before it, and block 0 before them
/// all.
///
/// # Errors
/// Want of memory.
pub fn numbers_of(alloc: Global, cells: &[Cell]) -> Result<Numbering, AllocError>
    requires few { length cells.now ≤ meaning.most_cells }
    requires before { meaning.StandBehindParts 0 cells.now }
    ensures cells { IfOk result (λ numbering. (names : Name → List ℕ) → numbering.cells.items ≡ meaning.numbers_of (cells_seen names cells.now)) }
    ensures closing { IfOk result (λ numbering. (names : Name → List ℕ) → numbering.closing ≡ meaning.closing_of (cells_seen names cells.now)) }
{
    let mut numbers = Vec::new(alloc);
    let mut next = 1;
    for cell in cells {
        let own = row(numbers.as_slice(), next, cell);
        numbers.push(own)?;
        next += blocks_in(cell);
    }
    Ok(Numbering {
        cells: numbers,
        closing: next,
    })
}
