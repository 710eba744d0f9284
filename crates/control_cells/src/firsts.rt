// Where the cells below each cell begin.
ghost use Rattle.std.specs.Prelude.{◌≡◌, ◌<◌, ◌≤◌, ℕ, All, List, IfOk, length};
ghost use Rattle.sparse_model.specs.declared.ids.NameId.{NameId as Name};
ghost use Rattle.control_cells.specs.Numbers.{StandBehindParts, most_cells};
ghost use Rattle.control_cells.specs.Seen.{cells_seen};
ghost use Rattle.control_cells.specs.Trees as meaning;

use crate::cell::Cell;
use std::alloc::{AllocError, Global};

// The first cell of those below the cell with this number, by those of the cells before it.
fn first_by(firsts: &[u32], number: u32, parts: &[u32]) -> u32
    requires { All (λ part. part < length firsts.now) parts.now }
    ensures { result ≡ meaning.first_by firsts.now number parts.now }
{
    match parts.first() {
        Some(&part) => firsts[part as usize],
        None => number,
    }
}

/// The first cell of those below each cell: its first part's, or itself where it has no parts.
///
/// # Errors
/// Want of memory.
pub fn firsts_of(alloc: Global, cells: &[Cell]) -> Result<Vec<u32>, AllocError>
    requires few { length cells.now ≤ most_cells }
    requires before { StandBehindParts 0 cells.now }
    ensures { IfOk result (λ firsts. (names : Name → List ℕ) → firsts.items ≡ meaning.firsts_of (cells_seen names cells.now)) }
{
    let mut firsts = Vec::new(alloc);
    let mut number = 0;
    for cell in cells {
        let first = first_by(firsts.as_slice(), number, cell.parts.as_slice());
        firsts.push(first)?;
        number += 1;
    }
    Ok(firsts)
}
