// The labels to which each `goto` may go: those of its name in the bodies around it.
ghost use Rattle.std.specs.Prelude.{◌≡◌, ◌+◌, ◌<◌, ◌≤◌, ◌++◌, ◌∷◌, [], ℕ, List, IfOk, OnOk, Some, length, if◌then◌else◌};
ghost use Rattle.sparse_model.specs.declared.ids.NameId.{NameId as Name};
ghost use Rattle.indexmap.specs.IndexMap.{get};
ghost use Rattle.control_cells.specs.Jumps as meaning;
ghost use Rattle.control_cells.specs.Labels.{rows};
ghost use Rattle.control_cells.specs.Numbers.{most_cells};

use crate::cell::Cell;
use crate::kind::ControlKind;
use crate::labels::{empty_lists, push_to, row};
use indexmap::IndexMap;
use sparse_model::NameId;
use std::alloc::{AllocError, Global};

/// Each `goto` so far.
#[derive(Drop)]
struct Gotos {
    // The hasher has a fixed seed, so names that were chosen to collide cost time, and nothing else.
    /// The last one of each name.
    last: IndexMap<NameId, u32>,
    /// By cells, the one of the same name before it.
    earlier: Vec<Option<u32>>,
}

// Keeps the last `goto` of a name.
fn keep_last(last: &mut IndexMap<NameId, u32>, name: NameId, number: u32) -> Result<(), AllocError>
    ensures { OnOk result ((other : Name) → get meaning.same_name last.new other ≡ (if meaning.same_name name other then Some number else get meaning.same_name last.old other)) }
{
    last.insert(name, number)?;
    Ok(())
}

// The name of a `goto`, if the cell with this number is one.
fn goto_at(cells: &[Cell], number: u32) -> Option<NameId>
    ensures { result ≡ meaning.goto_name (meaning.kind_at (meaning.kinds_of cells.now) number) }
{
    match cells.get(number as usize) {
        Some(cell) => match cell.kind {
            ControlKind::Goto(name) => Some(name),
            _ => None,
        },
        None => None,
    }
}

// That of a label.
fn label_at(cells: &[Cell], number: u32) -> Option<NameId>
    ensures { result ≡ meaning.label_name (meaning.kind_at (meaning.kinds_of cells.now) number) }
{
    match cells.get(number as usize) {
        Some(cell) => match cell.kind {
            ControlKind::Label(name) => Some(name),
            _ => None,
        },
        None => None,
    }
}

// One more cell.
fn add_cell(gotos: &mut Gotos, cells: &[Cell], number: u32) -> Result<(), AllocError>
    requires within { number < length cells.now }
    requires before { meaning.AreGotos (meaning.kinds_of cells.now) number gotos.old }
    ensures { OnOk result (meaning.AreGotos (meaning.kinds_of cells.now) (number + 1) gotos.new) }
{
    match goto_at(cells, number) {
        Some(name) => {
            let before = gotos.last.get(&name).copied();
            gotos.earlier.push(before)?;
            keep_last(&mut gotos.last, name, number)
        }
        None => {
            gotos.earlier.push(None)?;
            Ok(())
        }
    }
}

// Each `goto` of a name, among those from the first one on, may go to this label.
fn jump_to(
    jumps: &mut Vec<Vec<u32>>,
    gotos: &Gotos,
    cells: &[Cell],
    name: NameId,
    first: u32,
    count: u32,
    label: u32,
) -> Result<(), AllocError>
    requires gotos { meaning.AreGotos (meaning.kinds_of cells.now) count gotos.now }
    ensures { OnOk result (meaning.HaveJoined (meaning.kinds_of cells.now) name first count label (rows jumps.old.items) (rows jumps.new.items)) }
{
    let mut next = gotos.last.get(&name).copied();
    while let Some(goto) = next {
        if goto < first {
            return Ok(());
        }
        push_to(jumps, goto, label)?;
        next = gotos.earlier[goto as usize];
    }
    Ok(())
}

// Each `goto` below a cell may go to this one, if it is a label of the same name.
fn jump_to_label(
    jumps: &mut Vec<Vec<u32>>,
    gotos: &Gotos,
    cells: &[Cell],
    first: u32,
    count: u32,
    label: u32,
) -> Result<(), AllocError>
    requires gotos { meaning.AreGotos (meaning.kinds_of cells.now) count gotos.now }
    ensures { OnOk result ((labels : List ℕ) (before : List (List ℕ)) → meaning.HaveAllJoined (meaning.kinds_of cells.now) first count labels before (rows jumps.old.items)
        → meaning.HaveAllJoined (meaning.kinds_of cells.now) first count (labels ++ label ∷ []) before (rows jumps.new.items)) }
{
    match label_at(cells, label) {
        Some(name) => jump_to(jumps, gotos, cells, name, first, count, label),
        None => Ok(()),
    }
}

// Each `goto` below a cell may go to those of its labels that have the same name.
fn jump_to_labels(
    jumps: &mut Vec<Vec<u32>>,
    gotos: &Gotos,
    cells: &[Cell],
    first: u32,
    count: u32,
    labels: &[u32],
) -> Result<(), AllocError>
    requires gotos { meaning.AreGotos (meaning.kinds_of cells.now) count gotos.now }
    ensures { OnOk result (meaning.HaveAllJoined (meaning.kinds_of cells.now) first count labels.now (rows jumps.old.items) (rows jumps.new.items)) }
{
    for &label in labels {
        jump_to_label(jumps, gotos, cells, first, count, label)?;
    }
    Ok(())
}

/// The labels to which each `goto` may go, by the numbers of their cells.
///
/// It takes time in step with the cells and with what it gives.
///
/// # Errors
/// Want of memory.
pub fn jumps_of(
    alloc: Global,
    cells: &[Cell],
    firsts: &[u32],
    labels: &[Vec<u32>],
) -> Result<Vec<Vec<u32>>, AllocError>
    requires few { length cells.now ≤ most_cells }
    requires firsts { length firsts.now ≡ length cells.now }
    requires labels { length labels.now ≡ length cells.now }
    ensures { IfOk result (λ jumps. meaning.AreJumps (meaning.kinds_of cells.now) firsts.now (rows labels.now) (length cells.now) (rows jumps.items)) }
{
    let mut jumps = empty_lists(alloc, cells.len())?;
    let mut gotos = Gotos {
        last: IndexMap::new(alloc),
        earlier: Vec::new(alloc),
    };
    for number in 0..cells.len() {
        let own = row(labels, number as u32);
        let first = firsts[number];
        jump_to_labels(&mut jumps, &gotos, cells, first, number as u32, own)?;
        add_cell(&mut gotos, cells, number as u32)?;
    }
    Ok(jumps)
}
