// The blocks of a body, in the order of their numbers.
ghost use Rattle.std.specs.Prelude.{◌≡◌, ◌<◌, ◌≤◌, ◌++◌, ◌∷◌, [], ℕ, All, List, IfOk, OnOk, length, map};
ghost use Rattle.sparse_model.specs.declared.ids.NameId.{NameId as Name};
ghost use Rattle.meaning_control.specs.Choices.{number_of};
ghost use Rattle.meaning_control.specs.Rows as rows;
ghost use Rattle.meaning_control.specs.laws.Cells.{all_gone_blocks};
ghost use Rattle.control_flow.specs.Seen.{graph_of, graph_of_blocks, step_of, targets};
ghost use Rattle.control_cells.specs.Blocks as meaning;
ghost use Rattle.control_cells.specs.Flows.{KeepsApart};
ghost use Rattle.control_cells.specs.Numbers.{StandBehindParts, most_cells};
ghost use Rattle.control_cells.specs.Passing.{goings_seen, steps_seen};
ghost use Rattle.control_cells.specs.Seen.{cell_seen, cells_seen, kind_seen};

use crate::cell::Cell;
use crate::exits::{Exits, block_on};
use crate::goings::{Goings, begins_with_parts, begins_without_parts, onward};
use crate::kind::{ControlKind, Outcomes};
use crate::labels::row;
use crate::next::{Wanted, push_next, push_picked, push_wanted};
use crate::numbers::stops;
use crate::rows::has_moment;
use crate::steps::{Steps, entry_steps, moment_steps};
use crate::tables::CellTables;
use control_flow::{Block, BlockList, Flow, Step, StepList};
use std::alloc::{AllocError, Global};
use tag_list::TagList;

// Where the exits of a cell that is left in each of these ways lead, with the tags of a condition.
fn push_outs(next: &mut TagList, outcomes: Outcomes, exits: Exits) -> Result<(), AllocError>
    ensures { OnOk result (targets next.new ≡ targets next.old ++ meaning.blocks_out exits outcomes) }
{
    match outcomes {
        Outcomes::Never => Ok(()),
        Outcomes::One(true) => push_next(next, exits.hit, 1),
        Outcomes::One(false) => push_next(next, exits.miss, 2),
        Outcomes::Both => {
            push_next(next, exits.hit, 1)?;
            push_next(next, exits.miss, 2)
        }
    }
}

// The value of a switch, where it is known.
fn number_of(kind: ControlKind) -> Option<i128>
    ensures { (names : Name → List ℕ) (token : ℕ) → result ≡ number_of (kind_seen names token kind) }
{
    match kind {
        ControlKind::Switch(number) => number,
        _ => None,
    }
}

// Where control goes from a cell.
fn push_goings(
    next: &mut TagList,
    cells: &[Cell],
    tables: &CellTables,
    number: u32,
    cell: &Cell,
    goings: Goings,
) -> Result<(), AllocError>
    requires known { meaning.AreOfCells (length cells.now) tables.now }
    requires within { number < length cells.now }
    requires parts { All (λ part. part < length cells.now) cell.now.parts.items }
    ensures { OnOk result ((names : Name → List ℕ) → KeepsApart names
        → targets next.new ≡ targets next.old ++ all_gone_blocks (meaning.tables_seen (cells_seen names cells.now) tables.now) number (cell_seen names cell.now) (goings_seen names goings)) }
{
    let numbers = tables.numbers.as_slice();
    let exits = tables.exits[number as usize];
    match goings {
        Goings::Nowhere => Ok(()),
        Goings::On(way) => {
            let moment = numbers[number as usize].moment;
            let block = block_on(numbers, moment, exits, cell.parts.as_slice(), way);
            push_next(next, block, 0)
        }
        Goings::Outs(outcomes) => push_outs(next, outcomes, exits),
        Goings::Breaks => push_next(next, exits.broken, 0),
        Goings::Continues => push_next(next, exits.continued, 0),
        Goings::Jumps(name) => {
            let labels = row(tables.jumps.as_slice(), number);
            push_wanted(next, cells, numbers, labels, Wanted::Named(name), 0)
        }
        Goings::Picks => {
            let labels = row(tables.labels.as_slice(), number);
            push_picked(
                next,
                cells,
                numbers,
                labels,
                number_of(cell.kind),
                exits.hit,
            )
        }
    }
}

fn push_step(steps: &mut StepList, step: Step) -> Result<(), AllocError>
    ensures { OnOk result (map step_of steps.new ≡ map step_of steps.old ++ step_of step ∷ []) }
{
    match steps.push(step) {
        Ok(()) => Ok(()),
        Err(_) => Err(AllocError),
    }
}

fn step_list(alloc: Global, steps: Steps) -> Result<StepList, AllocError>
    ensures { IfOk result (λ list. map step_of list ≡ steps_seen steps) }
{
    let mut list = StepList::new(alloc);
    match steps {
        Steps::Nothing => Ok(list),
        Steps::One(step) => {
            push_step(&mut list, step)?;
            Ok(list)
        }
        Steps::Two(step, other) => {
            push_step(&mut list, step)?;
            push_step(&mut list, other)?;
            Ok(list)
        }
    }
}

// One more block, with these steps, and these behind it.
fn push_block(
    alloc: Global,
    blocks: &mut BlockList,
    steps: Steps,
    next: TagList,
) -> Result<(), AllocError>
    ensures { OnOk result (graph_of_blocks blocks.new ≡ graph_of_blocks blocks.old ++ record { steps = steps_seen steps; successors = targets next } ∷ []) }
{
    let steps = step_list(alloc, steps)?;
    match blocks.push(Block { steps, next }) {
        Ok(()) => Ok(()),
        Err(_) => Err(AllocError),
    }
}

// Where control goes behind what is passed at the entry of a cell with so many parts.
fn begins(kind: ControlKind, parts: usize) -> Goings
    ensures { (names : Name → List ℕ) (token : ℕ) → goings_seen names result ≡ rows.begins (kind_seen names token kind) parts }
{
    if parts == 0 {
        begins_without_parts(kind)
    } else {
        begins_with_parts(kind)
    }
}

// The block before a cell.
fn push_entry(
    alloc: Global,
    blocks: &mut BlockList,
    cells: &[Cell],
    tables: &CellTables,
    number: u32,
    cell: &Cell,
) -> Result<(), AllocError>
    requires known { meaning.AreOfCells (length cells.now) tables.now }
    requires within { number < length cells.now }
    requires parts { All (λ part. part < length cells.now) cell.now.parts.items }
    ensures { OnOk result ((names : Name → List ℕ) → KeepsApart names
        → graph_of_blocks blocks.new ≡ graph_of_blocks blocks.old ++ meaning.entry_block (meaning.tables_seen (cells_seen names cells.now) tables.now) number (cell_seen names cell.now) ∷ []) }
{
    let mut next = TagList::new(alloc);
    let goings = begins(cell.kind, cell.parts.len());
    push_goings(&mut next, cells, tables, number, cell, goings)?;
    push_block(alloc, blocks, entry_steps(cell.kind, cell.token), next)
}

// That at its moment.
fn push_moment(
    alloc: Global,
    blocks: &mut BlockList,
    cells: &[Cell],
    tables: &CellTables,
    number: u32,
    cell: &Cell,
) -> Result<(), AllocError>
    requires known { meaning.AreOfCells (length cells.now) tables.now }
    requires within { number < length cells.now }
    requires parts { All (λ part. part < length cells.now) cell.now.parts.items }
    ensures { OnOk result ((names : Name → List ℕ) → KeepsApart names
        → graph_of_blocks blocks.new ≡ graph_of_blocks blocks.old ++ meaning.moment_block (meaning.tables_seen (cells_seen names cells.now) tables.now) number (cell_seen names cell.now) ∷ []) }
{
    let mut next = TagList::new(alloc);
    push_goings(&mut next, cells, tables, number, cell, onward(cell.kind))?;
    push_block(alloc, blocks, moment_steps(cell.kind, cell.token), next)
}

// Those of a cell.
fn push_cell(
    alloc: Global,
    blocks: &mut BlockList,
    cells: &[Cell],
    tables: &CellTables,
    number: u32,
    cell: &Cell,
) -> Result<(), AllocError>
    requires known { meaning.AreOfCells (length cells.now) tables.now }
    requires within { number < length cells.now }
    requires parts { All (λ part. part < length cells.now) cell.now.parts.items }
    ensures { OnOk result ((names : Name → List ℕ) → KeepsApart names
        → graph_of_blocks blocks.new ≡ graph_of_blocks blocks.old ++ meaning.blocks_in_cell (meaning.tables_seen (cells_seen names cells.now) tables.now) number (cell_seen names cell.now)) }
{
    let moment = has_moment(cell.kind, cell.parts.len());
    if stops(cell) {
        push_entry(alloc, blocks, cells, tables, number, cell)?;
        if moment {
            return push_moment(alloc, blocks, cells, tables, number, cell);
        }
        return Ok(());
    }
    if moment {
        return push_moment(alloc, blocks, cells, tables, number, cell);
    }
    Ok(())
}

// Those of all cells, behind the one that leads into the last cell.
fn push_cells(
    alloc: Global,
    blocks: &mut BlockList,
    cells: &[Cell],
    tables: &CellTables,
) -> Result<(), AllocError>
    requires few { length cells.now ≤ most_cells }
    requires known { meaning.AreOfCells (length cells.now) tables.now }
    requires before { StandBehindParts 0 cells.now }
    ensures { OnOk result ((names : Name → List ℕ) → KeepsApart names
        → graph_of_blocks blocks.new ≡ meaning.blocks_after (meaning.tables_seen (cells_seen names cells.now) tables.now) (graph_of_blocks blocks.old) 0 (cells_seen names cells.now)) }
{
    let mut number = 0;
    for cell in cells {
        push_cell(alloc, blocks, cells, tables, number, cell)?;
        number += 1;
    }
    Ok(())
}

/// The flow of a body with such tables, whose closing brace stands at this token.
///
/// # Errors
/// Want of memory.
pub fn flow_by(
    alloc: Global,
    cells: &[Cell],
    tables: &CellTables,
    brace: u32,
) -> Result<Flow, AllocError>
    requires some { 0 < length cells.now }
    requires few { length cells.now ≤ most_cells }
    requires known { meaning.AreOfCells (length cells.now) tables.now }
    requires before { StandBehindParts 0 cells.now }
    ensures { IfOk result (λ flow. (names : Name → List ℕ) → KeepsApart names
        → graph_of flow ≡ meaning.graph_by (meaning.tables_seen (cells_seen names cells.now) tables.now) brace (cells_seen names cells.now)) }
{
    let mut blocks = BlockList::new(alloc);
    let mut next = TagList::new(alloc);
    push_next(&mut next, tables.numbers[cells.len() - 1].entry, 0)?;
    push_block(alloc, &mut blocks, Steps::Nothing, next)?;
    push_cells(alloc, &mut blocks, cells, tables)?;
    let closing = Steps::Two(Step::Point(brace, false), Step::End(brace));
    push_block(alloc, &mut blocks, closing, TagList::new(alloc))?;
    Ok(Flow { blocks })
}
