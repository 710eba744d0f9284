// The flow of a body: all blocks together.
ghost use Rattle.std.specs.Prelude.{◌*◌, ◌≤◌, ℕ, List, IfOk, length};
ghost use Rattle.sparse_model.specs.declared.ids.NameId.{NameId as Name};
ghost use Rattle.meaning_paths.specs.Graphs.{size_of_graph};
ghost use Rattle.control_flow.specs.Seen.{graph_of};
ghost use Rattle.control_cells.specs.Flows.{HasPathsOf, IsWalkable, KeepsApart};
ghost use Rattle.control_cells.specs.Numbers.{most_cells};
ghost use Rattle.control_cells.specs.Seen.{cells_seen};
ghost use Rattle.control_cells.specs.Sizes.{EachPassesAtMost};
ghost use Rattle.control_cells.specs.Trees.{IsOneTree};

use crate::blocks::flow_by;
use crate::cell::Cell;
use crate::exits::exits_of;
use crate::firsts::firsts_of;
use crate::jumps::jumps_of;
use crate::labels::labels_of;
use crate::numbers::numbers_of;
use crate::tables::CellTables;
use control_flow::Flow;
use std::alloc::{AllocError, Global};

/// The flow of a body whose last cell is its root, and whose closing brace stands at this token. Its paths from block 0 are those
/// that control may pass in the body (C11 6.8), neither more nor fewer. Each successor is one of its blocks, and each block in which
/// something is passed begins with a point.
///
/// It takes time in step with the cells and the edges of the flow.
///
/// # Errors
/// Want of memory.
pub fn flow_of(alloc: Global, cells: &[Cell], brace: u32) -> Result<Flow, AllocError>
    requires few { length cells.now ≤ most_cells }
    requires tree { (names : Name → List ℕ) → IsOneTree (cells_seen names cells.now) }
    ensures paths { IfOk result (λ flow. (names : Name → List ℕ) → KeepsApart names → HasPathsOf (cells_seen names cells.now) brace (graph_of flow)) }
    ensures walkable { IfOk result (λ flow. IsWalkable flow) }
    ensures small { IfOk result (λ flow. (names : Name → List ℕ) → KeepsApart names → (most : ℕ) → EachPassesAtMost most (cells_seen names cells.now)
        → size_of_graph (graph_of flow) ≤ length cells.now * most) }
{
    let numbering = numbers_of(alloc, cells)?;
    let exits = exits_of(alloc, cells, numbering.cells.as_slice(), numbering.closing)?;
    let labels = labels_of(alloc, cells, exits.as_slice())?;
    let firsts = firsts_of(alloc, cells)?;
    let jumps = jumps_of(alloc, cells, firsts.as_slice(), labels.as_slice())?;
    let tables = CellTables {
        numbers: numbering.cells,
        exits,
        labels,
        jumps,
    };
    flow_by(alloc, cells, &tables, brace)
}
