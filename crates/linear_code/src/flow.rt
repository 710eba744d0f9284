// The flow of a function: its cells are made, and then their blocks.
ghost use Rattle.std.specs.Prelude.{◌≡◌, ◌↔◌, ◌<◌, ◌≤◌, ◌*◌, ◌^◌, ℕ, IfOk, List};
ghost use Rattle.vocabulary.specs.declared.node_kind.NodeKind.TheVariants as kinds;
ghost use Rattle.meaning_paths.specs.Graphs.{IsPathOf, size_of_graph};
ghost use Rattle.meaning_paths.specs.Steps.{Step};
ghost use Rattle.meaning_tree.specs.Laid.{IsLaid};
ghost use Rattle.meaning_tree.specs.Nodes.{end_of};
ghost use Rattle.meaning_typing.specs.Units as meaning;
ghost use Rattle.meaning_control.specs.Functions.{IsPathOfFunction, closing_brace, statement_of};
ghost use Rattle.decl_judge.specs.Units.{nodes_of};
ghost use Rattle.control_flow.specs.Seen.{graph_of};
ghost use Rattle.control_cells.specs.Flows.{IsWalkable};
ghost use Rattle.control_cells.specs.Numbers.{most_cells};
ghost use Rattle.linear_code.specs.Cells.{KnowsTokens};
ghost use Rattle.linear_code.specs.Known.{judged_unit};
ghost use Rattle.linear_code.specs.Passed.{KnowsLists};
ghost use Rattle.linear_code.specs.Sizes.{HasSmallNumbers};

use crate::bound::has_few_cells;
use crate::cells::cells_of;
use crate::changes::body_of;
use crate::facts::ControlFacts;
use c_tree::{Handle, Unit};
use control_cells::flow_of;
use control_flow::Flow;
use decl_judge::node_at;
use std::alloc::{AllocError, Global};

// The token that a node keeps as its number: of a compound statement that of its `}`.
fn kept_token(unit: &Unit, handle: Handle) -> u32
    requires whole { unit.now.first ≡ 0 }
    requires token { (meaning.node_at (nodes_of unit.now) handle).number < 2 ^ 32 }
    ensures { result ≡ (meaning.node_at (nodes_of unit.now) handle).number }
{
    match node_at(unit, handle) {
        Some(node) => node.number as u32,
        None => 0,
    }
}

/// The flow of a function: its paths from block 0 are exactly those that control may pass in the function (C11 6.8). Each
/// successor is one of its blocks, and each block in which something is passed begins with a point.
///
/// # Errors
/// Want of memory, which a body of more than 20,000,000 cells is taken for.
pub fn linearize<J: ControlFacts>(
    alloc: Global,
    unit: &Unit,
    facts: &J,
    function: Handle,
) -> Result<Flow, AllocError>
    requires whole { unit.now.first ≡ 0 }
    requires laid { IsLaid unit.now }
    requires lists { KnowsLists (nodes_of unit.now) (J.known facts.now).facts }
    requires tokens { KnowsTokens (nodes_of unit.now) }
    requires kind { meaning.kind_at (nodes_of unit.now) function ≡ kinds.FunctionDefinition }
    requires body { statement_of (judged_unit unit.now (J.known facts.now)) function < end_of unit.now }
    requires brace { closing_brace (judged_unit unit.now (J.known facts.now)) function < 2 ^ 32 }
    ensures paths { IfOk result (λ flow. (path : List Step) → IsPathOfFunction (judged_unit unit.now (J.known facts.now)) function path ↔ IsPathOf (graph_of flow) path) }
    ensures walkable { IfOk result (λ flow. IsWalkable flow) }
    ensures small { IfOk result (λ flow. (most : ℕ) → HasSmallNumbers most (judged_unit unit.now (J.known facts.now)) → size_of_graph (graph_of flow) ≤ most_cells * most) }
{
    if !has_few_cells(alloc, unit, facts, function)? {
        return Err(AllocError);
    }
    let cells = cells_of(alloc, unit, facts, function)?;
    let brace = kept_token(unit, body_of(unit, function));
    flow_of(alloc, cells.as_slice(), brace)
}
