// The parts of a declarator by their nodes (C11 6.7.6.2 p1, 6.7.6.3): sizes of arrays, and lists of parameters. What a part makes of a
// type isn't known here.
ghost use Rattle.std.specs.Prelude.{◌≡◌, ◌<◌, All, IfOk};
ghost use Rattle.meaning_tree.specs.Nodes.{end_of};
ghost use Rattle.c_types.specs.Table.{TypeTable};
ghost use Rattle.decl_judge.specs.Units.{nodes_of};
ghost use Rattle.expr_judge.specs.Rows.{SaysOnly, Tells};
ghost use Rattle.node_facts.specs.Facts.{IsKnownNodeFact, nodes_seen};
ghost use Rattle.declaration_judge.specs.Rows.{array_row, list_row};

use crate::row::breaks;
use c_tree::{Handle, Unit};
use c_types::Types;
use decl_judge::token_at;
use declaration_rows::{empty_list_failure, sizes_broken};
use expr_judge::{NodeRow, append};
use node_facts::{NodeFact, NodeFacts};
use sparse_model::FailureList;
use std::alloc::AllocError;

/// The row of the array with this handle. It takes a step for each node between its brackets.
pub fn array_declarator(unit: &Unit, types: &Types, facts: &NodeFacts, handle: Handle) -> NodeRow
    requires whole { unit.now.first ≡ 0 }
    requires node { handle < end_of unit.now }
    requires facts { All (IsKnownNodeFact types.now) facts.now }
    ensures { SaysOnly types.now result (array_row (nodes_of unit.now) (nodes_seen types.now facts.now) handle) }
{
    breaks(sizes_broken(unit, types, facts, &unit.node(handle).children))
}

/// The row of the list of parameters with this handle. It takes a few steps.
pub fn function_declarator(
    unit: &Unit,
    found: &mut FailureList,
    handle: Handle,
) -> Result<NodeRow, AllocError>
    requires whole { unit.now.first ≡ 0 }
    requires node { handle < end_of unit.now }
    ensures { (table : TypeTable) → IfOk result (λ row. Tells table table found.old found.new row (list_row (nodes_of unit.now) handle)) }
{
    let failure = empty_list_failure(token_at(unit, handle), &unit.node(handle).children);
    append(found, failure)?;
    Ok(NodeRow::known(NodeFact::Unknown))
}
