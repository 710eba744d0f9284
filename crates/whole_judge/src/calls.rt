// The rows of calls (C11 6.5.2.2).
ghost use Rattle.std.specs.Prelude.{◌≡◌, ◌<◌, All, IfOk, List};
ghost use Rattle.vocabulary.specs.declared.node_kind.NodeKind.TheVariants as kinds;
ghost use Rattle.meaning_tree.specs.Nodes.{end_of};
ghost use Rattle.meaning_typing.specs.Surroundings.{Surrounding};
ghost use Rattle.meaning_typing.specs.WholeTyping.{whole_row_of};
ghost use Rattle.decl_judge.specs.Units.{nodes_of};
ghost use Rattle.expr_judge.specs.Rows.{Tells};
ghost use Rattle.member_rows.specs.Aggregates.{aggregates_in};
ghost use Rattle.node_facts.specs.Facts.{IsKnownNodeFact, nodes_seen};

use c_tree::{Handle, Unit};
use c_types::Types;
use decl_judge::{child_at, token_at};
use expr_judge::{NodeRow, arguments_among, operand_at, take_row};
use node_facts::NodeFacts;
use sparse_model::FailureList;
use std::alloc::{AllocError, Global};
use whole_rows::judge_whole_call;

/// The row of a call, whose result has a size. It takes a step for each argument.
pub fn call(
    alloc: Global,
    unit: &Unit,
    types: &mut Types,
    facts: &NodeFacts,
    found: &mut FailureList,
    handle: Handle,
) -> Result<NodeRow, AllocError>
    requires whole { unit.now.first ≡ 0 }
    requires node { handle < end_of unit.now }
    requires ids { All (IsKnownNodeFact types.old) facts.now }
    ensures { (surroundings : List Surrounding) → IfOk result (λ row. Tells types.old types.new found.old found.new row (whole_row_of (aggregates_in types.old) (nodes_of unit.now) surroundings (nodes_seen types.old facts.now) handle kinds.Call)) }
{
    let child = child_at(unit, handle, 0);
    let callee = operand_at(types, facts, child)?;
    let arguments = arguments_among(alloc, unit, types, facts, &unit.node(handle).children)?;
    let token = token_at(unit, handle);
    let standing = token_at(unit, child);
    let row = judge_whole_call(alloc, types, token, standing, callee, &arguments, found)?;
    take_row(row, found)
}
