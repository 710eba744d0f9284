// The rows of `.` and `->` (C11 6.5.2.3).
ghost use Rattle.std.specs.Prelude.{◌≡◌, ◌<◌, All, IfOk, List};
ghost use Rattle.vocabulary.specs.declared.node_kind.NodeKind.TheVariants as kinds;
ghost use Rattle.meaning_tree.specs.Nodes.{end_of};
ghost use Rattle.meaning_typing.specs.Surroundings.{Surrounding};
ghost use Rattle.meaning_typing.specs.WholeTyping.{whole_row_of};
ghost use Rattle.decl_judge.specs.Units.{nodes_of};
ghost use Rattle.expr_judge.specs.Rows.{Tells};
ghost use Rattle.member_rows.specs.Aggregates.{aggregates_in};
ghost use Rattle.node_facts.specs.Facts.{IsKnownNodeFact, nodes_seen};
ghost use Rattle.whole_judge.specs.Known.{AreKnownBodies};

use c_tree::{Handle, Unit};
use c_types::Types;
use decl_judge::{child_at, token_at};
use expr_judge::{NodeRow, expression_at, operand_at, take_row};
use member_rows::{judge_member, judge_pointer_member};
use node_facts::NodeFacts;
use sparse_model::FailureList;
use std::alloc::AllocError;

/// The row of `.`, whose operand is taken as it is.
pub fn member(
    unit: &Unit,
    types: &mut Types,
    facts: &NodeFacts,
    found: &mut FailureList,
    handle: Handle,
) -> Result<NodeRow, AllocError>
    requires whole { unit.now.first ≡ 0 }
    requires node { handle < end_of unit.now }
    requires ids { All (IsKnownNodeFact types.old) facts.now }
    ensures { (surroundings : List Surrounding) → IfOk result (λ row. Tells types.old types.new found.old found.new row (whole_row_of (aggregates_in types.old) (nodes_of unit.now) surroundings (nodes_seen types.old facts.now) handle kinds.Member)) }
{
    let child = child_at(unit, handle, 0);
    let operand = expression_at(facts, child);
    let token = token_at(unit, handle);
    let standing = token_at(unit, child);
    let row = judge_member(types, token, standing, unit.node(handle).name, operand)?;
    take_row(row, found)
}

/// The row of `->`, whose operand is taken as a value.
pub fn pointer_member(
    unit: &Unit,
    types: &mut Types,
    facts: &NodeFacts,
    found: &mut FailureList,
    handle: Handle,
) -> Result<NodeRow, AllocError>
    requires whole { unit.now.first ≡ 0 }
    requires node { handle < end_of unit.now }
    requires ids { All (IsKnownNodeFact types.old) facts.now }
    requires bodies { AreKnownBodies types.old }
    ensures { (surroundings : List Surrounding) → IfOk result (λ row. Tells types.old types.new found.old found.new row (whole_row_of (aggregates_in types.old) (nodes_of unit.now) surroundings (nodes_seen types.old facts.now) handle kinds.PointerMember)) }
{
    let child = child_at(unit, handle, 0);
    let operand = operand_at(types, facts, child)?;
    let token = token_at(unit, handle);
    let standing = token_at(unit, child);
    let row = judge_pointer_member(types, token, standing, unit.node(handle).name, operand)?;
    take_row(row, found)
}
