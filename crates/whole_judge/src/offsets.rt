// The row of `__builtin_offsetof`, but for its constant (C11 7.19 p3).
ghost use Rattle.std.specs.Prelude.{◌≡◌, ◌<◌, All, IfOk, List};
ghost use Rattle.vocabulary.specs.declared.node_kind.NodeKind.TheVariants as kinds;
ghost use Rattle.meaning_tree.specs.Nodes.{end_of};
ghost use Rattle.meaning_typing.specs.OffsetRows as meaning;
ghost use Rattle.meaning_typing.specs.Surroundings.{Surrounding};
ghost use Rattle.meaning_typing.specs.Typing.{token_at};
ghost use Rattle.meaning_typing.specs.WholeTyping.{whole_row_of};
ghost use Rattle.c_types.specs.Table.{IsTypeId, type_at};
ghost use Rattle.decl_judge.specs.Units.{nodes_of};
ghost use Rattle.expr_judge.specs.Rows.{Tells};
ghost use Rattle.member_rows.specs.Aggregates.{aggregates_in};
ghost use Rattle.node_facts.specs.Facts.{IsKnownNodeFact, nodes_seen};
ghost use Rattle.whole_judge.specs.Known.{AreKnownBodies};
ghost use Rattle.whole_judge.specs.Walks.{walk_in};

use crate::walk::walk_along;
use c_tree::{Handle, Unit};
use c_types::Types;
use decl_judge::child_at;
use expr_judge::{NodeRow, take_row};
use member_rows::{Reached, judge_offset, step_to_member};
use node_facts::{NodeFact, NodeFacts};
use sparse_model::{FailureList, TypeId};
use std::alloc::AllocError;

// In an object of this type.
fn offset_in(
    unit: &Unit,
    types: &mut Types,
    facts: &NodeFacts,
    found: &mut FailureList,
    handle: Handle,
    of: TypeId,
) -> Result<NodeRow, AllocError>
    requires whole { unit.now.first ≡ 0 }
    requires node { handle < end_of unit.now }
    requires ids { All (IsKnownNodeFact types.old) facts.now }
    requires bodies { AreKnownBodies types.old }
    requires of { IsTypeId types.old of }
    ensures { IfOk result (λ row. Tells types.old types.new found.old found.new row (meaning.offset_by (token_at (nodes_of unit.now) handle) (walk_in (aggregates_in types.old) (nodes_of unit.now) (nodes_seen types.old facts.now) handle (type_at types.old of)))) }
{
    let node = unit.node(handle);
    let first = step_to_member(types, node.token, node.name, Reached::begin(of));
    let walked = walk_along(unit, types, facts, found, &node.children, first)?;
    let row = judge_offset(types, node.token, walked.broken, walked.reached)?;
    take_row(row, found)
}

/// The row of `__builtin_offsetof`, whose first part names a type. It takes a few steps for each designator.
pub fn offset(
    unit: &Unit,
    types: &mut Types,
    facts: &NodeFacts,
    found: &mut FailureList,
    handle: Handle,
) -> Result<NodeRow, AllocError>
    requires whole { unit.now.first ≡ 0 }
    requires node { handle < end_of unit.now }
    requires ids { All (IsKnownNodeFact types.old) facts.now }
    requires bodies { AreKnownBodies types.old }
    ensures { (surroundings : List Surrounding) → IfOk result (λ row. Tells types.old types.new found.old found.new row (whole_row_of (aggregates_in types.old) (nodes_of unit.now) surroundings (nodes_seen types.old facts.now) handle kinds.BuiltinOffsetof)) }
{
    match facts.at(child_at(unit, handle, 0)) {
        NodeFact::NamedType(of) => offset_in(unit, types, facts, found, handle, of),
        _ => Ok(NodeRow::known(NodeFact::Unknown)),
    }
}
