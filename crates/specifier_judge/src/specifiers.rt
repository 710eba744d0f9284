// Specifiers by their nodes (C11 6.7.2). What one of them that names a type says is known of it.
ghost use Rattle.std.specs.Prelude.{◌≡◌, ◌<◌, All, IfOk, OnOk};
ghost use Rattle.meaning_tree.specs.Nodes.{end_of};
ghost use Rattle.meaning_typing.specs.Tags as meaning;
ghost use Rattle.decl_judge.specs.Units.{nodes_of};
ghost use Rattle.expr_judge.specs.Rows.{SaysOnly};
ghost use Rattle.node_facts.specs.Facts.{IsKnownNodeFact, nodes_seen};
ghost use Rattle.node_facts.specs.Growing.{TypesJoin};

use crate::taken::take_tag;
use c_tree::{Handle, Unit};
use c_types::Types;
use expr_judge::NodeRow;
use node_facts::NodeFacts;
use std::alloc::AllocError;
use tag_rows::specifiers_row;

/// The row of the specifiers with this handle. It takes a step for each specifier, for each part of one that has a tag, and for each
/// attribute.
pub fn specifiers(
    unit: &Unit,
    types: &mut Types,
    facts: &NodeFacts,
    handle: Handle,
) -> Result<NodeRow, AllocError>
    requires whole { unit.now.first ≡ 0 }
    requires node { handle < end_of unit.now }
    requires facts { All (IsKnownNodeFact types.old) facts.now }
    ensures says { IfOk result (λ row. SaysOnly types.new row (meaning.specifiers_row (nodes_of unit.now) (nodes_seen types.old facts.now) handle)) }
    ensures keeps { OnOk result (TypesJoin types.old types.new) }
{
    let row = specifiers_row(unit, facts, types, handle)?;
    Ok(take_tag(row))
}
