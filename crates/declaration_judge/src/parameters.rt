// Parameters by their nodes (C11 6.7.6.3).
ghost use Rattle.std.specs.Prelude.{◌≡◌, All, IfOk, IfSome, OnOk, length, option_map};
ghost use Rattle.meaning_typing.specs.Declarators.{named_if};
ghost use Rattle.c_types.specs.Layouts.{told_in};
ghost use Rattle.c_types.specs.Table.{IsTypeId, TypeTable, type_at};
ghost use Rattle.decl_judge.specs.Units.{nodes_of};
ghost use Rattle.expr_judge.specs.Rows.{SaysOnly};
ghost use Rattle.node_facts.specs.Facts.{IsKnownNodeFact, node_seen, nodes_seen};
ghost use Rattle.node_facts.specs.Growing.{TypesJoin};
ghost use Rattle.node_surroundings.specs.Seen.{surroundings_seen};
ghost use Rattle.declaration_judge.specs.Rows.{parameter_row};

use crate::row::and_breaks;
use c_tree::{Handle, Unit};
use c_types::Types;
use decl_judge::parameter_type;
use declaration_rows::parameter_node_broken;
use expr_judge::NodeRow;
use node_facts::{NodeFact, NodeFacts};
use node_surroundings::Surroundings;
use sparse_model::TypeId;
use std::alloc::AllocError;

fn named_if(of: Option<TypeId>) -> NodeFact
    ensures seen { (table : TypeTable) → node_seen table result ≡ named_if (option_map (type_at table) of) }
    ensures known { (table : TypeTable) → IfSome of (IsTypeId table) → IsKnownNodeFact table result }
{
    match of {
        Some(of) => NodeFact::NamedType(of),
        None => NodeFact::Unknown,
    }
}

/// The row of the parameter with this handle. It takes a step for each attribute behind it.
pub fn parameter(
    unit: &Unit,
    surroundings: &Surroundings,
    types: &mut Types,
    facts: &NodeFacts,
    handle: Handle,
) -> Result<NodeRow, AllocError>
    requires whole { unit.now.first ≡ 0 }
    requires surroundings { length surroundings.now ≡ length unit.now.nodes }
    requires facts { All (IsKnownNodeFact types.old) facts.now }
    ensures says { IfOk result (λ row. SaysOnly types.new row (parameter_row (told_in types.old) (nodes_of unit.now) (surroundings_seen surroundings.now) (nodes_seen types.old facts.now) handle)) }
    ensures keeps { OnOk result (TypesJoin types.old types.new) }
{
    let of = parameter_type(unit, facts, types, handle)?;
    let broken = parameter_node_broken(unit, surroundings, types, facts, handle, of)?;
    Ok(and_breaks(NodeRow::known(named_if(of)), broken))
}
