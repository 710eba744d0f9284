// An enumeration that is named (C11 6.7.2.2, 6.7.2.3): its specifier and what is kept of tags in, the type out. It is that of the
// body, if one was told before, and else int. What the body says is known of its specifier.
ghost use Rattle.std.specs.Prelude.{◌≡◌, ◌<◌, ◌≤◌, All, IfOk, OnOk, length, nat_eq};
ghost use Rattle.indexmap.specs.IndexMap.{get};
ghost use Rattle.meaning_tree.specs.Nodes.{end_of};
ghost use Rattle.meaning_typing.specs.Tags as meaning;
ghost use Rattle.meaning_typing.specs.Units.{node_at as node_of_unit};
ghost use Rattle.node_facts.specs.Facts.{IsKnownNodeFact, node_seen, nodes_seen};
ghost use Rattle.node_facts.specs.Growing.{TypesJoin};
ghost use Rattle.decl_judge.specs.Units.{nodes_of};
ghost use Rattle.tag_rows.specs.Kept.{StandsFor, below};

use crate::seen::TagsSeen;
use c_tree::{Handle, Unit};
use c_types::Types;
use decl_judge::{Words, type_of_words};
use node_facts::{NodeFact, NodeFacts};
use std::alloc::AllocError;

// The handle of a body, if something is known of its specifier.
fn body_told(tags: &TagsSeen, facts: &NodeFacts, number: u64) -> Option<Handle>
    ensures { result ≡ below (length facts.now) (get nat_eq tags.now.enumerations number) }
{
    match tags.enumeration(number) {
        Some(handle) => {
            if (handle as usize) < facts.len() {
                Some(handle)
            } else {
                None
            }
        }
        None => None,
    }
}

/// What is known of an enumeration that is named without a body: what is known of the first specifier of its number that has one,
/// if that stands before, and else that it is int. It takes a few steps.
pub fn enumeration_named(
    unit: &Unit,
    tags: &TagsSeen,
    facts: &NodeFacts,
    types: &mut Types,
    handle: Handle,
) -> Result<NodeFact, AllocError>
    requires whole { unit.now.first ≡ 0 }
    requires node { handle < end_of unit.now }
    requires tags { StandsFor (nodes_of unit.now) tags.now }
    requires before { length facts.now ≤ length (nodes_of unit.now) }
    requires facts { All (IsKnownNodeFact types.old) facts.now }
    ensures fact { IfOk result (λ fact. node_seen types.new fact ≡ meaning.enumeration_named (nodes_of unit.now) (nodes_seen types.old facts.now) (node_of_unit (nodes_of unit.now) handle).number) }
    ensures known { IfOk result (IsKnownNodeFact types.new) }
    ensures keeps { OnOk result (TypesJoin types.old types.new) }
{
    match body_told(tags, facts, unit.node(handle).number) {
        Some(body) => Ok(facts.at(body)),
        None => Ok(NodeFact::NamedType(type_of_words(types, Words::none())?)),
    }
}
