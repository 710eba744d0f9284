// Specifiers of structures and unions by their nodes (C11 6.7.2.1, 6.7.2.3): what the body declares is looked up, and what the type
// comes to. The body is told to the table elsewhere.
ghost use Rattle.std.specs.Prelude.{◌≡◌, ◌<◌, IfOk, OnOk, length, nat_le, true};
ghost use Rattle.meaning_tree.specs.Nodes.{end_of};
ghost use Rattle.meaning_typing.specs.MemberDeclarations as members;
ghost use Rattle.meaning_typing.specs.MemberRows as meaning;
ghost use Rattle.meaning_typing.specs.Units.{kind_at as kind_of};
ghost use Rattle.aggregate_rows.specs.Bodies.{is_aggregate};
ghost use Rattle.decl_judge.specs.Units.{handles_of, nodes_of};
ghost use Rattle.expr_judge.specs.Rows.{SaysOnly};
ghost use Rattle.node_facts.specs.Facts.{nodes_seen};
ghost use Rattle.node_facts.specs.Growing.{TypesJoin};
ghost use Rattle.node_surroundings.specs.Seen.{surroundings_seen};
ghost use Rattle.tag_rows.specs.Kept.{StandsFor};
ghost use Rattle.specifier_judge.specs.Kinds.{is_member_list};
ghost use Rattle.specifier_judge.specs.Known.{IsKnownBefore};
ghost use Rattle.specifier_judge.specs.Parts.{lists_among};

use crate::taken::take_aggregate;
use aggregate_rows::judge_aggregate_specifier;
use body_members::specifier_body;
use c_tree::{Handle, Unit};
use c_types::Types;
use decl_judge::kind_at;
use expr_judge::NodeRow;
use node_facts::NodeFacts;
use node_surroundings::Surroundings;
use sparse_model::NodeKind;
use std::alloc::{AllocError, Global};
use tag_list::TagList;
use tag_rows::TagsSeen;

fn is_member_list(kind: NodeKind) -> bool
    ensures { result ≡ is_member_list kind }
{
    match kind {
        NodeKind::MemberList => true,
        _ => false,
    }
}

// Whether no more than one list of members is among children.
fn is_one_list(unit: &Unit, children: &TagList) -> bool
    requires { unit.now.first ≡ 0 }
    ensures { result ≡ nat_le (length (lists_among (nodes_of unit.now) (handles_of children.now))) 1 }
{
    let mut has_list = false;
    for (child, _) in children.iter() {
        if !is_member_list(kind_at(unit, child)) {
            continue;
        }
        if has_list {
            return false;
        }
        has_list = true;
    }
    true
}

// Whether a specifier has no more than one.
fn has_one_body(unit: &Unit, handle: Handle) -> bool
    requires whole { unit.now.first ≡ 0 }
    requires node { handle < end_of unit.now }
    ensures { result ≡ nat_le (length (members.member_lists (nodes_of unit.now) handle)) 1 }
{
    is_one_list(unit, &unit.node(handle).children)
}

/// The row of the specifier of a structure or a union with this handle, by the layouts that the table was told. It takes a few steps,
/// and one for each member and for each of its parts. A number of more than 32 bits, or a second list of members, which no specifier
/// has that was read, is want of memory.
pub fn aggregate(
    alloc: Global,
    unit: &Unit,
    surroundings: &Surroundings,
    tags: &TagsSeen,
    types: &mut Types,
    facts: &NodeFacts,
    handle: Handle,
    is_union: bool,
) -> Result<NodeRow, AllocError>
    requires whole { unit.now.first ≡ 0 }
    requires node { handle < end_of unit.now }
    requires kind { is_aggregate (kind_of (nodes_of unit.now) handle) ≡ true }
    requires surroundings { length surroundings.now ≡ length unit.now.nodes }
    requires tags { StandsFor (nodes_of unit.now) tags.now }
    requires known { IsKnownBefore (nodes_of unit.now) (surroundings_seen surroundings.now) types.old facts.now handle }
    ensures says { IfOk result (λ row. SaysOnly types.new row (meaning.aggregate_specifier_row (nodes_of unit.now) (surroundings_seen surroundings.now) (nodes_seen types.old facts.now) handle is_union)) }
    ensures keeps { OnOk result (TypesJoin types.old types.new) }
{
    if !has_one_body(unit, handle) {
        return Err(AllocError);
    }
    let surrounding = surroundings.get(handle);
    let body = specifier_body(alloc, unit, types, facts, surrounding, handle)?;
    let row = judge_aggregate_specifier(unit, types, tags, body.as_ref(), handle, is_union)?;
    Ok(take_aggregate(row))
}
