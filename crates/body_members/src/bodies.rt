// The body of a structure or a union (C11 6.7.2.1): the list of its members and where its specifier stands in, what the table
// of types takes out. What the type is called isn't known here.
ghost use Rattle.std.specs.Prelude.{◌≡◌, ◌++◌, All, IfOk, IfSome, OnOk, option_map};
ghost use Rattle.std.specs.List.{flat_map};
ghost use Rattle.meaning_typing.specs.MemberDeclarations as meaning;
ghost use Rattle.meaning_typing.specs.Units.{kind_at as kind_of};
ghost use Rattle.c_types.specs.Table.{IsBodyOver, types_in};
ghost use Rattle.node_facts.specs.Facts.{IsKnownNodeFact, nodes_seen};
ghost use Rattle.node_surroundings.specs.Seen.{surrounding_seen};
ghost use Rattle.decl_judge.specs.Asked.{first_of};
ghost use Rattle.decl_judge.specs.Units.{handles_of, nodes_of};
ghost use Rattle.body_members.specs.Seen.{IsFirstBody, IsMemberOver, body_seen, list_members, members_seen};

use crate::behind::{alignment_behind, is_packed_behind};
use crate::members::{add_members, kept_alignment};
use crate::specifiers::is_member_list;
use c_tree::{Handle, Unit};
use c_types::{AggregateBody, MemberList, Types};
use decl_judge::{kind_at, node_at};
use node_facts::NodeFacts;
use node_surroundings::Surrounding;
use sparse_model::NodeKind;
use std::alloc::{AllocError, Global};
use tag_list::TagList;

// Appends the members of a part of a list: only a declaration of members has some.
fn add_part(
    alloc: Global,
    unit: &Unit,
    types: &Types,
    facts: &NodeFacts,
    part: Handle,
    members: &mut MemberList,
) -> Result<(), AllocError>
    requires whole { unit.now.first ≡ 0 }
    requires facts { All (IsKnownNodeFact types.now) facts.now }
    requires members { All (IsMemberOver types.now) members.old }
    ensures made { OnOk result (members_seen types.now members.new ≡ members_seen types.now members.old ++ meaning.members_of_part (nodes_of unit.now) (nodes_seen types.now facts.now) (kind_of (nodes_of unit.now) part) part) }
    ensures known { OnOk result (All (IsMemberOver types.now) members.new) }
{
    match kind_at(unit, part) {
        NodeKind::MemberDeclaration => add_members(alloc, unit, types, facts, part, members),
        _ => Ok(()),
    }
}

fn members_among(
    alloc: Global,
    unit: &Unit,
    types: &Types,
    facts: &NodeFacts,
    parts: &TagList,
) -> Result<MemberList, AllocError>
    requires whole { unit.now.first ≡ 0 }
    requires facts { All (IsKnownNodeFact types.now) facts.now }
    ensures made { IfOk result (λ members. members_seen types.now members ≡ list_members (nodes_of unit.now) (nodes_seen types.now facts.now) (handles_of parts.now)) }
    ensures known { IfOk result (λ members. All (IsMemberOver types.now) members) }
{
    let mut members = MemberList::new(alloc);
    for (part, _) in parts.iter() {
        add_part(alloc, unit, types, facts, part, &mut members)?;
    }
    Ok(members)
}

/// The members that a list declares, in order. It takes a step for each part of its declarations, for each part of their
/// specifiers and for each attribute among these, and none for what stands in a body in it. A width or an alignment of more
/// than 32 bits, which none has that is known or was read, is want of memory.
pub fn members_of_list(
    alloc: Global,
    unit: &Unit,
    types: &Types,
    facts: &NodeFacts,
    list: Handle,
) -> Result<MemberList, AllocError>
    requires whole { unit.now.first ≡ 0 }
    requires facts { All (IsKnownNodeFact types.now) facts.now }
    ensures made { IfOk result (λ members. members_seen types.now members ≡ meaning.members_of_list (nodes_of unit.now) (nodes_seen types.now facts.now) list) }
    ensures known { IfOk result (λ members. All (IsMemberOver types.now) members) }
{
    match node_at(unit, list) {
        Some(node) => members_among(alloc, unit, types, facts, &node.children),
        None => Ok(MemberList::new(alloc)),
    }
}

fn list_among(unit: &Unit, children: &TagList) -> Option<Handle>
    requires { unit.now.first ≡ 0 }
    ensures { result ≡ first_of (flat_map (λ child. meaning.member_list (kind_of (nodes_of unit.now) child) child) (handles_of children.now)) }
{
    for (child, _) in children.iter() {
        if is_member_list(kind_at(unit, child)) {
            return Some(child);
        }
    }
    None
}

// The list of members of a structure or a union, if its specifier has one.
fn member_list(unit: &Unit, specifier: Handle) -> Option<Handle>
    requires { unit.now.first ≡ 0 }
    ensures { result ≡ first_of (meaning.member_lists (nodes_of unit.now) specifier) }
{
    match node_at(unit, specifier) {
        Some(node) => list_among(unit, &node.children),
        None => None,
    }
}

// The body that a list of members makes, where its specifier stands so.
fn body_of(
    alloc: Global,
    unit: &Unit,
    types: &Types,
    facts: &NodeFacts,
    surrounding: Surrounding,
    list: Handle,
) -> Result<AggregateBody, AllocError>
    requires whole { unit.now.first ≡ 0 }
    requires facts { All (IsKnownNodeFact types.now) facts.now }
    ensures made { IfOk result (λ body. body_seen types.now body ≡ meaning.declared_body (nodes_of unit.now) (meaning.attributes_behind (nodes_of unit.now) (surrounding_seen surrounding)) (meaning.members_of_list (nodes_of unit.now) (nodes_seen types.now facts.now) list)) }
    ensures known { IfOk result (λ body. IsBodyOver (types_in types.now) body) }
{
    let members = members_of_list(alloc, unit, types, facts, list)?;
    let align = kept_alignment(alignment_behind(unit, surrounding.parent, surrounding.place))?;
    let packed = is_packed_behind(unit, surrounding.parent, surrounding.place);
    Ok(AggregateBody {
        members,
        packed,
        align,
    })
}

/// The body of a structure or a union whose specifier stands so, if it has one: `Types::complete` takes it. Its attributes are
/// those directly behind it. Besides the steps of its members it takes one for each attribute there. A width or an alignment
/// of more than 32 bits, which none has that is known or was read, is want of memory.
pub fn specifier_body(
    alloc: Global,
    unit: &Unit,
    types: &Types,
    facts: &NodeFacts,
    surrounding: Surrounding,
    specifier: Handle,
) -> Result<Option<AggregateBody>, AllocError>
    requires whole { unit.now.first ≡ 0 }
    requires facts { All (IsKnownNodeFact types.now) facts.now }
    ensures made { IfOk result (λ body. IsFirstBody (nodes_of unit.now) (nodes_seen types.now facts.now) specifier (surrounding_seen surrounding) (option_map (body_seen types.now) body)) }
    ensures known { IfOk result (λ body. IfSome body (λ body. IsBodyOver (types_in types.now) body)) }
{
    match member_list(unit, specifier) {
        Some(list) => Ok(Some(body_of(alloc, unit, types, facts, surrounding, list)?)),
        None => Ok(None),
    }
}
