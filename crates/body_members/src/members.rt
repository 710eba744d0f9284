// The members of one declaration (C11 6.7.2.1): its nodes and what is known of them in, members with their names, types, widths
// and alignments out. The list in which the declaration stands isn't known here.
ghost use Rattle.std.specs.Prelude.{◌≡◌, ◌++◌, [], None, All, IfOk, IfSome, OnOk, option_map};
ghost use Rattle.std.specs.List.{cons_option, flat_map};
ghost use Rattle.meaning_typing.specs.MemberDeclarations as meaning;
ghost use Rattle.meaning_typing.specs.Units as units;
ghost use Rattle.meaning_typing.specs.Declarators.{specifiers_of, type_declared};
ghost use Rattle.meaning_typing.specs.Facts.{fact_at};
ghost use Rattle.c_types.specs.Outlines.{aggregate_in, outline_of};
ghost use Rattle.c_types.specs.Table.{IsTypeId, type_at};
ghost use Rattle.node_facts.specs.Facts.{IsKnownNodeFact, name_seen, nodes_seen};
ghost use Rattle.decl_judge.specs.Units.{nodes_of};
ghost use Rattle.body_members.specs.Seen.{IsMemberOver, declares_member, is_tagless_among, member_by, member_seen, member_with, members_if, members_seen, nameless_type};

use crate::entries::{Entry, entries_of};
use crate::known::{specified_type, width_said};
use crate::specifiers::{has_tagless, is_nameless, specified_alignment};
use c_tree::{Handle, Unit};
use c_types::{Member, MemberList, Types};
use decl_judge::{declared_type_at, node_at};
use node_facts::NodeFacts;
use sparse_model::{NameId, TypeId};
use std::alloc::{AllocError, Global};

/// The alignment as a body keeps it. No attribute that was read has one of more than 32 bits, so one that has is want of memory.
pub fn kept_alignment(alignment: u64) -> Result<u32, AllocError>
    ensures { IfOk result (λ align. align ≡ alignment) }
{
    match u32::try_from(alignment) {
        Ok(align) => Ok(align),
        Err(_) => Err(AllocError),
    }
}

// A declarator that has no name is that of a bit-field.
fn name_said(name: NameId) -> Option<NameId>
    ensures { option_map name_seen result ≡ meaning.name_said (name_seen name) }
{
    if name.0 != 0 { Some(name) } else { None }
}

fn name_at(unit: &Unit, declarator: Handle) -> Option<NameId>
    requires { unit.now.first ≡ 0 }
    ensures { option_map name_seen result ≡ meaning.name_said (units.node_at (nodes_of unit.now) declarator).name }
{
    match node_at(unit, declarator) {
        Some(node) => name_said(node.name),
        None => None,
    }
}

// The member of an entry that has this type.
fn member_of_type(
    unit: &Unit,
    types: &Types,
    facts: &NodeFacts,
    specified: u64,
    entry: Entry,
    of: TypeId,
) -> Result<Member, AllocError>
    requires whole { unit.now.first ≡ 0 }
    requires facts { All (IsKnownNodeFact types.now) facts.now }
    ensures made { IfOk result (λ member. member_seen types.now member ≡ member_with (nodes_of unit.now) (nodes_seen types.now facts.now) specified entry (type_at types.now of)) }
    ensures of { IfOk result (λ member. member.of ≡ of) }
{
    let width = width_said(types, facts, entry.width)?;
    let align = kept_alignment(specified.max(entry.written))?;
    Ok(Member {
        name: name_at(unit, entry.declarator),
        of,
        width,
        align,
    })
}

// Whether a declarator declares a member of this type: one without a name is a bit-field, and has a type of integers.
fn declares_member(unit: &Unit, types: &Types, declarator: Handle, of: TypeId) -> bool
    requires whole { unit.now.first ≡ 0 }
    requires of { IsTypeId types.now of }
    ensures { result ≡ declares_member (units.node_at (nodes_of unit.now) declarator).name (type_at types.now of) }
{
    !is_nameless(unit, declarator) || types.is_integer(of)
}

// The type of the member that a declarator declares, if it does.
#[tactic(auto, using(crate::proofs::TypeLemmas::untyped, crate::proofs::TypeLemmas::declares, crate::proofs::TypeLemmas::declares_none))]
fn member_type_at(
    unit: &Unit,
    types: &Types,
    facts: &NodeFacts,
    declarator: Handle,
) -> Option<TypeId>
    requires whole { unit.now.first ≡ 0 }
    requires facts { All (IsKnownNodeFact types.now) facts.now }
    ensures made { option_map (type_at types.now) result ≡ meaning.type_of_entry (units.node_at (nodes_of unit.now) declarator).name (type_declared (fact_at (nodes_seen types.now facts.now) declarator)) }
    ensures known { IfSome result (IsTypeId types.now) }
{
    let of = declared_type_at(facts, declarator)?;
    if declares_member(unit, types, declarator, of) {
        return Some(of);
    }
    None
}

// The member of an entry behind specifiers among which this alignment is written. Of what isn't known there is none.
fn entry_member(
    unit: &Unit,
    types: &Types,
    facts: &NodeFacts,
    specified: u64,
    entry: Entry,
) -> Result<Option<Member>, AllocError>
    requires whole { unit.now.first ≡ 0 }
    requires facts { All (IsKnownNodeFact types.now) facts.now }
    ensures made { IfOk result (λ found. members_if types.now found ≡ member_by (nodes_of unit.now) (nodes_seen types.now facts.now) specified entry) }
    ensures known { IfOk result (λ found. IfSome found (IsMemberOver types.now)) }
{
    match member_type_at(unit, types, facts, entry.declarator) {
        Some(of) => Ok(Some(member_of_type(unit, types, facts, specified, entry, of)?)),
        None => Ok(None),
    }
}

fn add_member(members: &mut MemberList, found: Option<Member>) -> Result<(), AllocError>
    ensures { OnOk result (members.new ≡ members.old ++ cons_option found []) }
{
    match found {
        Some(member) => match members.push(member) {
            Ok(()) => Ok(()),
            Err((fault, _)) => Err(fault),
        },
        None => Ok(()),
    }
}

// The members of entries behind specifiers among which this alignment is written.
fn add_entries(
    unit: &Unit,
    types: &Types,
    facts: &NodeFacts,
    specified: u64,
    entries: &[Entry],
    members: &mut MemberList,
) -> Result<(), AllocError>
    requires whole { unit.now.first ≡ 0 }
    requires facts { All (IsKnownNodeFact types.now) facts.now }
    requires members { All (IsMemberOver types.now) members.old }
    ensures made { OnOk result (members_seen types.now members.new ≡ members_seen types.now members.old ++ flat_map (member_by (nodes_of unit.now) (nodes_seen types.now facts.now) specified) entries.now) }
    ensures known { OnOk result (All (IsMemberOver types.now) members.new) }
{
    for entry in entries {
        let found = entry_member(unit, types, facts, specified, *entry)?;
        add_member(members, found)?;
    }
    Ok(())
}

fn nameless_of_type(unit: &Unit, declaration: Handle, of: TypeId) -> Result<Member, AllocError>
    requires { unit.now.first ≡ 0 }
    ensures { IfOk result (λ member. member ≡ record { name = None; of = of; width = None; align = meaning.member_alignment (nodes_of unit.now) declaration [] }) }
{
    let align = kept_alignment(specified_alignment(unit, declaration))?;
    Ok(Member {
        name: None,
        of,
        width: None,
        align,
    })
}

// Whether a type is that of a structure or union that stands without a tag and with its members among the specifiers of a declaration.
fn is_type_of_tagless(unit: &Unit, types: &Types, declaration: Handle, of: TypeId) -> bool
    requires whole { unit.now.first ≡ 0 }
    requires of { IsTypeId types.now of }
    ensures { result ≡ is_tagless_among (nodes_of unit.now) (aggregate_in (outline_of (type_at types.now of))) (units.children_at (nodes_of unit.now) (units.child_at (nodes_of unit.now) declaration 0)) }
{
    match types.outline(of).aggregate() {
        Some((number, _)) => has_tagless(unit, declaration, number),
        None => false,
    }
}

// The type of a member without a declarator, if the declaration has one (p13).
#[tactic(auto, using(crate::proofs::TypeLemmas::tagless_told))]
fn nameless_type_at(
    unit: &Unit,
    types: &Types,
    facts: &NodeFacts,
    declaration: Handle,
) -> Option<TypeId>
    requires whole { unit.now.first ≡ 0 }
    requires facts { All (IsKnownNodeFact types.now) facts.now }
    ensures made { option_map (type_at types.now) result ≡ nameless_type (nodes_of unit.now) declaration (meaning.specified_type (specifiers_of (nodes_of unit.now) (nodes_seen types.now facts.now) declaration)) }
    ensures known { IfSome result (IsTypeId types.now) }
{
    let of = specified_type(unit, facts, declaration)?;
    if is_type_of_tagless(unit, types, declaration, of) {
        return Some(of);
    }
    None
}

// A structure or union without a tag is a member without a declarator (p13).
#[tactic(auto, using(crate::proofs::TypeLemmas::nameless_told))]
fn nameless_member(
    unit: &Unit,
    types: &Types,
    facts: &NodeFacts,
    declaration: Handle,
) -> Result<Option<Member>, AllocError>
    requires whole { unit.now.first ≡ 0 }
    requires facts { All (IsKnownNodeFact types.now) facts.now }
    ensures made { IfOk result (λ found. members_if types.now found ≡ meaning.nameless_member (nodes_of unit.now) (nodes_seen types.now facts.now) declaration) }
    ensures known { IfOk result (λ found. IfSome found (IsMemberOver types.now)) }
{
    match nameless_type_at(unit, types, facts, declaration) {
        Some(of) => Ok(Some(nameless_of_type(unit, declaration, of)?)),
        None => Ok(None),
    }
}

/// Appends the members of a declaration. It takes a step for each of its parts and specifiers, and for each attribute among
/// them.
pub fn add_members(
    alloc: Global,
    unit: &Unit,
    types: &Types,
    facts: &NodeFacts,
    declaration: Handle,
    members: &mut MemberList,
) -> Result<(), AllocError>
    requires whole { unit.now.first ≡ 0 }
    requires facts { All (IsKnownNodeFact types.now) facts.now }
    requires members { All (IsMemberOver types.now) members.old }
    ensures made { OnOk result (members_seen types.now members.new ≡ members_seen types.now members.old ++ meaning.members_by (nodes_of unit.now) (nodes_seen types.now facts.now) declaration (meaning.member_entries (nodes_of unit.now) declaration)) }
    ensures known { OnOk result (All (IsMemberOver types.now) members.new) }
{
    let entries = entries_of(alloc, unit, declaration)?;
    if entries.is_empty() {
        let found = nameless_member(unit, types, facts, declaration)?;
        return add_member(members, found);
    }
    let specified = specified_alignment(unit, declaration);
    add_entries(unit, types, facts, specified, &entries, members)
}
