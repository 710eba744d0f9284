// What is known of a member's declarator (C11 6.7.2.1 p9): where it stands and what is known of the nodes before it in, its name and
// its type out. A member has no storage class and no linkage. Whether it may have the type isn't known here.
ghost use Rattle.std.specs.Prelude.{◌≡◌, ◌<◌, ◌+◌, Some, All, IfOk, IfSome, OnOk, drop, option_map};
ghost use Rattle.meaning_tree.specs.Nodes.{end_of};
ghost use Rattle.meaning_typing.specs.Declarators as declarators;
ghost use Rattle.meaning_typing.specs.Declarators.{lists_in_front};
ghost use Rattle.meaning_typing.specs.MemberDeclarations as meaning;
ghost use Rattle.meaning_typing.specs.Specifiers.{marks_among, no_marks, with_marks};
ghost use Rattle.c_tree.specs.Seen.{node_of};
ghost use Rattle.c_types.specs.Table.{IsTypeId, TypeTable, type_at};
ghost use Rattle.node_facts.specs.Facts.{IsKnownNodeFact, name_seen, node_seen, nodes_seen};
ghost use Rattle.node_facts.specs.Growing.{TypesJoin};
ghost use Rattle.decl_judge.specs.Asked.{specified_in};
ghost use Rattle.decl_judge.specs.Seen.{is_list, lists_from, marks_over, marks_seen};
ghost use Rattle.decl_judge.specs.Units.{handles_of, named_node, nodes_of};
ghost use Rattle.node_surroundings.specs.Seen.{surrounding_seen};
ghost use Rattle.member_declarations.specs.Facts.{is_width, member_behind, member_type_behind};

use c_tree::{Handle, Node, Unit};
use c_types::Types;
use decl_judge::{
    Added, Marks, derived, kind_at, marks_with_list, node_at, specified_as, specifiers_of, token_at,
};
use node_facts::{DeclaredFact, NodeFact, NodeFacts, SpecifiedFact, Storage};
use node_surroundings::Surrounding;
use sparse_model::{NameId, NodeKind, TypeId};
use std::alloc::{AllocError, Global};
use tag_list::TagList;

fn is_list(kind: NodeKind) -> bool
    ensures { result ≡ is_list kind }
{
    match kind {
        NodeKind::AttributeList => true,
        _ => false,
    }
}

fn is_width(kind: NodeKind) -> bool
    ensures { result ≡ is_width kind }
{
    match kind {
        NodeKind::BitFieldWidth => true,
        _ => false,
    }
}

// What the attributes of the lists add that stand one behind the other from this place on.
fn marks_from(unit: &Unit, children: &TagList, place: u32) -> Result<Marks, AllocError>
    requires { unit.now.first ≡ 0 }
    ensures { IfOk result (λ marks. marks_seen marks ≡ marks_over (nodes_of unit.now) no_marks (lists_from (nodes_of unit.now) children.now place)) }
{
    let mut marks = Marks::none();
    for next in place..children.len() {
        let list = children.get(next).0;
        if !is_list(kind_at(unit, list)) {
            return Ok(marks);
        }
        marks = marks_with_list(unit, marks, list)?;
    }
    Ok(marks)
}

// The place behind a declarator, or behind its width, which stands before its attributes.
fn place_behind_width(unit: &Unit, children: &TagList, place: u32) -> u32
    requires { unit.now.first ≡ 0 }
    ensures { lists_from (nodes_of unit.now) children.now result ≡ lists_in_front (nodes_of unit.now) (meaning.behind_width (nodes_of unit.now) (drop (place + 1) (handles_of children.now))) }
{
    let next = place.saturating_add(1);
    if next >= children.len() {
        return next;
    }
    if is_width(kind_at(unit, children.get(next).0)) {
        return next + 1;
    }
    next
}

fn marks_behind(unit: &Unit, children: &TagList, place: u32) -> Result<Marks, AllocError>
    requires { unit.now.first ≡ 0 }
    ensures { IfOk result (λ marks. marks_seen marks ≡ marks_among (nodes_of unit.now) (lists_in_front (nodes_of unit.now) (meaning.behind_width (nodes_of unit.now) (drop (place + 1) (handles_of children.now))))) }
{
    let first = place_behind_width(unit, children, place);
    let marks = marks_from(unit, children, first)?;
    Ok(marks)
}

// What the attributes of a member add whose declarator stands at this place.
fn marks_of_member(unit: &Unit, declaration: Handle, place: u32) -> Result<Marks, AllocError>
    requires { unit.now.first ≡ 0 }
    ensures { IfOk result (λ marks. marks_seen marks ≡ marks_among (nodes_of unit.now) (meaning.lists_of_member (nodes_of unit.now) declaration place)) }
{
    match node_at(unit, declaration) {
        Some(node) => marks_behind(unit, &node.children, place),
        None => Ok(Marks::none()),
    }
}

fn type_specified(fact: NodeFact) -> Option<TypeId>
    ensures { result ≡ option_map (λ said. said.of) (specified_in fact) }
{
    match fact {
        NodeFact::Specified(said) => Some(said.of),
        _ => None,
    }
}

// A type with what attributes add to it, as they add it among specifiers.
fn marked_type(
    types: &mut Types,
    token: u32,
    marks: Marks,
    of: TypeId,
) -> Result<Option<TypeId>, AllocError>
    requires { IsTypeId types.old of }
    ensures made { IfOk result (λ made. option_map (type_at types.new) made ≡ Some (with_marks token (marks_seen marks) (type_at types.old of))) }
    ensures known { IfOk result (λ made. IfSome made (IsTypeId types.new)) }
    ensures keeps { OnOk result (TypesJoin types.old types.new) }
{
    let added = Added {
        is_const: false,
        is_volatile: false,
        marks,
    };
    let storage = Storage {
        is_typedef: false,
        is_extern: false,
        is_static: false,
        is_register: false,
    };
    let fact = specified_as(types, token, added, storage, of)?;
    Ok(type_specified(fact))
}

// What all parts of a declarator make of a type.
fn derived_by(
    alloc: Global,
    unit: &Unit,
    facts: &NodeFacts,
    types: &mut Types,
    token: u32,
    parts: &TagList,
    of: TypeId,
) -> Result<Option<TypeId>, AllocError>
    requires whole { unit.now.first ≡ 0 }
    requires facts { All (IsKnownNodeFact types.old) facts.now }
    requires of { IsTypeId types.old of }
    ensures made { IfOk result (λ found. option_map (type_at types.new) found ≡ declarators.derived_by (nodes_of unit.now) (nodes_seen types.old facts.now) token (handles_of parts.now) (type_at types.old of)) }
    ensures known { IfOk result (λ found. IfSome found (IsTypeId types.new)) }
    ensures keeps { OnOk result (TypesJoin types.old types.new) }
{
    let mut made = of;
    for (part, _) in parts.iter() {
        match derived(alloc, unit, facts, types, token, part, made)? {
            Some(next) => made = next,
            None => return Ok(None),
        }
    }
    Ok(Some(made))
}

// The type that a declarator of these parts gives to what its specifiers say.
fn member_type(
    alloc: Global,
    unit: &Unit,
    facts: &NodeFacts,
    types: &mut Types,
    surrounding: Surrounding,
    parts: &TagList,
    of: TypeId,
) -> Result<Option<TypeId>, AllocError>
    requires whole { unit.now.first ≡ 0 }
    requires facts { All (IsKnownNodeFact types.old) facts.now }
    requires of { IsTypeId types.old of }
    ensures made { IfOk result (λ found. option_map (type_at types.new) found ≡ member_type_behind (nodes_of unit.now) (nodes_seen types.old facts.now) surrounding.parent surrounding.place (handles_of parts.now) (type_at types.old of)) }
    ensures known { IfOk result (λ found. IfSome found (IsTypeId types.new)) }
    ensures keeps { OnOk result (TypesJoin types.old types.new) }
{
    let token = token_at(unit, surrounding.parent);
    match derived_by(alloc, unit, facts, types, token, parts, of)? {
        Some(derived) => {
            let marks = marks_of_member(unit, surrounding.parent, surrounding.place)?;
            let made = marked_type(types, token, marks, derived)?;
            Ok(made)
        }
        None => Ok(None),
    }
}

fn declared_if(name: NameId, of: Option<TypeId>) -> NodeFact
    ensures seen { (table : TypeTable) → node_seen table result ≡ meaning.member_declared_if (name_seen name) (option_map (type_at table) of) }
    ensures known { (table : TypeTable) → IfSome of (IsTypeId table) → IsKnownNodeFact table result }
{
    match of {
        Some(of) => NodeFact::Declared(DeclaredFact {
            name,
            of,
            is_typedef: false,
            has_linkage: false,
            is_static: false,
            is_register: false,
        }),
        None => NodeFact::Unknown,
    }
}

// What is known of a declarator behind these specifiers.
fn fact_behind(
    alloc: Global,
    unit: &Unit,
    facts: &NodeFacts,
    types: &mut Types,
    surrounding: Surrounding,
    declarator: &Node,
    specifiers: SpecifiedFact,
) -> Result<NodeFact, AllocError>
    requires whole { unit.now.first ≡ 0 }
    requires facts { All (IsKnownNodeFact types.old) facts.now }
    requires specifiers { IsTypeId types.old specifiers.of }
    ensures fact { IfOk result (λ fact. node_seen types.new fact ≡ member_behind (nodes_of unit.now) (nodes_seen types.old facts.now) surrounding.parent surrounding.place (named_node (node_of declarator.now)) (type_at types.old specifiers.of)) }
    ensures known { IfOk result (IsKnownNodeFact types.new) }
    ensures keeps { OnOk result (TypesJoin types.old types.new) }
{
    let parts = &declarator.children;
    let of = member_type(alloc, unit, facts, types, surrounding, parts, specifiers.of)?;
    Ok(declared_if(declarator.name, of))
}

/// What is known of the declarator of a member with this handle, which stands so: its name, and the type that its parts and the
/// attributes behind it make of that of its specifiers, if that is known. It takes a step a part besides those of its parts and
/// attributes.
pub fn member_fact(
    alloc: Global,
    unit: &Unit,
    facts: &NodeFacts,
    types: &mut Types,
    surrounding: Surrounding,
    handle: Handle,
) -> Result<NodeFact, AllocError>
    requires whole { unit.now.first ≡ 0 }
    requires handle { handle < end_of unit.now }
    requires facts { All (IsKnownNodeFact types.old) facts.now }
    ensures fact { IfOk result (λ fact. node_seen types.new fact ≡ meaning.member_declarator_fact (nodes_of unit.now) (nodes_seen types.old facts.now) handle (surrounding_seen surrounding)) }
    ensures known { IfOk result (IsKnownNodeFact types.new) }
    ensures keeps { OnOk result (TypesJoin types.old types.new) }
{
    let declarator = unit.node(handle);
    match specifiers_of(unit, facts, surrounding.parent) {
        Some(said) => fact_behind(alloc, unit, facts, types, surrounding, declarator, said),
        None => Ok(NodeFact::Unknown),
    }
}
