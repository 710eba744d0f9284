// The parts of a declarator (C11 6.7.6): each makes one type of another, from the specified type outwards.
ghost use Rattle.std.specs.Prelude.{◌≡◌, All, IfOk, IfSome, OnOk, Some, option_map};
ghost use Rattle.meaning_typing.specs.Declarators as meaning;
ghost use Rattle.meaning_typing.specs.Specifiers.{marks_among, with_marks};
ghost use Rattle.meaning_typing.specs.Units as units;
ghost use Rattle.c_types.specs.Table.{IsTypeId, type_at};
ghost use Rattle.node_facts.specs.Facts.{IsKnownNodeFact, node_seen, nodes_seen};
ghost use Rattle.node_facts.specs.Growing.{TypesJoin};
ghost use Rattle.decl_judge.specs.Asked.{array_by, first_of};
ghost use Rattle.decl_judge.specs.Units.{handles_of, nodes_of};

use crate::marking::{Added, array_type, pointer_with, with_marks};
use crate::marks::marks_among;
use crate::nodes::node_at;
use crate::parameters::function_of;
use crate::words::words_of;
use c_tree::{Handle, Node, Unit};
use c_types::Types;
use node_facts::{NodeFact, NodeFacts, part_of};
use sparse_model::{NodeKind, TypeId};
use std::alloc::{AllocError, Global};
use tag_list::TagList;

// A pointer with its own qualifiers (6.7.6.1 p1), and with what its attributes add.
fn pointer_type(
    unit: &Unit,
    types: &mut Types,
    token: u32,
    children: &TagList,
    target: TypeId,
) -> Result<TypeId, AllocError>
    requires whole { unit.now.first ≡ 0 }
    requires target { IsTypeId types.old target }
    ensures made { IfOk result (λ id. type_at types.new id ≡ meaning.pointer_type (nodes_of unit.now) token (handles_of children.now) (type_at types.old target)) }
    ensures known { IfOk result (IsTypeId types.new) }
    ensures keeps { OnOk result (TypesJoin types.old types.new) }
{
    let words = words_of(unit, children);
    let marks = marks_among(unit, children)?;
    let added = Added {
        is_const: words.is_const,
        is_volatile: words.is_volatile,
        marks,
    };
    pointer_with(types, token, added, target)
}

// A type with what lists of attributes add.
fn attributed(
    unit: &Unit,
    types: &mut Types,
    token: u32,
    children: &TagList,
    of: TypeId,
) -> Result<TypeId, AllocError>
    requires whole { unit.now.first ≡ 0 }
    requires of { IsTypeId types.old of }
    ensures made { IfOk result (λ id. type_at types.new id ≡ with_marks token (marks_among (nodes_of unit.now) (handles_of children.now)) (type_at types.old of)) }
    ensures known { IfOk result (IsTypeId types.new) }
    ensures keeps { OnOk result (TypesJoin types.old types.new) }
{
    let marks = marks_among(unit, children)?;
    with_marks(types, token, marks, of)
}

// The length that a number gives, if it isn't below 0 (6.7.6.2 p1). The number of a constant that is read of 64 bits has
// no more of them, so one that has is want of memory.
fn length_of_number(number: Option<i128>) -> Result<Option<u64>, AllocError>
    ensures { IfOk result (λ length. length ≡ meaning.length_of_number number) }
{
    match number {
        None => Ok(None),
        Some(number) => length_of(number),
    }
}

fn length_of(number: i128) -> Result<Option<u64>, AllocError>
    ensures { IfOk result (λ length. length ≡ meaning.length_of_number (Some number)) }
{
    if number < 0 {
        return Ok(None);
    }
    match u64::try_from(number) {
        Ok(length) => Ok(Some(length)),
        Err(_) => Err(AllocError),
    }
}

// The length that the constant of a size gives.
fn length_said(types: &Types, size: NodeFact) -> Result<Option<u64>, AllocError>
    requires { IsKnownNodeFact types.now size }
    ensures { IfOk result (λ length. length ≡ meaning.length_said (node_seen types.now size)) }
{
    match size {
        NodeFact::Expression(expression) => {
            length_of_number(part_of(types, expression.node).number)
        }
        _ => Ok(None),
    }
}

fn first_child(children: &TagList) -> Option<Handle>
    ensures { result ≡ first_of (handles_of children.now) }
{
    match children.iter().next() {
        Some((first, _)) => Some(first),
        None => None,
    }
}

// An array by what is known of its size.
fn array_of_size(
    types: &mut Types,
    size: NodeFact,
    element: TypeId,
) -> Result<Option<TypeId>, AllocError>
    requires size { IsKnownNodeFact types.old size }
    requires element { IsTypeId types.old element }
    ensures made { IfOk result (λ found. option_map (type_at types.new) found ≡ array_by (node_seen types.old size) (type_at types.old element)) }
    ensures known { IfOk result (λ found. IfSome found (IsTypeId types.new)) }
    ensures keeps { OnOk result (TypesJoin types.old types.new) }
{
    match length_said(types, size)? {
        Some(length) => Ok(Some(array_type(types, element, Some(length))?)),
        None => Ok(None),
    }
}

// An array by its size, of which nothing is known where none is written (6.7.6.2 p4).
fn array_of(
    facts: &NodeFacts,
    types: &mut Types,
    children: &TagList,
    element: TypeId,
) -> Result<Option<TypeId>, AllocError>
    requires facts { All (IsKnownNodeFact types.old) facts.now }
    requires element { IsTypeId types.old element }
    ensures made { IfOk result (λ found. option_map (type_at types.new) found ≡ meaning.array_of (nodes_seen types.old facts.now) (handles_of children.now) (type_at types.old element)) }
    ensures known { IfOk result (λ found. IfSome found (IsTypeId types.new)) }
    ensures keeps { OnOk result (TypesJoin types.old types.new) }
{
    match first_child(children) {
        Some(size) => array_of_size(types, facts.at(size), element),
        None => Ok(Some(array_type(types, element, None)?)),
    }
}

// What a part makes of a type.
fn derived_by_node(
    alloc: Global,
    unit: &Unit,
    facts: &NodeFacts,
    types: &mut Types,
    token: u32,
    part: &Node,
    of: TypeId,
) -> Result<Option<TypeId>, AllocError>
    requires whole { unit.now.first ≡ 0 }
    requires facts { All (IsKnownNodeFact types.old) facts.now }
    requires of { IsTypeId types.old of }
    ensures made { IfOk result (λ found. option_map (type_at types.new) found ≡ meaning.derived (nodes_of unit.now) (nodes_seen types.old facts.now) token part.now.kind (handles_of part.now.children) (type_at types.old of)) }
    ensures known { IfOk result (λ found. IfSome found (IsTypeId types.new)) }
    ensures keeps { OnOk result (TypesJoin types.old types.new) }
{
    let children = &part.children;
    match part.kind {
        NodeKind::PointerDeclarator => { Ok(Some(pointer_type(unit, types, token, children, of)?)) }
        NodeKind::ArrayDeclarator => array_of(facts, types, children, of),
        NodeKind::FunctionDeclarator => function_of(alloc, unit, facts, types, children, of),
        NodeKind::ParenthesizedAttributes => {
            Ok(Some(attributed(unit, types, token, children, of)?))
        }
        _ => Ok(None),
    }
}

/// What one part of a declarator makes of a type, in a declaration that begins at this token.
pub fn derived(
    alloc: Global,
    unit: &Unit,
    facts: &NodeFacts,
    types: &mut Types,
    token: u32,
    part: Handle,
    of: TypeId,
) -> Result<Option<TypeId>, AllocError>
    requires whole { unit.now.first ≡ 0 }
    requires facts { All (IsKnownNodeFact types.old) facts.now }
    requires of { IsTypeId types.old of }
    ensures made { IfOk result (λ found. option_map (type_at types.new) found ≡ meaning.derived (nodes_of unit.now) (nodes_seen types.old facts.now) token (units.kind_at (nodes_of unit.now) part) (units.children_at (nodes_of unit.now) part) (type_at types.old of)) }
    ensures known { IfOk result (λ found. IfSome found (IsTypeId types.new)) }
    ensures keeps { OnOk result (TypesJoin types.old types.new) }
{
    match node_at(unit, part) {
        Some(node) => derived_by_node(alloc, unit, facts, types, token, node, of),
        None => Ok(None),
    }
}

/// What all parts of a declarator make of a type. It takes a step a part besides those of the parts.
pub fn derived_by(
    alloc: Global,
    unit: &Unit,
    facts: &NodeFacts,
    types: &mut Types,
    token: u32,
    parts: &TagList,
    of: TypeId,
) -> Result<Option<TypeId>, AllocError>
    requires whole { unit.now.first ≡ 0 }
    requires facts { All (IsKnownNodeFact types.old) facts.now }
    requires of { IsTypeId types.old of }
    ensures made { IfOk result (λ found. option_map (type_at types.new) found ≡ meaning.derived_by (nodes_of unit.now) (nodes_seen types.old facts.now) token (handles_of parts.now) (type_at types.old of)) }
    ensures known { IfOk result (λ found. IfSome found (IsTypeId types.new)) }
    ensures keeps { OnOk result (TypesJoin types.old types.new) }
{
    let mut made = of;
    for (part, _) in parts.iter() {
        match derived(alloc, unit, facts, types, token, part, made)? {
            Some(next) => made = next,
            None => return Ok(None),
        }
    }
    Ok(Some(made))
}
