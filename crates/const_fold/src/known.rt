// What is known of a node of a unit: its parts and the enumerator that it names, where their types and constants are kept.
ghost use Rattle.std.specs.Prelude.{◌≡◌, ◌<◌, All, option_map};
ghost use Rattle.vocabulary.specs.declared.int_kind.IntKind.TheVariants as kinds;
ghost use Rattle.meaning_constants.specs.Nodes.{loaded_kind};
ghost use Rattle.c_types.specs.Table.{IsTypeId};
ghost use Rattle.c_tree.specs.Seen.{node_of};
ghost use Rattle.const_fold.specs.Known as known;
ghost use Rattle.const_fold.specs.Known.{IsKnownNode};
ghost use Rattle.const_fold.specs.Outlined.{known_children, loaded_kind_if, outlined_facts, outlined_part, type_with};
ghost use Rattle.const_fold.specs.Seen.{facts_seen, seen_part, parts_seen, seen_type};

use crate::children::{Children, children_of};
use crate::facts::{NodeFacts, Parts};
use crate::number::wrapped;
use crate::part::{Part, PartType};
use c_tree::{Handle, Node, Unit};
use c_types::{NodeType, NodeTypes, Outline, Types, bits, promoted_kind};
use sparse_model::{IntKind, NodeKind};

/// What is kept of the node with this handle.
pub fn kept_at(nodes: &NodeTypes, handle: Handle) -> Option<NodeType>
    ensures { result ≡ known.kept_at nodes.now handle }
{
    let index = handle as usize;
    if index < nodes.len() {
        nodes.get(index)
    } else {
        None
    }
}

/// The kind that is loaded: that of a bit-field is promoted, and an unsigned int of fewer bits is loaded as an int (C11 6.3.1.1 p2).
pub fn loaded_kind(width: Option<u32>, kind: IntKind) -> IntKind
    ensures { result ≡ loaded_kind_if width kind }
{
    match width {
        Some(width) => narrow_kind(width, kind),
        None => kind,
    }
}

fn narrow_kind(width: u32, kind: IntKind) -> IntKind
    ensures { result ≡ loaded_kind width kind }
{
    match kind {
        IntKind::UInt => narrow_unsigned(width),
        _ => promoted_kind(kind),
    }
}

fn narrow_unsigned(width: u32) -> IntKind
    ensures { result ≡ loaded_kind width kinds.UInt }
{
    if width < bits(IntKind::UInt) {
        IntKind::Int
    } else {
        IntKind::UInt
    }
}

// A type by its outline, as it is loaded.
fn part_type(width: Option<u32>, outline: Outline) -> PartType
    ensures { seen_type result ≡ type_with width outline }
{
    match outline {
        Outline::Integer(kind) => PartType::Plain(loaded_kind(width, kind)),
        Outline::Restricted(kind, _) => PartType::Restricted(kind),
        Outline::Void => PartType::Other,
        Outline::Pointer => PartType::Other,
        Outline::Array => PartType::Other,
        Outline::Function => PartType::Other,
        Outline::Aggregate(_, _) => PartType::Other,
    }
}

// The number of a constant that has these bits.
fn number_with(kind: Option<IntKind>, bits: Option<u64>) -> Option<i128>
    ensures { result ≡ known.number_with kind bits }
{
    let kind = kind?;
    let bits = bits?;
    Some(wrapped(promoted_kind(kind), i128::from(bits)))
}

/// What a node is as a part of another.
pub fn part_of(types: &Types, node: NodeType) -> Part
    requires { IsTypeId types.now node.of }
    ensures { seen_part result ≡ outlined_part (known.part_of types.now node) }
{
    let of = part_type(node.value.width, types.outline(node.of));
    Part {
        of,
        fouled: node.value.fouled,
        number: number_with(of.kind(), node.value.constant),
    }
}

/// What the node with this handle is as a part of another, if it has a type.
pub fn part_at(types: &Types, nodes: &NodeTypes, handle: Handle) -> Option<Part>
    requires { All (IsKnownNode types.now) nodes.now }
    ensures { option_map seen_part result ≡ option_map outlined_part (known.part_at types.now nodes.now handle) }
{
    let node = kept_at(nodes, handle)?;
    Some(part_of(types, node))
}

// What is known of few children.
fn parts_of(types: &Types, nodes: &NodeTypes, children: Children) -> Parts
    requires { All (IsKnownNode types.now) nodes.now }
    ensures { parts_seen result ≡ known_children (λ handle. option_map outlined_part (known.part_at types.now nodes.now handle)) children }
{
    match children {
        Children::One(first) => Parts::One(part_at(types, nodes, first)),
        Children::Two(first, second) => Parts::Two(
            part_at(types, nodes, first),
            part_at(types, nodes, second),
        ),
        Children::Three(first, second, third) => Parts::Three(
            part_at(types, nodes, first),
            part_at(types, nodes, second),
            part_at(types, nodes, third),
        ),
        Children::Other => Parts::Other,
    }
}

fn is_enumerator(kind: NodeKind) -> bool
    ensures { result ≡ known.is_enumerator kind }
{
    match kind {
        NodeKind::Enumerator => true,
        _ => false,
    }
}

// The enumerator with this handle, if it is that of one.
fn enumerator_at(unit: &Unit, types: &Types, nodes: &NodeTypes, number: u64) -> Option<Part>
    requires whole { unit.now.first ≡ 0 }
    requires kept { All (IsKnownNode types.now) nodes.now }
    ensures { option_map seen_part result ≡ option_map outlined_part (known.enumerator_at unit.now types.now nodes.now number) }
{
    if number >= u64::from(unit.len()) {
        return None;
    }
    let handle = number as u32;
    if is_enumerator(unit.kind(handle)) {
        part_at(types, nodes, handle)
    } else {
        None
    }
}

// The enumerator that a node of this kind and number names.
fn named_by(
    unit: &Unit,
    types: &Types,
    nodes: &NodeTypes,
    kind: NodeKind,
    number: u64,
) -> Option<Part>
    requires whole { unit.now.first ≡ 0 }
    requires kept { All (IsKnownNode types.now) nodes.now }
    ensures { option_map seen_part result ≡ option_map outlined_part (known.if_name kind (known.enumerator_at unit.now types.now nodes.now number)) }
{
    match kind {
        NodeKind::Name => enumerator_at(unit, types, nodes, number),
        _ => None,
    }
}

/// What is known of a node that asks for so many bytes.
pub fn facts_of(
    unit: &Unit,
    types: &Types,
    nodes: &NodeTypes,
    bytes: Option<u64>,
    node: &Node,
) -> NodeFacts
    requires whole { unit.now.first ≡ 0 }
    requires kept { All (IsKnownNode types.now) nodes.now }
    ensures { facts_seen result ≡ outlined_facts (known.node_facts unit.now types.now nodes.now bytes (node_of node.now)) }
{
    NodeFacts {
        kind: node.kind,
        number: node.number,
        parts: parts_of(types, nodes, children_of(&node.children)),
        enumerator: named_by(unit, types, nodes, node.kind, node.number),
        bytes,
    }
}
