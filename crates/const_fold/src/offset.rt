// How far what a `__builtin_offsetof` leads to lies (C11 7.19 p3).
ghost use Rattle.std.specs.Prelude.{◌≡◌, ◌∷◌, ◌+◌, [], All, IfSome, None, Some, drop, length, option_map};
ghost use Rattle.c_types.specs.Layouts.{told_in};
ghost use Rattle.c_types.specs.Table.{IsTypeId, type_at};
ghost use Rattle.meaning_constants.specs.Sizes.{ElementAt, NamedMember, element_spot, spot_along, spot_behind, spot_within};
ghost use Rattle.meaning_constants.specs.Sizes as sizes;
ghost use Rattle.c_tree.specs.Seen.{node_of};
ghost use Rattle.const_fold.specs.Known.{IsKnownNode};
ghost use Rattle.const_fold.specs.Seen.{seen_part};
ghost use Rattle.const_fold.specs.Offsets.{designator_at, designator_by, designators_at, element_in, index_few, members_of, number_of, offset_of_node, spot_seen, step_seen};

use crate::children::{Children, children_of};
use crate::known::{kept_at, part_at};
use crate::part::Part;
use crate::sized::asked_size;
use c_tree::{Handle, Node, TagList, Unit};
use c_types::{NodeTypes, OuterBase, Outline, Types};
use sparse_model::{NameId, NodeKind, TypeId};

/// The most bytes that an object may have: 2^40.
const MOST_BYTES: u128 = 1 << 40;

/// A place in an object: so many bytes from its begin, and of this type.
#[derive(Clone, Copy)]
pub struct Spot {
    pub bytes: u64,
    pub of: TypeId,
}

/// A step from an object to a part of it.
#[derive(Clone, Copy)]
pub enum Step {
    Member(NameId),
    /// An element, by its index where that is a constant.
    Element(Option<i128>),
}

fn number_of(part: Option<Part>) -> Option<i128>
    ensures { result ≡ number_of (option_map seen_part part) }
{
    part?.number
}

// The constant of the only part.
fn index_of(types: &Types, nodes: &NodeTypes, children: Children) -> Option<i128>
    requires { All (IsKnownNode types.now) nodes.now }
    ensures { result ≡ index_few types.now nodes.now children }
{
    match children {
        Children::One(child) => number_of(part_at(types, nodes, child)),
        Children::Two(_, _) => None,
        Children::Three(_, _, _) => None,
        Children::Other => None,
    }
}

// What a node designates; one that is no designator leads nowhere.
fn designator_of(types: &Types, nodes: &NodeTypes, node: &Node) -> Step
    requires { All (IsKnownNode types.now) nodes.now }
    ensures { step_seen result ≡ designator_by types.now nodes.now node.now.kind (node_of node.now) }
{
    match node.kind {
        NodeKind::MemberDesignator => Step::Member(node.name),
        NodeKind::IndexDesignator => {
            Step::Element(index_of(types, nodes, children_of(&node.children)))
        }
        _ => Step::Element(None),
    }
}

// What the node with this handle designates, if there is one.
fn designator_at(unit: &Unit, types: &Types, nodes: &NodeTypes, handle: Handle) -> Step
    requires whole { unit.now.first ≡ 0 }
    requires kept { All (IsKnownNode types.now) nodes.now }
    ensures { step_seen result ≡ designator_at unit.now types.now nodes.now handle }
{
    if handle >= unit.len() {
        return Step::Element(None);
    }
    designator_of(types, nodes, unit.node(handle))
}

// A spot, unless it lies further on than an object may have bytes.
fn spot_within(types: &Types, bytes: u128, of: TypeId) -> Option<Spot>
    requires { IsTypeId types.now of }
    ensures spot { option_map (spot_seen types.now) result ≡ spot_within bytes (type_at types.now of) }
    ensures known { IfSome result (λ spot. IsTypeId types.now spot.of) }
{
    if bytes <= MOST_BYTES {
        Some(Spot {
            bytes: bytes as u64,
            of,
        })
    } else {
        None
    }
}

// The member of an aggregate with this name.
fn member_spot(types: &Types, bytes: u64, number: u32, is_union: bool, name: NameId) -> Option<Spot>
    ensures spot { option_map (spot_seen types.now) result ≡ spot_behind bytes (members_of types.now number is_union name) }
    ensures known { IfSome result (λ spot. IsTypeId types.now spot.of) }
{
    let found = types.member(number, name)?;
    let bit = types.member_bits(number, is_union, &found)?;
    spot_within(types, u128::from(bytes) + u128::from(bit / 8), found.of)
}

// The element with this index.
fn element_spot(types: &Types, bytes: u64, element: TypeId, index: u128) -> Option<Spot>
    requires { IsTypeId types.now element }
    ensures spot { option_map (spot_seen types.now) result ≡ element_spot bytes (type_at types.now element) (sizes.asked_size (told_in types.now) (type_at types.now element)) index }
    ensures known { IfSome result (λ spot. IsTypeId types.now spot.of) }
{
    let size = asked_size(types, element)?;
    if size == 0 {
        return spot_within(types, u128::from(bytes), element);
    }
    if index > MOST_BYTES {
        return None;
    }
    spot_within(types, u128::from(bytes) + index * u128::from(size), element)
}

/// The element of an array.
pub fn element_of(types: &Types, t: TypeId) -> Option<TypeId>
    requires { IsTypeId types.now t }
    ensures element { option_map (type_at types.now) result ≡ element_in (type_at types.now t) }
    ensures known { IfSome result (IsTypeId types.now) }
{
    match types.outline(t) {
        Outline::Array => array_element(types, t),
        _ => None,
    }
}

fn array_element(types: &Types, t: TypeId) -> Option<TypeId>
    requires { IsTypeId types.now t }
    ensures element { option_map (type_at types.now) result ≡ element_in (type_at types.now t) }
    ensures known { IfSome result (IsTypeId types.now) }
{
    match types.shape(t).base {
        OuterBase::Array(element, _) => Some(element),
        _ => None,
    }
}

// Where a name leads.
fn named(types: &Types, name: NameId, spot: Spot) -> Option<Spot>
    requires { IsTypeId types.now spot.of }
    ensures spot { option_map (spot_seen types.now) result ≡ sizes.designated (told_in types.now) (members_of types.now) (NamedMember name) spot.bytes (type_at types.now spot.of) }
    ensures known { IfSome result (λ spot. IsTypeId types.now spot.of) }
{
    let (number, is_union) = types.outline(spot.of).aggregate()?;
    member_spot(types, spot.bytes, number, is_union, name)
}

// Where an index leads.
fn indexed(types: &Types, index: i128, spot: Spot) -> Option<Spot>
    requires { IsTypeId types.now spot.of }
    ensures spot { option_map (spot_seen types.now) result ≡ sizes.designated (told_in types.now) (members_of types.now) (ElementAt (Some index)) spot.bytes (type_at types.now spot.of) }
    ensures known { IfSome result (λ spot. IsTypeId types.now spot.of) }
{
    if index < 0 {
        return None;
    }
    let element = element_of(types, spot.of)?;
    element_spot(types, spot.bytes, element, index.unsigned_abs())
}

// Where a step leads.
fn designated(types: &Types, step: Step, spot: Spot) -> Option<Spot>
    requires { IsTypeId types.now spot.of }
    ensures spot { option_map (spot_seen types.now) result ≡ sizes.designated (told_in types.now) (members_of types.now) (step_seen step) spot.bytes (type_at types.now spot.of) }
    ensures known { IfSome result (λ spot. IsTypeId types.now spot.of) }
{
    match step {
        Step::Member(name) => named(types, name, spot),
        Step::Element(Some(index)) => indexed(types, index, spot),
        Step::Element(None) => None,
    }
}

// How far the designators behind the first part lead from a spot.
fn offset_along(
    unit: &Unit,
    types: &Types,
    nodes: &NodeTypes,
    children: &TagList,
    from: Spot,
) -> Option<u64>
    requires whole { unit.now.first ≡ 0 }
    requires kept { All (IsKnownNode types.now) nodes.now }
    requires known { IsTypeId types.now from.of }
    ensures { result ≡ option_map (λ spot. spot.bytes) (spot_along (told_in types.now) (members_of types.now) (designators_at unit.now types.now nodes.now (drop 1 children.now)) (Some (spot_seen types.now from))) }
{
    let mut spot = from;
    let mut place = 1;
    'designators: while place < children.len() {
        let (child, _) = children.get(place);
        spot = designated(types, designator_at(unit, types, nodes, child), spot)?;
        place += 1;
    }
    Some(spot.bytes)
}

// How far a node's member and the designators behind it lead in an object of this type.
fn offset_in(unit: &Unit, types: &Types, nodes: &NodeTypes, node: &Node, of: TypeId) -> Option<u64>
    requires whole { unit.now.first ≡ 0 }
    requires kept { All (IsKnownNode types.now) nodes.now }
    requires known { IsTypeId types.now of }
    ensures { result ≡ sizes.offset_along (told_in types.now) (members_of types.now) (type_at types.now of) (NamedMember node.now.name ∷ designators_at unit.now types.now nodes.now (drop 1 node.now.children)) }
{
    let spot = named(types, node.name, Spot { bytes: 0, of })?;
    offset_along(unit, types, nodes, &node.children, spot)
}

/// How far a `__builtin_offsetof` leads, if it leads to a member: its first part is a type name, it holds the name of a
/// member of that, and the other parts are the designators behind it.
pub fn offset_of_node(unit: &Unit, types: &Types, nodes: &NodeTypes, node: &Node) -> Option<u64>
    requires whole { unit.now.first ≡ 0 }
    requires kept { All (IsKnownNode types.now) nodes.now }
    ensures { result ≡ offset_of_node unit.now types.now nodes.now (node_of node.now) }
{
    if node.children.len() == 0 {
        return None;
    }
    let (first, _) = node.children.get(0);
    let typed = kept_at(nodes, first)?;
    offset_in(unit, types, nodes, node, typed.of)
}
