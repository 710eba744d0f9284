// The bytes that a node asks for, by the layouts of types.
ghost use Rattle.std.specs.Prelude.{◌≡◌, ◌∷◌, [], All};
ghost use Rattle.meaning_constants.specs.Nodes.{fold_of};
ghost use Rattle.c_layout.specs.Sizes.{bytes_of};
ghost use Rattle.meaning_constants.specs.Sizes as sizes;
ghost use Rattle.c_tree.specs.Seen.{node_of};
ghost use Rattle.c_types.specs.Layouts.{told_in};
ghost use Rattle.c_types.specs.Table.{IsTypeId, type_at};
ghost use Rattle.const_fold.specs.Known.{IsKnownNode, node_facts, part_at};
ghost use Rattle.const_fold.specs.Measured.{bytes_asked, measure_of_only};
ghost use Rattle.const_fold.specs.Offsets.{offset_of_node};
ghost use Rattle.const_fold.specs.Outlined.{known_children};
ghost use Rattle.const_fold.specs.Sized.{field_bytes, has_one_byte, loaded_bytes, sizes_in};

use crate::children::{Children, children_of};
use crate::known::{kept_at, loaded_kind};
use crate::offset::offset_of_node;
use crate::way::{Way, way_of};
use c_layout::{align_of, size_of};
use c_tree::{Handle, Node, Unit};
use c_types::{NodeTypes, Outline, Types};
use sparse_model::{IntKind, TypeId};

// Void and functions have one byte, as in GNU C.
fn has_one_byte(outline: Outline) -> bool
    ensures { result ≡ has_one_byte outline }
{
    match outline {
        Outline::Void => true,
        Outline::Function => true,
        _ => false,
    }
}

/// The size of a type, as `sizeof` asks for it.
pub fn asked_size(types: &Types, t: TypeId) -> Option<u64>
    requires { IsTypeId types.now t }
    ensures { result ≡ sizes.asked_size (told_in types.now) (type_at types.now t) }
{
    if has_one_byte(types.outline(t)) {
        return Some(1);
    }
    match size_of(types, t) {
        Ok(bytes) => Some(bytes),
        Err(_) => None,
    }
}

// The alignment of a type, as `_Alignof` asks for it.
fn asked_align(types: &Types, t: TypeId) -> Option<u64>
    requires { IsTypeId types.now t }
    ensures { result ≡ sizes.asked_align (told_in types.now) (type_at types.now t) }
{
    if has_one_byte(types.outline(t)) {
        return Some(1);
    }
    match align_of(types, t) {
        Ok(bytes) => Some(bytes),
        Err(_) => None,
    }
}

// The bytes of an integer of this kind, to a multiple of which it is aligned.
fn kind_bytes(kind: IntKind) -> u64
    ensures { result ≡ bytes_of kind }
{
    match kind {
        IntKind::Bool => 1,
        IntKind::Char => 1,
        IntKind::SChar => 1,
        IntKind::UChar => 1,
        IntKind::Short => 2,
        IntKind::UShort => 2,
        IntKind::Int => 4,
        IntKind::UInt => 4,
        IntKind::Long => 8,
        IntKind::ULong => 8,
        IntKind::LLong => 8,
        IntKind::ULLong => 8,
    }
}

fn field_bytes(width: u32, outline: Outline, whole: Option<u64>) -> Option<u64>
    ensures { result ≡ field_bytes width outline whole }
{
    match outline {
        Outline::Integer(kind) => Some(kind_bytes(loaded_kind(Some(width), kind))),
        _ => whole,
    }
}

// The size or the alignment of what is loaded of a place, whose own is this one: a bit-field is loaded as an integer.
fn loaded_bytes(width: Option<u32>, outline: Outline, whole: Option<u64>) -> Option<u64>
    ensures { result ≡ loaded_bytes width outline whole }
{
    match width {
        Some(width) => field_bytes(width, outline, whole),
        None => whole,
    }
}

// The size of what the node with this handle is as a part of another, if it has a type.
fn size_at(types: &Types, nodes: &NodeTypes, handle: Handle) -> Option<u64>
    requires { All (IsKnownNode types.now) nodes.now }
    ensures { result ≡ measure_of_only (sizes.asked_size (told_in types.now)) (part_at types.now nodes.now handle ∷ []) }
{
    let node = kept_at(nodes, handle)?;
    let whole = asked_size(types, node.of);
    loaded_bytes(node.value.width, types.outline(node.of), whole)
}

fn align_at(types: &Types, nodes: &NodeTypes, handle: Handle) -> Option<u64>
    requires { All (IsKnownNode types.now) nodes.now }
    ensures { result ≡ measure_of_only (sizes.asked_align (told_in types.now)) (part_at types.now nodes.now handle ∷ []) }
{
    let node = kept_at(nodes, handle)?;
    let whole = asked_align(types, node.of);
    loaded_bytes(node.value.width, types.outline(node.of), whole)
}

// The size of the only child.
fn size_of_only(types: &Types, nodes: &NodeTypes, children: Children) -> Option<u64>
    requires { All (IsKnownNode types.now) nodes.now }
    ensures { result ≡ measure_of_only (sizes.asked_size (told_in types.now)) (known_children (part_at types.now nodes.now) children) }
{
    match children {
        Children::One(child) => size_at(types, nodes, child),
        Children::Two(_, _) => None,
        Children::Three(_, _, _) => None,
        Children::Other => None,
    }
}

fn align_of_only(types: &Types, nodes: &NodeTypes, children: Children) -> Option<u64>
    requires { All (IsKnownNode types.now) nodes.now }
    ensures { result ≡ measure_of_only (sizes.asked_align (told_in types.now)) (known_children (part_at types.now nodes.now) children) }
{
    match children {
        Children::One(child) => align_at(types, nodes, child),
        Children::Two(_, _) => None,
        Children::Three(_, _, _) => None,
        Children::Other => None,
    }
}

/// The bytes that a node asks for: a size, an alignment, or how far the member lies.
pub fn bytes_of(unit: &Unit, types: &Types, nodes: &NodeTypes, node: &Node) -> Option<u64>
    requires whole { unit.now.first ≡ 0 }
    requires kept { All (IsKnownNode types.now) nodes.now }
    ensures { result ≡ bytes_asked (sizes_in types.now) (fold_of node.now.kind) (node_facts unit.now types.now nodes.now (offset_of_node unit.now types.now nodes.now (node_of node.now)) (node_of node.now)) }
{
    match way_of(node.kind) {
        Way::Size => size_of_only(types, nodes, children_of(&node.children)),
        Way::Align => align_of_only(types, nodes, children_of(&node.children)),
        Way::Offset => offset_of_node(unit, types, nodes, node),
        Way::Nothing => None,
        Way::Literal(_) => None,
        Way::Named => None,
        Way::Own => None,
        Way::Unary(_) => None,
        Way::Binary(_) => None,
        Way::And => None,
        Way::Or => None,
        Way::Conditional => None,
        Way::Cast => None,
    }
}
