// Alignments that are written among attributes (C11 6.7.5): nodes in, the largest alignment in bytes out, and 1 where none
// is written. What is aligned isn't known here.
ghost use Rattle.std.specs.Prelude.{◌≡◌, max};
ghost use Rattle.meaning_typing.specs.MemberDeclarations as meaning;
ghost use Rattle.meaning_typing.specs.Specifiers.{attributes_of};
ghost use Rattle.meaning_typing.specs.Units.{children_at, kind_at as kind_of, node_at as node_of_unit};
ghost use Rattle.decl_judge.specs.Units.{handles_of, nodes_of};

use c_tree::{Handle, Node, Unit};
use decl_judge::{attributes_at, node_at};
use sparse_model::NodeKind;
use tag_list::TagList;

fn written_by(node: &Node) -> u64
    ensures { result ≡ meaning.alignment_by node.now.number node.now.kind }
{
    match node.kind {
        NodeKind::AlignedAttribute => node.number,
        _ => 1,
    }
}

fn written_at(unit: &Unit, attribute: Handle) -> u64
    requires { unit.now.first ≡ 0 }
    ensures { result ≡ meaning.alignment_by (node_of_unit (nodes_of unit.now) attribute).number (kind_of (nodes_of unit.now) attribute) }
{
    match node_at(unit, attribute) {
        Some(node) => written_by(node),
        None => 1,
    }
}

/// The largest alignment among attributes, no less than this one. It takes a step for each attribute.
pub fn alignment_among(unit: &Unit, least: u64, attributes: &TagList) -> u64
    requires { unit.now.first ≡ 0 }
    ensures { result ≡ max least (meaning.alignment_among (nodes_of unit.now) (handles_of attributes.now)) }
{
    let mut largest = least;
    for (attribute, _) in attributes.iter() {
        largest = largest.max(written_at(unit, attribute));
    }
    largest.max(1)
}

/// The same among those of a node, if it is a list of attributes.
pub fn alignment_of_list(unit: &Unit, least: u64, handle: Handle) -> u64
    requires { unit.now.first ≡ 0 }
    ensures { result ≡ max least (meaning.alignment_among (nodes_of unit.now) (attributes_of (kind_of (nodes_of unit.now) handle) (children_at (nodes_of unit.now) handle))) }
{
    match attributes_at(unit, handle) {
        Some(attributes) => alignment_among(unit, least, attributes),
        None => least.max(1),
    }
}
