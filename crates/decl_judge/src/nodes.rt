// What is asked of the nodes of a unit: where there is no node, they say what the definitions say of none.
ghost use Rattle.std.specs.Prelude.{◌≡◌, option_map};
ghost use Rattle.meaning_typing.specs.Units as meaning;
ghost use Rattle.c_tree.specs.Seen.{node_of};
ghost use Rattle.decl_judge.specs.Units.{child_or_none, node_or_none, nodes_of};

use c_tree::{Handle, Node, Unit};
use sparse_model::NodeKind;

/// The node with this handle, if there is one.
pub fn node_at(unit: &Unit, handle: Handle) -> Option<&Node>
    requires { unit.now.first ≡ 0 }
    ensures { node_or_none (option_map (λ node. node_of node.now) result) ≡ meaning.node_at (nodes_of unit.now) handle }
{
    if handle < unit.len() {
        Some(unit.node(handle))
    } else {
        None
    }
}

/// The kind of the node with this handle.
pub fn kind_at(unit: &Unit, handle: Handle) -> NodeKind
    requires { unit.now.first ≡ 0 }
    ensures { result ≡ meaning.kind_at (nodes_of unit.now) handle }
{
    match node_at(unit, handle) {
        Some(node) => node.kind,
        None => NodeKind::EmptyDeclaration,
    }
}

/// The token at which it stands.
pub fn token_at(unit: &Unit, handle: Handle) -> u32
    requires { unit.now.first ≡ 0 }
    ensures { result ≡ (meaning.node_at (nodes_of unit.now) handle).token }
{
    match node_at(unit, handle) {
        Some(node) => node.token,
        None => 0,
    }
}

/// The child of a node at this place, counted from 0; where there is none, a handle that no node has.
pub fn child_at(unit: &Unit, parent: Handle, place: u32) -> Handle
    requires { unit.now.first ≡ 0 }
    ensures { result ≡ meaning.child_at (nodes_of unit.now) parent place }
{
    match node_at(unit, parent) {
        Some(node) => child_in(unit, node, place),
        None => unit.len(),
    }
}

fn child_in(unit: &Unit, node: &Node, place: u32) -> Handle
    requires { unit.now.first ≡ 0 }
    ensures { result ≡ child_or_none (nodes_of unit.now) (node_of node.now).children place }
{
    if place < node.children.len() {
        node.children.get(place).0
    } else {
        unit.len()
    }
}
