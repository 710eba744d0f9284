// How a node is kept: a kind, a token's index, an id, a number, handles. Spellings aren't known here.
ghost use Rattle.c_tree.specs.Seen.{NodesAreSeenWhole};

use sparse_model::{NameId, NodeKind};
use tag_list::TagList;

/// A node of a unit.
#[derive(Drop)]
pub struct Node {
    pub kind: NodeKind,
    /// The index of the token at which the node stands.
    pub token: u32,
    /// The spelling that the node holds, or the empty one.
    pub name: NameId,
    /// The number that the node holds, or 0.
    pub number: u64,
    /// The handles of the parts in order, each with the tag of its role.
    pub children: TagList,
}

/// A node is seen with all that it holds: two nodes that are seen alike are one.
pub fn nodes_are_seen_whole()
    ensures { NodesAreSeenWhole }
{}
