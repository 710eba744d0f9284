// Trees for contracts to speak of. The code has lists of nodes in their place.
use crate::ids::NameId;
use vocabulary::{NodeKind, Role};

/// A node with all that stands below it, which is the value that a node of a unit has.
///
/// Nothing builds one: a unit keeps its nodes in a list, and this is what contracts call the value of a
/// node. They say it as the `Tree` of `meaning_tree` that the node stands for.
#[derive(Debug, Drop)]
#[cycle(tree)]
pub struct Tree {
    pub kind: NodeKind,
    /// The index of the token at which the node stands.
    pub token: u32,
    /// The spelling that the node holds, or the empty one.
    pub name: NameId,
    /// The number that the node holds, or 0.
    pub number: u64,
    pub parts: TreeList,
}

/// The parts of a tree in order.
pub type TreeList = Vec<Part>;

/// A tree below another, and what it is for that one.
#[derive(Debug, Drop)]
#[cycle(tree)]
pub struct Part {
    pub role: Role,
    pub tree: Tree,
}
