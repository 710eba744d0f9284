// The list of nodes: nodes in, handles out. What a kind of node means isn't known here.
use crate::fault::AddFault;
use crate::node::Node;
use region_alloc::{Handle, Region};
use sparse_model::NodeKind;
use std::alloc::Global;
use std::marker::Model;
use tag_list::TagList;

// How many nodes a unit can have, the handles before its first one counted in.
const MAX_NODES: u32 = 16_000_000;

/// The nodes of a translation unit, or of a part of one, each behind its children.
///
/// The first node has the unit's first handle, each other one the next handle. A unit that is built
/// whole begins with handle 0, and a part of it where the unit ends.
#[derive(Drop)]
pub struct Unit {
    first: Handle,
    nodes: Region<Node>,
}

impl Model for Unit {
    ghost use Rattle.sparse_model.specs.declared.ids.NameId.{NameId};
    ghost use Rattle.meaning_tree.specs.Nodes.{NodeList};
    ghost use Rattle.c_tree.specs.Seen.{list_of, IsUnitList};

    ghost Value = { NodeList NameId };

    ghost view = { λ unit. list_of unit.first unit.nodes };

    ghost invariant = { λ unit. IsUnitList (list_of unit.first unit.nodes) };
}

impl Unit {
    ghost use Rattle.std.specs.Prelude.{◌≡◌, ◌<◌, ◌≤◌, ◌↔◌, [], All, IfErr, IfOk, IsErrAnd, OnErr, OnOk};
    ghost use Rattle.meaning_tree.specs.Nodes.{ChildrenStandBefore, HasNode, end_of, joined, with_node};
    ghost use Rattle.c_tree.specs.Seen.{EachStandsForOneTree, HasNodeWith, IsFinished, most_nodes, node_of};
    ghost use Rattle.c_tree.specs.Numbers.{with_number};

    /// An empty unit whose first handle is 0. It takes no memory.
    pub fn new(alloc: Global) -> Unit
        ensures { result ≡ record { first = 0; nodes = [] } }
    {
        Unit {
            first: 0,
            nodes: Region::new(alloc),
        }
    }

    /// An empty part of this unit, whose first handle is the next one here. It takes no memory.
    pub fn part(&self, alloc: Global) -> Unit
        ensures { result ≡ record { first = end_of self.now; nodes = [] } }
    {
        Unit {
            first: self.len(),
            nodes: Region::new(alloc),
        }
    }

    /// Appends the nodes of a part that begins where this unit ends, and keeps their handles. It takes
    /// no memory.
    pub fn absorb(&mut self, part: Unit)
        requires { part.first ≡ end_of self.old }
        ensures { self.new ≡ joined self.old part }
    {
        let Unit { first: _, nodes } = part;
        self.nodes.absorb(nodes);
    }

    /// Appends a node whose children stand in this unit, and answers its handle. A refused node comes
    /// back.
    pub fn add(&mut self, node: Node) -> Result<Handle, (AddFault, Node)>
        requires { All (λ child. (self.old.first ≤ child.0) × (child.0 < end_of self.old)) node.children }
        ensures handle { IfOk result (λ handle. handle ≡ end_of self.old) }
        ensures ok { OnOk result (self.new ≡ with_node self.old (node_of node)) }
        ensures err { OnErr result (self.new ≡ self.old) }
        ensures back { IfErr result (λ refused. refused.1 ≡ node) }
        ensures limit { IsErrAnd result (λ refused. refused.0 ≡ AddFault.Limit) ↔ (end_of self.old ≡ most_nodes) }
    {
        let handle = self.len();
        if handle == MAX_NODES {
            return Err((AddFault::Limit, node));
        }
        match self.nodes.put(node) {
            Ok(_) => Ok(handle),
            Err((_, node)) => Err((AddFault::Memory, node)),
        }
    }

    /// The node with this handle.
    pub fn node(&self, h: Handle) -> &Node
        requires from { self.now.first ≤ h }
        requires below { h < end_of self.now }
        ensures { HasNode self.now h (node_of result.now) }
    {
        self.nodes.get(h - self.first)
    }

    /// The kind of the node with this handle.
    pub fn kind(&self, h: Handle) -> NodeKind
        requires from { self.now.first ≤ h }
        requires below { h < end_of self.now }
        ensures { HasNodeWith self.now h (λ node. node.kind ≡ result) }
    {
        self.node(h).kind
    }

    /// The children of the node with this handle.
    pub fn children(&self, h: Handle) -> &TagList
        requires from { self.now.first ≤ h }
        requires below { h < end_of self.now }
        ensures { HasNodeWith self.now h (λ node. node.children ≡ result.now) }
    {
        &self.node(h).children
    }

    /// The index of the token at which the node with this handle stands.
    pub fn token(&self, h: Handle) -> u32
        requires from { self.now.first ≤ h }
        requires below { h < end_of self.now }
        ensures { HasNodeWith self.now h (λ node. node.token ≡ result) }
    {
        self.node(h).token
    }

    /// Gives the node with this handle another number.
    pub fn set_number(&mut self, h: Handle, number: u64)
        requires from { self.old.first ≤ h }
        requires below { h < end_of self.old }
        ensures { self.new ≡ with_number self.old h number }
    {
        let place = h - self.first;
        self.nodes.get_mut(place).number = number;
    }

    /// The handle that the next node will have: the first handle, and one for each node.
    pub fn len(&self) -> u32
        ensures value { result ≡ end_of self.now }
        ensures small { result ≤ most_nodes }
    {
        self.first + self.nodes.len()
    }

    /// Each node stands for one tree, since children stand before their parents.
    pub fn each_node_stands_for_one_tree(&self)
        ensures order { ChildrenStandBefore self.now }
        ensures trees { EachStandsForOneTree self.now }
        ensures finished { IsFinished self.now }
    {
        // What always holds of a unit is known where a field is used.
        let _count = self.nodes.len();
    }
}
