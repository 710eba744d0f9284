// What is kept of the tags of a unit (C11 6.7.2.3): all nodes in, and by the number of a specifier what its tag is and where it
// has a body. That number is the token of the keyword that first names the tag in its scope. Nodes stand behind their parts, so
// what is named inside of a body comes before the specifier around it, though its token comes later: the maps are whole before
// one of them is asked.
ghost use Rattle.std.specs.Prelude.{◌≡◌, ℕ, suc, OnOk, IfOk, nat_eq, option_map};
ghost use Rattle.std.specs.Option.{option_or};
ghost use Rattle.indexmap.specs.IndexMap.{get};
ghost use Rattle.c_tree.specs.Seen.{node_of};
ghost use Rattle.meaning_typing.specs.Units.{UnitNodes, node_at as node_of_unit};
ghost use Rattle.decl_judge.specs.Units.{named_node, nodes_of};
ghost use Rattle.tag_rows.specs.Kept.{StandsFor, StandsForFirst, body_here, enumeration_here, is_enumeration, kind_here, least_of};
ghost use Rattle.tag_rows.specs.Seen.{kind_seen};

use crate::keeping::{keep_first, keep_least};
use crate::kinds::{TagKind, tag_kind};
use body_members::{has_body, is_tagged};
use c_tree::{Handle, Node, Unit};
use decl_judge::node_at;
use indexmap::IndexMap;
use sparse_model::NodeKind;
use std::alloc::{AllocError, Global};

/// What is kept of the tags of a unit.
#[derive(Drop)]
pub struct TagsSeen {
    /// The kind of the first specifier that stands at a token.
    kinds: IndexMap<u64, TagKind>,
    /// The least token of a specifier with this number and a body.
    bodies: IndexMap<u64, u32>,
    /// The handle of the first enumeration with this number and a body.
    enumerations: IndexMap<u64, Handle>,
}

fn keep_kind(kept: &mut IndexMap<u64, TagKind>, node: &Node) -> Result<(), AllocError>
    ensures { OnOk result ((token : ℕ) → option_map kind_seen (get nat_eq kept.new token) ≡ option_or (option_map kind_seen (get nat_eq kept.old token)) (kind_here (named_node (node_of node.now)) token)) }
{
    match tag_kind(node.kind) {
        Some(kind) => keep_first(kept, u64::from(node.token), kind),
        None => Ok(()),
    }
}

fn keep_body(kept: &mut IndexMap<u64, u32>, node: &Node, has_body: bool) -> Result<(), AllocError>
    ensures { OnOk result ((number : ℕ) → get nat_eq kept.new number ≡ least_of (get nat_eq kept.old number) (body_here (named_node (node_of node.now)) has_body number)) }
{
    if is_tagged(node.kind) && has_body {
        keep_least(kept, node.number, node.token)
    } else {
        Ok(())
    }
}

fn is_enumeration(kind: NodeKind) -> bool
    ensures { result ≡ is_enumeration kind }
{
    match kind {
        NodeKind::EnumSpecifier => true,
        _ => false,
    }
}

fn keep_enumeration(
    kept: &mut IndexMap<u64, Handle>,
    handle: Handle,
    node: &Node,
    has_body: bool,
) -> Result<(), AllocError>
    ensures { OnOk result ((number : ℕ) → get nat_eq kept.new number ≡ option_or (get nat_eq kept.old number) (enumeration_here handle (named_node (node_of node.now)) has_body number)) }
{
    if is_enumeration(node.kind) && has_body {
        keep_first(kept, node.number, handle)
    } else {
        Ok(())
    }
}

impl TagsSeen {
    // Of no nodes.
    fn none(alloc: Global) -> TagsSeen
        ensures { (nodes : UnitNodes) → StandsForFirst nodes 0 result }
    {
        TagsSeen {
            kinds: IndexMap::new(alloc),
            bodies: IndexMap::new(alloc),
            enumerations: IndexMap::new(alloc),
        }
    }

    // One node more.
    fn add(&mut self, unit: &Unit, handle: Handle) -> Result<(), AllocError>
        requires whole { unit.now.first ≡ 0 }
        requires before { StandsForFirst (nodes_of unit.now) handle self.old }
        ensures { OnOk result (StandsForFirst (nodes_of unit.now) (suc handle) self.new) }
    {
        match node_at(unit, handle) {
            Some(node) => self.add_node(unit, handle, node),
            None => Ok(()),
        }
    }

    fn add_node(&mut self, unit: &Unit, handle: Handle, node: &Node) -> Result<(), AllocError>
        requires whole { unit.now.first ≡ 0 }
        requires node { named_node (node_of node.now) ≡ node_of_unit (nodes_of unit.now) handle }
        requires before { StandsForFirst (nodes_of unit.now) handle self.old }
        ensures { OnOk result (StandsForFirst (nodes_of unit.now) (suc handle) self.new) }
    {
        let has_body = has_body(unit, handle);
        keep_kind(&mut self.kinds, node)?;
        keep_body(&mut self.bodies, node, has_body)?;
        keep_enumeration(&mut self.enumerations, handle, node, has_body)
    }

    /// The kind of the specifier that stands at this token first. It takes no memory.
    pub(crate) fn kind(&self, token: u64) -> Option<TagKind>
        ensures { result ≡ get nat_eq self.now.kinds token }
    {
        self.kinds.get(&token).copied()
    }

    /// The least token of a specifier with this number and a body. It takes no memory.
    pub(crate) fn least_body(&self, number: u64) -> Option<u32>
        ensures { result ≡ get nat_eq self.now.bodies number }
    {
        self.bodies.get(&number).copied()
    }

    /// The handle of the first enumeration with this number and a body. It takes no memory.
    pub(crate) fn enumeration(&self, number: u64) -> Option<Handle>
        ensures { result ≡ get nat_eq self.now.enumerations number }
    {
        self.enumerations.get(&number).copied()
    }

    /// The tags of a unit. It takes a step for each node, and one for each of its parts.
    pub fn of(alloc: Global, unit: &Unit) -> Result<TagsSeen, AllocError>
        requires { unit.now.first ≡ 0 }
        ensures { IfOk result (StandsFor (nodes_of unit.now)) }
    {
        let mut tags = TagsSeen::none(alloc);
        for handle in 0..unit.len() {
            tags.add(unit, handle)?;
        }
        Ok(tags)
    }
}
