// What is kept of enumerations while nodes come in their order (C11 6.7.2.2; that enumerators share a restricted type is our choice):
// each node with its enumerators goes in, and what is said of their types comes out where one of them is named behind it.
ghost use Rattle.std.specs.Prelude.{◌≡◌, ℕ, ◌+◌, ◌<◌, [], All, IfNone, IfSome, List, OnOk, nat_eq, take};
ghost use Rattle.indexmap.specs.IndexMap.{get};
ghost use Rattle.meaning_tree.specs.Nodes.{end_of};
ghost use Rattle.meaning_typing.specs.EnumRows.{enumerators_of};
ghost use Rattle.meaning_typing.specs.Facts.{Fact};
ghost use Rattle.meaning_typing.specs.Units.{UnitNodes};
ghost use Rattle.decl_judge.specs.Units.{nodes_of};
ghost use Rattle.enum_rows.specs.Enumerations.{StandsFor};
ghost use Rattle.enum_rows.specs.Names.{IsSharing};
ghost use Rattle.node_facts.specs.Facts.{IsKnownNodeFact, nodes_seen};
ghost use Rattle.specifier_judge.specs.Kept.{IsKeptOf};

use crate::enumerators::{enumerators_of, has_enumerator};
use c_tree::{Handle, Unit};
use c_types::Types;
use enum_rows::{Enumerators, Sharing};
use indexmap::IndexMap;
use node_facts::NodeFacts;
use std::alloc::{AllocError, Global};

// What is kept of the enumerators among the children of a node, if there are some.
fn enumerators_if(
    unit: &Unit,
    types: &Types,
    facts: &NodeFacts,
    handle: Handle,
) -> Option<Enumerators>
    requires whole { unit.now.first ≡ 0 }
    requires node { handle < end_of unit.now }
    requires facts { All (IsKnownNodeFact types.now) facts.now }
    ensures some { IfSome result (λ taken. StandsFor taken (enumerators_of (nodes_of unit.now) (nodes_seen types.now facts.now) handle)) }
    ensures none { IfNone result (enumerators_of (nodes_of unit.now) (nodes_seen types.now facts.now) handle ≡ []) }
{
    if has_enumerator(unit, &unit.node(handle).children) {
        Some(enumerators_of(unit, types, facts, handle))
    } else {
        None
    }
}

/// What each enumeration says of the types of its enumerators.
#[derive(Drop)]
pub struct Enumerations {
    /// By its handle, where it has enumerators.
    sharings: IndexMap<u32, Sharing>,
}

impl Enumerations {
    /// Of no nodes, in no memory.
    pub fn new(alloc: Global) -> Enumerations
        ensures { (nodes : UnitNodes) (facts : List Fact) → IsKeptOf nodes facts 0 result }
    {
        Enumerations {
            sharings: IndexMap::new(alloc),
        }
    }

    /// The next node is known, which has this handle: what is said of the enumerators among its children is kept. It takes a step for
    /// each child, and for each attribute list in front of the expression of one.
    pub fn add(
        &mut self,
        unit: &Unit,
        types: &Types,
        facts: &NodeFacts,
        handle: Handle,
    ) -> Result<(), AllocError>
        requires whole { unit.now.first ≡ 0 }
        requires node { handle < end_of unit.now }
        requires ids { All (IsKnownNodeFact types.now) facts.now }
        requires kept { IsKeptOf (nodes_of unit.now) (take handle (nodes_seen types.now facts.now)) handle self.old }
        ensures { OnOk result (IsKeptOf (nodes_of unit.now) (nodes_seen types.now facts.now) (handle + 1) self.new) }
    {
        unit.each_node_stands_for_one_tree();
        let Some(taken) = enumerators_if(unit, types, facts, handle) else {
            return Ok(());
        };
        self.sharings.insert(handle, taken.sharing())?;
        Ok(())
    }

    fn kept(&self, handle: Handle) -> Option<Sharing>
        ensures { result ≡ get nat_eq self.now.sharings handle }
    {
        self.sharings.get(&handle).copied()
    }

    /// What is said of the enumerators that are children of a node. It takes one look-up.
    pub fn sharing(&self, handle: Handle) -> Sharing
        ensures { (nodes : UnitNodes) (facts : List Fact) (count : ℕ) → IsKeptOf nodes facts count self.now → handle < count → IsSharing result (enumerators_of nodes facts handle) }
    {
        match self.kept(handle) {
            Some(sharing) => sharing,
            None => Sharing::Own,
        }
    }
}
