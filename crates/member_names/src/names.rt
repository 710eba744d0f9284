// Names of members (C11 6.2.1 p3, 6.7.2.1 p13): all nodes in, and the declarators of those out whose name an earlier one has. A name
// is looked up in the outermost aggregate of which its member is one, so that one more costs one look-up.
ghost use Rattle.std.specs.Prelude.{◌≡◌, ℕ, ◌<◌, ◌||◌, List, suc, not, true, false, IfNone, IfOk, IfSome, OnOk, length, nat_eq};
ghost use Rattle.std.specs.List.{list_any};
ghost use Rattle.sparse_model.specs.declared.ids.NameId.{NameId};
ghost use Rattle.indexmap.specs.IndexMap.{get};
ghost use Rattle.meaning_tree.specs.Laid.{IsLaid};
ghost use Rattle.meaning_typing.specs.Surroundings as around;
ghost use Rattle.meaning_typing.specs.Units.{UnitNodes, node_at as node_of_unit};
ghost use Rattle.decl_judge.specs.Units.{nodes_of};
ghost use Rattle.node_facts.specs.Facts.{name_seen};
ghost use Rattle.node_surroundings.specs.Seen.{AreSurroundingsOf, surroundings_seen};
ghost use Rattle.member_names.specs.Homes.{outermost_of};
ghost use Rattle.member_names.specs.Kept.{AreSeen, AreTwice, AreTwiceBelow, KeepsAll, StandInOrder, is_declared_twice, is_key_among, is_named_member, same_key};

use crate::homes::OutermostHomes;
use crate::kinds::{is_declarator, is_member_declaration};
use c_tree::{Handle, Unit};
use decl_judge::kind_at;
use indexmap::IndexSet;
use node_surroundings::Surroundings;
use sparse_model::NameId;
use std::alloc::{AllocError, Global};
use std::marker::Model;

// The name of the member that a node declares, with its outermost home. A member without a name has none.
fn key_of(
    unit: &Unit,
    surroundings: &Surroundings,
    homes: &OutermostHomes,
    handle: Handle,
) -> Option<(Handle, NameId)>
    requires whole { unit.now.first ≡ 0 }
    requires node { handle < length unit.now.nodes }
    requires order { StandInOrder unit.now surroundings.now }
    requires homes { KeepsAll (nodes_of unit.now) (surroundings_seen surroundings.now) (get nat_eq homes.now.kept) }
    ensures none { IfNone result (is_named_member (nodes_of unit.now) (surroundings_seen surroundings.now) handle ≡ false) }
    ensures is { IfSome result (λ key. is_named_member (nodes_of unit.now) (surroundings_seen surroundings.now) handle ≡ true) }
    ensures home { IfSome result (λ key. key.0 ≡ outermost_of (nodes_of unit.now) (surroundings_seen surroundings.now) handle) }
    ensures name { IfSome result (λ key. name_seen key.1 ≡ (node_of_unit (nodes_of unit.now) handle).name) }
{
    let node = unit.node(handle);
    let declaration = surroundings.get(handle).parent;
    if !is_declarator(node.kind) || !is_member_declaration(kind_at(unit, declaration)) {
        return None;
    }
    if node.name.0 == 0 {
        return None;
    }
    Some((homes.outermost(unit, surroundings, declaration), node.name))
}

// Keeps a key, and says whether it was none of those that were kept.
fn keep(keys: &mut IndexSet<(Handle, NameId)>, key: (Handle, NameId)) -> Result<bool, AllocError>
    ensures told { IfOk result (λ is_new. is_new ≡ not (is_key_among key keys.old.keys)) }
    ensures joins { OnOk result ((other : ℕ × NameId) → is_key_among other keys.new.keys ≡ is_key_among other keys.old.keys || same_key other key) }
{
    let is_new = keys.insert(key)?;
    Ok(is_new)
}

/// The members of a unit whose name an earlier one has in an aggregate of which both are members. Its value is the list of the
/// handles of their declarators, each once.
#[derive(Drop)]
pub struct MemberNames {
    // The hasher has a fixed seed, so names that were chosen to collide cost time, and nothing else.
    twice: IndexSet<Handle>,
}

impl Model for MemberNames {
    ghost use Rattle.std.specs.Prelude.{List, ℕ};

    ghost Value = { List ℕ };

    ghost view = { λ names. names.twice.keys };
}

impl MemberNames {
    /// Whether it is the declarator of a member whose name an earlier one has in an aggregate of which both are members. It takes
    /// one look-up.
    pub fn is_declared_twice(&self, handle: Handle) -> bool
        ensures { (nodes : UnitNodes) (surroundings : List around.Surrounding) → AreTwice nodes surroundings self.now → result ≡ is_declared_twice nodes surroundings handle }
    {
        self.twice.contains(&handle)
    }

    // One declarator more.
    fn keep(&mut self, handle: Handle) -> Result<(), AllocError>
        ensures { OnOk result ((other : ℕ) → list_any (nat_eq other) self.new ≡ list_any (nat_eq other) self.old || nat_eq other handle) }
    {
        self.twice.insert(handle)?;
        Ok(())
    }

    // One node more, where these are the names of members in their outermost homes so far.
    fn add(
        &mut self,
        keys: &mut IndexSet<(Handle, NameId)>,
        unit: &Unit,
        surroundings: &Surroundings,
        homes: &OutermostHomes,
        handle: Handle,
    ) -> Result<(), AllocError>
        requires whole { unit.now.first ≡ 0 }
        requires node { handle < length unit.now.nodes }
        requires order { StandInOrder unit.now surroundings.now }
        requires homes { KeepsAll (nodes_of unit.now) (surroundings_seen surroundings.now) (get nat_eq homes.now.kept) }
        requires seen { AreSeen (nodes_of unit.now) (surroundings_seen surroundings.now) handle keys.old.keys }
        requires twice { AreTwiceBelow (nodes_of unit.now) (surroundings_seen surroundings.now) handle self.old }
        ensures seen { OnOk result (AreSeen (nodes_of unit.now) (surroundings_seen surroundings.now) (suc handle) keys.new.keys) }
        ensures twice { OnOk result (AreTwiceBelow (nodes_of unit.now) (surroundings_seen surroundings.now) (suc handle) self.new) }
    {
        let Some(key) = key_of(unit, surroundings, homes, handle) else {
            return Ok(());
        };
        if keep(keys, key)? {
            return Ok(());
        }
        self.keep(handle)
    }

    // Those of a unit whose nodes stand so.
    fn in_order(
        alloc: Global,
        unit: &Unit,
        surroundings: &Surroundings,
    ) -> Result<MemberNames, AllocError>
        requires whole { unit.now.first ≡ 0 }
        requires order { StandInOrder unit.now surroundings.now }
        ensures { IfOk result (AreTwice (nodes_of unit.now) (surroundings_seen surroundings.now)) }
    {
        let homes = OutermostHomes::of(alloc, unit, surroundings)?;
        let mut keys = IndexSet::new(alloc);
        let mut names = MemberNames {
            twice: IndexSet::new(alloc),
        };
        for handle in 0..unit.len() {
            names.add(&mut keys, unit, surroundings, &homes, handle)?;
        }
        Ok(names)
    }

    /// Those of a unit, by what its nodes stand in. It takes two steps and a look-up for each node, and a step for each part of a
    /// declaration of members.
    pub fn of(
        alloc: Global,
        unit: &Unit,
        surroundings: &Surroundings,
    ) -> Result<MemberNames, AllocError>
        requires whole { unit.now.first ≡ 0 }
        requires laid { IsLaid unit.now }
        requires surroundings { AreSurroundingsOf unit.now surroundings.now }
        ensures { IfOk result (AreTwice (nodes_of unit.now) (surroundings_seen surroundings.now)) }
    {
        unit.each_node_stands_for_one_tree();
        MemberNames::in_order(alloc, unit, surroundings)
    }
}
