// The outermost of the aggregates of which a member is one (C11 6.7.2.1 p13): all nodes in, and by the declaration of a member that
// aggregate out. Parts stand before their nodes, so from the last node to the first what is around comes first. Names aren't known
// here.
ghost use Rattle.std.specs.Prelude.{◌≡◌, ℕ, ◌+◌, ◌<◌, true, IfOk, OnOk, length, nat_eq};
ghost use Rattle.indexmap.specs.IndexMap.{get};
ghost use Rattle.meaning_typing.specs.MemberRows as meaning;
ghost use Rattle.meaning_typing.specs.Surroundings.{surrounding_at};
ghost use Rattle.meaning_typing.specs.Units.{kind_at as kind_of};
ghost use Rattle.decl_judge.specs.Units.{nodes_of};
ghost use Rattle.node_surroundings.specs.Seen.{surroundings_seen};
ghost use Rattle.member_names.specs.Homes.{outermost_home};
ghost use Rattle.member_names.specs.Kept.{KeepsAll, KeepsFrom, StandInOrder, home_kept};

use crate::kinds::{declares_nameless, is_tagless};
use c_tree::{Handle, Unit};
use indexmap::IndexMap;
use node_surroundings::Surroundings;
use std::alloc::{AllocError, Global};

/// By a declaration of members without a declarator the outermost aggregate of which they are members.
#[derive(Drop)]
pub struct OutermostHomes {
    kept: IndexMap<Handle, Handle>,
}

// The node above that above a node: of a declaration of members the specifier around, and of a specifier the declaration around.
fn above_parent(surroundings: &Surroundings, handle: Handle) -> Handle
    requires node { handle < length surroundings.now }
    requires parent { (surrounding_at (surroundings_seen surroundings.now) handle).parent < length surroundings.now }
    ensures specifier { result ≡ meaning.specifier_around (surroundings_seen surroundings.now) handle }
    ensures declaration { result ≡ meaning.declaration_around (surroundings_seen surroundings.now) handle }
{
    surroundings.get(surroundings.get(handle).parent).parent
}

impl OutermostHomes {
    /// The outermost aggregate of which a member is one that is declared there. It takes a few steps and one look-up.
    pub fn outermost(&self, unit: &Unit, surroundings: &Surroundings, declaration: Handle) -> Handle
        requires whole { unit.now.first ≡ 0 }
        requires order { StandInOrder unit.now surroundings.now }
        requires member { meaning.is_member_declaration (kind_of (nodes_of unit.now) declaration) ≡ true }
        requires behind { (handle : ℕ) → declaration < handle → get nat_eq self.now.kept handle ≡ home_kept (nodes_of unit.now) (surroundings_seen surroundings.now) handle }
        ensures { result ≡ outermost_home (nodes_of unit.now) (surroundings_seen surroundings.now) declaration }
    {
        let specifier = above_parent(surroundings, declaration);
        if !is_tagless(unit, specifier) {
            return specifier;
        }
        match self.kept.get(&above_parent(surroundings, specifier)) {
            Some(home) => *home,
            None => specifier,
        }
    }

    // One node more.
    fn add(
        &mut self,
        unit: &Unit,
        surroundings: &Surroundings,
        handle: Handle,
    ) -> Result<(), AllocError>
        requires whole { unit.now.first ≡ 0 }
        requires order { StandInOrder unit.now surroundings.now }
        requires from { KeepsFrom (nodes_of unit.now) (surroundings_seen surroundings.now) (handle + 1) (get nat_eq self.old.kept) }
        ensures { OnOk result (KeepsFrom (nodes_of unit.now) (surroundings_seen surroundings.now) handle (get nat_eq self.new.kept)) }
    {
        if declares_nameless(unit, handle) {
            let home = self.outermost(unit, surroundings, handle);
            self.kept.insert(handle, home)?;
        }
        Ok(())
    }

    /// Those of a unit. It takes a step for each node, and one for each part of a declaration of members.
    pub fn of(
        alloc: Global,
        unit: &Unit,
        surroundings: &Surroundings,
    ) -> Result<OutermostHomes, AllocError>
        requires whole { unit.now.first ≡ 0 }
        requires order { StandInOrder unit.now surroundings.now }
        ensures { IfOk result (λ homes. KeepsAll (nodes_of unit.now) (surroundings_seen surroundings.now) (get nat_eq homes.kept)) }
    {
        let mut homes = OutermostHomes {
            kept: IndexMap::new(alloc),
        };
        for handle in (0..unit.len()).rev() {
            homes.add(unit, surroundings, handle)?;
        }
        Ok(homes)
    }
}
