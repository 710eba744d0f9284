// Objects and functions as they are kept: what is known of each node goes in, in the order of their handles, and what is asked of a
// declarator comes out.
ghost use Rattle.std.specs.Prelude.{◌≡◌, ◌<◌, ◌++◌, ◌∷◌, [], List, OnOk, ℕ, length};
ghost use Rattle.meaning_typing.specs.Facts as facts;
ghost use Rattle.meaning_typing.specs.Surroundings as around;
ghost use Rattle.meaning_typing.specs.Units.{UnitNodes};
ghost use Rattle.meaning_objects.specs.Carried as carried;
ghost use Rattle.meaning_objects.specs.Objects as meaning;
ghost use Rattle.c_types.specs.Table.{TypeTable};
ghost use Rattle.decl_judge.specs.Units.{nodes_of};
ghost use Rattle.node_facts.specs.Facts.{declared_seen, node_seen, nodes_seen};
ghost use Rattle.node_surroundings.specs.Seen.{surrounding_seen};
ghost use Rattle.indexmap.specs.IndexMap.{get};
ghost use Rattle.judged_objects.specs.Kept.{AreObjects, note_linked, same_handle, same_name};
ghost use Rattle.judged_objects.specs.Notes.{note_or_none, note_told};

use crate::keeping::{LinkedObject, keep_linked, keep_unlinked, note_of};
use crate::note::ObjectNote;
use c_tree::{Handle, Unit};
use indexmap::IndexMap;
use node_facts::{DeclaredFact, NodeFact, NodeFacts};
use node_surroundings::Surrounding;
use sparse_model::NameId;
use std::alloc::{AllocError, Global};

/// The objects and functions of a unit. What is asked of a declarator takes one look-up.
#[derive(Drop)]
pub struct JudgedObjects {
    // The hasher has a fixed seed, so names that were chosen to collide cost time, and nothing else.
    linked: IndexMap<NameId, LinkedObject>,
    // The declarators without linkage that say something, which few do.
    unlinked: IndexMap<Handle, ObjectNote>,
}

impl JudgedObjects {
    /// None, in no memory, whatever the nodes are and whatever they stand in.
    pub fn new(alloc: Global) -> JudgedObjects
        ensures { (nodes : UnitNodes) (surroundings : List around.Surrounding) → AreObjects nodes surroundings [] result }
    {
        JudgedObjects {
            linked: IndexMap::new(alloc),
            unlinked: IndexMap::new(alloc),
        }
    }

    // A declaration.
    fn keep_declaration(
        &mut self,
        unit: &Unit,
        handle: Handle,
        surrounding: Surrounding,
        declaration: DeclaredFact,
    ) -> Result<(), AllocError>
        requires { unit.now.first ≡ 0 }
        ensures { OnOk result ((table : TypeTable) (surroundings : List around.Surrounding) (known : List facts.Fact) → length known ≡ handle → handle < length surroundings → around.surrounding_at surroundings handle ≡ surrounding_seen surrounding → AreObjects (nodes_of unit.now) surroundings known self.old → AreObjects (nodes_of unit.now) surroundings (known ++ facts.Declared (declared_seen table declaration) ∷ []) self.new) }
    {
        if declaration.has_linkage {
            let note = note_of(unit, handle, surrounding)?;
            return keep_linked(&mut self.linked, declaration.name, handle, note);
        }
        if declaration.is_typedef {
            return Ok(());
        }
        let note = note_of(unit, handle, surrounding)?;
        keep_unlinked(&mut self.unlinked, handle, note)
    }

    /// The next node is known, which has this handle and stands so: what it declares is kept. It takes a few steps, and one for
    /// each attribute of the declaration.
    ///
    /// # Errors
    /// Want of memory, for which contexts are taken too whose sum doesn't fit in 63 bits.
    pub fn add(
        &mut self,
        unit: &Unit,
        handle: Handle,
        surrounding: Surrounding,
        fact: NodeFact,
    ) -> Result<(), AllocError>
        requires { unit.now.first ≡ 0 }
        ensures { OnOk result ((table : TypeTable) (surroundings : List around.Surrounding) (known : List facts.Fact) → length known ≡ handle → handle < length surroundings → around.surrounding_at surroundings handle ≡ surrounding_seen surrounding → AreObjects (nodes_of unit.now) surroundings known self.old → AreObjects (nodes_of unit.now) surroundings (known ++ node_seen table fact ∷ []) self.new) }
    {
        match fact {
            NodeFact::Declared(declaration) => {
                self.keep_declaration(unit, handle, surrounding, declaration)
            }
            NodeFact::Unknown => Ok(()),
            NodeFact::Expression(_) => Ok(()),
            NodeFact::Specified(_) => Ok(()),
            NodeFact::NamedType(_) => Ok(()),
        }
    }

    fn object_declared(&self, declarator: Handle, declaration: DeclaredFact) -> Handle
        ensures { (table : TypeTable) (nodes : UnitNodes) (surroundings : List around.Surrounding) (known : List facts.Fact) → AreObjects nodes surroundings known self.now → result ≡ meaning.object_declared known declarator (facts.Declared (declared_seen table declaration)) }
    {
        if !declaration.has_linkage {
            return declarator;
        }
        match self.linked.get(&declaration.name) {
            Some(linked) => linked.object,
            None => declarator,
        }
    }

    /// What a declarator declares, among the nodes of which this is known: an object or a function with linkage by its first
    /// declarator, anything else by its own (C11 6.2.2 p2). A handle of another node is its own.
    pub fn object_of(&self, known: &NodeFacts, declarator: Handle) -> Handle
        ensures { (table : TypeTable) (nodes : UnitNodes) (surroundings : List around.Surrounding) → AreObjects nodes surroundings (nodes_seen table known.now) self.now → result ≡ meaning.object_of (nodes_seen table known.now) declarator }
    {
        match known.at(declarator) {
            NodeFact::Declared(declaration) => self.object_declared(declarator, declaration),
            NodeFact::Unknown => declarator,
            NodeFact::Expression(_) => declarator,
            NodeFact::Specified(_) => declarator,
            NodeFact::NamedType(_) => declarator,
        }
    }

    // That of a name with linkage.
    fn note_linked(&self, name: NameId) -> ObjectNote
        ensures { result ≡ note_linked (get same_name self.now.linked name) }
    {
        match self.linked.get(&name) {
            Some(linked) => linked.note,
            None => ObjectNote::none(),
        }
    }

    // That of a declarator without linkage.
    fn note_alone(&self, declarator: Handle) -> ObjectNote
        ensures { result ≡ note_or_none (get same_handle self.now.unlinked declarator) }
    {
        match self.unlinked.get(&declarator) {
            Some(note) => *note,
            None => ObjectNote::none(),
        }
    }

    fn note_declared(&self, declarator: Handle, declaration: DeclaredFact) -> ObjectNote
        ensures { (table : TypeTable) (nodes : UnitNodes) (surroundings : List around.Surrounding) (known : List facts.Fact) → AreObjects nodes surroundings known self.now → facts.fact_at known declarator ≡ facts.Declared (declared_seen table declaration) → result ≡ note_told (carried.contexts_of_object nodes surroundings known declarator) (carried.is_noreturn nodes surroundings known declarator) }
    {
        if declaration.has_linkage {
            return self.note_linked(declaration.name);
        }
        self.note_alone(declarator)
    }

    /// What the declarations of an object or a function come to, among the nodes of which this is known, by any of its declarators:
    /// its contexts, which are those of the first declaration that carries some, and whether some declaration says `noreturn`. A
    /// typedef and a handle of another node have neither.
    pub fn note_of(&self, known: &NodeFacts, declarator: Handle) -> ObjectNote
        ensures { (table : TypeTable) (nodes : UnitNodes) (surroundings : List around.Surrounding) → AreObjects nodes surroundings (nodes_seen table known.now) self.now → result ≡ note_told (carried.contexts_of_object nodes surroundings (nodes_seen table known.now) declarator) (carried.is_noreturn nodes surroundings (nodes_seen table known.now) declarator) }
    {
        match known.at(declarator) {
            NodeFact::Declared(declaration) => self.note_declared(declarator, declaration),
            NodeFact::Unknown => ObjectNote::none(),
            NodeFact::Expression(_) => ObjectNote::none(),
            NodeFact::Specified(_) => ObjectNote::none(),
            NodeFact::NamedType(_) => ObjectNote::none(),
        }
    }
}
