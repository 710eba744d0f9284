// What is kept of declarations while nodes come in their order: what is known of each node goes in, and what rows ask of the nodes
// before theirs comes out. How a row is found isn't known here.
ghost use Rattle.std.specs.Prelude.{◌≡◌, ◌<◌, ◌++◌, ◌∷◌, [], IfOk, List, OnOk, length};
ghost use Rattle.meaning_tree.specs.Nodes.{end_of};
ghost use Rattle.meaning_typing.specs.Declarators.{nothing_told};
ghost use Rattle.meaning_typing.specs.Surroundings.{Surrounding};
ghost use Rattle.meaning_typing.specs.Units.{UnitNodes};
ghost use Rattle.c_types.specs.Layouts.{told_in};
ghost use Rattle.decl_judge.specs.Units.{nodes_of};
ghost use Rattle.node_facts.specs.Facts.{IsKnownNodeFact};
ghost use Rattle.node_facts.specs.Growing.{TypesJoin};
ghost use Rattle.node_surroundings.specs.Seen.{surroundings_seen};
ghost use Rattle.declaration_judge.specs.Kept.{IsKeptOf};

use crate::joining::{carry, link, name_type};
use c_tree::{Handle, Unit};
use c_types::Types;
use declaration_rows::{DefinedNames, TentativeObjects};
use linked_names::{LinkedContexts, LinkedNames, TypedefNames};
use node_facts::{NodeFact, NodeFacts};
use node_surroundings::Surroundings;
use std::alloc::{AllocError, Global};

/// What rows of declarations ask of the nodes that stand before.
#[derive(Drop)]
pub struct Declarations {
    pub types: Types,
    /// What is known of each node, by its handle.
    pub facts: NodeFacts,
    /// The declarations with linkage among them, and the same with their contexts.
    pub linked: LinkedNames,
    pub contexts: LinkedContexts,
    pub typedefs: TypedefNames,
    /// The names with linkage that are defined.
    pub defined: DefinedNames,
    /// The objects whose types have to be complete at the end of the unit.
    pub tentative: TentativeObjects,
}

impl Declarations {
    /// Nothing is known yet, whatever the nodes are and whatever they stand in.
    pub fn new(alloc: Global) -> Result<Declarations, AllocError>
        ensures facts { IfOk result (λ kept. kept.facts ≡ []) }
        ensures layouts { IfOk result (λ kept. told_in kept.types ≡ nothing_told) }
        ensures names { IfOk result (λ kept. kept.types.names ≡ []) }
        ensures kept { IfOk result (λ kept. (nodes : UnitNodes) (surroundings : List Surrounding) → IsKeptOf nodes surroundings kept) }
    {
        Ok(Declarations {
            types: Types::new(alloc)?,
            facts: NodeFacts::new(alloc),
            linked: LinkedNames::new(alloc),
            contexts: LinkedContexts::new(alloc),
            typedefs: TypedefNames::new(alloc),
            defined: DefinedNames::new(alloc),
            tentative: TentativeObjects::new(alloc),
        })
    }

    /// The next node is known, which has this handle: it is kept, and what it declares is kept among the declarations. It takes a
    /// few steps, one for each attribute of the declaration, and one for each part of its type.
    pub fn add(
        &mut self,
        unit: &Unit,
        surroundings: &Surroundings,
        handle: Handle,
        fact: NodeFact,
    ) -> Result<(), AllocError>
        requires whole { unit.now.first ≡ 0 }
        requires node { handle < end_of unit.now }
        requires surroundings { length surroundings.now ≡ length unit.now.nodes }
        requires next { length self.old.facts ≡ handle }
        requires known { IsKnownNodeFact self.old.types fact }
        requires kept { IsKeptOf (nodes_of unit.now) (surroundings_seen surroundings.now) self.old }
        ensures facts { OnOk result (self.new.facts ≡ self.old.facts ++ fact ∷ []) }
        ensures types { OnOk result (TypesJoin self.old.types self.new.types) }
        ensures kept { OnOk result (IsKeptOf (nodes_of unit.now) (surroundings_seen surroundings.now) self.new) }
    {
        let surrounding = surroundings.get(handle);
        self.defined.keep(unit, surrounding, fact)?;
        self.tentative
            .keep(unit, &self.types, handle, surrounding, fact)?;
        name_type(&mut self.typedefs, surrounding.around.scope, fact)?;
        link(&mut self.types, &mut self.linked, fact)?;
        carry(
            unit,
            &mut self.types,
            &mut self.contexts,
            handle,
            surrounding,
            fact,
        )?;
        self.facts.push(fact)?;
        Ok(())
    }
}
