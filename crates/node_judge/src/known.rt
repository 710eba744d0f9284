// What is known of the nodes of a unit while they come in their order: what is known of each node goes in, and what rows ask of the
// nodes before theirs comes out. How a row is found isn't known here.
ghost use Rattle.std.specs.Prelude.{◌≡◌, ◌+◌, ◌++◌, ◌<◌, ◌∷◌, [], IfOk, OnOk, length};
ghost use Rattle.meaning_tree.specs.Laid.{IsLaid};
ghost use Rattle.meaning_tree.specs.Nodes.{end_of};
ghost use Rattle.c_types.specs.Table.{Extends};
ghost use Rattle.decl_judge.specs.Units.{nodes_of};
ghost use Rattle.node_facts.specs.Facts.{IsKnownNodeFact, node_seen};
ghost use Rattle.node_surroundings.specs.Seen.{AreSurroundingsOf, surroundings_seen};
ghost use Rattle.node_judge.specs.Known.{IsKnownOf, facts_seen, table_of};

use crate::bodies::tell_body;
use crate::places::FlexiblePlaces;
use c_tree::{Handle, Unit};
use declaration_judge::Declarations;
use member_names::MemberNames;
use node_facts::NodeFact;
use node_surroundings::Surroundings;
use specifier_judge::{Enumerations, TagsSeen};
use std::alloc::{AllocError, Global};
use whole_rows::ConstAggregates;

/// What rows ask of a unit, and of the nodes that stand before.
#[derive(Drop)]
pub struct Known {
    /// The table of types, what is known of each node, and what is kept of declarations among them.
    pub declarations: Declarations,
    /// The structures and unions with a const member, among those whose bodies the table was told.
    pub consts: ConstAggregates,
    /// What enumerations say of their enumerators.
    pub enumerations: Enumerations,
    /// Which members may be arrays without a length.
    pub places: FlexiblePlaces,
    /// The tags of the unit, and the members whose names are declared twice: of all nodes.
    pub tags: TagsSeen,
    pub names: MemberNames,
}

impl Known {
    /// What is known before the first node. It takes a few steps for each node.
    pub fn new(alloc: Global, unit: &Unit, surroundings: &Surroundings) -> Result<Known, AllocError>
        requires whole { unit.now.first ≡ 0 }
        requires laid { IsLaid unit.now }
        requires surroundings { AreSurroundingsOf unit.now surroundings.now }
        ensures { IfOk result (IsKnownOf (nodes_of unit.now) (surroundings_seen surroundings.now) 0 []) }
    {
        let tags = TagsSeen::of(alloc, unit)?;
        let names = MemberNames::of(alloc, unit, surroundings)?;
        let declarations = Declarations::new(alloc)?;
        Ok(Known {
            declarations,
            consts: ConstAggregates::new(alloc),
            enumerations: Enumerations::new(alloc),
            places: FlexiblePlaces::new(alloc),
            tags,
            names,
        })
    }

    /// The next node is known, which has this handle: what it declares is kept, and the table is told the body of a structure or a
    /// union. It takes a few steps, and one for each part and for each part of its type.
    ///
    /// # Errors
    /// Want of memory. It stands too for a number of more than 32 bits and for a specifier with two bodies, which no unit has that was
    /// read.
    pub fn add(
        &mut self,
        alloc: Global,
        unit: &Unit,
        surroundings: &Surroundings,
        handle: Handle,
        fact: NodeFact,
    ) -> Result<(), AllocError>
        requires whole { unit.now.first ≡ 0 }
        requires node { handle < end_of unit.now }
        requires surroundings { length surroundings.now ≡ length unit.now.nodes }
        requires known { IsKnownOf (nodes_of unit.now) (surroundings_seen surroundings.now) handle (facts_seen self.old) self.old }
        requires ids { IsKnownNodeFact (table_of self.old) fact }
        ensures known { OnOk result (IsKnownOf (nodes_of unit.now) (surroundings_seen surroundings.now) (handle + 1) (facts_seen self.old ++ node_seen (table_of self.old) fact ∷ []) self.new) }
        ensures types { OnOk result (Extends (table_of self.old) (table_of self.new)) }
    {
        unit.each_node_stands_for_one_tree();
        let Known {
            declarations,
            consts,
            enumerations,
            ..
        } = self;
        let Declarations { types, facts, .. } = declarations;
        tell_body(alloc, unit, surroundings, types, facts, consts, handle)?;
        declarations.add(unit, surroundings, handle, fact)?;
        enumerations.add(unit, &declarations.types, &declarations.facts, handle)
    }
}
