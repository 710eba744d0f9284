// What is kept of labels and jumps while nodes come in their order: a node goes in, and what rows ask of the nodes before theirs comes out.
// How a row is found isn't known here.
ghost use Rattle.std.specs.Prelude.{◌≡◌, ◌+◌, ◌<◌, All, IfOk, List, OnOk, length};
ghost use Rattle.meaning_tree.specs.Laid.{IsLaid};
ghost use Rattle.meaning_tree.specs.Nodes.{end_of};
ghost use Rattle.meaning_typing.specs.Facts.{Fact};
ghost use Rattle.decl_judge.specs.Units.{nodes_of};
ghost use Rattle.node_facts.specs.Facts.{IsKnownNodeFact, nodes_seen};
ghost use Rattle.node_facts.specs.Growing.{TypesJoin};
ghost use Rattle.node_surroundings.specs.Seen.{surroundings_seen};
ghost use Rattle.statement_judge.specs.Later.{SwitchValuesStandBefore};
ghost use Rattle.statement_judge.specs.Statements.{IsKeptOf};

use crate::gotos::Gotos;
use crate::keeping::{keep_goto, keep_label, keep_switch_label};
use crate::nesting::Nesting;
use c_tree::{Handle, Unit};
use c_types::Types;
use decl_judge::kind_at;
use node_facts::NodeFacts;
use node_surroundings::Surroundings;
use statement_rows::{FunctionLabels, SwitchLabels};
use std::alloc::{AllocError, Global};

/// What rows of statements ask of the nodes around them and before them.
#[derive(Drop)]
pub struct Statements {
    pub nesting: Nesting,
    pub switch_labels: SwitchLabels,
    pub labels: FunctionLabels,
    pub gotos: Gotos,
}

impl Statements {
    /// No label and no `goto` was read yet. A node costs a few steps.
    ///
    /// # Errors
    /// Want of memory.
    pub fn new(
        alloc: Global,
        unit: &Unit,
        surroundings: &Surroundings,
    ) -> Result<Statements, AllocError>
        requires whole { unit.now.first ≡ 0 }
        requires surroundings { length surroundings.now ≡ length unit.now.nodes }
        ensures { IfOk result (λ kept. (facts : List Fact) → IsKeptOf (nodes_of unit.now) (surroundings_seen surroundings.now) facts 0 kept) }
    {
        Ok(Statements {
            nesting: Nesting::new(alloc, unit, surroundings)?,
            switch_labels: SwitchLabels::new(alloc),
            labels: FunctionLabels::new(alloc),
            gotos: Gotos::new(alloc),
        })
    }

    /// Takes in the node with this handle, the next one. It takes a few steps.
    pub fn add(
        &mut self,
        unit: &Unit,
        surroundings: &Surroundings,
        types: &mut Types,
        facts: &NodeFacts,
        handle: Handle,
    ) -> Result<(), AllocError>
        requires whole { unit.now.first ≡ 0 }
        requires node { handle < end_of unit.now }
        requires laid { IsLaid unit.now }
        requires surroundings { length surroundings.now ≡ length unit.now.nodes }
        requires ids { All (IsKnownNodeFact types.old) facts.now }
        requires next { length facts.now ≡ handle }
        requires order { SwitchValuesStandBefore (nodes_of unit.now) (surroundings_seen surroundings.now) }
        requires kept { IsKeptOf (nodes_of unit.now) (surroundings_seen surroundings.now) (nodes_seen types.old facts.now) handle self.old }
        ensures types { OnOk result (TypesJoin types.old types.new) }
        ensures kept { OnOk result (IsKeptOf (nodes_of unit.now) (surroundings_seen surroundings.now) (nodes_seen types.new facts.now) (handle + 1) self.new) }
    {
        unit.each_node_stands_for_one_tree();
        let kind = kind_at(unit, handle);
        let above = self.nesting.above(handle);
        let function = surroundings.get(handle).around.function;
        let owner = self.nesting.owner(handle, function);
        keep_switch_label(
            unit,
            types,
            facts,
            &mut self.switch_labels,
            handle,
            kind,
            above.switch,
        )?;
        keep_label(unit, &mut self.labels, handle, kind, owner, above.innermost)?;
        keep_goto(unit, &mut self.gotos, handle, kind, owner)?;
        Ok(())
    }
}
