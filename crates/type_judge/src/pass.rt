// The pass over a unit, from its first node to its last.
ghost use Rattle.std.specs.Prelude.{◌≡◌, ◌+◌, ◌<◌, [], IfOk, OnOk, length};
ghost use Rattle.meaning_tree.specs.Laid.{IsLaid};
ghost use Rattle.meaning_tree.specs.Nodes.{end_of};
ghost use Rattle.decl_judge.specs.Units.{nodes_of};
ghost use Rattle.node_surroundings.specs.Seen.{AreSurroundingsOf, surroundings_seen};
ghost use Rattle.statement_judge.specs.Later.{SwitchValuesStandBefore};
ghost use Rattle.node_judge.specs.Known.{table_of};
ghost use Rattle.type_judge.specs.Judging.{IsEnded, IsPassOver};

use crate::keeping::keep;
use crate::least::lowest;
use crate::order::switch_values_stand_before;
use crate::rows::judge_row;
use c_tree::{Handle, Unit};
use expression_rows::{Broken, lesser};
use failure_listing::in_order;
use judged_objects::{JudgedObjects, objects_of};
use node_judge::{Known, name_types};
use node_surroundings::Surroundings;
use sparse_model::FailureList;
use statement_judge::Statements;
use std::alloc::{AllocError, Global};

/// What is known and kept of a unit so far, what fails in it, and the least of what it breaks and passes.
#[derive(Drop)]
pub struct Pass {
    pub known: Known,
    /// The labels and jumps among the nodes, and what stands above each.
    pub statements: Statements,
    /// The failures, in the order of the nodes.
    pub found: FailureList,
    pub broken: Option<Broken>,
    /// The least token at which the limit of the size of an object is passed.
    pub passed: Option<u32>,
}

/// What is told of a unit in the end besides what is known of its nodes.
#[derive(Drop)]
pub struct Ending {
    pub failures: FailureList,
    pub objects: JudgedObjects,
}

impl Pass {
    // Before the first node.
    fn new(alloc: Global, unit: &Unit, surroundings: &Surroundings) -> Result<Pass, AllocError>
        requires whole { unit.now.first ≡ 0 }
        requires laid { IsLaid unit.now }
        requires surroundings { AreSurroundingsOf unit.now surroundings.now }
        requires all { length surroundings.now ≡ length unit.now.nodes }
        ensures { IfOk result (IsPassOver (nodes_of unit.now) (surroundings_seen surroundings.now) 0) }
    {
        let known = Known::new(alloc, unit, surroundings)?;
        let statements = Statements::new(alloc, unit, surroundings)?;
        Ok(Pass {
            known,
            statements,
            found: FailureList::new(alloc),
            broken: None,
            passed: None,
        })
    }

    // Judges the next node, and keeps it.
    fn judge_next(
        &mut self,
        alloc: Global,
        unit: &Unit,
        surroundings: &Surroundings,
        handle: Handle,
    ) -> Result<(), AllocError>
        requires whole { unit.now.first ≡ 0 }
        requires laid { IsLaid unit.now }
        requires node { handle < end_of unit.now }
        requires surroundings { AreSurroundingsOf unit.now surroundings.now }
        requires all { length surroundings.now ≡ length unit.now.nodes }
        requires order { SwitchValuesStandBefore (nodes_of unit.now) (surroundings_seen surroundings.now) }
        requires before { IsPassOver (nodes_of unit.now) (surroundings_seen surroundings.now) handle self.old }
        ensures { OnOk result (IsPassOver (nodes_of unit.now) (surroundings_seen surroundings.now) (handle + 1) self.new) }
    {
        let Pass {
            known,
            statements,
            found,
            ..
        } = self;
        let row = judge_row(alloc, unit, surroundings, known, statements, found, handle)?;
        keep(
            alloc,
            unit,
            surroundings,
            known,
            statements,
            handle,
            row.fact,
        )?;
        self.broken = lesser(self.broken, row.broken);
        self.passed = lowest(self.passed, row.passed);
        Ok(())
    }

    // Judges all nodes, one behind another.
    fn judge_all(
        &mut self,
        alloc: Global,
        unit: &Unit,
        surroundings: &Surroundings,
    ) -> Result<(), AllocError>
        requires whole { unit.now.first ≡ 0 }
        requires laid { IsLaid unit.now }
        requires surroundings { AreSurroundingsOf unit.now surroundings.now }
        requires all { length surroundings.now ≡ length unit.now.nodes }
        requires order { SwitchValuesStandBefore (nodes_of unit.now) (surroundings_seen surroundings.now) }
        requires before { IsPassOver (nodes_of unit.now) (surroundings_seen surroundings.now) 0 self.old }
        ensures { OnOk result (IsPassOver (nodes_of unit.now) (surroundings_seen surroundings.now) (length unit.now.nodes) self.new) }
    {
        for handle in 0..unit.len() {
            self.judge_next(alloc, unit, surroundings, handle)?;
        }
        Ok(())
    }

    /// Tells the names of the types that are known, lists all failures by token, rule and part, each once, and gathers what the
    /// declarations of each object come to.
    ///
    /// # Errors
    /// Want of memory. It stands too for a number of more than 32 bits, which no specifier has that was read, and for contexts whose
    /// sum doesn't fit in 63 bits.
    pub fn end(
        &mut self,
        alloc: Global,
        unit: &Unit,
        surroundings: &Surroundings,
    ) -> Result<Ending, AllocError>
        requires whole { unit.now.first ≡ 0 }
        requires all { length surroundings.now ≡ length unit.now.nodes }
        requires known { length self.old.known.declarations.facts ≡ length unit.now.nodes }
        requires none { (table_of self.old.known).names ≡ [] }
        ensures { IfOk result (IsEnded (nodes_of unit.now) (surroundings_seen surroundings.now) self.old self.new) }
    {
        name_types(unit, surroundings, &mut self.known.declarations.types)?;
        let objects = objects_of(alloc, unit, surroundings, &self.known.declarations.facts)?;
        let failures = in_order(alloc, &self.found)?;
        Ok(Ending { failures, objects })
    }
}

/// Judges the nodes of a unit, which stand in this.
///
/// # Errors
/// Want of memory. It stands too for a switch whose value isn't written before its body, which no unit has that was read.
pub fn judge_nodes(
    alloc: Global,
    unit: &Unit,
    surroundings: &Surroundings,
) -> Result<Pass, AllocError>
    requires whole { unit.now.first ≡ 0 }
    requires laid { IsLaid unit.now }
    requires surroundings { AreSurroundingsOf unit.now surroundings.now }
    requires all { length surroundings.now ≡ length unit.now.nodes }
    ensures { IfOk result (IsPassOver (nodes_of unit.now) (surroundings_seen surroundings.now) (length unit.now.nodes)) }
{
    let mut pass = Pass::new(alloc, unit, surroundings)?;
    if !switch_values_stand_before(unit, &pass.statements.nesting) {
        drop(pass);
        return Err(AllocError);
    }
    match pass.judge_all(alloc, unit, surroundings) {
        Ok(()) => Ok(pass),
        Err(fault) => {
            drop(pass);
            Err(fault)
        }
    }
}
