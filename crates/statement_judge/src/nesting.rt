// What stands above the nodes of a unit, and which of them stand in one another. Labels and jumps aren't known here.
ghost use Rattle.std.specs.Prelude.{◌≡◌, ◌&&◌, IfOk, List, length};
ghost use Rattle.meaning_statements.specs.Above as above;
ghost use Rattle.meaning_statements.specs.Jumps as jumps;
ghost use Rattle.meaning_tree.specs.Laid.{IsLaid};
ghost use Rattle.meaning_typing.specs.Surroundings.{Surrounding};
ghost use Rattle.meaning_typing.specs.Units.{UnitNodes, kind_at as kind_of};
ghost use Rattle.decl_judge.specs.Units.{nodes_of};
ghost use Rattle.node_surroundings.specs.declared.surrounding.Surrounding.{Surrounding as Kept};
ghost use Rattle.node_surroundings.specs.Seen.{AreSurroundingsOf, surroundings_seen};
ghost use Rattle.statement_judge.specs.Enclosing.{enclosing_at};
ghost use Rattle.statement_judge.specs.Nesting.{IsNestingOf};
ghost use Rattle.statement_judge.specs.Runs.{is_in_run};

use crate::enclosing::{Enclosing, is_statement_expression};
use crate::enclosings::Enclosings;
use crate::pass::enclosings_of;
use crate::runs::{Runs, runs_of};
use c_tree::{Handle, Unit};
use decl_judge::kind_at;
use node_surroundings::Surroundings;
use std::alloc::{AllocError, Global};

/// What stands above each node of a unit, and the run of each.
#[derive(Drop)]
pub struct Nesting {
    pub enclosings: Enclosings,
    pub runs: Runs,
}

impl Nesting {
    /// That of the nodes of a unit. A node costs a few steps.
    ///
    /// # Errors
    /// Want of memory.
    pub fn new(
        alloc: Global,
        unit: &Unit,
        surroundings: &Surroundings,
    ) -> Result<Nesting, AllocError>
        requires whole { unit.now.first ≡ 0 }
        requires surroundings { length surroundings.now ≡ length unit.now.nodes }
        ensures { IfOk result (IsNestingOf (nodes_of unit.now) (surroundings_seen surroundings.now)) }
    {
        let enclosings = enclosings_of(alloc, unit, surroundings)?;
        let runs = runs_of(alloc, unit.len(), surroundings)?;
        Ok(Nesting { enclosings, runs })
    }

    /// What stands above a node.
    pub fn above(&self, handle: Handle) -> Enclosing
        ensures { (nodes : UnitNodes) (surroundings : List Surrounding) → IsNestingOf nodes surroundings self.now → result ≡ enclosing_at nodes surroundings handle }
    {
        self.enclosings.at(handle)
    }

    // Whether a node is a statement expression, and another one stands in it.
    fn is_around(&self, unit: &Unit, expression: Handle, part: Handle) -> bool
        requires { unit.now.first ≡ 0 }
        ensures { result ≡ (above.is_statement_expression (kind_of (nodes_of unit.now) expression) && is_in_run self.now.runs expression part) }
    {
        is_statement_expression(kind_at(unit, expression)) && self.runs.stands_in(expression, part)
    }

    /// Whether a jump at this node leads into a statement expression, where this is the innermost one around its target.
    pub fn leads_into(&self, unit: &Unit, jump: Handle, inside: Option<Handle>) -> bool
        requires whole { unit.now.first ≡ 0 }
        requires laid { IsLaid unit.now }
        ensures { (surroundings : List Kept) → AreSurroundingsOf unit.now surroundings → IsNestingOf (nodes_of unit.now) (surroundings_seen surroundings) self.now → result ≡ above.leads_into (above.expressions_around (nodes_of unit.now) (surroundings_seen surroundings) jump) inside }
    {
        unit.each_node_stands_for_one_tree();
        match inside {
            None => false,
            Some(expression) => !self.is_around(unit, expression, jump),
        }
    }

    /// What a label or a `goto` belongs to, where this function is around it.
    pub fn owner(&self, handle: Handle, function: Option<Handle>) -> Option<Handle>
        ensures { (nodes : UnitNodes) (surroundings : List Surrounding) → IsNestingOf nodes surroundings self.now → jumps.function_left surroundings handle ≡ function → result ≡ jumps.owner_of nodes surroundings handle }
    {
        match function {
            Some(function) => Some(function),
            None => self.above(handle).outermost,
        }
    }
}
