// The row of each operator by what it does with its operands, but for its constant.
ghost use Rattle.std.specs.Prelude.{◌≡◌, ◌<◌, All, IfOk};
ghost use Rattle.meaning_tree.specs.Nodes.{end_of};
ghost use Rattle.meaning_typing.specs.WholeTyping.{whole_operation_row};
ghost use Rattle.decl_judge.specs.Units.{nodes_of};
ghost use Rattle.expr_judge.specs.Rows.{Tells};
ghost use Rattle.member_rows.specs.Aggregates.{aggregates_in};
ghost use Rattle.node_facts.specs.Facts.{IsKnownNodeFact, nodes_seen};
ghost use Rattle.node_surroundings.specs.Seen.{operation_seen};
ghost use Rattle.whole_judge.specs.Known.{AreKnownBodies};
ghost use Rattle.whole_rows.specs.ConstAggregates.{AreConst};

use crate::operators::{binary, compound, size, step_before, step_behind};
use c_tree::{Handle, Unit};
use c_types::Types;
use expr_judge::{
    NodeRow, cast, comma, conditional, expect, logical, not, statement_expression, unary,
};
use node_facts::{NodeFact, NodeFacts};
use node_surroundings::Operation;
use sparse_model::FailureList;
use std::alloc::AllocError;
use whole_rows::ConstAggregates;

/// The row of an operator that does this. Of a node that is none nothing is known.
pub fn row_of_operator(
    unit: &Unit,
    types: &mut Types,
    consts: &ConstAggregates,
    facts: &NodeFacts,
    found: &mut FailureList,
    handle: Handle,
    operation: Operation,
) -> Result<NodeRow, AllocError>
    requires whole { unit.now.first ≡ 0 }
    requires node { handle < end_of unit.now }
    requires ids { All (IsKnownNodeFact types.old) facts.now }
    requires bodies { AreKnownBodies types.old }
    requires consts { AreConst types.old consts.now }
    ensures { IfOk result (λ row. Tells types.old types.new found.old found.new row (whole_operation_row (aggregates_in types.old) (nodes_of unit.now) (nodes_seen types.old facts.now) handle (operation_seen operation))) }
{
    match operation {
        Operation::StepBehind(op) => step_behind(unit, types, consts, facts, found, handle, op),
        Operation::StepBefore(op) => step_before(unit, types, consts, facts, found, handle, op),
        Operation::Unary(op) => unary(unit, types, facts, found, handle, op),
        Operation::Not => not(unit, types, facts, found, handle),
        Operation::Size => size(unit, types, facts, found, handle),
        Operation::Cast => cast(unit, types, facts, found, handle),
        Operation::Binary(op) => binary(unit, types, facts, found, handle, op),
        Operation::Logical(op) => logical(unit, types, facts, found, handle, op),
        Operation::Conditional => conditional(unit, types, facts, found, handle),
        Operation::Compound(op) => compound(unit, types, consts, facts, found, handle, op),
        Operation::Comma => comma(unit, types, facts, found, handle),
        Operation::Expect => expect(unit, types, facts, found, handle),
        Operation::Statements => statement_expression(unit, types, facts, found, handle),
        Operation::Nothing => Ok(NodeRow::known(NodeFact::Unknown)),
    }
}
